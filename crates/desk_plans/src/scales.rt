//! The scale of the quantity that a shortage misses.
ghost use Rattle.std.specs.Prelude.{◌≡◌, ◌-◌, Some, option_and_then, slice_get};
ghost use Rattle.std.specs.Option.{option_copied};
ghost use Rattle.rule_lang.specs.declared.statement.Statement.{Statement as StatementOf};
ghost use Rattle.post_model.specs.Yields.{statements_for};
ghost use Rattle.desk_model.specs.DocumentSets.{resource_at as resource_of};
ghost use Rattle.desk_model.specs.DocumentSets.{quantity_scale as quantity_scale_of};
ghost use Rattle.desk_model.specs.DocumentSets.{rule_scale as rule_scale_of};
ghost use Rattle.desk_model.specs.DocumentSets.{fault_scale as fault_scale_of};

use cfg_model::{Config, Resource};
use reg_base::{Doc, PostFault, Scale};
use rule_lang::{Act, Rules, Statement};

// The scale of the quantity that is missing, where the fault is a shortage.
pub(crate) fn fault_scale(
    config: &Config,
    rules: &Rules,
    doc: &Doc,
    fault: &PostFault,
) -> Option<Scale>
    ensures { result ≡ fault_scale_of (record { config = config.now; rules = rules.now })
        doc.now fault.now }
{
    match fault {
        PostFault::Shortage { rule, .. } => rule_scale(config, rules, doc, *rule),
        _ => None,
    }
}

// The scale of the quantity of a rule, by the rule's number from 1, and 0 where it has none.
fn rule_scale(config: &Config, rules: &Rules, doc: &Doc, rule: u32) -> Option<Scale>
    ensures { result ≡ Some (rule_scale_of (record { config = config.now; rules = rules.now })
        doc.now rule) }
{
    match written_off_scale(config, rules, doc, rule) {
        Some(scale) => Some(scale),
        None => Scale::new(0),
    }
}

// The scale of the quantity that a rule writes off.
fn written_off_scale(config: &Config, rules: &Rules, doc: &Doc, rule: u32) -> Option<Scale>
    ensures { result ≡ option_and_then (λ (s : StatementOf). quantity_scale_of config.now s.act)
        (slice_get (statements_for rules.now doc.now) (rule - 1)) }
{
    let statement = statement_of(rules, doc, rule)?;
    quantity_scale(config, &statement.act)
}

// The statement of a document's type that has a number from 1.
fn statement_of<'a>(rules: &'a Rules, doc: &Doc, rule: u32) -> Option<&'a Statement>
    ensures { option_copied result ≡ slice_get (statements_for rules.now doc.now) (rule - 1) }
{
    let kind = doc.kind?;
    let statements = rules.kinds.get(usize::from(kind))?;
    statements.get(rule.saturating_sub(1) as usize)
}

// The scale of the quantity that an act writes off.
fn quantity_scale(config: &Config, act: &Act) -> Option<Scale>
    ensures { result ≡ quantity_scale_of config.now act.now }
{
    let Act::WriteOff {
        register,
        quantity,
        ..
    } = act
    else {
        return None;
    };
    let resource = resource_at(config, *register, *quantity)?;
    Some(resource.scale)
}

// The resource at a place of a register.
fn resource_at(config: &Config, register: u8, resource: u8) -> Option<&Resource>
    ensures { option_copied result ≡ resource_of config.now register resource }
{
    let register = config.registers.get(usize::from(register))?;
    register.resources.get(usize::from(resource))
}
