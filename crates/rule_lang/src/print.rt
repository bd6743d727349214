//! The canonical text of rules.
ghost use Rattle.std.specs.Prelude.{◌≡◌, ◌<◌, ◌++◌, IfOk, OnOk, OnErr, List, Some, length};
ghost use Rattle.std.specs.Prelude.{slice_get, string_bytes};
ghost use Rattle.cfg_model.specs.declared.kind.Kind.{Kind};
ghost use Rattle.rule_lang.specs.declared.statement.Statement.{Statement};
ghost use Rattle.rule_lang.specs.RuleTexts.{scope_text as scope_text_of};
ghost use Rattle.rule_lang.specs.RuleTexts.{statement_text as statement_text_of};
ghost use Rattle.rule_lang.specs.RuleTexts.{cost_of as cost_of_scope, rules_text as rules_text_of};

use crate::act_texts::act_text;
use crate::costs::{Costs, costs_after};
use crate::term_texts::when_text;
use crate::{Act, Rules, Statement};
use cfg_model::{Config, Kind};
use reg_base::{Memory, Scale};
use std::alloc::Global;

impl Rules {
    /// Appends the canonical text of the statements of the document type at the place, each on a
    /// line of its own.
    pub fn print(
        &self,
        alloc: Global,
        config: &Config,
        kind: u8,
        out: &mut Vec<u8>,
    ) -> Result<(), Memory>
        requires known { kind < length config.now.kinds }
        requires read { kind < length self.now.kinds }
        ensures ok { (of : Kind) (statements : List Statement)
            → slice_get config.now.kinds kind ≡ Some of
            → slice_get self.now.kinds kind ≡ Some statements
            → OnOk result (out.new.items
            ≡ out.old.items ++ rules_text_of config.now of statements) }
        ensures err { OnErr result (out.new.items ≡ out.old.items) }
    {
        let of = &config.kinds.as_slice()[usize::from(kind)];
        let statements = &self.kinds.as_slice()[usize::from(kind)];
        let text = rules_text(alloc, config, of, statements.as_slice())?;
        out.extend_from_slice(text.as_bytes())?;
        Ok(())
    }
}

// The statements of a type, one behind another.
#[tactic(auto, using(crate::proofs::PrintLemmas::statements), unfolding(crate::specs::RuleTexts::rules_text))]
fn rules_text(
    alloc: Global,
    config: &Config,
    kind: &Kind,
    statements: &[Statement],
) -> Result<String, Memory>
    ensures { IfOk result
        (λ t. string_bytes t ≡ rules_text_of config.now kind.now statements.now) }
{
    let mut text = String::new(alloc);
    let mut costs = Costs {
        once: None,
        each: None,
    };
    'statements: for statement in statements {
        let line = statement_text(alloc, config, kind, &costs, statement)?;
        text.push_str(line.as_str())?;
        costs = costs_after(config, &costs, statement.each, &statement.act);
    }
    Ok(text)
}

// A statement behind those that left these costs.
#[tactic(auto, unfolding(crate::specs::RuleTexts::statement_text))]
fn statement_text(
    alloc: Global,
    config: &Config,
    kind: &Kind,
    costs: &Costs,
    statement: &Statement,
) -> Result<String, Memory>
    ensures { IfOk result (λ t. string_bytes t ≡ statement_text_of config.now kind.now
        (cost_of_scope costs.now statement.now.each) statement.now) }
{
    let scope = scope_text(statement.each, &statement.act);
    let act = act_text(alloc, config, kind, &statement.act)?;
    let cost = cost_of(costs, statement.each);
    let when = when_text(alloc, kind, &cost, &statement.when)?;
    Ok(format!(in alloc; "{scope}{act}{when};\n")?)
}

// The scope, which a control has not.
#[tactic(auto, unfolding(crate::specs::RuleTexts::scope_text))]
fn scope_text(each: bool, act: &Act) -> &'static str
    ensures { result.now ≡ scope_text_of each act.now }
{
    match act {
        Act::Control { .. } => "",
        _ => { if each { "each line " } else { "once " } }
    }
}

// The scale of the latest write-off of a scope.
fn cost_of(costs: &Costs, each: bool) -> Option<Scale>
    ensures { result ≡ cost_of_scope costs.now each }
{
    if each { costs.each } else { costs.once }
}
