//! The rules of a configuration, read from the texts of its document types.
ghost use Rattle.std.specs.Prelude.{◌≡◌, None, Ok};
ghost use Rattle.reg_base.specs.Results.{Gives, GivesAs};
ghost use Rattle.rule_lang.specs.Rules.{is_control as is_control_act, scope_fits as scope_fits_in};
ghost use Rattle.rule_lang.specs.Rules.{resolved_when as when_in, last_fits as last_fits_in};
ghost use Rattle.rule_lang.specs.Rules.{statement_if_fit as finished_in};
ghost use Rattle.rule_lang.specs.Rules.{resolved_statement_in as statement_in_round};
ghost use Rattle.rule_lang.specs.Rules.{resolved_statement as statement_read};
ghost use Rattle.rule_lang.specs.Rules.{statements_from as statements_in};
ghost use Rattle.rule_lang.specs.Rules.{fault_in_kind as fault_in, read_for as read_in};
ghost use Rattle.rule_lang.specs.Rules.{kind_rules as kind_rules_in, rules_of};
ghost use Rattle.rule_lang.specs.declared.fault.RuleFault.TheVariants.{Memory as WantOfMemory};
ghost use Rattle.rule_text.specs.Sentences.{statements_of};
ghost use Rattle.rule_lang.specs.Resolves.{Resolves};

use crate::acts::resolved_act;
use crate::conditions::resolved_cond;
use crate::costs::{Costs, costs_after, round_of};
use crate::least::{beside, both};
use crate::sequences::keeps_sequences;
use crate::terms::Round;
use crate::tried::{StatementFault, Tried};
use crate::{Act, Cond, RuleFault, RuleWhy, Statement};
use cfg_model::{Config, Kind};
use reg_base::List;
use rule_text::{PlainAct, PlainCond, PlainStatement, TextFault, parse};
use std::alloc::Global;

/// How many statements a type has at the most.
pub const STATEMENT_LIMIT: usize = 64;

/// The statements of each document type, in the order of types.
#[derive(Drop)]
pub struct Rules {
    pub kinds: List<List<Statement>>,
}

impl Rules {
    /// The rules of a configuration, or their first fault.
    #[tactic(auto, unfolding(crate::specs::Rules::rules_of), using(crate::proofs::RuleLemmas::kinds))]
    pub fn read(alloc: Global, config: &Config) -> Result<Rules, RuleFault>
        ensures { GivesAs WantOfMemory (λ rules. rules.kinds) result (rules_of config.now) }
    {
        let mut rules = Vec::new(alloc);
        'kinds: for kind in config.kinds.as_slice() {
            let statements = kind_rules(alloc, config, kind)?;
            rules.push(statements)?;
        }
        Ok(Rules {
            kinds: List::from_vec(rules),
        })
    }
}

// What the text of a type says.
fn read_plain(alloc: Global, kind: &Kind) -> Result<List<PlainStatement>, RuleFault>
    ensures { Gives WantOfMemory result (read_in kind.now (statements_of kind.now.rules)) }
{
    match parse(alloc, kind.rules.as_str()) {
        Ok(plains) => Ok(plains),
        Err(TextFault::Syntax(place)) => Err(RuleFault::Wrong {
            kind: kind.name,
            place,
            why: RuleWhy::Syntax,
        }),
        Err(TextFault::Memory) => Err(RuleFault::Memory),
    }
}

// The statements of a type: its text is read whole before the first of them is looked at.
#[tactic(auto, unfolding(crate::specs::Rules::kind_rules))]
fn kind_rules(alloc: Global, config: &Config, kind: &Kind) -> Result<List<Statement>, RuleFault>
    ensures { Gives WantOfMemory result (kind_rules_in config.now kind.now) }
{
    let plains = read_plain(alloc, kind)?;
    statements_of_kind(alloc, config, kind, plains.as_slice())
}

// The statements of a type, or the first that is wrong.
#[tactic(auto, using(crate::proofs::RuleLemmas::statements))]
fn statements_of_kind(
    alloc: Global,
    config: &Config,
    kind: &Kind,
    plains: &[PlainStatement],
) -> Result<List<Statement>, RuleFault>
    ensures { Gives WantOfMemory result (statements_in config.now kind.now
        (record { once = None; each = None }) 0 plains.now) }
{
    let mut statements = Vec::new(alloc);
    let mut costs = Costs {
        once: None,
        each: None,
    };
    'plains: for (before, plain) in plains.iter().enumerate() {
        let statement = statement_at(alloc, config, kind, &costs, before, plain)?;
        costs = costs_after(config, &costs, statement.each, &statement.act);
        statements.push(statement)?;
    }
    Ok(List::from_vec(statements))
}

// A statement, or its fault at its first byte.
fn statement_at(
    alloc: Global,
    config: &Config,
    kind: &Kind,
    costs: &Costs,
    before: usize,
    plain: &PlainStatement,
) -> Result<Statement, RuleFault>
    ensures { Gives WantOfMemory result (fault_in kind.now plain.now.place
        (statement_read config.now kind.now costs.now before plain.now)) }
{
    match resolved_statement(alloc, config, kind, costs, before, plain) {
        Ok(statement) => Ok(statement),
        Err(StatementFault::Wrong(why)) => Err(RuleFault::Wrong {
            kind: kind.name,
            place: plain.place,
            why,
        }),
        Err(StatementFault::Memory) => Err(RuleFault::Memory),
    }
}

fn is_control(act: &PlainAct) -> bool
    ensures { result ≡ is_control_act act.now }
{
    match act {
        PlainAct::Control { .. } => true,
        _ => false,
    }
}

// A control has no scope and no condition.
#[tactic(auto, unfolding(crate::specs::Rules::scope_fits))]
fn scope_fits(plain: &PlainStatement) -> Result<(), RuleWhy>
    ensures { result ≡ scope_fits_in plain.now }
{
    if is_control(&plain.act) && (plain.scope.is_some() || plain.when.is_some()) {
        return Err(RuleWhy::WrongScope);
    }
    Ok(())
}

// A condition, where there is one.
#[tactic(auto, unfolding(crate::specs::Rules::resolved_when))]
fn resolved_when(
    alloc: Global,
    kind: &Kind,
    round: &Round,
    plain: &Option<PlainCond>,
) -> Tried<Option<Cond>>
    ensures { Resolves result (when_in kind.now round.now plain.now) }
{
    match plain {
        None => Ok(None),
        Some(plain) => Ok(Some(resolved_cond(alloc, kind, round, plain)?)),
    }
}

// A statement that so many are before.
#[tactic(auto, unfolding(crate::specs::Rules::resolved_statement))]
fn resolved_statement(
    alloc: Global,
    config: &Config,
    kind: &Kind,
    costs: &Costs,
    before: usize,
    plain: &PlainStatement,
) -> Tried<Statement>
    ensures { Resolves result (statement_read config.now kind.now costs.now before
        plain.now) }
{
    let round = round_of(costs, &plain.scope);
    resolved_statement_in(alloc, config, kind, &round, before, plain)
}

// A statement in its round, that so many are before.
#[tactic(auto, unfolding(crate::specs::Rules::resolved_statement_in, crate::specs::Rules::statement_if_fit))]
fn resolved_statement_in(
    alloc: Global,
    config: &Config,
    kind: &Kind,
    round: &Round,
    before: usize,
    plain: &PlainStatement,
) -> Tried<Statement>
    ensures { Resolves result (statement_in_round config.now kind.now round.now
        before plain.now) }
{
    let act = resolved_act(alloc, config, kind, round, &plain.act);
    let when = resolved_when(alloc, kind, round, &plain.when);
    let (act, when) = beside(scope_fits(plain), both(act, when))?;
    statement_if_fit(config, kind, before, round.each, act, when)
}

// A statement of its parts, that so many are before.
#[tactic(auto, unfolding(crate::specs::Rules::statement_if_fit))]
fn statement_if_fit(
    config: &Config,
    kind: &Kind,
    before: usize,
    each: bool,
    act: Act,
    when: Option<Cond>,
) -> Tried<Statement>
    ensures { Resolves result (finished_in config.now kind.now before each (Ok (act, when))) }
{
    last_fits(config, kind, before, &act)?;
    Ok(Statement { each, act, when })
}

// Not too many are before, and the sequences are kept.
#[tactic(auto, unfolding(crate::specs::Rules::last_fits))]
fn last_fits(config: &Config, kind: &Kind, before: usize, act: &Act) -> Result<(), RuleWhy>
    ensures { result ≡ last_fits_in config.now kind.now before act.now }
{
    if before >= STATEMENT_LIMIT {
        return Err(RuleWhy::TooMany);
    }
    if !keeps_sequences(config, kind, act) {
        return Err(RuleWhy::SequenceUnbound);
    }
    Ok(())
}
