//! What is asked of a register or of a ledger: the one of a name, its filter and its group, its
//! account.
ghost use Rattle.std.specs.Prelude.{◌≡◌, Result, Option, List, ℕ};
ghost use Rattle.reg_base.specs.declared.fault.TableFault.{TableFault as FaultOf};
ghost use Rattle.reg_base.specs.Tries.{Tries, TriesAs};
ghost use Rattle.cfg_model.specs.Limits.{IsWithinLimits};
ghost use Rattle.desk_model.specs.LedgerQuestions.{has_asked_account as has_account_of};
ghost use Rattle.desk_tables.specs.Asked.{asking_of, asking_ledger, asking_view, ledger_view};
ghost use Rattle.desk_tables.specs.Asked.{has_one as has_one_of, refused as refused_of};

use crate::lists::asked_lists;
use cfg_model::{Chart, Config, Register};
use desk_plans::{PartFault, Tried, wrong};
use desk_words::{AskedRegister, Field, Refusal};
use reg_base::{Code, Fault, Name, TableFault};
use std::alloc::Global;
use virt_tables::Ask;

/// What is asked of a register, with the register.
#[derive(Drop)]
pub(crate) struct Asking<'a> {
    pub ask: Ask,
    pub register: &'a Register,
}

/// The ledger that is asked, with its chart.
#[derive(Drop)]
pub(crate) struct AskingLedger<'a> {
    pub place: usize,
    pub chart: &'a Chart,
}

// What is asked of a register; where balances alone are asked for, it has to keep them.
#[tactic(auto, unfolding(crate::specs::Asked::asking_of))]
pub(crate) fn register_asked<'a>(
    alloc: Global,
    config: &'a Config,
    asked: &AskedRegister,
    balances_alone: bool,
) -> Tried<Asking<'a>>
    requires { IsWithinLimits config.now }
    ensures { TriesAs asking_view result (asking_of config.now asked.now balances_alone) }
{
    let Some(place) = config.register_place(&asked.name) else {
        return Err(wrong(Field::Register));
    };
    let Some(register) = config.registers.get(place) else {
        return Err(wrong(Field::Register));
    };
    if !has_one(balances_alone, register) {
        return Err(wrong(Field::Register));
    }
    let lists = asked_lists(alloc, register, &asked.filter)?;
    let ask = refused(Ask::new(alloc, register, place, lists, &asked.group))?;
    Ok(Asking { ask, register })
}

// Whether a register has a table: all have, or those with balances.
fn has_one(balances_alone: bool, register: &Register) -> bool
    ensures { result ≡ has_one_of balances_alone register.now }
{
    if balances_alone {
        register.balance
    } else {
        true
    }
}

// The ledger of a name, where it has the account that is asked for.
#[tactic(auto, unfolding(crate::specs::Asked::asking_ledger))]
pub(crate) fn ledger_asked<'a>(
    config: &'a Config,
    ledger: &Name,
    account: &Option<Code>,
) -> Tried<AskingLedger<'a>>
    ensures { TriesAs ledger_view result (asking_ledger config.now ledger.now account.now) }
{
    let Some(place) = config.ledger_place(ledger) else {
        return Err(wrong(Field::Ledger));
    };
    let Some(chart) = config.ledgers.get(place) else {
        return Err(wrong(Field::Ledger));
    };
    if !has_asked_account(chart, account) {
        return Err(wrong(Field::Account));
    }
    Ok(AskingLedger { place, chart })
}

// Whether the chart has the account, where one is asked for.
fn has_asked_account(chart: &Chart, account: &Option<Code>) -> bool
    ensures { result ≡ has_account_of chart.now account.now }
{
    match account {
        Some(code) => chart.account(code).is_some(),
        None => true,
    }
}

// A table, or the refusal that it is not made.
pub(crate) fn refused<R: Drop>(tried: Result<R, Fault<TableFault>>) -> Tried<R>
    ensures { (definition : Result R FaultOf) → Tries tried definition
        → Tries result (refused_of definition) }
{
    match tried {
        Ok(rows) => Ok(rows),
        Err(Fault::Refused(fault)) => Err(PartFault::Refused(Refusal::Table { fault })),
        Err(Fault::Memory) => Err(PartFault::Memory),
    }
}
