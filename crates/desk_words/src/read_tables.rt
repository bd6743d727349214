//! Each request for a table from its members, read in their order.
ghost use Rattle.serde_json.specs.View.{members_view};
ghost use Rattle.reg_base.specs.Results.{Gives};
ghost use Rattle.desk_words.specs.declared.fault.WordFault.TheVariants.{Memory};
ghost use Rattle.desk_words.specs.ReadTables.{asked_register, asked_accounts, asked_dates};
ghost use Rattle.desk_words.specs.ReadTables.{balance_request, turnovers_request, both_request};
ghost use Rattle.desk_words.specs.ReadTables.{account_balance_request, dr_cr_request};
ghost use Rattle.desk_words.specs.ReadTables.{account_turnovers_request, documents_question};

use crate::fault::{Member, WordFault};
use crate::parsed::Object;
use crate::request::Balance;
use crate::shapes::{read_date_end, read_member, read_optional};
use crate::table_shapes::read_account_by;
use crate::tables::{
    AccountBalance, AccountTurnovers, AskedAccounts, AskedDates, AskedRegister, Both,
    DocumentsQuestion, DrCr, Turnovers,
};
use std::alloc::Global;

#[tactic(auto, unfolding(crate::specs::ReadTables::asked_register))]
fn asked_register(alloc: Global, object: &Object) -> Result<AskedRegister, WordFault>
    ensures { Gives Memory result (asked_register (members_view object.now.entries)) }
{
    let name = read_member(alloc, Member::Register, object)?;
    let filter = read_optional(alloc, Member::Filter, object)?;
    let group = read_optional(alloc, Member::Group, object)?;
    Ok(AskedRegister {
        name,
        filter,
        group,
    })
}

#[tactic(auto, unfolding(crate::specs::ReadTables::asked_accounts))]
fn asked_accounts(alloc: Global, object: &Object) -> Result<AskedAccounts, WordFault>
    ensures { Gives Memory result (asked_accounts (members_view object.now.entries)) }
{
    let ledger = read_member(alloc, Member::Ledger, object)?;
    let account = read_optional(alloc, Member::Account, object)?;
    let extras = read_optional(alloc, Member::Extras, object)?;
    Ok(AskedAccounts {
        ledger,
        account,
        extras,
    })
}

// A day alone is its first second where the dates begin, and its last where they end.
#[tactic(auto, unfolding(crate::specs::ReadTables::asked_dates))]
fn asked_dates(alloc: Global, object: &Object) -> Result<AskedDates, WordFault>
    ensures { Gives Memory result (asked_dates (members_view object.now.entries)) }
{
    let from = read_optional(alloc, Member::From, object)?;
    let to = read_date_end(Member::To, object)?;
    Ok(AskedDates { from, to })
}

#[tactic(auto, unfolding(crate::specs::ReadTables::balance_request))]
pub(crate) fn balance_request(alloc: Global, object: &Object) -> Result<Balance, WordFault>
    ensures { Gives Memory result (balance_request (members_view object.now.entries)) }
{
    let clerk = read_member(alloc, Member::Clerk, object)?;
    let register = asked_register(alloc, object)?;
    let cut = read_optional(alloc, Member::Cut, object)?;
    Ok(Balance {
        clerk,
        register,
        cut,
        tx: None,
    })
}

#[tactic(auto, unfolding(crate::specs::ReadTables::turnovers_request))]
pub(crate) fn turnovers_request(alloc: Global, object: &Object) -> Result<Turnovers, WordFault>
    ensures { Gives Memory result (turnovers_request (members_view object.now.entries)) }
{
    let clerk = read_member(alloc, Member::Clerk, object)?;
    let register = asked_register(alloc, object)?;
    let dates = asked_dates(alloc, object)?;
    let by = read_optional(alloc, Member::By, object)?;
    Ok(Turnovers {
        clerk,
        register,
        dates,
        by,
        tx: None,
    })
}

#[tactic(auto, unfolding(crate::specs::ReadTables::both_request))]
pub(crate) fn both_request(alloc: Global, object: &Object) -> Result<Both, WordFault>
    ensures { Gives Memory result (both_request (members_view object.now.entries)) }
{
    let turnovers = turnovers_request(alloc, object)?;
    let method = read_optional(alloc, Member::Method, object)?;
    Ok(Both { turnovers, method })
}

#[tactic(auto, unfolding(crate::specs::ReadTables::account_balance_request))]
pub(crate) fn account_balance_request(
    alloc: Global,
    object: &Object,
) -> Result<AccountBalance, WordFault>
    ensures { Gives Memory result (account_balance_request (members_view object.now.entries)) }
{
    let clerk = read_member(alloc, Member::Clerk, object)?;
    let accounts = asked_accounts(alloc, object)?;
    let cut = read_optional(alloc, Member::Cut, object)?;
    Ok(AccountBalance {
        clerk,
        accounts,
        cut,
        tx: None,
    })
}

#[tactic(auto, unfolding(crate::specs::ReadTables::account_turnovers_request))]
pub(crate) fn account_turnovers_request(
    alloc: Global,
    object: &Object,
) -> Result<AccountTurnovers, WordFault>
    ensures { Gives Memory result (account_turnovers_request (members_view object.now.entries)) }
{
    let clerk = read_member(alloc, Member::Clerk, object)?;
    let accounts = asked_accounts(alloc, object)?;
    let dates = asked_dates(alloc, object)?;
    let by = read_account_by(Member::By, object)?;
    Ok(AccountTurnovers {
        clerk,
        accounts,
        dates,
        by,
        tx: None,
    })
}

#[tactic(auto, unfolding(crate::specs::ReadTables::dr_cr_request))]
pub(crate) fn dr_cr_request(alloc: Global, object: &Object) -> Result<DrCr, WordFault>
    ensures { Gives Memory result (dr_cr_request (members_view object.now.entries)) }
{
    let clerk = read_member(alloc, Member::Clerk, object)?;
    let ledger = read_member(alloc, Member::Ledger, object)?;
    let account = read_optional(alloc, Member::Account, object)?;
    let dates = asked_dates(alloc, object)?;
    Ok(DrCr {
        clerk,
        ledger,
        account,
        dates,
        tx: None,
    })
}

#[tactic(auto, unfolding(crate::specs::ReadTables::documents_question))]
pub(crate) fn documents_question(
    alloc: Global,
    object: &Object,
) -> Result<DocumentsQuestion, WordFault>
    ensures { Gives Memory result (documents_question (members_view object.now.entries)) }
{
    let clerk = read_member(alloc, Member::Clerk, object)?;
    let dates = asked_dates(alloc, object)?;
    Ok(DocumentsQuestion {
        clerk,
        dates,
        tx: None,
    })
}
