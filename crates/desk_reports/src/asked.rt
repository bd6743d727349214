//! The request that the words of a report make.
ghost use Rattle.std.specs.Prelude.{◌≡◌, codes, Some, None, IfOk};
ghost use Rattle.desk_words.specs.WellFormed.{IsRequest};
ghost use Rattle.desk_reports.specs.Reports.{report_request as request_of_words};
ghost use Rattle.desk_reports.specs.Reports.{report_asked as asked_of, bad_word as bad_word_of};
ghost use Rattle.desk_reports.specs.Reports.{for_documents as documents_asked};
ghost use Rattle.desk_reports.specs.Reports.{for_accounts as accounts_asked};
ghost use Rattle.desk_reports.specs.Reports.{for_register as register_asked};

use cfg_model::Config;
use desk_words::{
    AccountTurnovers, AskedAccounts, AskedDates, AskedRegister, Both, DocumentsQuestion, Member,
    Refusal, Request, Turnovers, WordFault,
};
use reg_base::{Date, Method, Name, Periodicity};

/// The request that the name of a report and its first and last date make: for the documents of
/// these dates, for all accounts of a ledger, or else for what moved in a register. Or the refusal
/// of the first word that does not read.
#[tactic(auto, unfolding(crate::specs::Reports::report_request))]
pub fn report_request(config: &Config, name: &str, from: &str, to: &str) -> Result<Request, Refusal>
    ensures value { result ≡ request_of_words config.now (record {
      name = name.now;
      from = from.now;
      to = to.now;
    }) }
    ensures formed { IfOk result IsRequest }
{
    let Some(name) = Name::parse(name) else {
        return Err(bad_word(Member::Register));
    };
    let Ok(from) = Date::parse(from) else {
        return Err(bad_word(Member::From));
    };
    let Ok(to) = Date::parse_end(to) else {
        return Err(bad_word(Member::To));
    };
    let dates = AskedDates {
        from: Some(from),
        to: Some(to),
    };
    Ok(report_asked(config, name, dates))
}

fn bad_word(member: Member) -> Refusal
    ensures { result ≡ bad_word_of member }
{
    Refusal::BadLine(WordFault::BadMember { member })
}

fn report_asked(config: &Config, name: Name, dates: AskedDates) -> Request
    ensures { result ≡ asked_of config.now name dates }
{
    if name.as_str() == "documents" {
        for_documents(dates)
    } else if config.ledger_place(&name).is_some() {
        for_accounts(name, dates)
    } else {
        for_register(name, dates)
    }
}

// The clerk that is built in, who may ask for everything.
fn batch() -> Name
    ensures { result ≡ codes "batch" }
{
    Name::parse("batch").unwrap()
}

fn for_documents(dates: AskedDates) -> Request
    ensures { result ≡ documents_asked dates }
{
    Request::Documents(DocumentsQuestion {
        clerk: batch(),
        dates,
        tx: None,
    })
}

fn for_accounts(ledger: Name, dates: AskedDates) -> Request
    ensures { result ≡ accounts_asked ledger dates }
{
    let accounts = AskedAccounts {
        ledger,
        account: None,
        extras: None,
    };
    Request::AccountBoth(AccountTurnovers {
        clerk: batch(),
        accounts,
        dates,
        by: Some(Periodicity::Period),
        tx: None,
    })
}

fn for_register(name: Name, dates: AskedDates) -> Request
    ensures { result ≡ register_asked name dates }
{
    let register = AskedRegister {
        name,
        filter: None,
        group: None,
    };
    let turnovers = Turnovers {
        clerk: batch(),
        register,
        dates,
        by: Some(Periodicity::Recorder),
        tx: None,
    };
    Request::Both(Both {
        turnovers,
        method: Some(Method::Movements),
    })
}
