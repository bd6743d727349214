//! Tables of ledgers.
ghost use Rattle.std.specs.Prelude.{◌≡◌, ◌<◌, ◌^◌, length, None, IfOk};
ghost use Rattle.std.specs.List.{All};
ghost use Rattle.reg_base.specs.Documents.{HasShortSets};
ghost use Rattle.reg_base.specs.Tries.{Tries};
ghost use Rattle.desk_model.specs.LedgerQuestions.{question_account_balance};
ghost use Rattle.desk_model.specs.LedgerQuestions.{question_account_turnovers};
ghost use Rattle.desk_model.specs.LedgerQuestions.{question_account_both, question_pairs};
ghost use Rattle.desk_model.specs.Questions.{IsAnswer};
ghost use Rattle.desk_model.specs.Serial.{question_answer};
ghost use Rattle.desk_tables.specs.Asked.{ask_with};

use crate::asked::{ledger_asked, refused};
use crate::registers::range_of;
use cfg_model::Config;
use desk_plans::Tried;
use desk_words::{AccountBalance, AccountTurnovers, Answer, AskedAccounts, DrCr};
use doc_store::Documents;
use ledger_reg::{AccountAsk, account_balance, account_both, account_turnovers, dr_cr};
use reg_base::Cut;
use std::alloc::Global;

/// What `account_balance` is answered.
pub fn answer_account_balance(
    alloc: Global,
    config: &Config,
    documents: Documents<'_>,
    question: &AccountBalance,
) -> Tried<Answer>
    requires few { length documents < 2 ^ 32 }
    requires short { All HasShortSets documents }
    ensures value { Tries result (question_answer documents.entry
        (question_account_balance config.now question.now)) }
    ensures answer { IfOk result IsAnswer }
{
    let accounts = &question.accounts;
    let asking = ledger_asked(config, &accounts.ledger, &accounts.account)?;
    let ask = account_ask(asking.place, accounts);
    let cut = question.cut.unwrap_or(Cut::Now);
    let rows = refused(account_balance(alloc, &ask, &cut, documents, asking.chart))?;
    Ok(Answer::AccountBalance {
        rows,
        scale: asking.chart.scale,
    })
}

/// What `account_turnovers` is answered.
pub fn answer_account_turnovers(
    alloc: Global,
    config: &Config,
    documents: Documents<'_>,
    question: &AccountTurnovers,
) -> Tried<Answer>
    requires few { length documents < 2 ^ 32 }
    requires short { All HasShortSets documents }
    ensures value { Tries result (question_answer documents.entry
        (question_account_turnovers config.now question.now)) }
    ensures answer { IfOk result IsAnswer }
{
    let accounts = &question.accounts;
    let asking = ledger_asked(config, &accounts.ledger, &accounts.account)?;
    let ask = account_ask(asking.place, accounts);
    let range = range_of(&question.dates, &question.by);
    let rows = refused(account_turnovers(alloc, &ask, &range, documents, asking.chart))?;
    Ok(Answer::AccountTurnovers {
        rows,
        scale: asking.chart.scale,
    })
}

/// What `account_both` is answered.
pub fn answer_account_both(
    alloc: Global,
    config: &Config,
    documents: Documents<'_>,
    question: &AccountTurnovers,
) -> Tried<Answer>
    requires few { length documents < 2 ^ 32 }
    requires short { All HasShortSets documents }
    ensures value { Tries result (question_answer documents.entry
        (question_account_both config.now question.now)) }
    ensures answer { IfOk result IsAnswer }
{
    let accounts = &question.accounts;
    let asking = ledger_asked(config, &accounts.ledger, &accounts.account)?;
    let ask = account_ask(asking.place, accounts);
    let range = range_of(&question.dates, &question.by);
    let rows = refused(account_both(alloc, &ask, &range, documents, asking.chart))?;
    Ok(Answer::AccountBoth {
        rows,
        scale: asking.chart.scale,
    })
}

/// What `dr_cr` is answered.
pub fn answer_pairs(
    alloc: Global,
    config: &Config,
    documents: Documents<'_>,
    question: &DrCr,
) -> Tried<Answer>
    requires few { length documents < 2 ^ 32 }
    requires short { All HasShortSets documents }
    ensures value { Tries result (question_answer documents.entry
        (question_pairs config.now question.now)) }
    ensures answer { IfOk result IsAnswer }
{
    let asking = ledger_asked(config, &question.ledger, &question.account)?;
    let ask = AccountAsk {
        ledger: asking.place,
        account: question.account,
        extras: false,
    };
    let range = range_of(&question.dates, &None);
    let rows = refused(dr_cr(alloc, &ask, &range, documents, asking.chart))?;
    Ok(Answer::DrCr {
        rows,
        scale: asking.chart.scale,
    })
}

// What is asked of the ledger at a place.
fn account_ask(place: usize, accounts: &AskedAccounts) -> AccountAsk
    ensures { result ≡ ask_with place accounts.now }
{
    AccountAsk {
        ledger: place,
        account: accounts.account,
        extras: accounts.extras.unwrap_or(false),
    }
}
