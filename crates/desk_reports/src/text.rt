//! The text of what a report is answered with.
ghost use Rattle.std.specs.Prelude.{◌≡◌, ◌≤◌, length, All, IfOk};
ghost use Rattle.std.specs.Option.{option_copied};
ghost use Rattle.cfg_model.specs.Places.{ledger_place, register_place};
ghost use Rattle.text_reports.specs.DocumentLists.{document_list_text};
ghost use Rattle.text_reports.specs.TrialBalances.{HasModerateNumbers};
ghost use Rattle.desk_reports.specs.Printable.{IsPrintable};
ghost use Rattle.desk_reports.specs.Reports.{report_text as text_of, balance_text as balance_of};
ghost use Rattle.desk_reports.specs.Reports.{card_text as card_of, chart_named as chart_of_name};
ghost use Rattle.desk_reports.specs.Reports.{register_named as register_of_name};

use cfg_model::{Chart, Config, Register};
use desk_words::Answer;
use reg_base::{AccountRow, DocRow, Memory, Row};
use std::alloc::Global;
use text_reports::{document_list, stock_card, trial_balance};

/// The text of an answer to the request of a report of this name: a trial balance, a stock card or a
/// list of documents. Other answers, and those of a name that names nothing, have no text.
pub fn report_text(
    alloc: Global,
    config: &Config,
    name: &str,
    answer: &Answer,
) -> Result<Vec<u8>, Memory>
    requires { IsPrintable answer.now }
    ensures { IfOk result (λ text. text.items ≡ text_of config.now name.now answer.now) }
{
    match answer {
        Answer::AccountBoth { rows, .. } => {
            balance_text(alloc, chart_named(config, name), rows.as_slice())
        }
        Answer::Both { rows, .. } => card_text(
            alloc,
            register_named(config, name),
            rows.as_slice(),
        ),
        Answer::Documents { rows } => list_text(alloc, rows.as_slice()),
        _ => Ok(Vec::new(alloc)),
    }
}

fn chart_named<'a>(config: &'a Config, name: &str) -> Option<&'a Chart>
    ensures { option_copied result ≡ chart_of_name name.now config.entry.now }
{
    match place_of_ledger(config.ledgers.as_slice(), name) {
        Some(place) => config.ledgers.get(place),
        None => None,
    }
}

fn place_of_ledger(ledgers: &[Chart], name: &str) -> Option<usize>
    ensures { result ≡ ledger_place name.now ledgers.now }
{
    ledgers.iter().position(|l| l.name.as_str() == name)
}

fn register_named<'a>(config: &'a Config, name: &str) -> Option<&'a Register>
    ensures { option_copied result ≡ register_of_name name.now config.entry.now }
{
    match place_of_register(config.registers.as_slice(), name) {
        Some(place) => config.registers.get(place),
        None => None,
    }
}

fn place_of_register(registers: &[Register], name: &str) -> Option<usize>
    ensures { result ≡ register_place name.now registers.now }
{
    registers.iter().position(|r| r.name.as_str() == name)
}

fn balance_text(
    alloc: Global,
    chart: Option<&Chart>,
    rows: &[AccountRow],
) -> Result<Vec<u8>, Memory>
    requires few { length rows.now ≤ 100_000 }
    requires moderate { All HasModerateNumbers rows.now }
    ensures { IfOk result (λ text. text.items ≡ balance_of (option_copied chart.entry) rows.now) }
{
    let mut text = Vec::new(alloc);
    let Some(chart) = chart else {
        return Ok(text);
    };
    trial_balance(alloc, chart, rows, &mut text)?;
    Ok(text)
}

fn card_text(alloc: Global, register: Option<&Register>, rows: &[Row]) -> Result<Vec<u8>, Memory>
    ensures { IfOk result (λ text. text.items ≡ card_of (option_copied register.entry) rows.now) }
{
    let mut text = Vec::new(alloc);
    let Some(register) = register else {
        return Ok(text);
    };
    stock_card(alloc, register, rows, &mut text)?;
    Ok(text)
}

fn list_text(alloc: Global, rows: &[DocRow]) -> Result<Vec<u8>, Memory>
    ensures { IfOk result (λ text. text.items ≡ document_list_text rows.now) }
{
    let mut text = Vec::new(alloc);
    document_list(alloc, rows, &mut text)?;
    Ok(text)
}
