//! Records and entries as they are given: each text is read for its place.
ghost use Rattle.std.specs.Prelude.{◌≡◌, Result};
ghost use Rattle.desk_words.specs.declared.request.RecordText.{RecordText as RecordTextOf};
ghost use Rattle.desk_words.specs.declared.reply.Refusal.{Refusal as RefusalOf};
ghost use Rattle.desk_words.specs.declared.reply.Refusal.TheVariants.{BadField};
ghost use Rattle.desk_model.specs.GivenRecords.{takes_mark as takes_mark_of};
ghost use Rattle.desk_model.specs.GivenRecords.{given_record as record_of_text};
ghost use Rattle.desk_model.specs.GivenRecords.{record_in_register as record_of_register};
ghost use Rattle.desk_model.specs.GivenRecords.{given_entry as entry_of_text};
ghost use Rattle.desk_model.specs.GivenRecords.{entry_in_ledger as entry_of_ledger};
ghost use Rattle.reg_base.specs.declared.tried.Fault.TheVariants.{Refused};
ghost use Rattle.reg_base.specs.Tries.{Tries};

use crate::part::{units_in, values_for};
use crate::sides::copy_side;
use crate::tried::{PartFault, Tried};
use cfg_model::{Chart, Register};
use desk_model::{Given, GivenEntry};
use desk_words::{Field, LedgerText, RecordText, Refusal, RegisterText};
use reg_base::Mark;
use std::alloc::Global;

// A register or a ledger, for which a record is read.
pub(crate) trait ReadsRecord<X> {
    ghost reads: { Self → RecordTextOf → Result X RefusalOf };

    fn read(&self, alloc: Global, text: &RecordText) -> Tried<X>
        ensures { Tries result (reads self.now text.now) };
}

impl ReadsRecord<Given> for Register {
    ghost reads = { record_of_text };

    fn read(&self, alloc: Global, text: &RecordText) -> Tried<Given> {
        given_record(alloc, self, text)
    }
}

impl ReadsRecord<GivenEntry> for Chart {
    ghost reads = { entry_of_text };

    fn read(&self, alloc: Global, text: &RecordText) -> Tried<GivenEntry> {
        given_entry(alloc, self, text)
    }
}

// A record of a register, or the first of its parts that is wrong.
#[tactic(auto, unfolding(desk_model::specs::GivenRecords::given_record))]
fn given_record(alloc: Global, register: &Register, text: &RecordText) -> Tried<Given>
    ensures { Tries result (record_of_text register.now text.now) }
{
    match text {
        RecordText::Ledger(_) => Err(wrong(Field::Values)),
        RecordText::Register(text) => record_in_register(alloc, register, text),
    }
}

// An entry of a ledger, or the first of its parts that is wrong.
#[tactic(auto, unfolding(desk_model::specs::GivenRecords::given_entry))]
fn given_entry(alloc: Global, chart: &Chart, text: &RecordText) -> Tried<GivenEntry>
    ensures { Tries result (entry_of_text chart.now text.now) }
{
    match text {
        RecordText::Register(_) => Err(wrong(Field::Values)),
        RecordText::Ledger(text) => entry_in_ledger(alloc, chart, text),
    }
}

/// The refusal of a request with a wrong field.
pub fn wrong(field: Field) -> PartFault
    ensures { result ≡ Refused (BadField field) }
{
    PartFault::Refused(Refusal::BadField { field })
}

#[tactic(auto, unfolding(desk_model::specs::GivenRecords::record_in_register))]
fn record_in_register(alloc: Global, register: &Register, text: &RegisterText) -> Tried<Given>
    ensures { Tries result (record_of_register register.now text.now) }
{
    let Some(values) = values_for(
        alloc,
        register.dimensions.as_slice(),
        text.values.as_slice(),
    )?
    else {
        return Err(wrong(Field::Values));
    };
    let Some(sums) = values_for(alloc, register.resources.as_slice(), text.sums.as_slice())? else {
        return Err(wrong(Field::Sums));
    };
    if !takes_mark(register, text.mark) {
        return Err(wrong(Field::Kind));
    }
    Ok(Given {
        mark: text.mark,
        values,
        sums,
    })
}

fn takes_mark(register: &Register, mark: Mark) -> bool
    ensures { result ≡ takes_mark_of register.now mark }
{
    match mark {
        Mark::Receipt | Mark::Expense => register.balance,
        Mark::Turn => !register.balance,
    }
}

#[tactic(auto, unfolding(desk_model::specs::GivenRecords::entry_in_ledger))]
fn entry_in_ledger(alloc: Global, chart: &Chart, text: &LedgerText) -> Tried<GivenEntry>
    ensures { Tries result (entry_of_ledger chart.now text.now) }
{
    let Some(amount) = units_in(chart.scale, text.amount.as_str()) else {
        return Err(wrong(Field::Amount));
    };
    let debit = copy_side(alloc, &text.debit)?;
    let credit = copy_side(alloc, &text.credit)?;
    Ok(GivenEntry {
        debit,
        credit,
        amount,
    })
}
