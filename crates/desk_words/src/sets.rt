//! The shapes of sets of records, as a request gives them.
ghost use Rattle.std.specs.Prelude.{◌≡◌};
ghost use Rattle.serde_json.specs.View.{view, members_view};
ghost use Rattle.reg_base.specs.Results.{Gives};
ghost use Rattle.desk_words.specs.declared.fault.WordFault.TheVariants.{Memory};
ghost use Rattle.desk_words.specs.Sets.{json_mark, json_side, side_from, register_record};
ghost use Rattle.desk_words.specs.Sets.{ledger_record, json_record, json_records, json_set};
ghost use Rattle.desk_words.specs.Sets.{json_sets};

use crate::fault::{Member, WordFault};
use crate::parsed::{Object, count, member};
use crate::request::{LedgerText, RecordText, RegisterText, SetText};
use crate::shapes::{FromJson, json_list, json_object, json_text, read_at};
use reg_base::{Code, List, Mark, Side};
use serde_json::Value;
use std::alloc::Global;

impl FromJson for Mark {
    ghost reads = { json_mark };

    #[tactic(auto, unfolding(crate::specs::Sets::json_mark))]
    fn from_json(_alloc: Global, within: Member, value: &Value) -> Result<Mark, WordFault> {
        match json_text(within, value)? {
            "receipt" => Ok(Mark::Receipt),
            "expense" => Ok(Mark::Expense),
            "turn" => Ok(Mark::Turn),
            _ => Err(WordFault::BadMember { member: within }),
        }
    }
}

impl FromJson for Option<Side> {
    ghost reads = { json_side };

    // Null where the side is absent.
    #[tactic(auto, unfolding(crate::specs::Sets::json_side, crate::specs::Shapes::json_codes))]
    fn from_json(alloc: Global, within: Member, value: &Value) -> Result<Option<Side>, WordFault> {
        if value.is_null() {
            return Ok(None);
        }
        let codes = json_list::<Code>(alloc, within, value)?;
        Ok(Some(side_from(alloc, within, codes.as_slice())?))
    }
}

// The first code is the account, the others its extras.
fn side_from(alloc: Global, within: Member, codes: &[Code]) -> Result<Side, WordFault>
    ensures { Gives Memory result (side_from within codes.now) }
{
    match codes.split_first() {
        Some((account, extras)) => Ok(Side {
            account: *account,
            extras: List::from_slice(alloc, extras)?,
        }),
        None => Err(WordFault::BadMember { member: within }),
    }
}

#[tactic(auto, unfolding(crate::specs::Sets::register_record))]
fn register_record(
    alloc: Global,
    within: Member,
    object: &Object,
) -> Result<RegisterText, WordFault>
    ensures { Gives Memory result (register_record within (members_view object.now.entries)) }
{
    if count(object) != 3 {
        return Err(WordFault::BadMember { member: within });
    }
    let mark = read_at(alloc, within, "kind", object)?;
    let sums = read_at(alloc, within, "sums", object)?;
    let values = read_at(alloc, within, "values", object)?;
    Ok(RegisterText { mark, sums, values })
}

#[tactic(auto, unfolding(crate::specs::Sets::ledger_record))]
fn ledger_record(alloc: Global, within: Member, object: &Object) -> Result<LedgerText, WordFault>
    ensures { Gives Memory result (ledger_record within (members_view object.now.entries)) }
{
    if count(object) != 3 {
        return Err(WordFault::BadMember { member: within });
    }
    let amount = read_at(alloc, within, "amount", object)?;
    let credit = read_at(alloc, within, "credit", object)?;
    let debit = read_at(alloc, within, "debit", object)?;
    Ok(LedgerText {
        amount,
        debit,
        credit,
    })
}

impl FromJson for RecordText {
    ghost reads = { json_record };

    // A record with an amount is one of a ledger.
    #[tactic(auto, unfolding(crate::specs::Sets::json_record))]
    fn from_json(alloc: Global, within: Member, value: &Value) -> Result<RecordText, WordFault> {
        let object = json_object(within, value)?;
        match member(object, "amount") {
            Some(_) => Ok(RecordText::Ledger(ledger_record(alloc, within, object)?)),
            None => Ok(RecordText::Register(register_record(alloc, within, object)?)),
        }
    }
}

impl FromJson for List<RecordText> {
    ghost reads = { json_records };

    #[tactic(auto, unfolding(crate::specs::Sets::json_records))]
    fn from_json(
        alloc: Global,
        within: Member,
        value: &Value,
    ) -> Result<List<RecordText>, WordFault> {
        json_list(alloc, within, value)
    }
}

impl FromJson for SetText {
    ghost reads = { json_set };

    #[tactic(auto, unfolding(crate::specs::Sets::json_set))]
    fn from_json(alloc: Global, within: Member, value: &Value) -> Result<SetText, WordFault> {
        let object = json_object(within, value)?;
        if count(object) != 2 {
            return Err(WordFault::BadMember { member: within });
        }
        let space = read_at(alloc, within, "space", object)?;
        let records = read_at(alloc, within, "records", object)?;
        Ok(SetText { space, records })
    }
}

impl FromJson for List<SetText> {
    ghost reads = { json_sets };

    #[tactic(auto, unfolding(crate::specs::Sets::json_sets))]
    fn from_json(alloc: Global, within: Member, value: &Value) -> Result<List<SetText>, WordFault> {
        json_list(alloc, within, value)
    }
}
