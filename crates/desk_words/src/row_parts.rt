//! What stands in the rows of tables, as JSON.
ghost use Rattle.std.specs.Prelude.{◌≡◌, ◌++◌, ◌∷◌, length, map, string_bytes, IfOk, OnOk};
ghost use Rattle.serde_json.specs.Data.{string};
ghost use Rattle.serde_json.specs.Data.{put as member_put};
ghost use Rattle.serde_json.specs.View.{view, members_view};
ghost use Rattle.reg_base.specs.Numbers.{number_text};
ghost use Rattle.desk_words.specs.ReplyWords.{value_text as value_text_of};
ghost use Rattle.desk_words.specs.RowTexts.{sums_data, amount_data, group_data, unit_data};
ghost use Rattle.desk_words.specs.RowTexts.{key_data, kind_name as kind_name_of};
ghost use Rattle.desk_words.specs.JsonValues.{texts_data};

use crate::json_values::{ToJson, array_value};
use crate::parsed::Object;
use reg_base::{Code, List, Memory, Name, Scale, Unit, Value, sum_string};
use serde_json::{Value as Json, put};
use std::alloc::Global;

// Puts numbers under their name, each with the decimals of its resource.
pub(crate) fn put_sums(
    alloc: Global,
    members: &mut Object,
    name: &str,
    sums: &List<i128>,
    scales: &[Scale],
) -> Result<(), Memory>
    requires { length sums.now ≡ length scales.now }
    ensures { OnOk result (members_view members.new.entries
        ≡ member_put name.now (sums_data scales.now sums.now) (members_view members.old.entries)) }
{
    put(
        members,
        alloc,
        name,
        sums_value(alloc, sums.as_slice(), scales)?,
    )?;
    Ok(())
}

#[tactic(auto, unfolding(crate::specs::JsonValues::texts_data))]
fn sums_value(alloc: Global, sums: &[i128], scales: &[Scale]) -> Result<Json, Memory>
    requires { length sums.now ≡ length scales.now }
    ensures { IfOk result (λ v. view v ≡ sums_data scales.now sums.now) }
{
    let mut texts = Vec::new(alloc);
    'sums: for (scale, sum) in scales.iter().zip(sums) {
        texts.push(Json::String(sum_string(alloc, *sum, scale.get())?))?;
    }
    Ok(Json::Array(texts))
}

// Puts an amount under its name, with the decimals of its ledger.
pub(crate) fn put_amount(
    alloc: Global,
    members: &mut Object,
    name: &str,
    amount: i128,
    scale: Scale,
) -> Result<(), Memory>
    ensures { OnOk result (members_view members.new.entries
        ≡ member_put name.now (amount_data scale amount) (members_view members.old.entries)) }
{
    let text = sum_string(alloc, amount, scale.get())?;
    put(members, alloc, name, Json::String(text))?;
    Ok(())
}

impl ToJson for List<Value> {
    ghost json = { group_data };

    #[tactic(auto, unfolding(crate::specs::JsonValues::texts_data))]
    fn to_json(&self, alloc: Global) -> Result<Json, Memory> {
        array_value(alloc, self.as_slice())
    }
}

impl ToJson for Value {
    ghost json = { λ value. string (value_text_of value) };

    fn to_json(&self, alloc: Global) -> Result<Json, Memory> {
        Ok(Json::String(value_text(alloc, self)?))
    }
}

fn value_text(alloc: Global, value: &Value) -> Result<String, Memory>
    ensures { IfOk result (λ text. string_bytes text ≡ value_text_of value.now) }
{
    match value {
        Value::Code(code) => Ok(String::from_str(alloc, code.as_str())?),
        Value::Lot(point) => Ok(point.to_text(alloc)?),
    }
}

impl ToJson for Unit {
    ghost json = { unit_data };

    fn to_json(&self, alloc: Global) -> Result<Json, Memory> {
        match *self {
            Unit::Whole => Ok(Json::Null),
            Unit::Start(date) => date.to_json(alloc),
            Unit::At(point) => Ok(Json::String(point.to_text(alloc)?)),
            Unit::Line(point, line) => {
                let front = point.to_text(alloc)?;
                Ok(Json::String(line_text(alloc, front.as_str(), line)?))
            }
        }
    }
}

// A point with the number of a record's line behind it.
fn line_text(alloc: Global, point: &str, line: u16) -> Result<String, Memory>
    ensures { IfOk result (λ text. string_bytes text ≡ point.now ++ (47 ∷ number_text line)) }
{
    let text = format!(in alloc; "{point}/{line}")?;
    Ok(text)
}

impl ToJson for List<Code> {
    ghost json = { texts_data };

    #[tactic(auto, unfolding(crate::specs::JsonValues::texts_data))]
    fn to_json(&self, alloc: Global) -> Result<Json, Memory> {
        array_value(alloc, self.as_slice())
    }
}

impl ToJson for Option<Code> {
    ghost json = { key_data };

    fn to_json(&self, alloc: Global) -> Result<Json, Memory> {
        match self {
            Some(key) => key.to_json(alloc),
            None => Ok(Json::Null),
        }
    }
}

// A document's type, or the word for none.
pub(crate) fn kind_name(kind: &Option<Name>) -> &str
    ensures { result.now ≡ kind_name_of kind.now }
{
    match kind {
        Some(name) => name.as_str(),
        None => "manual",
    }
}
