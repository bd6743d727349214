//! The shapes of what tables are asked by.
ghost use Rattle.std.specs.Prelude.{◌≡◌};
ghost use Rattle.serde_json.specs.View.{view, members_view};
ghost use Rattle.reg_base.specs.Results.{Gives};
ghost use Rattle.desk_words.specs.declared.fault.WordFault.TheVariants.{Memory};
ghost use Rattle.desk_words.specs.Shapes.{optional_at};
ghost use Rattle.desk_words.specs.TableShapes.{json_filter, json_filters, account_by_named};
ghost use Rattle.desk_words.specs.TableShapes.{by_named, json_by, json_account_by, method_named};
ghost use Rattle.desk_words.specs.TableShapes.{json_method};

use crate::fault::{Member, WordFault};
use crate::parsed::{Object, member};
use crate::request::FilterText;
use crate::shapes::{FromJson, FromNamed, each_named, json_object, json_text};
use reg_base::{List, Method, Name, Periodicity, Text};
use serde_json::Value;
use std::alloc::Global;

impl FromNamed for FilterText {
    ghost reads = { json_filter };

    // The values of a dimension: its name is one, and they are a list of texts.
    #[tactic(auto, unfolding(crate::specs::TableShapes::json_filter))]
    fn from_named(
        alloc: Global,
        within: Member,
        name: &str,
        value: &Value,
    ) -> Result<FilterText, WordFault> {
        let Some(name) = Name::parse(name) else {
            return Err(WordFault::BadMember { member: within });
        };
        let values = List::<Text>::from_json(alloc, within, value)?;
        Ok(FilterText { name, values })
    }
}

impl FromJson for List<FilterText> {
    ghost reads = { json_filters };

    #[tactic(auto, unfolding(crate::specs::TableShapes::json_filters))]
    fn from_json(
        alloc: Global,
        within: Member,
        value: &Value,
    ) -> Result<List<FilterText>, WordFault> {
        let object = json_object(within, value)?;
        each_named(alloc, within, object)
    }
}

// The periodicity of that word, where a table of accounts has it.
fn account_by_named(word: &str) -> Option<Periodicity>
    ensures { result ≡ account_by_named word.now }
{
    match word {
        "period" => Some(Periodicity::Period),
        "day" => Some(Periodicity::Day),
        "week" => Some(Periodicity::Week),
        "ten_days" => Some(Periodicity::TenDays),
        "month" => Some(Periodicity::Month),
        "quarter" => Some(Periodicity::Quarter),
        "half_year" => Some(Periodicity::HalfYear),
        "year" => Some(Periodicity::Year),
        _ => None,
    }
}

fn by_named(word: &str) -> Option<Periodicity>
    ensures { result ≡ by_named word.now }
{
    match word {
        "record" => Some(Periodicity::Record),
        "recorder" => Some(Periodicity::Recorder),
        _ => account_by_named(word),
    }
}

impl FromJson for Periodicity {
    ghost reads = { json_by };

    #[tactic(auto, unfolding(crate::specs::TableShapes::json_by))]
    fn from_json(_alloc: Global, within: Member, value: &Value) -> Result<Periodicity, WordFault> {
        let word = json_text(within, value)?;
        match by_named(word) {
            Some(by) => Ok(by),
            None => Err(WordFault::BadMember { member: within }),
        }
    }
}

#[tactic(auto, unfolding(crate::specs::TableShapes::json_account_by))]
fn json_account_by(within: Member, value: &Value) -> Result<Periodicity, WordFault>
    ensures { Gives Memory result (json_account_by within (view value.now)) }
{
    let word = json_text(within, value)?;
    match account_by_named(word) {
        Some(by) => Ok(by),
        None => Err(WordFault::BadMember { member: within }),
    }
}

// A periodicity of tables of accounts at a member that may be absent.
pub(crate) fn read_account_by(
    within: Member,
    object: &Object,
) -> Result<Option<Periodicity>, WordFault>
    ensures { Gives Memory result
        (optional_at json_account_by within (members_view object.now.entries)) }
{
    match member(object, within.name()) {
        Some(value) => Ok(Some(json_account_by(within, value)?)),
        None => Ok(None),
    }
}

fn method_named(word: &str) -> Option<Method>
    ensures { result ≡ method_named word.now }
{
    match word {
        "movements" => Some(Method::Movements),
        "boundaries" => Some(Method::MovementsAndPeriodBoundaries),
        _ => None,
    }
}

impl FromJson for Method {
    ghost reads = { json_method };

    #[tactic(auto, unfolding(crate::specs::TableShapes::json_method))]
    fn from_json(_alloc: Global, within: Member, value: &Value) -> Result<Method, WordFault> {
        let word = json_text(within, value)?;
        match method_named(word) {
            Some(method) => Ok(method),
            None => Err(WordFault::BadMember { member: within }),
        }
    }
}
