//! The shapes of members. A wrong one is told by the member that it stands in.
ghost use Rattle.std.specs.Prelude.{◌≡◌, Result, List as ListOf, ℕ};
ghost use Rattle.serde_json.specs.Data.{Data};
ghost use Rattle.serde_json.specs.View.{view, items_view, members_view};
ghost use Rattle.reg_base.specs.Results.{some_or, Gives, GivesAs};
ghost use Rattle.desk_words.specs.declared.fault.Member.{Member as MemberOf};
ghost use Rattle.desk_words.specs.declared.fault.WordFault.{WordFault as FaultOf};
ghost use Rattle.desk_words.specs.declared.fault.WordFault.TheVariants.{Memory};
ghost use Rattle.desk_words.specs.Shapes.{value_at, shape_at, json_object, json_items, json_text};
ghost use Rattle.desk_words.specs.Shapes.{json_name, json_code, json_date, json_cut, json_number};
ghost use Rattle.desk_words.specs.Shapes.{json_list, json_texts, json_comment, json_boolean};
ghost use Rattle.desk_words.specs.Shapes.{json_date_end, json_names, each_named};
ghost use Rattle.desk_words.specs.Shapes.{required_at, optional_at};

use crate::fault::{Member, WordFault};
use crate::parsed::{Object, member};
use reg_base::{Code, Comment, Cut, Date, List, Name, Text};
use serde_json::Value;
use std::alloc::Global;

// What a JSON value is read as.
pub(crate) trait FromJson: Drop {
    ghost reads: { MemberOf → Data → Result Self FaultOf };

    // Reads a value that stands within a member.
    fn from_json(alloc: Global, within: Member, value: &Value) -> Result<Self, WordFault>
        ensures { Gives Memory result (reads within (view value.now)) };
}

// What a member of an object is read as, with its name.
pub(crate) trait FromNamed: Drop {
    ghost reads: { MemberOf → ListOf ℕ → Data → Result Self FaultOf };

    // Reads a member of an object that stands within a member of the request.
    fn from_named(
        alloc: Global,
        within: Member,
        name: &str,
        value: &Value,
    ) -> Result<Self, WordFault>
        ensures { Gives Memory result (reads within name.now (view value.now)) };
}

// Reads what an object has under a name.
pub(crate) fn read_at<X: FromJson>(
    alloc: Global,
    within: Member,
    name: &str,
    object: &Object,
) -> Result<X, WordFault>
    ensures { Gives Memory result
        (shape_at (X.reads within) within name.now (members_view object.now.entries)) }
{
    X::from_json(alloc, within, value_at(within, name, object)?)
}

// What an object has at one of the members that an operation asks for.
pub(crate) fn read_member<X: FromJson>(
    alloc: Global,
    within: Member,
    object: &Object,
) -> Result<X, WordFault>
    ensures { Gives Memory result (required_at X.reads within (members_view object.now.entries)) }
{
    read_at(alloc, within, within.name(), object)
}

// What an object has at a member that may be absent; null is not absent.
pub(crate) fn read_optional<X: FromJson>(
    alloc: Global,
    within: Member,
    object: &Object,
) -> Result<Option<X>, WordFault>
    ensures { Gives Memory result (optional_at X.reads within (members_view object.now.entries)) }
{
    match member(object, within.name()) {
        Some(value) => Ok(Some(X::from_json(alloc, within, value)?)),
        None => Ok(None),
    }
}

// What an object has under a name.
#[tactic(auto, unfolding(crate::specs::Shapes::value_at))]
fn value_at<'a>(within: Member, name: &str, object: &'a Object) -> Result<&'a Value, WordFault>
    ensures { GivesAs Memory (λ v. view v.now) result
        (value_at within name.now (members_view object.now.entries)) }
{
    match member(object, name) {
        Some(value) => Ok(value),
        None => Err(WordFault::BadMember { member: within }),
    }
}

#[tactic(auto, unfolding(crate::specs::Shapes::json_object))]
pub(crate) fn json_object(within: Member, value: &Value) -> Result<&Object, WordFault>
    ensures { GivesAs Memory (λ v. members_view v.now.entries) result
        (json_object within (view value.now)) }
{
    match value.as_object() {
        Some(object) => Ok(object),
        None => Err(WordFault::BadMember { member: within }),
    }
}

#[tactic(auto, unfolding(crate::specs::Shapes::json_items))]
fn json_items(within: Member, value: &Value) -> Result<&Vec<Value>, WordFault>
    ensures { GivesAs Memory (λ v. items_view v.now.items) result
        (json_items within (view value.now)) }
{
    match value.as_array() {
        Some(items) => Ok(items),
        None => Err(WordFault::BadMember { member: within }),
    }
}

// The items of a list, each read by its shape.
pub(crate) fn json_list<X: FromJson>(
    alloc: Global,
    within: Member,
    value: &Value,
) -> Result<List<X>, WordFault>
    ensures { Gives Memory result (json_list (X.reads within) within (view value.now)) }
{
    let items = json_items(within, value)?;
    let mut found = List::new(alloc);
    'items: for item in items {
        let next = X::from_json(alloc, within, item)?;
        found.push(next)?;
    }
    Ok(found)
}

// Each member of an object, in byte order of their names.
pub(crate) fn each_named<X: FromNamed>(
    alloc: Global,
    within: Member,
    object: &Object,
) -> Result<List<X>, WordFault>
    ensures { Gives Memory result
        (each_named (X.reads within) (members_view object.now.entries)) }
{
    let mut found = List::new(alloc);
    'members: for (name, value) in object.iter() {
        let entry = X::from_named(alloc, within, name.as_str(), value)?;
        found.push(entry)?;
    }
    Ok(found)
}

#[tactic(auto, unfolding(crate::specs::Shapes::json_text))]
pub(crate) fn json_text(within: Member, value: &Value) -> Result<&str, WordFault>
    ensures { GivesAs Memory (λ s. s.now) result (json_text within (view value.now)) }
{
    match value.as_str() {
        Some(text) => Ok(text),
        None => Err(WordFault::BadMember { member: within }),
    }
}

impl FromJson for Text {
    ghost reads = { json_text };

    fn from_json(alloc: Global, within: Member, value: &Value) -> Result<Text, WordFault> {
        let text = json_text(within, value)?;
        Ok(Text::from_str(alloc, text)?)
    }
}

impl FromJson for List<Text> {
    ghost reads = { json_texts };

    #[tactic(auto, unfolding(crate::specs::Shapes::json_texts))]
    fn from_json(alloc: Global, within: Member, value: &Value) -> Result<List<Text>, WordFault> {
        json_list(alloc, within, value)
    }
}

impl FromJson for Name {
    ghost reads = { json_name };

    #[tactic(auto, unfolding(crate::specs::Shapes::json_name))]
    fn from_json(_alloc: Global, within: Member, value: &Value) -> Result<Name, WordFault> {
        let text = json_text(within, value)?;
        match Name::parse(text) {
            Some(name) => Ok(name),
            None => Err(WordFault::BadMember { member: within }),
        }
    }
}

impl FromJson for List<Name> {
    ghost reads = { json_names };

    #[tactic(auto, unfolding(crate::specs::Shapes::json_names))]
    fn from_json(alloc: Global, within: Member, value: &Value) -> Result<List<Name>, WordFault> {
        json_list(alloc, within, value)
    }
}

impl FromJson for Code {
    ghost reads = { json_code };

    #[tactic(auto, unfolding(crate::specs::Shapes::json_code))]
    fn from_json(_alloc: Global, within: Member, value: &Value) -> Result<Code, WordFault> {
        let text = json_text(within, value)?;
        match Code::parse(text) {
            Some(code) => Ok(code),
            None => Err(WordFault::BadMember { member: within }),
        }
    }
}

impl FromJson for Date {
    ghost reads = { json_date };

    #[tactic(auto, unfolding(crate::specs::Shapes::json_date))]
    fn from_json(_alloc: Global, within: Member, value: &Value) -> Result<Date, WordFault> {
        let text = json_text(within, value)?;
        match Date::parse(text) {
            Ok(date) => Ok(date),
            Err(_) => Err(WordFault::BadMember { member: within }),
        }
    }
}

// A date that a day alone spells as its last second.
#[tactic(auto, unfolding(crate::specs::Shapes::json_date_end))]
fn json_date_end(within: Member, value: &Value) -> Result<Date, WordFault>
    ensures { Gives Memory result (json_date_end within (view value.now)) }
{
    let text = json_text(within, value)?;
    match Date::parse_end(text) {
        Ok(date) => Ok(date),
        Err(_) => Err(WordFault::BadMember { member: within }),
    }
}

// The same at a member that may be absent.
pub(crate) fn read_date_end(within: Member, object: &Object) -> Result<Option<Date>, WordFault>
    ensures { Gives Memory result
        (optional_at json_date_end within (members_view object.now.entries)) }
{
    match member(object, within.name()) {
        Some(value) => Ok(Some(json_date_end(within, value)?)),
        None => Ok(None),
    }
}

impl FromJson for u32 {
    ghost reads = { json_number };

    #[tactic(auto, unfolding(crate::specs::Shapes::json_number))]
    fn from_json(_alloc: Global, within: Member, value: &Value) -> Result<u32, WordFault> {
        match value.as_u64() {
            Some(n) if n >= 1 && n <= 4_294_967_295 => Ok(n as u32),
            _ => Err(WordFault::BadMember { member: within }),
        }
    }
}

impl FromJson for Comment {
    ghost reads = { json_comment };

    #[tactic(auto, unfolding(crate::specs::Shapes::json_comment))]
    fn from_json(alloc: Global, within: Member, value: &Value) -> Result<Comment, WordFault> {
        let text = json_text(within, value)?;
        match Comment::parse(alloc, text)? {
            Some(comment) => Ok(comment),
            None => Err(WordFault::BadMember { member: within }),
        }
    }
}

impl FromJson for bool {
    ghost reads = { json_boolean };

    #[tactic(auto, unfolding(crate::specs::Shapes::json_boolean))]
    fn from_json(_alloc: Global, within: Member, value: &Value) -> Result<bool, WordFault> {
        match value.as_bool() {
            Some(is_on) => Ok(is_on),
            None => Err(WordFault::BadMember { member: within }),
        }
    }
}

impl FromJson for Cut {
    ghost reads = { json_cut };

    #[tactic(auto, unfolding(crate::specs::Shapes::json_cut))]
    fn from_json(_alloc: Global, within: Member, value: &Value) -> Result<Cut, WordFault> {
        let text = json_text(within, value)?;
        match Cut::parse(text) {
            Ok(cut) => Ok(cut),
            Err(_) => Err(WordFault::BadMember { member: within }),
        }
    }
}
