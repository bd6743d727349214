//! What is printed as JSON, alone, in a list, or as a member; requests and replies both use it.
ghost use Rattle.std.specs.Prelude.{◌≡◌, ◌++◌, false, map, option_map, IfOk, OnOk, OnErr};
ghost use Rattle.serde_json.specs.Data.{Data, boolean, string, array, object, member, no_members};
ghost use Rattle.serde_json.specs.Data.{put as member_put};
ghost use Rattle.serde_json.specs.View.{view, items_of, members_view};
ghost use Rattle.reg_base.specs.Cuts.{cut_text};
ghost use Rattle.reg_base.specs.Dates.{date_text};
ghost use Rattle.serde_json.specs.Written.{compact_text, has_float};
ghost use Rattle.desk_words.specs.JsonValues.{whole, texts_data, put_if};

use crate::parsed::Object;
use reg_base::{Code, Comment, Cut, Date, List, Memory, Name, Text};
use serde_json::{Value as Json, put};
use std::alloc::Global;

// What is printed as a JSON value.
pub(crate) trait ToJson {
    ghost json: { Self → Data };

    fn to_json(&self, alloc: Global) -> Result<Json, Memory>
        ensures { IfOk result (λ v. view v ≡ json self.now) };
}

// Appends the compact text of a value.
pub(crate) fn print_value(alloc: Global, value: &Json, out: &mut Vec<u8>) -> Result<(), Memory>
    requires { has_float (view value.now) ≡ false }
    ensures ok { OnOk result (out.new.items ≡ out.old.items ++ compact_text (view value.now)) }
    ensures err { OnErr result (out.new.items ≡ out.old.items) }
{
    let text = value.to_vec(alloc)?;
    out.extend_from_slice(&text)?;
    Ok(())
}

// Puts a value under its name.
pub(crate) fn put_value<T: ToJson>(
    alloc: Global,
    members: &mut Object,
    name: &str,
    value: &T,
) -> Result<(), Memory>
    ensures { OnOk result (members_view members.new.entries
        ≡ member_put name.now (T.json value.now) (members_view members.old.entries)) }
{
    put(members, alloc, name, value.to_json(alloc)?)?;
    Ok(())
}

// Puts a value under its name, where there is one.
pub(crate) fn put_some<T: ToJson>(
    alloc: Global,
    members: &mut Object,
    name: &str,
    value: &Option<T>,
) -> Result<(), Memory>
    ensures { OnOk result (members_view members.new.entries
        ≡ put_if name.now (option_map T.json value.now) (members_view members.old.entries)) }
{
    match value {
        Some(value) => put_value(alloc, members, name, value),
        None => Ok(()),
    }
}

// Puts a text under its name.
pub(crate) fn put_text(
    alloc: Global,
    members: &mut Object,
    name: &str,
    value: &str,
) -> Result<(), Memory>
    ensures { OnOk result (members_view members.new.entries
        ≡ member_put name.now (string value.now) (members_view members.old.entries)) }
{
    put(members, alloc, name, text(alloc, value)?)?;
    Ok(())
}

// The values of a list, in order.
pub(crate) fn array_value<T: ToJson>(alloc: Global, items: &[T]) -> Result<Json, Memory>
    ensures { IfOk result (λ v. view v ≡ array (items_of (map T.json items.now))) }
{
    let mut values = Vec::new(alloc);
    push_items(alloc, &mut values, items)?;
    Ok(Json::Array(values))
}

// Puts the values of a list behind those that stand.
pub(crate) fn push_items<T: ToJson>(
    alloc: Global,
    values: &mut Vec<Json>,
    items: &[T],
) -> Result<(), Memory>
    ensures { OnOk result (map view values.new.items
        ≡ map view values.old.items ++ map T.json items.now) }
{
    'items: for item in items {
        values.push(item.to_json(alloc)?)?;
    }
    Ok(())
}

// An object of one member.
pub(crate) fn one_member(alloc: Global, name: &str, value: Json) -> Result<Json, Memory>
    ensures { IfOk result (λ v. view v ≡ object (member name.now (view value) no_members)) }
{
    let mut members = Object::new(alloc);
    put(&mut members, alloc, name, value)?;
    Ok(Json::Object(members))
}

pub(crate) fn text(alloc: Global, value: &str) -> Result<Json, Memory>
    ensures { IfOk result (λ v. view v ≡ string value.now) }
{
    Ok(Json::String(String::from_str(alloc, value)?))
}

impl ToJson for bool {
    ghost json = { boolean };

    fn to_json(&self, _alloc: Global) -> Result<Json, Memory> {
        Ok(Json::from(*self))
    }
}

impl ToJson for u8 {
    ghost json = { whole };

    fn to_json(&self, _alloc: Global) -> Result<Json, Memory> {
        Ok(Json::from(*self))
    }
}

impl ToJson for u32 {
    ghost json = { whole };

    fn to_json(&self, _alloc: Global) -> Result<Json, Memory> {
        Ok(Json::from(*self))
    }
}

impl ToJson for Text {
    ghost json = { string };

    fn to_json(&self, alloc: Global) -> Result<Json, Memory> {
        text(alloc, self.as_str())
    }
}

impl ToJson for Name {
    ghost json = { string };

    fn to_json(&self, alloc: Global) -> Result<Json, Memory> {
        text(alloc, self.as_str())
    }
}

impl ToJson for Code {
    ghost json = { string };

    fn to_json(&self, alloc: Global) -> Result<Json, Memory> {
        text(alloc, self.as_str())
    }
}

impl ToJson for Comment {
    ghost json = { string };

    fn to_json(&self, alloc: Global) -> Result<Json, Memory> {
        text(alloc, self.as_str())
    }
}

impl ToJson for Date {
    ghost json = { λ date. string (date_text date) };

    fn to_json(&self, alloc: Global) -> Result<Json, Memory> {
        Ok(Json::String(self.to_text(alloc)?))
    }
}

impl ToJson for Cut {
    ghost json = { λ cut. string (cut_text cut) };

    fn to_json(&self, alloc: Global) -> Result<Json, Memory> {
        Ok(Json::String(self.to_text(alloc)?))
    }
}

impl ToJson for List<Text> {
    ghost json = { texts_data };

    #[tactic(auto, unfolding(crate::specs::JsonValues::texts_data))]
    fn to_json(&self, alloc: Global) -> Result<Json, Memory> {
        array_value(alloc, self.as_slice())
    }
}

impl ToJson for List<Name> {
    ghost json = { texts_data };

    #[tactic(auto, unfolding(crate::specs::JsonValues::texts_data))]
    fn to_json(&self, alloc: Global) -> Result<Json, Memory> {
        array_value(alloc, self.as_slice())
    }
}
