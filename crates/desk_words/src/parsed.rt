//! What a line says as JSON, with each answer as one equation.
ghost use Rattle.std.specs.Prelude.{◌≡◌, option_map};
ghost use Rattle.serde_json.specs.Events.{members_len};
ghost use Rattle.serde_json.specs.Find.{get_member};
ghost use Rattle.serde_json.specs.Read.{read};
ghost use Rattle.serde_json.specs.View.{view, members_view};
ghost use Rattle.reg_base.specs.Results.{some_or, GivesAs};
ghost use Rattle.desk_words.specs.declared.fault.WordFault.TheVariants.{Memory, NotJson};
ghost use Rattle.desk_words.specs.Reading.{json_document};

use crate::fault::WordFault;
use serde_json::{Map, Value};
use std::alloc::Global;
use std::str;

// The object that a line is made of.
pub(crate) type Object = Map<String, Value>;

// The JSON value of a line.
pub(crate) fn json_document(alloc: Global, bytes: &[u8]) -> Result<Value, WordFault>
    ensures { GivesAs Memory view result (some_or (json_document bytes.now) NotJson) }
{
    match str::from_utf8(bytes) {
        Ok(text) => value_of(alloc, text),
        Err(_) => Err(WordFault::NotJson),
    }
}

fn value_of(alloc: Global, text: &str) -> Result<Value, WordFault>
    ensures { GivesAs Memory view result (some_or (read text.now) NotJson) }
{
    match Value::from_str(alloc, text) {
        Ok(value) => Ok(value),
        Err(e) if e.is_memory() => Err(WordFault::Memory),
        Err(_) => Err(WordFault::NotJson),
    }
}

// What an object has under a name.
pub(crate) fn member<'a>(object: &'a Object, name: &str) -> Option<&'a Value>
    ensures { option_map (λ v. view v.now) result
        ≡ get_member name.now (members_view object.now.entries) }
{
    object.get(name)
}

// How many members an object has.
pub(crate) fn count(object: &Object) -> usize
    ensures { result ≡ members_len (members_view object.now.entries) }
{
    object.len()
}
