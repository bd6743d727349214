//! The shapes of a head and of lines, as a request gives them.
ghost use Rattle.desk_words.specs.Fields.{json_field, json_fields, json_lines};

use crate::fault::{Member, WordFault};
use crate::request::FieldText;
use crate::shapes::{FromJson, FromNamed, each_named, json_list, json_object};
use reg_base::{List, Name, Text};
use serde_json::Value;
use std::alloc::Global;

impl FromNamed for FieldText {
    ghost reads = { json_field };

    // A field: its name is one, and its value a text.
    #[tactic(auto, unfolding(crate::specs::Fields::json_field))]
    fn from_named(
        alloc: Global,
        within: Member,
        name: &str,
        value: &Value,
    ) -> Result<FieldText, WordFault> {
        let Some(name) = Name::parse(name) else {
            return Err(WordFault::BadMember { member: within });
        };
        let text = Text::from_json(alloc, within, value)?;
        Ok(FieldText { name, text })
    }
}

impl FromJson for List<FieldText> {
    ghost reads = { json_fields };

    #[tactic(auto, unfolding(crate::specs::Fields::json_fields))]
    fn from_json(
        alloc: Global,
        within: Member,
        value: &Value,
    ) -> Result<List<FieldText>, WordFault> {
        let object = json_object(within, value)?;
        each_named(alloc, within, object)
    }
}

impl FromJson for List<List<FieldText>> {
    ghost reads = { json_lines };

    #[tactic(auto, unfolding(crate::specs::Fields::json_lines))]
    fn from_json(
        alloc: Global,
        within: Member,
        value: &Value,
    ) -> Result<List<List<FieldText>>, WordFault> {
        json_list(alloc, within, value)
    }
}
