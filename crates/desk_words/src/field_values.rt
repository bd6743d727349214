//! The fields of a head and of lines as JSON.
ghost use Rattle.std.specs.Prelude.{◌≡◌};
ghost use Rattle.desk_words.specs.FieldTexts.{fields_data, lines_data};

use crate::json_values::{ToJson, array_value, put_value};
use crate::parsed::Object;
use crate::request::FieldText;
use reg_base::{List, Memory};
use serde_json::Value as Json;
use std::alloc::Global;

impl ToJson for List<FieldText> {
    ghost json = { fields_data };

    // An object with the text of each name, a name that comes twice with its later one.
    fn to_json(&self, alloc: Global) -> Result<Json, Memory> {
        let mut members = Object::new(alloc);
        'fields: for field in self.as_slice() {
            put_value(alloc, &mut members, field.name.as_str(), &field.text)?;
        }
        Ok(Json::Object(members))
    }
}

impl ToJson for List<List<FieldText>> {
    ghost json = { lines_data };

    #[tactic(auto, unfolding(crate::specs::FieldTexts::lines_data))]
    fn to_json(&self, alloc: Global) -> Result<Json, Memory> {
        array_value(alloc, self.as_slice())
    }
}
