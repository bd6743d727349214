//! The laws, each the contract of a function that does nothing.
ghost use Rattle.std.specs.Prelude.{◌≡◌, ◌≤◌, ◌==◌, Some, false};
ghost use Rattle.std.specs.List.{list_any};
ghost use Rattle.std.specs.Str.{IsUtf8};
ghost use Rattle.serde_json.specs.Data.{Data, depth};
ghost use Rattle.serde_json.specs.Read.{max_depth, read};
ghost use Rattle.serde_json.specs.View.{view};
ghost use Rattle.serde_json.specs.Written.{compact_text};
ghost use Rattle.json_laws.specs.Plain.{HasUtf8, IsPlain};

use serde_json::Value;

/// The text of a plain value is read as that value, where it nests no deeper than is read.
pub fn texts_read_back()
    ensures { (d : Data) → IsPlain d → depth d ≤ max_depth → read (compact_text d) ≡ Some d }
{}

/// The text of a plain value is UTF-8.
pub fn texts_are_utf8()
    ensures { (d : Data) → IsPlain d → IsUtf8 (compact_text d) }
{}

/// The text of a plain value stands on one line: no byte of it is a line feed.
pub fn texts_stand_on_one_line()
    ensures { (d : Data) → IsPlain d → list_any (λ b. b == 10) (compact_text d) ≡ false }
{}

/// All texts and names in a value are UTF-8, since they are kept as texts.
pub fn value_has_utf8(value: &Value)
    ensures { HasUtf8 (view value.now) }
{
    let _ = value;
}
