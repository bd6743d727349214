//! The parts of a record: each text is read for the dimension or resource of its place.
ghost use Rattle.std.specs.Prelude.{◌≡◌, List, ℕ, Option, IfOk};
ghost use Rattle.desk_model.specs.GivenRecords.{value_in as value_of, amount_in, values_for};
ghost use Rattle.desk_model.specs.GivenRecords.{units_in as units_at};

use cfg_model::{Dimension, Resource};
use reg_base::{Code, List, Memory, Num, Point, Scale, Text, Value};
use std::alloc::Global;

// A dimension or a resource, for which a text is read.
pub(crate) trait Part<X> {
    ghost reads: { Self → List ℕ → Option X };

    fn read(&self, text: &str) -> Option<X>
        ensures { result ≡ reads self.now text.now };
}

impl Part<Value> for Dimension {
    ghost reads = { value_of };

    fn read(&self, text: &str) -> Option<Value> {
        if self.lot {
            let point = Point::parse(text).ok()?;
            return Some(Value::Lot(point));
        }
        let code = Code::parse(text)?;
        Some(Value::Code(code))
    }
}

impl Part<i64> for Resource {
    ghost reads = { amount_in };

    fn read(&self, text: &str) -> Option<i64> {
        units_in(self.scale, text)
    }
}

/// The value that a text spells in a dimension: a code, or in a lot dimension a point.
pub fn value_in(dimension: &Dimension, text: &str) -> Option<Value>
    ensures { result ≡ value_of dimension.now text.now }
{
    dimension.read(text)
}

// The number that a text spells at a scale, in units.
pub(crate) fn units_in(scale: Scale, text: &str) -> Option<i64>
    ensures { result ≡ units_at scale text.now }
{
    let num = Num::parse(text, scale.get()).ok()?;
    Some(num.units)
}

// What the texts spell, where there is one for each part and all are read.
pub(crate) fn values_for<X: Drop, P: Part<X>>(
    alloc: Global,
    parts: &[P],
    texts: &[Text],
) -> Result<Option<List<X>>, Memory>
    ensures { IfOk result (λ spelt. spelt ≡ values_for P.reads parts.now texts.now) }
{
    if parts.len() != texts.len() {
        return Ok(None);
    }
    let mut spelt = Vec::new(alloc);
    'parts: for (index, part) in parts.iter().enumerate() {
        let Some(x) = part.read(texts[index].as_str()) else {
            return Ok(None);
        };
        spelt.push(x)?;
    }
    Ok(Some(List::from_vec(spelt)))
}
