//! The values of dimensions.
ghost use Rattle.std.specs.Prelude.{◌≡◌, map, IfOk};
ghost use Rattle.std.specs.List.{filter_map, range_with_len};
ghost use Rattle.post_model.specs.Scenes.{value_of, bound_value as bound_value_of};
ghost use Rattle.post_model.specs.Makes.{option_or, values_with as values_with_of};
ghost use Rattle.post_rules.specs.SceneViews.{scene_view};

use crate::scene::{Scene, own_point};
use reg_base::{List, Memory, Value};
use rule_lang::{Bind, BindTo};
use std::alloc::Global;

impl<'a> Scene<'a> {
    // What a dimension is bound to: a code, or the document's own point as a lot.
    fn value(&self, to: &BindTo) -> Value
        ensures { result ≡ value_of (scene_view self.now) to.now }
    {
        match to {
            BindTo::Code(term) => Value::Code(self.code(term)),
            BindTo::Point => Value::Lot(own_point(self.doc)),
        }
    }

    // The value of a dimension, where it is bound.
    #[tactic(auto, unfolding(post_model::specs::Scenes::bound_value))]
    pub(crate) fn bound_value(&self, binds: &[Bind], dimension: usize) -> Option<Value>
        ensures { result ≡ bound_value_of (scene_view self.now) binds.now dimension }
    {
        'binds: for bind in binds {
            if usize::from(bind.dimension) == dimension {
                return Some(self.value(&bind.to));
            }
        }
        None
    }

    // The value of a dimension, or the lot where it is not bound.
    fn value_or(&self, binds: &[Bind], dimension: usize, lot: &Option<Value>) -> Option<Value>
        ensures { result ≡
            option_or (bound_value_of (scene_view self.now) binds.now dimension) lot.now }
    {
        match self.bound_value(binds, dimension) {
            Some(value) => Some(value),
            None => *lot,
        }
    }

    // The values of a record: those that are bound, and the lot for the dimension that is not.
    pub(crate) fn values_with(
        &self,
        alloc: Global,
        binds: &[Bind],
        lot: &Option<Value>,
        dimensions: usize,
    ) -> Result<List<Value>, Memory>
        ensures { IfOk result (λ values. values
            ≡ values_with_of (scene_view self.now) binds.now lot.now dimensions) }
    {
        let mut values = Vec::new(alloc);
        'dimensions: for dimension in 0..dimensions {
            let Some(value) = self.value_or(binds, dimension, lot) else {
                continue;
            };
            values.push(value)?;
        }
        Ok(List::from_vec(values))
    }

    // The values of the dimensions that are bound, in the place of each.
    pub(crate) fn fields(
        &self,
        alloc: Global,
        binds: &[Bind],
        dimensions: usize,
    ) -> Result<List<Option<Value>>, Memory>
        ensures { IfOk result (λ fields. fields ≡ map
            (bound_value_of (scene_view self.now) binds.now) (range_with_len 0 dimensions)) }
    {
        let mut fields = Vec::new(alloc);
        'dimensions: for dimension in 0..dimensions {
            fields.push(self.bound_value(binds, dimension))?;
        }
        Ok(List::from_vec(fields))
    }
}
