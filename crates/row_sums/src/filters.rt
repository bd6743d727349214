//! Whether the values of a record are asked for.
ghost use Rattle.std.specs.Prelude.{◌≡◌, Some};
ghost use Rattle.std.specs.Option.{option_copied};
ghost use Rattle.reg_base.specs.Records.{passes, passes_each as passes_each_of};
ghost use Rattle.reg_base.specs.Records.{matches as matches_of};
ghost use Rattle.row_sums.specs.Filters.{passes_at as passes_at_of};

use reg_base::{Filter, List, Value};

/// Whether a record of these values is asked for.
pub fn matches(filter: &Filter, values: &[Value]) -> bool
    ensures { result ≡ matches_of filter.now values.now }
{
    passes_each(filter.lists.as_slice(), values)
}

// Whether each value is asked for by the list of its dimension.
fn passes_each(lists: &[Option<List<Value>>], values: &[Value]) -> bool
    ensures { result ≡ passes_each_of lists.now values.now }
{
    for index in 0..lists.len() {
        if !passes_at(&lists[index], values.get(index)) {
            return false;
        }
    }
    true
}

// Whether a list asks for the value, where there is a value.
fn passes_at(list: &Option<List<Value>>, value: Option<&Value>) -> bool
    ensures { result ≡ passes_at_of list.now (option_copied value.entry) }
{
    match (list, value) {
        (None, _) => true,
        (Some(_), None) => false,
        (Some(asked), Some(value)) => is_asked(asked.as_slice(), value),
    }
}

// Whether a value is among those that are asked for.
fn is_asked(asked: &[Value], value: &Value) -> bool
    ensures { result ≡ passes (Some asked.now) value.now }
{
    asked.iter().any(|each| each.cmp(value).is_eq())
}
