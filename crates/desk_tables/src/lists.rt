//! The lists of a filter, each text read as a value of the dimension that its list names.
ghost use Rattle.std.specs.Prelude.{◌≡◌, List, ℕ, IfOk};
ghost use Rattle.std.specs.List.{find};
ghost use Rattle.std.specs.Option.{option_copied};
ghost use Rattle.std.specs.Str.{bytes_eq};
ghost use Rattle.reg_base.specs.Results.{each};
ghost use Rattle.reg_base.specs.Tries.{Tries};
ghost use Rattle.desk_model.specs.RegisterQuestions.{asked_value as asked_value_of};
ghost use Rattle.desk_model.specs.RegisterQuestions.{asked_values as asked_values_of};
ghost use Rattle.desk_model.specs.RegisterQuestions.{asked_list as asked_list_of, values_in};
ghost use Rattle.desk_model.specs.RegisterQuestions.{asked_lists as asked_lists_of};

use cfg_model::{Dimension, Register};
use desk_plans::{Tried, value_in, wrong};
use desk_words::{Field, FilterText};
use reg_base::{AskedList, List, Name, Text, Value};
use std::alloc::Global;

// The lists of a filter, where there is one.
pub(crate) fn asked_lists(
    alloc: Global,
    register: &Register,
    filter: &Option<List<FilterText>>,
) -> Tried<List<AskedList>>
    ensures { Tries result (asked_lists_of register.now filter.now) }
{
    match filter {
        Some(texts) => lists_of(alloc, register, texts.as_slice()),
        None => Ok(List::new(alloc)),
    }
}

fn lists_of(alloc: Global, register: &Register, texts: &[FilterText]) -> Tried<List<AskedList>>
    ensures { Tries result (each (asked_list_of register.now) texts.now) }
{
    let mut lists = Vec::new(alloc);
    'texts: for text in texts {
        let list = asked_list(alloc, register, text)?;
        lists.push(list)?;
    }
    Ok(List::from_vec(lists))
}

// One list; under a name that no dimension has it is empty.
#[tactic(auto, unfolding(desk_model::specs::RegisterQuestions::asked_list))]
fn asked_list(alloc: Global, register: &Register, text: &FilterText) -> Tried<AskedList>
    ensures { Tries result (asked_list_of register.now text.now) }
{
    let dimension = named_dimension(register, &text.name);
    let values = read_values(alloc, dimension, text.values.as_slice())?;
    Ok(AskedList {
        name: text.name,
        values,
    })
}

// The dimension of a name, where there is one.
fn named_dimension<'a>(register: &'a Register, name: &Name) -> Option<&'a Dimension>
    ensures { option_copied result
        ≡ find (λ d. bytes_eq d.name name.now) register.now.dimensions }
{
    register
        .dimensions
        .as_slice()
        .iter()
        .find(|d| d.name == *name)
}

// The values of texts where there is a dimension, and none where there is none.
fn read_values(alloc: Global, dimension: Option<&Dimension>, texts: &[Text]) -> Tried<List<Value>>
    ensures { Tries result (values_in (option_copied dimension.entry) texts.now) }
{
    match dimension {
        Some(dimension) => asked_values(alloc, dimension, texts),
        None => Ok(List::new(alloc)),
    }
}

fn asked_values(alloc: Global, dimension: &Dimension, texts: &[Text]) -> Tried<List<Value>>
    ensures { Tries result (asked_values_of dimension.now texts.now) }
{
    let mut values = Vec::new(alloc);
    'texts: for text in texts {
        let value = asked_value(dimension, text)?;
        values.push(value)?;
    }
    Ok(List::from_vec(values))
}

#[tactic(auto, unfolding(desk_model::specs::RegisterQuestions::asked_value))]
fn asked_value(dimension: &Dimension, text: &Text) -> Tried<Value>
    ensures { Tries result (asked_value_of dimension.now text.now) }
{
    match value_in(dimension, text.as_str()) {
        Some(value) => Ok(value),
        None => Err(wrong(Field::Named(dimension.name))),
    }
}
