//! What a table asks of a register, by the names of its dimensions.
ghost use Rattle.std.specs.Prelude.{◌≡◌, ◌≤◌, ◌<◌, ◌++◌, ◌∷◌, [], length, map, option_map};
ghost use Rattle.std.specs.Prelude.{unwrap_or, IfOk, IfSome, OnOk};
ghost use Rattle.std.specs.List.{find, filter_map, cons_option};
ghost use Rattle.std.specs.Option.{option_copied};
ghost use Rattle.std.specs.Str.{bytes_eq};
ghost use Rattle.reg_base.specs.Tries.{Tries};
ghost use Rattle.cfg_model.specs.Asks.{dimension_place as place_of, is_new_dimension};
ghost use Rattle.cfg_model.specs.Asks.{first_wrong as first_wrong_of, wrong_name as wrong_name_of};
ghost use Rattle.cfg_model.specs.Asks.{values_under as values_under_name};
ghost use Rattle.cfg_model.specs.Asks.{filter_with as filter_of, group_places as places_of};
ghost use Rattle.cfg_model.specs.Words.{is_one_of as is_one_of_names};
ghost use Rattle.virt_tables.specs.Asks.{asked_by};

use cfg_model::{Dimension, Register};
use reg_base::{AskedList, Fault, Filter, List, Memory, Name, TableFault, Value};
use std::alloc::Global;

/// What a table asks of a register.
#[derive(Drop)]
pub struct Ask {
    /// The place of the register in the configuration.
    pub register: usize,
    pub filter: Filter,
    /// The places of the dimensions that make a group; all values do where none are given.
    pub group: Option<List<u8>>,
}

impl Ask {
    /// What is asked by names: the lists of a filter, and what makes a group. The first name that
    /// the register has no dimension of, or that is given twice, is told, those of the filter
    /// first.
    #[tactic(auto, unfolding(crate::specs::Asks::asked_by))]
    pub fn new(
        alloc: Global,
        register: &Register,
        place: usize,
        lists: List<AskedList>,
        group: &Option<List<Name>>,
    ) -> Result<Ask, Fault<TableFault>>
        requires { length register.now.dimensions ≤ 256 }
        ensures { Tries result (asked_by register.now place lists group.now) }
    {
        if let Some(name) = wrong_name(alloc, register, lists.as_slice(), group)? {
            return Err(Fault::Refused(TableFault::UnknownField { name }));
        }
        let filter = filter_with(alloc, register, lists.as_slice())?;
        let group = group_places(alloc, register, group)?;
        Ok(Ask {
            register: place,
            filter,
            group,
        })
    }
}

// The first name that a table of a register can't be asked by: of its filter, then of its group.
fn wrong_name(
    alloc: Global,
    register: &Register,
    lists: &[AskedList],
    group: &Option<List<Name>>,
) -> Result<Option<Name>, Memory>
    ensures { IfOk result (λ name. name ≡ wrong_name_of register.now lists.now group.now) }
{
    let names = names_of(alloc, lists)?;
    let dimensions = register.dimensions.as_slice();
    if let Some(name) = first_wrong(dimensions, &names) {
        return Ok(Some(name));
    }
    Ok(wrong_in_group(dimensions, group))
}

fn wrong_in_group(dimensions: &[Dimension], group: &Option<List<Name>>) -> Option<Name>
    ensures { result ≡ first_wrong_of dimensions.now [] (unwrap_or group.now []) }
{
    match group {
        Some(names) => first_wrong(dimensions, names.as_slice()),
        None => None,
    }
}

// The names of lists.
fn names_of(alloc: Global, lists: &[AskedList]) -> Result<Vec<Name>, Memory>
    ensures { IfOk result (λ names. names.items ≡ map (λ l. l.name) lists.now) }
{
    let mut names = Vec::new(alloc);
    'lists: for list in lists {
        names.push(list.name)?;
    }
    Ok(names)
}

// The first of the names that no dimension has, or that stands a second time.
fn first_wrong(dimensions: &[Dimension], names: &[Name]) -> Option<Name>
    ensures { result ≡ first_wrong_of dimensions.now [] names.now }
{
    for index in 0..names.len() {
        if !is_new(dimensions, &names[..index], &names[index]) {
            return Some(names[index]);
        }
    }
    None
}

// Whether a name is that of a dimension, and stands for the first time.
fn is_new(dimensions: &[Dimension], before: &[Name], name: &Name) -> bool
    ensures { result ≡ is_new_dimension dimensions.now before.now name.now }
{
    dimension_place(dimensions, name).is_some() && !is_one_of(before, name)
}

fn is_one_of(names: &[Name], name: &Name) -> bool
    ensures { result ≡ is_one_of_names names.now name.now }
{
    names.iter().any(|each| each == name)
}

// The place of the dimension of a name, where there is one.
fn dimension_place(dimensions: &[Dimension], name: &Name) -> Option<usize>
    ensures value { result ≡ place_of name.now dimensions.now }
    ensures below { IfSome result (λ place. place < length dimensions.now) }
{
    dimensions.iter().position(|d| d.name == *name)
}

// The filter that lists make, a list for each dimension that they name.
fn filter_with(alloc: Global, register: &Register, lists: &[AskedList]) -> Result<Filter, Memory>
    ensures { IfOk result (λ filter. filter ≡ filter_of register.now lists.now) }
{
    let mut found = Vec::new(alloc);
    'dimensions: for dimension in register.dimensions.as_slice() {
        found.push(values_under(alloc, lists, &dimension.name)?)?;
    }
    Ok(Filter {
        lists: List::from_vec(found),
    })
}

// The values that are asked for under a name.
fn values_under(
    alloc: Global,
    lists: &[AskedList],
    name: &Name,
) -> Result<Option<List<Value>>, Memory>
    ensures { IfOk result (λ values. values ≡ values_under_name lists.now name.now) }
{
    match list_under(lists, name) {
        Some(list) => Ok(Some(List::from_slice(alloc, list.values.as_slice())?)),
        None => Ok(None),
    }
}

fn list_under<'a>(lists: &'a [AskedList], name: &Name) -> Option<&'a AskedList>
    ensures { option_copied result ≡ find (λ l. bytes_eq l.name name.now) lists.now }
{
    lists.iter().find(|list| list.name == *name)
}

// The places of the dimensions that make a group, where one is given.
fn group_places(
    alloc: Global,
    register: &Register,
    group: &Option<List<Name>>,
) -> Result<Option<List<u8>>, Memory>
    requires { length register.now.dimensions ≤ 256 }
    ensures { IfOk result (λ places. places ≡ places_of register.now group.now) }
{
    match group {
        Some(names) => Ok(Some(places_in(
            alloc,
            register.dimensions.as_slice(),
            names.as_slice(),
        )?)),
        None => Ok(None),
    }
}

// The places of the dimensions of these names.
fn places_in(alloc: Global, dimensions: &[Dimension], names: &[Name]) -> Result<List<u8>, Memory>
    requires { length dimensions.now ≤ 256 }
    ensures { IfOk result (λ places. places
        ≡ filter_map (λ name. place_of name dimensions.now) names.now) }
{
    let mut places = Vec::new(alloc);
    for name in names {
        push_place(&mut places, dimension_place(dimensions, name))?;
    }
    Ok(List::from_vec(places))
}

// Puts a place behind the others, where there is one.
fn push_place(places: &mut Vec<u8>, place: Option<usize>) -> Result<(), Memory>
    requires { IfSome place (λ p. p < 256) }
    ensures { OnOk result (places.new.items ≡ places.old.items ++ cons_option place []) }
{
    if let Some(place) = place {
        places.push(place as u8)?;
    }
    Ok(())
}
