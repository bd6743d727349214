//! Names as places in the configuration, and numbers as units at a scale.
ghost use Rattle.std.specs.Prelude.{◌≡◌, ◌<◌, ◌≤◌, ◌^◌, List, ℕ, position as position_in};
ghost use Rattle.std.specs.Str.{bytes_eq};
ghost use Rattle.rule_lang.specs.Fields.{small_place as small_place_of, place_of as place_in};
ghost use Rattle.rule_lang.specs.Fields.{resolved_field as field_in, fits as scale_fits};
ghost use Rattle.rule_lang.specs.Fields.{resolved_number_field as number_field_in};
ghost use Rattle.rule_lang.specs.Fields.{resolved_code_field as code_field_in};
ghost use Rattle.rule_lang.specs.Fields.{units_at as units_at_scale};

use crate::RuleWhy;
use cfg_model::{Chart, Dimension, Field, Register, Resource};
use reg_base::{LARGEST_UNITS, Name, Scale, power_of_ten};
use rule_text::{Literal, Spelling};

// What has a name.
pub(crate) trait HasName {
    ghost name_of: { Self → List ℕ };

    fn has_name(&self, name: &Name) -> bool
        ensures { result ≡ bytes_eq (name_of self.now) name.now };

    fn name(&self) -> &Name
        ensures { result.now ≡ name_of self.now };
}

impl HasName for Register {
    ghost name_of = { λ r. r.name };

    fn has_name(&self, name: &Name) -> bool {
        self.name == *name
    }

    fn name(&self) -> &Name {
        &self.name
    }
}

impl HasName for Chart {
    ghost name_of = { λ c. c.name };

    fn has_name(&self, name: &Name) -> bool {
        self.name == *name
    }

    fn name(&self) -> &Name {
        &self.name
    }
}

impl HasName for Dimension {
    ghost name_of = { λ d. d.name };

    fn has_name(&self, name: &Name) -> bool {
        self.name == *name
    }

    fn name(&self) -> &Name {
        &self.name
    }
}

impl HasName for Resource {
    ghost name_of = { λ r. r.name };

    fn has_name(&self, name: &Name) -> bool {
        self.name == *name
    }

    fn name(&self) -> &Name {
        &self.name
    }
}

impl HasName for Field {
    ghost name_of = { λ f. f.name };

    fn has_name(&self, name: &Name) -> bool {
        self.name == *name
    }

    fn name(&self) -> &Name {
        &self.name
    }
}

fn small_place(place: Option<usize>) -> Result<u8, RuleWhy>
    ensures { result ≡ small_place_of place }
{
    match place {
        Some(place) if place < 256 => Ok(place as u8),
        _ => Err(RuleWhy::UnknownName),
    }
}

// The place of the first of these that has the name.
#[tactic(auto, unfolding(crate::specs::Fields::place_of))]
pub(crate) fn place_of<N: HasName>(items: &[N], spelling: &Spelling) -> Result<u8, RuleWhy>
    ensures { result ≡ place_in N.name_of items.now spelling.now }
{
    match spelling {
        Spelling::Named(name) => small_place(position(items, name)),
        Spelling::Other => Err(RuleWhy::UnknownName),
    }
}

fn position<N: HasName>(items: &[N], name: &Name) -> Option<usize>
    ensures { result ≡ position_in (λ item. bytes_eq (N.name_of item) name.now) items.now }
{
    items.iter().position(|item| item.has_name(name))
}

// A field's place, and the scale of its numbers, which is none for a code.
#[derive(Clone, Copy)]
pub(crate) struct FieldAt {
    pub(crate) place: u8,
    pub(crate) scale: Option<Scale>,
}

#[tactic(auto, unfolding(crate::specs::Fields::resolved_field))]
pub(crate) fn resolved_field(fields: &[Field], spelling: &Spelling) -> Result<FieldAt, RuleWhy>
    ensures { result ≡ field_in fields.now spelling.now }
{
    let place = place_of(fields, spelling)?;
    match fields.get(usize::from(place)) {
        Some(field) => Ok(FieldAt {
            place,
            scale: field.scale,
        }),
        None => Err(RuleWhy::UnknownName),
    }
}

// Whether a number of the second scale stands where the first is asked for, if one is.
pub(crate) fn fits(asked: Option<Scale>, scale: Option<Scale>) -> bool
    ensures { result ≡ scale_fits asked scale }
{
    match (asked, scale) {
        (Some(asked), Some(scale)) => asked.get() == scale.get(),
        (None, Some(_)) => true,
        _ => false,
    }
}

// A field with numbers of the scale that is asked for.
#[tactic(auto, unfolding(crate::specs::Fields::resolved_number_field))]
pub(crate) fn resolved_number_field(
    fields: &[Field],
    asked: Option<Scale>,
    spelling: &Spelling,
) -> Result<u8, RuleWhy>
    ensures { result ≡ number_field_in fields.now asked spelling.now }
{
    let found = resolved_field(fields, spelling)?;
    if !fits(asked, found.scale) {
        return Err(RuleWhy::WrongType);
    }
    Ok(found.place)
}

// A field with codes.
#[tactic(auto, unfolding(crate::specs::Fields::resolved_code_field))]
pub(crate) fn resolved_code_field(fields: &[Field], spelling: &Spelling) -> Result<u8, RuleWhy>
    ensures { result ≡ code_field_in fields.now spelling.now }
{
    let found = resolved_field(fields, spelling)?;
    if found.scale.is_some() {
        return Err(RuleWhy::WrongType);
    }
    Ok(found.place)
}

// The units of a number at a scale: not more decimals than that, and not too large.
#[tactic(auto, unfolding(crate::specs::Fields::units_at))]
pub(crate) fn units_at(literal: &Literal, scale: Scale) -> Option<i64>
    ensures { result ≡ units_at_scale literal.now scale }
{
    let scale = scale.get();
    if literal.decimals > usize::from(scale) {
        return None;
    }
    let power = power_of_ten(scale - literal.decimals as u8);
    let units = literal.digits.saturating_mul(power);
    if units > LARGEST_UNITS {
        return None;
    }
    Some(units as i64)
}
