//! What a sequence asks of the statements of its document types.
ghost use Rattle.std.specs.Prelude.{◌≡◌};
ghost use Rattle.rule_lang.specs.Sequences.{is_among as is_among_names};
ghost use Rattle.rule_lang.specs.Sequences.{is_head_field as is_head_field_of};
ghost use Rattle.rule_lang.specs.Sequences.{is_dimension as is_dimension_of};
ghost use Rattle.rule_lang.specs.Sequences.{binds_head as binds_head_of};
ghost use Rattle.rule_lang.specs.Sequences.{binds_each_head as all_bound_of};
ghost use Rattle.rule_lang.specs.Sequences.{all_kept as all_kept_of};
ghost use Rattle.rule_lang.specs.Sequences.{sequence_fits as sequence_fits_of};
ghost use Rattle.rule_lang.specs.Sequences.{sequences_fit as sequences_fit_of, kept_by};
ghost use Rattle.rule_lang.specs.Sequences.{keeps_sequences as keeps_of};

use crate::{Act, Bind, BindTo, CodeTerm};
use cfg_model::{Config, Dimension, Field, Kind, Register, Sequence};
use reg_base::Name;

fn is_among(names: &[Name], name: &Name) -> bool
    ensures { result ≡ is_among_names names.now name.now }
{
    names.iter().any(|n| *n == *name)
}

// Whether the value is a field of the head that has the name.
fn is_head_field(head: &[Field], name: &Name, to: &BindTo) -> bool
    ensures { result ≡ is_head_field_of head.now name.now to.now }
{
    match to {
        BindTo::Code(CodeTerm::Head(field)) => match head.get(usize::from(*field)) {
            Some(field) => field.name == *name,
            None => false,
        },
        _ => false,
    }
}

// Whether the dimension at the place has the name.
fn is_dimension(dimensions: &[Dimension], name: &Name, place: u8) -> bool
    ensures { result ≡ is_dimension_of dimensions.now name.now place }
{
    match dimensions.get(usize::from(place)) {
        Some(dimension) => dimension.name == *name,
        None => false,
    }
}

// Whether the dimension of this name is bound to the head's field of that name.
fn binds_head(register: &Register, kind: &Kind, binds: &[Bind], name: &Name) -> bool
    ensures { result ≡ binds_head_of register.now kind.now binds.now name.now }
{
    let dimensions = register.dimensions.as_slice();
    let head = kind.head.as_slice();
    binds.iter().any(|b| is_dimension(dimensions, name, b.dimension)
        && is_head_field(head, name, &b.to))
}

// Whether each of the names is bound to the head's field of that name.
fn binds_each_head(register: &Register, kind: &Kind, binds: &[Bind], names: &[Name]) -> bool
    ensures { result ≡ all_bound_of register.now kind.now binds.now names.now }
{
    'names: for name in names {
        if !binds_head(register, kind, binds, name) {
            return false;
        }
    }
    true
}

// A statement on a register keeps the order of the sequence.
#[tactic(auto, unfolding(crate::specs::Sequences::sequence_fits))]
fn sequence_fits(
    register: &Register,
    kind: &Kind,
    binds: &[Bind],
    reads: bool,
    sequence: &Sequence,
) -> bool
    ensures { result ≡ sequence_fits_of register.now kind.now binds.now reads sequence.now }
{
    if is_among(sequence.registers.as_slice(), &register.name) {
        binds_each_head(register, kind, binds, sequence.dimensions.as_slice())
    } else {
        !reads
    }
}

// The sequence is kept, where the type stands in it.
fn is_kept(
    register: &Register,
    kind: &Kind,
    binds: &[Bind],
    reads: bool,
    sequence: &Sequence,
) -> bool
    ensures { result ≡ kept_by register.now kind.now binds.now reads sequence.now }
{
    !is_among(sequence.kinds.as_slice(), &kind.name)
        || sequence_fits(register, kind, binds, reads, sequence)
}

// Whether each of the sequences is kept.
fn all_kept(
    register: &Register,
    kind: &Kind,
    binds: &[Bind],
    reads: bool,
    sequences: &[Sequence],
) -> bool
    ensures { result ≡ all_kept_of register.now kind.now binds.now reads sequences.now }
{
    'sequences: for sequence in sequences {
        if !is_kept(register, kind, binds, reads, sequence) {
            return false;
        }
    }
    true
}

// The sequences that the type stands in are kept by a statement on this register.
#[tactic(auto, unfolding(crate::specs::Sequences::sequences_fit))]
fn sequences_fit(config: &Config, kind: &Kind, place: u8, binds: &[Bind], reads: bool) -> bool
    ensures { result ≡ sequences_fit_of config.now kind.now place binds.now reads }
{
    let Some(register) = config.registers.get(usize::from(place)) else {
        return false;
    };
    all_kept(register, kind, binds, reads, config.sequences.as_slice())
}

// The sequences that the type stands in are kept by the act.
#[tactic(auto, unfolding(crate::specs::Sequences::keeps_sequences))]
pub(crate) fn keeps_sequences(config: &Config, kind: &Kind, act: &Act) -> bool
    ensures { result ≡ keeps_of config.now kind.now act.now }
{
    match act {
        Act::Make {
            register,
            binds,
            ..
        } => sequences_fit(config, kind, *register, binds.as_slice(), false),
        Act::WriteOff {
            register,
            binds,
            ..
        } => sequences_fit(config, kind, *register, binds.as_slice(), true),
        Act::Require {
            register,
            binds,
            ..
        } => sequences_fit(config, kind, *register, binds.as_slice(), true),
        Act::Control { .. } => true,
        Act::Entry { .. } => true,
    }
}
