//! The columns that a file may have.
ghost use Rattle.std.specs.Prelude.{◌≡◌, IfOk};
ghost use Rattle.csv_groups.specs.Columns.{column_text, same_column, field_named, has_field_of};
ghost use Rattle.csv_groups.specs.Columns.{part_of, part_fields, part_column, is_part_field};
ghost use Rattle.csv_groups.specs.Columns.{field_column, column_of};

use cfg_model::{Config, Field, Kind};
use reg_base::{Memory, Name, Text, join_texts};
use std::alloc::Global;

// What a column holds.
#[derive(Drop)]
pub(crate) enum Column {
    Key,
    Kind,
    Date,
    Comment,
    Head(Name),
    Line(Name),
}

// Whose fields are meant: those of a head or those of a line.
#[derive(Clone, Copy)]
pub(crate) enum Part {
    Head,
    Line,
}

impl Part {
    // The part of a word.
    fn named(word: &str) -> Option<Part>
        ensures { result ≡ part_of word.now }
    {
        match word {
            "head" => Some(Part::Head),
            "line" => Some(Part::Line),
            _ => None,
        }
    }

    // The fields that a document type has in the part.
    fn fields(self, kind: &Kind) -> &[Field]
        ensures { result.now ≡ part_fields self kind.now }
    {
        match self {
            Part::Head => kind.head.as_slice(),
            Part::Line => kind.lines.as_slice(),
        }
    }

    // The column of a field of the part.
    fn column(self, name: Name) -> Column
        ensures { result ≡ part_column self name }
    {
        match self {
            Part::Head => Column::Head(name),
            Part::Line => Column::Line(name),
        }
    }
}

impl Column {
    // The column that a text of the header names, where there is one.
    #[tactic(auto, unfolding(crate::specs::Columns::column_of))]
    pub(crate) fn named(config: &Config, text: &str) -> Option<Column>
        ensures { result ≡ column_of config.now text.now }
    {
        match text {
            "key" => Some(Column::Key),
            "kind" => Some(Column::Kind),
            "date" => Some(Column::Date),
            "comment" => Some(Column::Comment),
            _ => field_column(config, text),
        }
    }

    // Whether it is the same column.
    pub(crate) fn is_same(&self, other: &Column) -> bool
        ensures { result ≡ same_column self.now other.now }
    {
        match (self, other) {
            (Column::Key, Column::Key) => true,
            (Column::Kind, Column::Kind) => true,
            (Column::Date, Column::Date) => true,
            (Column::Comment, Column::Comment) => true,
            (Column::Head(a), Column::Head(b)) => a == b,
            (Column::Line(a), Column::Line(b)) => a == b,
            _ => false,
        }
    }

    // The text of the column in a header.
    pub(crate) fn text(&self, alloc: Global) -> Result<Text, Memory>
        ensures { IfOk result (λ text. text ≡ column_text self.now) }
    {
        match self {
            Column::Key => Ok(Text::from_str(alloc, "key")?),
            Column::Kind => Ok(Text::from_str(alloc, "kind")?),
            Column::Date => Ok(Text::from_str(alloc, "date")?),
            Column::Comment => Ok(Text::from_str(alloc, "comment")?),
            Column::Head(name) => Ok(Text::from_string(join_texts(alloc, "head.", name.as_str())?)),
            Column::Line(name) => Ok(Text::from_string(join_texts(alloc, "line.", name.as_str())?)),
        }
    }

    // The field of the part that the column holds, where it holds one.
    pub(crate) fn field(&self, part: Part) -> Option<Name>
        ensures { result ≡ field_named part self.now }
    {
        match (part, self) {
            (Part::Head, Column::Head(name)) => Some(*name),
            (Part::Line, Column::Line(name)) => Some(*name),
            _ => None,
        }
    }
}

// The column of a text such as `head.customer`.
#[tactic(auto, unfolding(crate::specs::Columns::field_column))]
fn field_column(config: &Config, text: &str) -> Option<Column>
    ensures { result ≡ field_column config.now text.now }
{
    let (word, name) = text.split_once('.')?;
    let part = Part::named(word)?;
    let name = Name::parse(name)?;
    if is_part_field(config, part, &name) {
        Some(part.column(name))
    } else {
        None
    }
}

// Whether some document type has a field of this name in the part.
fn is_part_field(config: &Config, part: Part, name: &Name) -> bool
    ensures { result ≡ is_part_field config.now part name.now }
{
    let kinds = config.kinds.as_slice();
    kinds.iter().any(|kind| has_field(part.fields(kind), name))
}

// Whether one of the fields has this name.
fn has_field(fields: &[Field], name: &Name) -> bool
    ensures { result ≡ has_field_of fields.now name.now }
{
    fields.iter().any(|field| field.name == *name)
}
