//! What `write` says of a document, and the document that it makes.
ghost use Rattle.std.specs.Prelude.{◌≡◌, ◌≤◌, length, IfOk};
ghost use Rattle.reg_base.specs.Results.{each};
ghost use Rattle.desk_model.specs.Fields.{cells_of as cells_of_texts};
ghost use Rattle.desk_model.specs.Writes.{content_of as content_in};
ghost use Rattle.desk_model.specs.Writes.{content_doc as content_doc_of};
ghost use Rattle.desk_model.specs.Writes.{plan_content as plan_of_content};
ghost use Rattle.desk_model.specs.Writes.{kind_of_request as place_of_kind};
ghost use Rattle.desk_model.specs.Writes.{keeps_kind as keeps_kind_of, is_kind as is_kind_of};
ghost use Rattle.desk_plans.specs.Bounds.{GivesNumbers};
ghost use Rattle.desk_plans.specs.Contents.{content_view};
ghost use Rattle.desk_plans.specs.Sights.{sight_view, RemovesOne, Suits};
ghost use Rattle.reg_base.specs.Tries.{Tries, TriesAs};

use crate::copies::comment_or_empty;
use crate::fields::cells_of;
use crate::given::wrong;
use crate::sight::Sight;
use crate::states::{dates_are_open, key_is_free, key_with, number_with};
use crate::tried::Tried;
use cfg_model::{Config, Field};
use desk_model::{Plan, Source};
use desk_words::{Field as WrongField, FieldText, Write};
use reg_base::{Cell, Doc, DocState, List, Memory, Name};
use std::alloc::Global;

// What a request says of a document: its type by place, and the values of its head and its lines.
#[derive(Drop)]
pub(crate) struct Content {
    pub place: u8,
    pub head: List<Cell>,
    pub lines: List<List<Cell>>,
}

// The content of a request, or the first of its fields that is wrong.
#[tactic(auto, unfolding(desk_model::specs::Writes::content_of))]
pub(crate) fn content_of(
    alloc: Global,
    config: &Config,
    write: &Write,
    sight: &Sight<'_>,
) -> Tried<Content>
    requires kinds { length config.now.kinds ≤ 64 }
    ensures { TriesAs content_view result
        (content_in config.now write.now (sight_view sight.now).before) }
{
    let place = kind_of_request(config, &write.kind, sight)?;
    let Some(kind) = config.kinds.get(place) else {
        return Err(wrong(WrongField::Kind));
    };
    let head = cells_of(alloc, kind.head.as_slice(), write.head.as_slice())?;
    let lines = read_lines(alloc, kind.lines.as_slice(), write.lines.as_slice())?;
    Ok(Content {
        place: place as u8,
        head,
        lines,
    })
}

// The place of the type that a request names: one of the configuration, and the document's own.
#[tactic(auto, unfolding(desk_model::specs::Writes::kind_of_request))]
fn kind_of_request(config: &Config, name: &Name, sight: &Sight<'_>) -> Tried<usize>
    ensures { Tries result
        (place_of_kind config.now name.now (sight_view sight.now).before) }
{
    let Some(place) = config.kind_place(name) else {
        return Err(wrong(WrongField::Kind));
    };
    if !keeps_kind(place, sight) {
        return Err(wrong(WrongField::Kind));
    }
    Ok(place)
}

// Whether a document that was there is of this type.
fn keeps_kind(place: usize, sight: &Sight<'_>) -> bool
    ensures { result ≡ keeps_kind_of place (sight_view sight.now).before }
{
    match sight.before {
        Some(document) => is_kind(place, document.doc.kind),
        None => true,
    }
}

fn is_kind(place: usize, kind: Option<u8>) -> bool
    ensures { result ≡ is_kind_of place kind }
{
    match kind {
        Some(stored) => usize::from(stored) == place,
        None => false,
    }
}

// The values of each line's fields.
fn read_lines(alloc: Global, fields: &[Field], texts: &[List<FieldText>]) -> Tried<List<List<Cell>>>
    ensures { Tries result (each (cells_of_texts fields.now) texts.now) }
{
    let mut lines = Vec::new(alloc);
    'texts: for line in texts {
        let cells = cells_of(alloc, fields, line.as_slice())?;
        lines.push(cells)?;
    }
    Ok(List::from_vec(lines))
}

// What a request makes of its content, in this state and with records from there, or the first of
// its refusals.
#[tactic(auto, unfolding(desk_model::specs::Writes::plan_content))]
pub(crate) fn plan_content(
    alloc: Global,
    config: &Config,
    write: &Write,
    sight: &Sight<'_>,
    state: DocState,
    source: Source,
) -> Tried<Plan>
    requires kinds { length config.now.kinds ≤ 64 }
    requires stays { RemovesOne (sight_view sight.now).before source }
    requires given { GivesNumbers source }
    ensures value { Tries result
        (plan_of_content state source config.now write.now (sight_view sight.now)) }
    ensures suits { IfOk result (Suits (sight_view sight.now)) }
{
    let content = content_of(alloc, config, write, sight)?;
    key_is_free(sight)?;
    dates_are_open(sight, write.date)?;
    let doc = content_doc(alloc, state, write, sight, content)?;
    Ok(Plan { doc, source })
}

// The document that a request makes, or whose place its own takes: active, in this state.
fn content_doc(
    alloc: Global,
    state: DocState,
    write: &Write,
    sight: &Sight<'_>,
    content: Content,
) -> Result<Doc, Memory>
    ensures { IfOk result (λ doc. doc
        ≡ content_doc_of state write.now (sight_view sight.now) (content_view content)) }
{
    let comment = comment_or_empty(alloc, &write.comment)?;
    let Content { place, head, lines } = content;
    Ok(Doc {
        number: number_with(sight),
        kind: Some(place),
        date: write.date,
        head,
        lines,
        comment,
        key: key_with(&write.key, sight),
        state,
        active: true,
    })
}
