//! A document as it is shown: its fields and its records as texts.
ghost use Rattle.std.specs.Prelude.{◌≡◌, ◌++◌, List, ℕ, map, IfOk, OnOk};
ghost use Rattle.std.specs.Option.{option_copied, option_map};
ghost use Rattle.reg_base.specs.Numbers.{sum_text};
ghost use Rattle.desk_words.specs.declared.request.RecordText.{RecordText};
ghost use Rattle.desk_words.specs.ReplyWords.{value_text as value_text_of};
ghost use Rattle.desk_words.specs.RowTexts.{sum_texts as sum_texts_of};
ghost use Rattle.desk_model.specs.Fields.{field_texts as field_texts_of};
ghost use Rattle.desk_model.specs.Shown.{shown_document as shown_document_of, kind_at};
ghost use Rattle.desk_model.specs.Shown.{head_fields as head_fields_of};
ghost use Rattle.desk_model.specs.Shown.{line_fields as line_fields_of};
ghost use Rattle.desk_model.specs.Shown.{shown_registers, shown_ledgers};
ghost use Rattle.desk_model.specs.Shown.{shown_record, shown_entry, shown_set};
ghost use Rattle.desk_plans.specs.ShownSets.{shown_spaces};

use crate::fields::field_texts;
use crate::sides::copy_side;
use cfg_model::{Chart, Config, Field, Kind, Register, Resource};
use desk_words::{FieldText, LedgerText, RecordText, RegisterText, SetText, ShownDocument};
use reg_base::{
    Cell, Doc, Document, List, Memory, Name, Posting, Rec, Scale, Sets, Text, Value, sum_string,
};
use std::alloc::Global;

/// A document with its fields and its records as texts.
pub fn shown_document(
    alloc: Global,
    config: &Config,
    document: &Document,
) -> Result<ShownDocument, Memory>
    ensures { IfOk result (λ shown. shown ≡ shown_document_of config.now document.now) }
{
    let doc = &document.doc;
    let kind = kind_of(config, doc);
    let comment = doc.comment.copy(alloc)?;
    let head = field_texts(alloc, head_fields(kind), doc.head.as_slice())?;
    let lines = line_texts(alloc, line_fields(kind), doc.lines.as_slice())?;
    let sets = shown_sets(alloc, config, &document.sets)?;
    Ok(ShownDocument {
        active: doc.active,
        comment,
        date: doc.date,
        doc: doc.number,
        head,
        key: doc.key,
        kind: kind_name(kind),
        lines,
        sets,
        state: doc.state,
    })
}

/// The name of a document's type, where it has one.
pub fn document_kind(config: &Config, document: &Document) -> Option<Name>
    ensures { result ≡ option_map (λ k. k.name) (kind_at config.now document.now.doc.kind) }
{
    kind_name(kind_of(config, &document.doc))
}

// The type of a document, where it has one.
fn kind_of<'a>(config: &'a Config, doc: &Doc) -> Option<&'a Kind>
    ensures { option_copied result ≡ kind_at config.now doc.now.kind }
{
    match doc.kind {
        Some(place) => config.kinds.get(usize::from(place)),
        None => None,
    }
}

fn kind_name(kind: Option<&Kind>) -> Option<Name>
    ensures { result ≡ option_map (λ k. k.name) (option_copied kind.entry) }
{
    match kind {
        Some(kind) => Some(kind.name),
        None => None,
    }
}

// The fields of a type's head, none where there is no type.
fn head_fields<'a>(kind: Option<&'a Kind>) -> &'a [Field]
    ensures { result.now ≡ head_fields_of (option_copied kind.entry) }
{
    match kind {
        Some(kind) => kind.head.as_slice(),
        None => &[],
    }
}

// The fields of a type's lines, none where there is no type.
fn line_fields<'a>(kind: Option<&'a Kind>) -> &'a [Field]
    ensures { result.now ≡ line_fields_of (option_copied kind.entry) }
{
    match kind {
        Some(kind) => kind.lines.as_slice(),
        None => &[],
    }
}

// The texts of the fields of each line.
fn line_texts(
    alloc: Global,
    fields: &[Field],
    lines: &[List<Cell>],
) -> Result<List<List<FieldText>>, Memory>
    ensures { IfOk result (λ texts. texts ≡ map (field_texts_of fields.now) lines.now) }
{
    let mut texts = List::new(alloc);
    for line in lines {
        texts.push(field_texts(alloc, fields, line.as_slice())?)?;
    }
    Ok(texts)
}

// The sets of registers and of ledgers that have records.
fn shown_sets(alloc: Global, config: &Config, sets: &Sets) -> Result<List<SetText>, Memory>
    ensures { IfOk result (λ shown. shown ≡
        shown_registers config.now.registers sets.now.registers
        ++ shown_ledgers config.now.ledgers sets.now.ledgers) }
{
    let mut shown = List::new(alloc);
    put_sets(
        alloc,
        config.registers.as_slice(),
        sets.registers.as_slice(),
        &mut shown,
    )?;
    put_sets(
        alloc,
        config.ledgers.as_slice(),
        sets.ledgers.as_slice(),
        &mut shown,
    )?;
    Ok(shown)
}

// A register or a ledger, as its records of type `R` are shown.
trait Shows<R> {
    ghost name_of: { Self → List ℕ };

    ghost text_of: { Self → R → RecordText };

    fn name(&self) -> Name
        ensures { result ≡ name_of self.now };

    fn show(&self, alloc: Global, item: &R) -> Result<RecordText, Memory>
        ensures { IfOk result (λ text. text ≡ text_of self.now item.now) };
}

impl Shows<Rec> for Register {
    ghost name_of = { λ register. register.name };

    ghost text_of = { shown_record };

    fn name(&self) -> Name {
        self.name
    }

    fn show(&self, alloc: Global, rec: &Rec) -> Result<RecordText, Memory> {
        let sums = sum_texts(alloc, self.resources.as_slice(), rec.sums.as_slice())?;
        let values = value_texts(alloc, rec.values.as_slice())?;
        Ok(RecordText::Register(RegisterText {
            mark: rec.mark,
            sums,
            values,
        }))
    }
}

impl Shows<Posting> for Chart {
    ghost name_of = { λ chart. chart.name };

    ghost text_of = { shown_entry };

    fn name(&self) -> Name {
        self.name
    }

    fn show(&self, alloc: Global, posting: &Posting) -> Result<RecordText, Memory> {
        let amount = number_text(alloc, posting.amount, self.scale)?;
        let debit = copy_side(alloc, &posting.debit)?;
        let credit = copy_side(alloc, &posting.credit)?;
        Ok(RecordText::Ledger(LedgerText {
            amount,
            debit,
            credit,
        }))
    }
}

// Puts the sets that have records behind those that are shown, each under the name of its space.
fn put_sets<R, S: Shows<R>>(
    alloc: Global,
    spaces: &[S],
    sets: &[List<R>],
    shown: &mut List<SetText>,
) -> Result<(), Memory>
    ensures { OnOk result
        (shown.new ≡ shown.old ++ shown_spaces S.name_of S.text_of spaces.now sets.now) }
{
    'spaces: for (space, set) in spaces.iter().zip(sets) {
        put_set(alloc, space, set.as_slice(), shown)?;
    }
    Ok(())
}

fn put_set<R, S: Shows<R>>(
    alloc: Global,
    space: &S,
    set: &[R],
    shown: &mut List<SetText>,
) -> Result<(), Memory>
    ensures { OnOk result (shown.new ≡ shown.old
        ++ shown_set (S.name_of space.now) (map (S.text_of space.now) set.now)) }
{
    if set.is_empty() {
        return Ok(());
    }
    let records = record_texts(alloc, space, set)?;
    shown.push(SetText {
        space: space.name(),
        records,
    })?;
    Ok(())
}

fn record_texts<R, S: Shows<R>>(
    alloc: Global,
    space: &S,
    set: &[R],
) -> Result<List<RecordText>, Memory>
    ensures { IfOk result (λ texts. texts ≡ map (S.text_of space.now) set.now) }
{
    let mut texts = List::new(alloc);
    'records: for item in set {
        texts.push(space.show(alloc, item)?)?;
    }
    Ok(texts)
}

// The sums of a record as texts, each with the decimals of the resource in its place.
fn sum_texts(alloc: Global, resources: &[Resource], sums: &[i64]) -> Result<List<Text>, Memory>
    ensures { IfOk result (λ texts.
        texts ≡ sum_texts_of (map (λ x. x.scale) resources.now) sums.now) }
{
    let mut texts = List::new(alloc);
    'sums: for (resource, sum) in resources.iter().zip(sums) {
        texts.push(number_text(alloc, *sum, resource.scale)?)?;
    }
    Ok(texts)
}

// The text of a number with the decimals of its scale.
fn number_text(alloc: Global, units: i64, scale: Scale) -> Result<Text, Memory>
    ensures { IfOk result (λ text. text ≡ sum_text units scale) }
{
    let text = sum_string(alloc, i128::from(units), scale.get())?;
    Ok(Text::from_string(text))
}

fn value_texts(alloc: Global, values: &[Value]) -> Result<List<Text>, Memory>
    ensures { IfOk result (λ texts. texts ≡ map value_text_of values.now) }
{
    let mut texts = List::new(alloc);
    'values: for value in values {
        texts.push(value_text(alloc, value)?)?;
    }
    Ok(texts)
}

// A code as it is, a lot as its point.
fn value_text(alloc: Global, value: &Value) -> Result<Text, Memory>
    ensures { IfOk result (λ text. text ≡ value_text_of value.now) }
{
    match value {
        Value::Code(code) => Ok(Text::from_str(alloc, code.as_str())?),
        Value::Lot(point) => Ok(Text::from_string(point.to_text(alloc)?)),
    }
}
