//! The groups of a file, while its rows are read.
//!
//! Kept: the groups whose rows have all come; the content of the last one with its first row, which
//! its other rows must agree with; and the set of all keys, so that a row costs one search.
ghost use Rattle.std.specs.Prelude.{◌≡◌, ℕ, true, false, not, List as ListOf, [], IfOk, OnOk, map};
ghost use Rattle.std.specs.Prelude.{None as Absent, reverse, if◌then◌else◌};
ghost use Rattle.std.specs.List.{AllByRecursion};
ghost use Rattle.std.specs.Str.{bytes_eq};
ghost use Rattle.csv.specs.Records.{fields_of};
ghost use Rattle.reg_base.specs.Results.{Gives};
ghost use Rattle.csv_groups.specs.Cells.{are_utf8, first_unread};
ghost use Rattle.csv_groups.specs.Columns.{HasPlaces};
ghost use Rattle.csv_groups.specs.Groups.{RowGroup, row_key, is_of_group, with_row, check_row};
ghost use Rattle.csv_groups.specs.Groups.{check_place, check_head as check_head_of, group_in};
ghost use Rattle.csv_groups.specs.Requests.{IsBatchPost, IsBatchContent};
ghost use Rattle.csv_groups.specs.Standing.{StandsFor, StandsForLast, has_key_in, is_last_key};
ghost use Rattle.csv_groups.specs.Standing.{with_last, longer};
ghost use Rattle.csv_groups.specs.declared.fault.RowFault.TheVariants.{Memory as WantOfMemory};

use crate::column::Part;
use crate::columns::Columns;
use crate::fault::{RowFault, RowWhy};
use crate::fields::fields_in;
use crate::group::Group;
use crate::rows::{check_cells, check_head, content_in, key_in};
use csv::StringRecord;
use desk_words::{Post, Request, Write};
use reg_base::{Code, List, Memory};
use std::alloc::Global;
use std::collections::BTreeSet;

// The last group so far.
#[derive(Drop)]
pub(crate) struct Open {
    pub key: Code,
    pub first: StringRecord,
    pub content: Write,
}

// The groups so far.
#[derive(Drop)]
pub(crate) struct Groups {
    pub whole: List<Group>,
    pub last: Option<Open>,
    pub keys: BTreeSet<Code>,
}

impl Groups {
    // No groups.
    pub(crate) fn new(alloc: Global, columns: &Columns) -> Groups
        ensures { StandsFor columns.now result [] }
    {
        let _ = columns;
        Groups {
            whole: List::new(alloc),
            last: None,
            keys: BTreeSet::new(alloc),
        }
    }

    // Adds a row to the last group, or begins a new one with it.
    #[tactic(auto, unfolding(crate::specs::Groups::check_row))]
    pub(crate) fn add(
        &mut self,
        alloc: Global,
        columns: &Columns,
        row: u32,
        cells: StringRecord,
    ) -> Result<(), RowFault>
        requires places { HasPlaces columns.now }
        requires texts { are_utf8 (fields_of cells) ≡ true }
        ensures read { (groups : ListOf RowGroup) → StandsFor columns.now self.old groups
            → Gives WantOfMemory result (check_row columns.now groups row (fields_of cells)) }
        ensures ok { (groups : ListOf RowGroup) → StandsFor columns.now self.old groups
            → OnOk result (StandsFor columns.now self.new
            (with_row columns.now (fields_of cells) groups)) }
    {
        check_cells(alloc, columns, row, &cells)?;
        let key = key_in(columns, &cells);
        if self.is_of_last(&key) {
            self.go_on(alloc, columns, row, &cells)
        } else {
            self.begin(alloc, columns, row, key, cells)
        }
    }

    // Whether the last group has this key.
    fn is_of_last(&self, key: &Code) -> bool
        ensures { result ≡ is_last_key self.now.last key.now }
    {
        match &self.last {
            Some(last) => last.key == *key,
            None => false,
        }
    }

    // Adds a row to the last group, which has its key.
    fn go_on(
        &mut self,
        alloc: Global,
        columns: &Columns,
        row: u32,
        cells: &StringRecord,
    ) -> Result<(), RowFault>
        requires { is_last_key self.old.last (row_key columns.now (fields_of cells.now)) ≡ true }
        ensures read { (groups : ListOf RowGroup) → StandsFor columns.now self.old groups
            → Gives WantOfMemory result (check_place columns.now groups row (fields_of cells.now)) }
        ensures ok { (groups : ListOf RowGroup) → StandsFor columns.now self.old groups
            → OnOk result (StandsFor columns.now self.new
            (with_row columns.now (fields_of cells.now) groups)) }
    {
        match &mut self.last {
            Some(last) => last.add(alloc, columns, row, cells),
            None => Ok(()),
        }
    }

    // Begins a group with its first row.
    fn begin(
        &mut self,
        alloc: Global,
        columns: &Columns,
        row: u32,
        key: Code,
        cells: StringRecord,
    ) -> Result<(), RowFault>
        requires places { HasPlaces columns.now }
        requires texts { are_utf8 (fields_of cells) ≡ true }
        requires reads { first_unread (fields_of cells) 0 columns.now.all ≡ Absent }
        requires key { key ≡ row_key columns.now (fields_of cells) }
        requires other { is_last_key self.old.last key ≡ false }
        ensures read { (groups : ListOf RowGroup) → StandsFor columns.now self.old groups
            → Gives WantOfMemory result (check_place columns.now groups row (fields_of cells)) }
        ensures ok { (groups : ListOf RowGroup) → StandsFor columns.now self.old groups
            → OnOk result (StandsFor columns.now self.new
            (with_row columns.now (fields_of cells) groups)) }
    {
        if !put_key(&mut self.keys, key)? {
            return Err(RowFault::Refused {
                row,
                why: RowWhy::Scattered,
            });
        }
        let content = content_in(alloc, columns, key, &cells)?;
        let begun = Open {
            key,
            first: cells,
            content,
        };
        let before = self.last.replace(begun);
        Ok(close(&mut self.whole, before)?)
    }

    // All groups, in the order of the file.
    pub(crate) fn finish(self, columns: &Columns) -> Result<List<Group>, Memory>
        ensures value { (groups : ListOf RowGroup) → StandsFor columns.now self groups
            → IfOk result (λ all. all ≡ reverse (map (group_in columns.now) groups)) }
        ensures posts { (groups : ListOf RowGroup) → StandsFor columns.now self groups
            → IfOk result (λ all. AllByRecursion IsBatchPost all) }
    {
        let _ = columns;
        let Groups {
            mut whole,
            last,
            keys: _,
        } = self;
        close(&mut whole, last)?;
        Ok(whole)
    }
}

impl Open {
    // Adds a row that agrees with the first one.
    fn add(
        &mut self,
        alloc: Global,
        columns: &Columns,
        row: u32,
        cells: &StringRecord,
    ) -> Result<(), RowFault>
        ensures read { Gives WantOfMemory result (check_head_of columns.now row
            (fields_of self.old.first) (fields_of cells.now)) }
        ensures ok { (group : RowGroup) → StandsForLast columns.now self.old group
            → OnOk result (StandsForLast columns.now self.new
            (longer group (fields_of cells.now))) }
    {
        check_head(alloc, columns, row, &self.first, cells)?;
        let line = fields_in(alloc, Part::Line, columns, cells)?;
        self.content.lines.push(line)?;
        Ok(())
    }
}

// Puts a group whose rows have all come, if there is one, behind the others.
fn close(whole: &mut List<Group>, last: Option<Open>) -> Result<(), Memory>
    ensures { OnOk result (whole.new ≡ with_last whole.old last) }
{
    if let Some(last) = last {
        whole.push(Group {
            key: last.key,
            request: Request::Post(Post::Content(last.content)),
        })?;
    }
    Ok(())
}

// Puts a key among those that came, and says whether it is a new one.
fn put_key(keys: &mut BTreeSet<Code>, key: Code) -> Result<bool, Memory>
    ensures new { IfOk result (λ is_new. is_new ≡ not (has_key_in key keys.old.keys)) }
    ensures keys { IfOk result (λ _. (q : ListOf ℕ) → has_key_in q keys.new.keys
        ≡ (if bytes_eq key q then true else has_key_in q keys.old.keys)) }
{
    Ok(keys.insert(key)?)
}
