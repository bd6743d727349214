//! Serving a request: all memory first, then the append, then the desk.
ghost use Rattle.std.specs.Prelude.{◌≡◌, ◌≤◌, ◌∷◌, [], false, Some, IfOk};
ghost use Rattle.std.specs.Option.{ForSome};
ghost use Rattle.desk_words.specs.ReplyTexts.{HasScales};
ghost use Rattle.desk_words.specs.WellFormed.{IsRequest};
ghost use Rattle.desk_model.specs.Desk.{command_at, step as step_of};
ghost use Rattle.desk_model.specs.Journals.{commands_text};
ghost use Rattle.desk_model.specs.Laws.{AreNumbered};
ghost use Rattle.desk_history.specs.Histories.{AreFew};
ghost use Rattle.desk_core.specs.DeskViews.{MayEnter};
ghost use Rattle.desk_core.specs.Histories.{Holds, IsReady, IsUntouched, StandsFor};
ghost use Rattle.desk_core.specs.Outcomes.{Prepares};
ghost use Rattle.desk_core.specs.Serving.{CommitEnds, ServeEnds};

use crate::changes::stage;
use crate::clerks::draws;
use crate::desk::{Desk, StepEnd};
use crate::numbers::keep_request;
use crate::outcome::{Entry, Outcome, Prepared, prepare_change, prepare_reply};
use crate::room::make_room;
use crate::way::Way;
use desk_history::{accepted_requests_are_replayed, print_entry};
use desk_model::{refusals_change_nothing, replies_have_scales};
use desk_words::{Reply, Request};
use post_journal::{Journal, Payload};
use reg_base::{List, Memory};
use reg_io::Disk;
use std::alloc::Global;

/// A reply with its text.
#[derive(Drop)]
pub struct Replied {
    pub reply: Reply,
    /// The reply's text with a line feed.
    pub text: Vec<u8>,
}

impl Desk {
    /// What a request would be answered now. Nothing changes: it is for questions, which change
    /// nothing anyway.
    pub fn look(&self, alloc: Global, request: &Request) -> Result<Reply, Memory>
        requires { IsRequest request.now }
        ensures reply { IfOk result
            (λ reply. reply ≡ (step_of self.now.desk request.now).reply) }

        // So the reply can be printed.
        ensures scales { IfOk result HasScales }
    {
        let Prepared {
            reply,
            text: _,
            entry: _,
        } = self.prepare(alloc, request)?;
        replies_have_scales();
        Ok(reply)
    }

    // Makes one event of a desk that is not stopped.
    pub(crate) fn serve<D: Disk>(
        &mut self,
        alloc: Global,
        journal: &mut Journal,
        disk: &mut D,
        request: Request,
    ) -> Result<Replied, StepEnd>
        requires read { IsRequest request }
        requires going { self.old.stopped ≡ false }
        requires holds { Holds self.old.desk journal.old (D.state disk.old) }
        ensures ends { ServeEnds (step_of self.old.desk request) self.old self.new
            (D.state disk.old) (D.state disk.new) (D.faults disk.old) (D.faults disk.new) result }
        ensures ready { IsReady self.new journal.new (D.state disk.new) }
        ensures untouched { IsUntouched result disk.old disk.new }
        ensures later { D.faults disk.old ≤ D.faults disk.new }
        ensures same { D.borrow_name disk.new ≡ D.borrow_name disk.old }
    {
        self.keeps_numbers();
        self.keeps_few();
        accepted_requests_are_replayed();
        let Prepared { reply, text, entry } = self.prepare(alloc, &request)?;
        self.enter(journal, disk, entry, request)?;
        Ok(Replied { reply, text })
    }

    // The documents have numbers up to the greatest one.
    fn keeps_numbers(&self)
        ensures { AreNumbered self.now.desk.serial }
    {
        let _ = &self.config;
    }

    // They have no more records than a replayed state has.
    fn keeps_few(&self)
        ensures { AreFew self.now.desk.serial }
    {
        let _ = &self.config;
    }

    // Takes all memory of a request but the room of its entry, and changes nothing.
    fn prepare(&self, alloc: Global, request: &Request) -> Result<Prepared, Memory>
        requires { IsRequest request.now }
        ensures { IfOk result
            (Prepares self.now.desk request.now (step_of self.now.desk request.now)) }
    {
        let entry = self.entry_text(alloc, request)?;
        match self.outcome(alloc, entry.bytes.len(), request)? {
            Outcome::Replies(reply) => {
                replies_have_scales();
                prepare_reply(alloc, reply)
            }
            Outcome::Changes {
                change,
                acknowledgement,
            } => prepare_change(alloc, change, &acknowledgement, entry),
        }
    }

    // The text of a request's entry.
    fn entry_text(&self, alloc: Global, request: &Request) -> Result<Payload, Memory>
        ensures { IfOk result (λ entry. entry.bytes
            ≡ commands_text (command_at self.now.desk request.now ∷ [])) }
    {
        let number = if draws(request) {
            self.new_number(&Way::Served { entry: 0 })
        } else {
            0
        };
        let text = print_entry(alloc, number, request)?;
        Ok(Payload {
            bytes: List::from_vec(text),
        })
    }

    // Commits what is left of a request, where something is.
    fn enter<D: Disk>(
        &mut self,
        journal: &mut Journal,
        disk: &mut D,
        entry: Option<Entry>,
        request: Request,
    ) -> Result<(), StepEnd>
        requires going { self.old.stopped ≡ false }
        requires stands { StandsFor self.old.desk journal.old (D.state disk.old) }
        requires may { ForSome entry (MayEnter self.old.desk) }
        ensures commits { CommitEnds request entry self.old self.new journal.new (D.state disk.old)
            (D.state disk.new) (D.faults disk.old) (D.faults disk.new) result }
        ensures untouched { IsUntouched result disk.old disk.new }
        ensures later { D.faults disk.old ≤ D.faults disk.new }
        ensures same { D.borrow_name disk.new ≡ D.borrow_name disk.old }
    {
        match entry {
            Some(entry) => self.commit(journal, disk, entry, request),
            None => Ok(()),
        }
    }

    // Appends an entry to the journal, and makes its change. All memory is taken before, and behind
    // the append nothing can fail.
    fn commit<D: Disk>(
        &mut self,
        journal: &mut Journal,
        disk: &mut D,
        entry: Entry,
        request: Request,
    ) -> Result<(), StepEnd>
        requires going { self.old.stopped ≡ false }
        requires stands { StandsFor self.old.desk journal.old (D.state disk.old) }
        requires may { MayEnter self.old.desk entry }
        ensures commits { CommitEnds request (Some entry) self.old self.new journal.new
            (D.state disk.old) (D.state disk.new) (D.faults disk.old) (D.faults disk.new) result }
        ensures untouched { IsUntouched result disk.old disk.new }
        ensures later { D.faults disk.old ≤ D.faults disk.new }
        ensures same { D.borrow_name disk.new ≡ D.borrow_name disk.old }
    {
        let Entry {
            change,
            acknowledgement,
            text,
        } = entry;
        let left = self.left_by(&change);
        make_room(&mut self.lasts)?;
        journal.room(&text)?;
        stage(&mut self.store, change)?;
        if journal.append(disk, &text).is_err() {
            self.store.drop_slot(0);
            self.stopped = true;
            return Err(StepEnd::DiskFault);
        }
        self.store.keep(0);
        self.records = left.records;
        self.top = left.top;
        self.closed = left.closed;
        self.journal += 5 + text.bytes.len() as u64;
        keep_request(&mut self.lasts, request, acknowledgement);
        Ok(())
    }
}
