//! Opening a desk over the entries of its journal.
ghost use Rattle.std.specs.Prelude.{◌≡◌, ◌+◌, ◌≤◌, ◌<◌, ◌^◌, length, IfOk};
ghost use Rattle.cfg_model.specs.Limits.{IsWithinLimits};
ghost use Rattle.post_journal.specs.Images.{end_of_places, journal_length};
ghost use Rattle.post_journal.specs.Openings.{payloads};
ghost use Rattle.desk_words.specs.WellFormed.{IsRequest};
ghost use Rattle.desk_model.specs.Journals.{longer};
ghost use Rattle.desk_history.specs.Entries.{command_view};
ghost use Rattle.desk_core.specs.DeskViews.{IsShortChange};
ghost use Rattle.desk_core.specs.Histories.{OpensDesk};
ghost use Rattle.desk_core.specs.Invariants.{AreFewStatements};
ghost use Rattle.desk_core.specs.Replaying.{ReplaysCommand, ReplaysText, TakesOver};
ghost use Rattle.desk_core.specs.Replaying.{is_next_at, replay_tests};
ghost use Rattle.desk_model.specs.Serial.{is_drawn as is_drawn_of};

use crate::changes::stage;
use crate::clerks::{clerk_of, draws, is_allowed, is_clerk, number_of, right_of};
use crate::desk::Desk;
use crate::numbers::{keep_request, last_of};
use crate::outcome::{Change, Outcome};
use crate::room::make_room;
use crate::way::Way;
use cfg_model::Config;
use desk_history::{Command, read_entry};
use desk_words::{Acknowledgement, Request};
use post_journal::Payload;
use reg_base::Memory;
use rule_lang::Rules;
use std::alloc::Global;

/// How many records and entries the documents of a replayed journal have at the most.
pub const MOST_REPLAYED_RECORDS: u32 = 8_000_000;

/// Why a desk was not opened over the entries of a journal.
#[derive(Clone, Copy, Debug, PartialEq, Eq)]
pub enum ReplayFault {
    /// The entry of this index, from 1, is no text of an entry, or has a command that can't be
    /// replayed.
    Unreplayable { index: u32 },
    /// Out of memory.
    Memory,
}

impl Desk {
    /// The desk that the entries of a journal open, which posts by these rules: each entry is
    /// replayed behind the one before.
    pub fn open(
        alloc: Global,
        config: Config,
        rules: Rules,
        entries: &[Payload],
    ) -> Result<Desk, ReplayFault>
        requires limits { IsWithinLimits config }
        requires statements { AreFewStatements rules }
        requires long { journal_length (payloads entries.now) ≤ end_of_places }
        ensures opens { OpensDesk (record { config = config; rules = rules })
            (payloads entries.now) result }
    {
        let mut desk = Desk::new(alloc, config, rules)?;
        let mut index: u32 = 0;
        'replayed: for entry in entries {
            index += 1;
            if !desk.replay_text(alloc, entry.bytes.as_slice())? {
                return Err(ReplayFault::Unreplayable { index });
            }
        }
        Ok(desk)
    }

    // Replays the text of an entry, and says whether it could.
    fn replay_text(&mut self, alloc: Global, text: &[u8]) -> Result<bool, Memory>
        requires few { length self.old.desk.serial.documents + 1 < 2 ^ 32 }
        requires low { longer self.old.desk.journal (length text.now) ≤ end_of_places }
        ensures { IfOk result (ReplaysText text.now self.old self.new) }
    {
        match read_entry(alloc, text)? {
            Some(command) => self.replay_command(alloc, command, text.len()),
            None => Ok(false),
        }
    }

    // Replays a command whose entry has so many bytes, and says whether it could.
    fn replay_command(
        &mut self,
        alloc: Global,
        command: Command,
        entry: usize,
    ) -> Result<bool, Memory>
        requires few { length self.old.desk.serial.documents + 1 < 2 ^ 32 }
        requires low { longer self.old.desk.journal entry ≤ end_of_places }
        ensures { IfOk result (ReplaysCommand (command_view command) entry self.old self.new) }
    {
        let Command { number, request } = command;
        if !self.may_replay(number, &request) {
            return Ok(false);
        }
        match self.deed_outcome(alloc, &Way::Replayed { number }, &request)? {
            Outcome::Replies(_) => Ok(false),
            Outcome::Changes {
                change,
                acknowledgement,
            } => self.take_over(change, acknowledgement, request, entry),
        }
    }

    // Whether a command is the next change of a clerk who may make it, under a number that can be
    // drawn.
    fn may_replay(&self, number: u32, request: &Request) -> bool
        ensures { result ≡ replay_tests self.now.desk number request.now }
    {
        let clerk = clerk_of(request);
        self.is_next(request)
            && self.is_drawn(number, draws(request))
            && is_clerk(&self.config, clerk)
            && is_allowed(&self.config, clerk, right_of(request))
    }

    // Whether the number of a request is above that of its clerk's last one.
    fn is_next(&self, request: &Request) -> bool
        ensures { result ≡ is_next_at self.now.desk request.now }
    {
        let Some(number) = number_of(request) else {
            return false;
        };
        match last_of(&self.lasts, clerk_of(request).as_str()) {
            Some(last) => last.number < number,
            None => true,
        }
    }

    // Whether a number can be drawn, where one is; 0 where none is.
    fn is_drawn(&self, number: u32, draws: bool) -> bool
        ensures { result ≡ is_drawn_of self.now.desk.serial draws number }
    {
        if draws {
            number > 0 && self.store.document(number).is_none()
        } else {
            number == 0
        }
    }

    // Makes a change that is replayed, unless there are too many records with it, and says whether
    // it did.
    fn take_over(
        &mut self,
        change: Change,
        acknowledgement: Acknowledgement,
        request: Request,
        entry: usize,
    ) -> Result<bool, Memory>
        requires short { IsShortChange change }
        requires few { length self.old.desk.serial.documents + 1 < 2 ^ 32 }
        requires low { longer self.old.desk.journal entry ≤ end_of_places }
        ensures { IfOk result
            (TakesOver change acknowledgement request entry self.old self.new) }
    {
        let left = self.left_by(&change);
        if left.records > MOST_REPLAYED_RECORDS {
            return Ok(false);
        }
        make_room(&mut self.lasts)?;
        stage(&mut self.store, change)?;
        self.store.keep(0);
        self.records = left.records;
        self.top = left.top;
        self.closed = left.closed;
        self.journal += 5 + entry as u64;
        keep_request(&mut self.lasts, request, acknowledgement);
        Ok(true)
    }
}

impl From<Memory> for ReplayFault {
    ghost use Rattle.std.specs.Prelude.{◌≡◌};
    ghost use Rattle.desk_core.specs.declared.replay.ReplayFault.TheVariants as ReplayFaultIs;

    ghost from_gives = { λ _ e. e ≡ ReplayFaultIs.Memory };

    fn from(_refused: Memory) -> ReplayFault {
        ReplayFault::Memory
    }
}
