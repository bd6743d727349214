//! The desk: a configuration with the documents that were made.
//!
//! Kept: the documents with their records, how many records they have, the greatest number that was
//! committed, the date to which the books are closed, the last request of each clerk, and how many
//! bytes the journal has.
//!
//!     documents  [1: nail 10.000 50.00]  [2: nail -2.000 -10.00]        records  2        top  2
ghost use Rattle.std.specs.Prelude.{◌≡◌, ◌≤◌, codes, false, IfOk};
ghost use Rattle.reg_base.specs.Documents.{holder_of};
ghost use Rattle.cfg_model.specs.Limits.{IsWithinLimits};
ghost use Rattle.desk_words.specs.ReplyTexts.{HasScales};
ghost use Rattle.desk_words.specs.WellFormed.{IsRequest};
ghost use Rattle.desk_model.specs.State.{first_desk};
ghost use Rattle.desk_model.specs.Desk.{step as step_of};
ghost use Rattle.desk_model.specs.LastRequests.{last_of as last_request_of};
ghost use Rattle.desk_core.specs.BatchNumbers.{number_behind};
ghost use Rattle.desk_core.specs.Histories.{IsReady, IsUntouched, StepEnds};
ghost use Rattle.desk_core.specs.Invariants.{AreFewStatements};

use crate::numbers::{copy_request, last_of};
use crate::serving::Replied;
use cfg_model::Config;
use desk_model::{Last, replies_have_scales};
use desk_words::{Reply, Request};
use doc_store::Store;
use post_journal::Journal;
use reg_base::{Code, Date, Memory};
use reg_io::Disk;
use rule_lang::Rules;
use std::alloc::Global;
use std::marker::Model;

/// Why a step gave no reply.
#[derive(Clone, Copy, Debug, PartialEq, Eq)]
pub enum StepEnd {
    /// Out of memory; the desk, its journal and the disk are as before.
    Memory,
    /// A call of the disk failed. What the journal's file holds is known only once it is opened
    /// again: this desk does nothing more.
    DiskFault,
    /// An earlier step answered `DiskFault`.
    Closed,
}

/// A posting desk, seen as that of the machine.
#[derive(Drop)]
pub struct Desk {
    pub(crate) config: Config,
    pub(crate) rules: Rules,
    pub(crate) store: Store,
    // How many records and entries the documents have.
    pub(crate) records: u32,
    pub(crate) top: u32,
    pub(crate) closed: Date,
    pub(crate) lasts: Vec<Last>,
    // How many bytes the journal has.
    pub(crate) journal: u64,
    // Whether a fault of the disk has stopped it.
    pub(crate) stopped: bool,
}

impl Model for Desk {
    ghost use Rattle.desk_core.specs.DeskViews.{DeskView};
    ghost use Rattle.desk_core.specs.Invariants.{IsKept};

    ghost Value = { DeskView };

    ghost view = { λ d. record {
      desk = record {
        setting = record { config = d.config; rules = d.rules };
        serial = record {
          documents = d.store.documents;
          top = d.top;
          closed = d.closed;
          lasts = d.lasts.items;
        };
        journal = d.journal;
      };
      stopped = d.stopped;
    } };

    ghost invariant = { λ d. IsKept d.config d.rules d.store d.top d.records d.journal };
}

impl Desk {
    // A desk without documents, which posts by these rules.
    pub(crate) fn new(alloc: Global, config: Config, rules: Rules) -> Result<Desk, Memory>
        requires limits { IsWithinLimits config }
        requires statements { AreFewStatements rules }
        ensures { IfOk result (λ desk. desk ≡ record {
          desk = first_desk (record { config = config; rules = rules });
          stopped = false;
        }) }
    {
        let store = Store::new(alloc, 0, 0)?;
        Ok(Desk {
            config,
            rules,
            store,
            records: 0,
            top: 0,
            closed: Date::first(),
            lasts: Vec::new(alloc),
            journal: 23,
            stopped: false,
        })
    }

    /// The configuration that the desk was opened with.
    pub fn config(&self) -> &Config
        ensures value { result.now ≡ self.now.desk.setting.config }
        ensures limits { IsWithinLimits result.now }
    {
        &self.config
    }

    /// The number of the document that has this key.
    pub fn by_key(&self, key: &Code) -> Option<u32>
        ensures { result ≡ holder_of key.now self.now.desk.serial.documents }
    {
        self.store.by_key(None, key)
    }

    /// The number that the next request of the clerk `batch`, which is built in, has to have: one
    /// above its last one. At the greatest number it can only repeat.
    pub fn batch_number(&self) -> u32
        ensures { result ≡ number_behind (last_request_of (codes "batch")
            self.now.desk.serial.lasts) }
    {
        match last_of(&self.lasts, "batch") {
            Some(last) => last.number.saturating_add(1),
            None => 1,
        }
    }

    /// Whether a fault of the disk has stopped the desk.
    pub fn is_stopped(&self) -> bool
        ensures { result ≡ self.now.stopped }
    {
        self.stopped
    }

    /// Makes one event of the desk: its reply, and the desk after. What it changes is in the
    /// journal before it is answered, and all memory was taken before.
    pub fn step<D: Disk>(
        &mut self,
        alloc: Global,
        journal: &mut Journal,
        disk: &mut D,
        request: &Request,
    ) -> Result<Reply, StepEnd>
        requires read { IsRequest request.now }
        requires ready { IsReady self.old journal.old (D.state disk.old) }
        ensures ends { StepEnds (step_of self.old.desk request.now) self.old self.new
            (D.state disk.old) (D.state disk.new) (D.faults disk.old) (D.faults disk.new) result }
        ensures ready { IsReady self.new journal.new (D.state disk.new) }

        // So the reply can be printed.
        ensures scales { IfOk result HasScales }

        // Nothing was written where memory was refused, or the desk was stopped before.
        ensures untouched { IsUntouched result disk.old disk.new }
        ensures later { D.faults disk.old ≤ D.faults disk.new }
        ensures same { D.borrow_name disk.new ≡ D.borrow_name disk.old }
    {
        if self.stopped {
            return Err(StepEnd::Closed);
        }
        let kept = copy_request(alloc, request)?;
        let Replied { reply, text: _ } = self.serve(alloc, journal, disk, kept)?;
        replies_have_scales();
        Ok(reply)
    }
}

impl From<Memory> for StepEnd {
    ghost use Rattle.std.specs.Prelude.{◌≡◌};
    ghost use Rattle.desk_core.specs.declared.desk.StepEnd.TheVariants as StepEndIs;

    ghost from_gives = { λ _ e. e ≡ StepEndIs.Memory };

    fn from(_refused: Memory) -> StepEnd {
        StepEnd::Memory
    }
}
