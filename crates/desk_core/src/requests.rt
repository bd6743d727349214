//! What a request comes to: who asks is looked at, then its number, then what it does.
ghost use Rattle.std.specs.Prelude.{◌≡◌, IfOk, Result};
ghost use Rattle.desk_words.specs.WellFormed.{IsRequest};
ghost use Rattle.desk_model.specs.Stops.{Stop, or_stop};
ghost use Rattle.desk_model.specs.Desk.{effect_at, entry_length};
ghost use Rattle.desk_core.specs.Outcomes.{Comes, IsEntered, as_outcome, closing_effect};
ghost use Rattle.desk_core.specs.Ways.{deed_in};
ghost use Rattle.desk_core.specs.declared.way.Way.TheVariants.{Served};

use crate::clerks::{clerk_of, is_allowed, is_clerk, right_of};
use crate::desk::Desk;
use crate::numbers::number_reply;
use crate::outcome::{Outcome, close_outcome, refusal_outcome};
use crate::way::Way;
use desk_words::{Refusal, Reply, Request};
use reg_base::{Date, Memory};
use std::alloc::Global;

impl Desk {
    // What the request comes to, before anything is committed; its entry has so many bytes.
    #[tactic(auto, unfolding(desk_model::specs::Serial::effect_of))]
    pub(crate) fn outcome(
        &self,
        alloc: Global,
        entry: usize,
        request: &Request,
    ) -> Result<Outcome, Memory>
        requires read { IsRequest request.now }
        requires entry { entry ≡ entry_length self.now.desk request.now }
        ensures comes { IfOk result
            (Comes (Served entry) self.now.desk (effect_at self.now.desk request.now)) }
        ensures entered { IfOk result (IsEntered self.now.desk request.now) }
    {
        let clerk = clerk_of(request);
        if !is_clerk(&self.config, clerk) {
            return Ok(refusal_outcome(Refusal::UnknownClerk));
        }
        let right = right_of(request);
        if !is_allowed(&self.config, clerk, right) {
            return Ok(refusal_outcome(Refusal::NotAllowed { right }));
        }
        match number_reply(alloc, &self.lasts, request)? {
            Some(reply) => Ok(Outcome::Replies(reply)),
            None => self.deed_outcome(alloc, &Way::Served { entry }, request),
        }
    }

    // What the request does, once its clerk, his right and its number were asked.
    pub(crate) fn deed_outcome(
        &self,
        alloc: Global,
        way: &Way,
        request: &Request,
    ) -> Result<Outcome, Memory>
        ensures comes { (tested : Result (Unit {0}) Stop) → IfOk result (Comes way.now self.now.desk
            (or_stop (deed_in way.now tested self.now.desk request.now))) }
        ensures entered { IfOk result (IsEntered self.now.desk request.now) }
    {
        match request {
            Request::Write(write) => self.write_outcome(alloc, way, write),
            Request::Post(post) => self.post_outcome(alloc, way, post),
            Request::Unpost(document) => self.unpost_outcome(alloc, way, document),
            Request::Mark(switch) => self.mark_outcome(alloc, way, switch),
            Request::Manual(manual) => self.manual_outcome(alloc, way, manual),
            Request::Activity(switch) => self.activity_outcome(alloc, way, switch),
            Request::Close(close) => Ok(self.closing_outcome(way, close.date)),
            Request::Sweep(sweep) => self.sweep_outcome(alloc, way, sweep),
            Request::Balance(question) => replied(self.balance_reply(alloc, question)),
            Request::Turnovers(question) => replied(self.turnovers_reply(alloc, question)),
            Request::Both(question) => replied(self.both_reply(alloc, question)),
            Request::AccountBalance(question) => replied(self.account_balance_reply(
                alloc, question,
            )),
            Request::AccountTurnovers(question) => replied(self.account_turnovers_reply(
                alloc, question,
            )),
            Request::AccountBoth(question) => replied(self.account_both_reply(alloc, question)),
            Request::DrCr(question) => replied(self.pairs_reply(alloc, question)),
            Request::Documents(question) => replied(self.documents_reply(alloc, question)),
            Request::Doc(question) => replied(self.show_reply(alloc, question)),
        }
    }

    // What it comes to that the books are to be closed before a date.
    fn closing_outcome(&self, way: &Way, date: Date) -> Outcome
        ensures { Comes way.now self.now.desk (or_stop (closing_effect way.now self.now.desk date))
            result }
    {
        match self.entry_refused(way) {
            Some(refusal) => refusal_outcome(refusal),
            None => close_outcome(date),
        }
    }
}

// A reply as what a request comes to.
fn replied(reply: Result<Reply, Memory>) -> Result<Outcome, Memory>
    ensures { result ≡ as_outcome reply }
{
    let reply = reply?;
    Ok(Outcome::Replies(reply))
}
