//! The last request of each clerk, and what a number says beside it.
ghost use Rattle.std.specs.Prelude.{◌≡◌, ◌<◌, Some, IfOk, option_map, position};
ghost use Rattle.std.specs.Prelude.{vec_len, vec_capacity};
ghost use Rattle.std.specs.Str.{bytes_eq};
ghost use Rattle.cfg_model.specs.declared.config.Config.{Config as ConfigOf};
ghost use Rattle.desk_words.specs.declared.reply.Answer.TheVariants.{Acknowledged};
ghost use Rattle.desk_words.specs.RequestTexts.{request_text as text_of_request};
ghost use Rattle.desk_words.specs.WellFormed.{IsRequest};
ghost use Rattle.desk_model.specs.LastRequests.{last_of as last_request_of};
ghost use Rattle.desk_model.specs.LastRequests.{with_last, lasts_with};
ghost use Rattle.desk_model.specs.LastRequests.{same_number as same_number_of};
ghost use Rattle.desk_model.specs.LastRequests.{is_same as is_same_request};
ghost use Rattle.desk_model.specs.LastRequests.{number_test as number_test_of};
ghost use Rattle.desk_model.specs.Meanings.{meaning_of};
ghost use Rattle.desk_core.specs.Outcomes.{stop_reply};

use crate::clerks::{clerk_of, number_of};
use crate::room::put_behind;
use desk_model::Last;
use desk_words::{Acknowledgement, Answer, Refusal, Reply, Request, requests_read_back};
use reg_base::{Line, List, Memory, Name};
use std::alloc::Global;
use std::cmp::Ordering;

// The last request of the clerk of a name.
pub(crate) fn last_of<'a>(lasts: &'a [Last], clerk: &str) -> Option<&'a Last>
    ensures { option_map (λ l. l.now) result ≡ last_request_of clerk.now lasts.now }
{
    'lasts: for last in lasts {
        if last.clerk.as_str() == clerk {
            return Some(last);
        }
    }
    None
}

// The reply to a request whose number is not above its clerk's last one: what was acknowledged,
// where it is that request again, and else its refusal.
pub(crate) fn number_reply(
    alloc: Global,
    lasts: &[Last],
    request: &Request,
) -> Result<Option<Reply>, Memory>
    ensures { (config : ConfigOf) → IfOk result (λ reply. reply ≡ stop_reply
        (number_test_of lasts.now (meaning_of config request.now).clerk
        (meaning_of config request.now).number request.now)) }
{
    let Some(number) = number_of(request) else {
        return Ok(None);
    };
    let Some(last) = last_of(lasts, clerk_of(request).as_str()) else {
        return Ok(None);
    };
    match number.cmp(&last.number) {
        Ordering::Less => Ok(Some(Reply::Refused(Refusal::Stale { last: last.number }))),
        Ordering::Equal => Ok(Some(same_number_reply(alloc, request, last)?)),
        Ordering::Greater => Ok(None),
    }
}

// The reply to a request under the number of its clerk's last one.
fn same_number_reply(alloc: Global, request: &Request, last: &Last) -> Result<Reply, Memory>
    ensures { IfOk result (λ reply. Some reply ≡ stop_reply (same_number_of
        (is_same_request request.now last.now.request) last.now.acknowledgement)) }
{
    let text = request_text(alloc, request)?;
    let last_text = request_text(alloc, &last.request)?;
    if text.as_slice() == last_text.as_slice() {
        Ok(Reply::Done(Answer::Acknowledged(last.acknowledgement)))
    } else {
        Ok(Reply::Refused(Refusal::NumberReused))
    }
}

// The canonical text of a request.
fn request_text(alloc: Global, request: &Request) -> Result<List<u8>, Memory>
    ensures { IfOk result (λ text. text ≡ text_of_request request.now) }
{
    let mut text = Vec::new(alloc);
    request.print(alloc, &mut text)?;
    Ok(List::from_vec(text))
}

// The request itself, once more: its canonical text is read back.
pub(crate) fn copy_request(alloc: Global, request: &Request) -> Result<Request, Memory>
    requires { IsRequest request.now }
    ensures { IfOk result (λ copy. copy ≡ request.now) }
{
    let text = request_text(alloc, request)?;
    requests_read_back();
    match Request::read(alloc, &Line::Text { bytes: text }) {
        Ok(copy) => Ok(copy),
        Err(_) => Err(Memory),
    }
}

// The last requests once a request was accepted: one with a number takes the place of its clerk's
// last, for which there is room.
pub(crate) fn keep_request(
    lasts: &mut Vec<Last>,
    request: Request,
    acknowledgement: Acknowledgement,
)
    requires { vec_len lasts.old < vec_capacity lasts.old }
    ensures { (config : ConfigOf) → lasts.new.items ≡ lasts_with
        (meaning_of config request).clerk (meaning_of config request).number request
        (Acknowledged acknowledgement) lasts.old.items }
{
    if let Some(number) = number_of(&request) {
        let clerk = *clerk_of(&request);
        put_last(
            lasts,
            Last {
                clerk,
                number,
                request,
                acknowledgement,
            },
        );
    }
}

// Puts a request in the place of its clerk's last one; there is room for one more.
fn put_last(lasts: &mut Vec<Last>, last: Last)
    requires { vec_len lasts.old < vec_capacity lasts.old }
    ensures { lasts.new.items ≡ with_last last lasts.old.items }
{
    match last_place(lasts, &last.clerk) {
        Some(place) => lasts[place] = last,
        None => put_behind(lasts, last),
    }
}

// The place of a clerk's last request.
fn last_place(lasts: &[Last], clerk: &Name) -> Option<usize>
    ensures { result ≡ position (λ l. bytes_eq l.clerk clerk.now) lasts.now }
{
    lasts.iter().position(|l| l.clerk == *clerk)
}
