//! From a line to a request.
ghost use Rattle.std.specs.Prelude.{IfOk};
ghost use Rattle.serde_json.specs.View.{members_view};
ghost use Rattle.reg_base.specs.Results.{Gives, Says};
ghost use Rattle.desk_words.specs.declared.fault.WordFault.TheVariants.{Memory, UnknownMember};
ghost use Rattle.desk_words.specs.Reading.{operation_of, check_present, check_known, members_of};
ghost use Rattle.desk_words.specs.Reading.{request_in, request_of_text, request};
ghost use Rattle.desk_words.specs.WellFormed.{IsRequest};

use crate::fault::{Member, WordFault};
use crate::members::{Operation, first_missing, first_unknown_member, has_member};
use crate::parsed::{Object, json_document, member};
use crate::read_requests::{
    close_request, doc_question, manual_request, standing_document, standing_post, sweep_request,
    switch_request, write_request,
};
use crate::read_tables::{
    account_balance_request, account_turnovers_request, balance_request, both_request,
    documents_question, dr_cr_request, turnovers_request,
};
use crate::request::{Post, Request};
use json_laws::value_has_utf8;
use reg_base::{Line, Text};
use std::alloc::Global;

impl Request {
    /// The request that a line is, or its first fault.
    pub fn read(alloc: Global, line: &Line) -> Result<Request, WordFault>
        ensures value { Gives Memory result (request line.now) }
        ensures well_formed { IfOk result IsRequest }
    {
        match line {
            Line::TooLong { bytes } => Err(WordFault::TooLong { bytes: *bytes }),
            Line::Text { bytes } => Request::read_text(alloc, bytes.as_slice()),
        }
    }

    /// The request that the text of a line is, however long the line.
    #[tactic(auto, unfolding(crate::specs::Reading::request_of_text))]
    pub fn read_text(alloc: Global, bytes: &[u8]) -> Result<Request, WordFault>
        ensures value { Gives Memory result (request_of_text bytes.now) }
        ensures well_formed { IfOk result IsRequest }
    {
        let document = json_document(alloc, bytes)?;
        value_has_utf8(&document);
        let Some(object) = document.as_object() else {
            return Err(WordFault::NotObject);
        };
        request_in(alloc, object)
    }
}

#[tactic(auto, unfolding(crate::specs::Reading::request_in))]
fn request_in(alloc: Global, object: &Object) -> Result<Request, WordFault>
    ensures { Gives Memory result (request_in (members_view object.now.entries)) }
{
    let operation = operation_of(object)?;
    check_present(operation, object)?;
    check_known(alloc, operation, object)?;
    members_of(alloc, operation, object)
}

#[tactic(auto, unfolding(crate::specs::Reading::operation_of))]
fn operation_of(object: &Object) -> Result<Operation, WordFault>
    ensures { Gives Memory result (operation_of (members_view object.now.entries)) }
{
    let Some(value) = member(object, Member::Op.name()) else {
        return Err(WordFault::Missing { member: Member::Op });
    };
    let has_kind = has_member(Member::Kind, object);
    let named = match value.as_str() {
        Some(name) => Operation::named(has_kind, name),
        None => None,
    };
    match named {
        Some(operation) => Ok(operation),
        None => Err(WordFault::UnknownOp),
    }
}

#[tactic(auto, unfolding(crate::specs::Reading::check_present))]
fn check_present(operation: Operation, object: &Object) -> Result<(), WordFault>
    ensures { Gives Memory result (check_present operation (members_view object.now.entries)) }
{
    match first_missing(operation.required_members(), object) {
        Some(member) => Err(WordFault::Missing { member }),
        None => Ok(()),
    }
}

#[tactic(auto, unfolding(crate::specs::Reading::check_known))]
fn check_known(alloc: Global, operation: Operation, object: &Object) -> Result<(), WordFault>
    ensures { Gives Memory result (check_known operation (members_view object.now.entries)) }
{
    match first_unknown_member(operation, object) {
        Some(name) => Err(unknown_member(alloc, name)),
        None => Ok(()),
    }
}

fn unknown_member(alloc: Global, name: &str) -> WordFault
    ensures { Says Memory result (UnknownMember name.now) }
{
    match Text::from_str(alloc, name) {
        Ok(name) => WordFault::UnknownMember { name },
        Err(_) => WordFault::Memory,
    }
}

#[tactic(auto, unfolding(crate::specs::Reading::members_of))]
fn members_of(alloc: Global, operation: Operation, object: &Object) -> Result<Request, WordFault>
    ensures { Gives Memory result (members_of operation (members_view object.now.entries)) }
{
    match operation {
        Operation::Write => Ok(Request::Write(write_request(alloc, object)?)),
        Operation::Mark => Ok(Request::Mark(switch_request(alloc, object)?)),
        Operation::Manual => Ok(Request::Manual(manual_request(alloc, object)?)),
        Operation::Activity => Ok(Request::Activity(switch_request(alloc, object)?)),
        Operation::Close => Ok(Request::Close(close_request(alloc, object)?)),
        Operation::Sweep => Ok(Request::Sweep(sweep_request(alloc, object)?)),
        Operation::Balance => Ok(Request::Balance(balance_request(alloc, object)?)),
        Operation::Doc => Ok(Request::Doc(doc_question(alloc, object)?)),
        Operation::Post => Ok(Request::Post(Post::Content(write_request(alloc, object)?))),
        Operation::PostStanding => {
            Ok(Request::Post(Post::Standing(standing_post(alloc, object)?)))
        }
        Operation::Unpost => Ok(Request::Unpost(standing_document(alloc, object)?)),
        Operation::Turnovers => Ok(Request::Turnovers(turnovers_request(alloc, object)?)),
        Operation::Both => Ok(Request::Both(both_request(alloc, object)?)),
        Operation::AccountBalance => {
            Ok(Request::AccountBalance(account_balance_request(alloc, object)?))
        }
        Operation::AccountTurnovers => {
            Ok(Request::AccountTurnovers(account_turnovers_request(alloc, object)?))
        }
        Operation::AccountBoth => {
            Ok(Request::AccountBoth(account_turnovers_request(alloc, object)?))
        }
        Operation::DrCr => Ok(Request::DrCr(dr_cr_request(alloc, object)?)),
        Operation::Documents => Ok(Request::Documents(documents_question(alloc, object)?)),
    }
}
