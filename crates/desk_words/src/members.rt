//! Operations, and the members that each has.
ghost use Rattle.std.specs.Prelude.{◌≡◌, option_map};
ghost use Rattle.serde_json.specs.View.{members_view};
ghost use Rattle.desk_words.specs.Members.{post_operation, operation_named, required_members};
ghost use Rattle.desk_words.specs.Members.{content_members, other_members, has_member};
ghost use Rattle.desk_words.specs.Members.{first_missing, first_present, is_name_of};
ghost use Rattle.desk_words.specs.Members.{first_unknown_member};

use crate::fault::Member;
use crate::parsed::{Object, member};

// What a line may ask for.
#[derive(Clone, Copy)]
pub(crate) enum Operation {
    Write,
    Mark,
    Manual,
    Activity,
    Close,
    Sweep,
    Balance,
    Doc,
    // To post content.
    Post,
    // To post a document as it stands.
    PostStanding,
    Unpost,
    Turnovers,
    Both,
    AccountBalance,
    AccountTurnovers,
    AccountBoth,
    DrCr,
    Documents,
}

impl Operation {
    // The operation of that name. To post with a type is to post content.
    pub(crate) fn named(has_kind: bool, name: &str) -> Option<Operation>
        ensures { result ≡ operation_named has_kind name.now }
    {
        match name {
            "write" => Some(Operation::Write),
            "mark" => Some(Operation::Mark),
            "manual" => Some(Operation::Manual),
            "activity" => Some(Operation::Activity),
            "close" => Some(Operation::Close),
            "sweep" => Some(Operation::Sweep),
            "balance" => Some(Operation::Balance),
            "doc" => Some(Operation::Doc),
            "post" => Some(post_operation(has_kind)),
            "unpost" => Some(Operation::Unpost),
            "turnovers" => Some(Operation::Turnovers),
            "both" => Some(Operation::Both),
            "account_balance" => Some(Operation::AccountBalance),
            "account_turnovers" => Some(Operation::AccountTurnovers),
            "account_both" => Some(Operation::AccountBoth),
            "dr_cr" => Some(Operation::DrCr),
            "documents" => Some(Operation::Documents),
            _ => None,
        }
    }

    // The members that the operation asks for, in order.
    pub(crate) fn required_members(self) -> &'static [Member]
        ensures { result.now ≡ required_members self }
    {
        match self {
            Operation::Write | Operation::Post => &[
                Member::Op,
                Member::Clerk,
                Member::No,
                Member::Kind,
                Member::Date,
                Member::Head,
                Member::Lines,
            ],
            Operation::Mark | Operation::Activity => &[
                Member::Op,
                Member::Clerk,
                Member::No,
                Member::Doc,
                Member::On,
            ],
            Operation::Manual => &[
                Member::Op,
                Member::Clerk,
                Member::No,
                Member::Date,
                Member::Sets,
            ],
            Operation::Close => &[Member::Op, Member::Clerk, Member::No, Member::Date],
            Operation::Sweep | Operation::PostStanding | Operation::Unpost => {
                &[Member::Op, Member::Clerk, Member::No, Member::Doc]
            }
            Operation::Balance | Operation::Turnovers | Operation::Both => {
                &[Member::Op, Member::Clerk, Member::Register]
            }
            Operation::Doc => &[Member::Op, Member::Clerk, Member::Doc],
            Operation::AccountBalance
            | Operation::AccountTurnovers
            | Operation::AccountBoth
            | Operation::DrCr => &[Member::Op, Member::Clerk, Member::Ledger],
            Operation::Documents => &[Member::Op, Member::Clerk],
        }
    }

    // The members that the operation knows besides.
    fn other_members(self) -> &'static [Member]
        ensures { result.now ≡ other_members self }
    {
        match self {
            Operation::Write | Operation::Post | Operation::Manual => {
                &[Member::Doc, Member::Key, Member::Comment]
            }
            Operation::PostStanding => content_members(),
            Operation::Balance => &[Member::Filter, Member::Group, Member::Cut],
            Operation::Turnovers => &[
                Member::Filter,
                Member::Group,
                Member::From,
                Member::To,
                Member::By,
            ],
            Operation::Both => &[
                Member::Filter,
                Member::Group,
                Member::From,
                Member::To,
                Member::By,
                Member::Method,
            ],
            Operation::AccountBalance => &[Member::Account, Member::Extras, Member::Cut],
            Operation::AccountTurnovers | Operation::AccountBoth => &[
                Member::Account,
                Member::Extras,
                Member::From,
                Member::To,
                Member::By,
            ],
            Operation::DrCr => &[Member::Account, Member::From, Member::To],
            Operation::Documents => &[Member::From, Member::To],
            _ => &[],
        }
    }
}

fn post_operation(has_kind: bool) -> Operation
    ensures { result ≡ post_operation has_kind }
{
    if has_kind {
        Operation::Post
    } else {
        Operation::PostStanding
    }
}

// The members of a document's content, without its type.
pub(crate) fn content_members() -> &'static [Member]
    ensures { result.now ≡ content_members }
{
    &[
        Member::Key,
        Member::Date,
        Member::Head,
        Member::Lines,
        Member::Comment,
    ]
}

// Whether an object has the member, whatever stands there.
pub(crate) fn has_member(m: Member, object: &Object) -> bool
    ensures { result ≡ has_member m (members_view object.now.entries) }
{
    member(object, m.name()).is_some()
}

// The first of the members that an object lacks.
pub(crate) fn first_missing(members: &[Member], object: &Object) -> Option<Member>
    ensures { result ≡ first_missing members.now (members_view object.now.entries) }
{
    'members: for m in members {
        if !has_member(*m, object) {
            return Some(*m);
        }
    }
    None
}

// The first of the members that an object has.
pub(crate) fn first_present(members: &[Member], object: &Object) -> Option<Member>
    ensures { result ≡ first_present members.now (members_view object.now.entries) }
{
    'members: for m in members {
        if has_member(*m, object) {
            return Some(*m);
        }
    }
    None
}

// Whether one of the members has the name.
fn is_name_of(members: &[Member], name: &str) -> bool
    ensures { result ≡ is_name_of members.now name.now }
{
    'members: for m in members {
        if m.name() == name {
            return true;
        }
    }
    false
}

// The least name, by bytes, that is of no member of the operation.
pub(crate) fn first_unknown_member(operation: Operation, object: &Object) -> Option<&str>
    ensures { option_map (λ n. n.now) result
        ≡ first_unknown_member operation (members_view object.now.entries) }
{
    'entries: for (name, _value) in object.iter() {
        let is_known = is_name_of(operation.required_members(), name.as_str())
            || is_name_of(operation.other_members(), name.as_str());
        if !is_known {
            return Some(name.as_str());
        }
    }
    None
}
