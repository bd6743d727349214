//! Who asks, by which right, and the clerk that is built in.
ghost use Rattle.std.specs.Prelude.{◌≡◌};
ghost use Rattle.cfg_model.specs.declared.config.Config.{Config as ConfigOf};
ghost use Rattle.desk_model.specs.Clerks.{has_word_of, is_allowed as may, is_clerk as knows};
ghost use Rattle.desk_model.specs.Clerks.{is_batch as is_batch_name, rights_of};
ghost use Rattle.desk_model.specs.Meanings.{meaning_of};

use cfg_model::Config;
use desk_words::{Post, Request};
use reg_base::{Name, Right};

// The clerk of a request.
pub(crate) fn clerk_of(request: &Request) -> &Name
    ensures { (config : ConfigOf) → result.now ≡ (meaning_of config request.now).clerk }
{
    match request {
        Request::Write(write) | Request::Post(Post::Content(write)) => &write.clerk,
        Request::Post(Post::Standing(document)) | Request::Unpost(document) => &document.clerk,
        Request::Mark(switch) | Request::Activity(switch) => &switch.clerk,
        Request::Manual(manual) => &manual.clerk,
        Request::Close(close) => &close.clerk,
        Request::Sweep(sweep) => &sweep.clerk,
        Request::Balance(balance) => &balance.clerk,
        Request::Turnovers(turnovers) => &turnovers.clerk,
        Request::Both(both) => &both.turnovers.clerk,
        Request::AccountBalance(balance) => &balance.clerk,
        Request::AccountTurnovers(turnovers) | Request::AccountBoth(turnovers) => &turnovers.clerk,
        Request::DrCr(pairs) => &pairs.clerk,
        Request::Documents(documents) => &documents.clerk,
        Request::Doc(question) => &question.clerk,
    }
}

// The right that a request asks for.
pub(crate) fn right_of(request: &Request) -> Right
    ensures { (config : ConfigOf) → result ≡ (meaning_of config request.now).right }
{
    match request {
        Request::Write(_) => Right::Write,
        Request::Post(_) | Request::Unpost(_) | Request::Mark(_) => Right::Post,
        Request::Manual(_) | Request::Activity(_) => Right::Manual,
        Request::Close(_) | Request::Sweep(_) => Right::Admin,
        Request::Balance(_) | Request::Turnovers(_) | Request::Both(_) => Right::Read,
        Request::AccountBalance(_) | Request::AccountTurnovers(_) => Right::Read,
        Request::AccountBoth(_) | Request::DrCr(_) => Right::Read,
        Request::Documents(_) | Request::Doc(_) => Right::Read,
    }
}

// The number of a request among those of its clerk, where it has one.
pub(crate) fn number_of(request: &Request) -> Option<u32>
    ensures { (config : ConfigOf) → result ≡ (meaning_of config request.now).number }
{
    match request {
        Request::Write(write) | Request::Post(Post::Content(write)) => Some(write.no),
        Request::Post(Post::Standing(document)) | Request::Unpost(document) => Some(document.no),
        Request::Mark(switch) | Request::Activity(switch) => Some(switch.no),
        Request::Manual(manual) => Some(manual.no),
        Request::Close(close) => Some(close.no),
        Request::Sweep(sweep) => Some(sweep.no),
        Request::Balance(_) | Request::Turnovers(_) | Request::Both(_) => None,
        Request::AccountBalance(_) | Request::AccountTurnovers(_) => None,
        Request::AccountBoth(_) | Request::DrCr(_) => None,
        Request::Documents(_) | Request::Doc(_) => None,
    }
}

// Whether a request makes a new document, and so has a number drawn for it.
pub(crate) fn draws(request: &Request) -> bool
    ensures { (config : ConfigOf) → result ≡ (meaning_of config request.now).draws }
{
    match request {
        Request::Write(write) | Request::Post(Post::Content(write)) => write.doc.is_none(),
        Request::Manual(manual) => manual.doc.is_none(),
        _ => false,
    }
}

// Whether a name is that of the clerk that is built in.
pub(crate) fn is_batch(name: &Name) -> bool
    ensures { result ≡ is_batch_name name.now }
{
    name.as_str() == "batch"
}

// Whether there is such a clerk.
pub(crate) fn is_clerk(config: &Config, name: &Name) -> bool
    ensures { result ≡ knows config.now name.now }
{
    is_batch(name) || config.clerk_place(name).is_some()
}

// Whether a clerk may: the clerk that is built in has every right.
pub(crate) fn is_allowed(config: &Config, name: &Name, right: Right) -> bool
    ensures { result ≡ may config.now name.now right }
{
    is_batch(name) || is_given(config, name, right)
}

// Whether the configuration gives a clerk the right.
fn is_given(config: &Config, name: &Name, right: Right) -> bool
    ensures { result ≡ has_word_of right (rights_of config.now name.now) }
{
    match config
        .clerk_place(name)
        .and_then(|place| config.clerks.get(place))
    {
        Some(clerk) => has_right(clerk.rights.as_slice(), right),
        None => false,
    }
}

fn has_right(rights: &[Right], right: Right) -> bool
    ensures { result ≡ has_word_of right rights.now }
{
    rights.iter().any(|r| r.word() == right.word())
}
