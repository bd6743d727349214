//! An entry of the journal: the line of a command, and back.
ghost use Rattle.std.specs.Prelude.{◌≡◌, ◌≤◌, ◌++◌, ◌∷◌, [], length, option_map, take, IfOk};
ghost use Rattle.std.specs.Option.{ForSome};
ghost use Rattle.std.specs.Result.{result_ok};
ghost use Rattle.reg_base.specs.Numbers.{number_text};
ghost use Rattle.desk_words.specs.Reading.{request_of_text};
ghost use Rattle.desk_words.specs.WellFormed.{IsRequest};
ghost use Rattle.desk_model.specs.State.{Command as CommandOf};
ghost use Rattle.desk_model.specs.Journals.{commands_text};
ghost use Rattle.desk_history.specs.Entries.{command_view, command_of};
ghost use Rattle.desk_history.specs.Entries.{behind_digits as behind_digits_of};
ghost use Rattle.desk_history.specs.Entries.{if_spelt as if_spelt_of};

use desk_words::{Request, WordFault};
use reg_base::{Memory, digit_count, read_on};
use std::alloc::Global;

/// A request with the number that was drawn for its document, or 0.
#[derive(Drop)]
pub struct Command {
    pub number: u32,
    pub request: Request,
}

/// The text of the entry of a request, with the number that was drawn for its document, or 0.
pub fn print_entry(alloc: Global, number: u32, request: &Request) -> Result<Vec<u8>, Memory>
    ensures { IfOk result (λ text. text.items ≡ commands_text (record {
      number = number;
      request = request.now;
    } ∷ [])) }
{
    let mut text = numbered(alloc, number)?;
    request.print(alloc, &mut text)?;
    text.push(b'\n')?;
    Ok(text)
}

// A number with a space behind it.
fn numbered(alloc: Global, number: u32) -> Result<Vec<u8>, Memory>
    ensures { IfOk result (λ text. text.items ≡ number_text number ++ 32 ∷ []) }
{
    let digits = format!(in alloc; "{number} ")?;
    let mut text = Vec::new(alloc);
    text.extend_from_slice(digits.as_bytes())?;
    Ok(text)
}

/// The command whose entry a text is, to the byte; none where it is no entry of one command.
#[tactic(auto, unfolding(crate::specs::Entries::command_of, crate::specs::Entries::read_command))]
pub fn read_entry(alloc: Global, text: &[u8]) -> Result<Option<Command>, Memory>
    ensures value { IfOk result (λ found. option_map command_view found ≡ command_of text.now) }
    ensures well_formed { IfOk result (λ found. ForSome found (λ c. IsRequest c.request)) }
{
    let digits = digit_count(text);
    let number = read_on(0, &text[..digits]);
    let Some(request) = request_in(alloc, behind_digits(text, digits))? else {
        return Ok(None);
    };
    let Ok(number) = u32::try_from(number) else {
        return Ok(None);
    };
    if_spelt(alloc, text, Command { number, request })
}

// What stands behind so many digits and a space, up to the last byte.
fn behind_digits(text: &[u8], digits: usize) -> &[u8]
    requires { digits ≤ length text.now }
    ensures { result.now ≡ behind_digits_of digits text.now }
{
    if text.len() < digits + 2 {
        return &[];
    }
    &text[digits + 1..text.len() - 1]
}

// The request that a text is, where it is one.
fn request_in(alloc: Global, text: &[u8]) -> Result<Option<Request>, Memory>
    ensures value { IfOk result (λ found. found ≡ result_ok (request_of_text text.now)) }
    ensures well_formed { IfOk result (λ found. ForSome found IsRequest) }
{
    match Request::read_text(alloc, text) {
        Ok(request) => Ok(Some(request)),
        Err(WordFault::Memory) => Err(Memory),
        Err(_) => Ok(None),
    }
}

// A command, where this text is its entry to the byte.
fn if_spelt(alloc: Global, text: &[u8], command: Command) -> Result<Option<Command>, Memory>
    requires { IsRequest command.request }
    ensures value { IfOk result (λ found. option_map command_view found
        ≡ if_spelt_of text.now (command_view command)) }
    ensures well_formed { IfOk result (λ found. ForSome found (λ c. IsRequest c.request)) }
{
    let spelt = print_entry(alloc, command.number, &command.request)?;
    if spelt.as_slice() == text {
        Ok(Some(command))
    } else {
        Ok(None)
    }
}
