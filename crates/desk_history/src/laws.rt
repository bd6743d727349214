//! Laws over the definitions, each the contract of a function that does nothing.
ghost use Rattle.std.specs.Prelude.{◌≡◌, ℕ, ◌<◌, ◌^◌, List, [], ◌∷◌, Some, Ok};
ghost use Rattle.reg_base.specs.declared.line.Line.{Line};
ghost use Rattle.desk_words.specs.declared.request.Request.{Request};
ghost use Rattle.desk_words.specs.WellFormed.{IsRequest};
ghost use Rattle.desk_model.specs.State.{Command, Desk, Setting, State};
ghost use Rattle.desk_model.specs.Journals.{commands_text};
ghost use Rattle.desk_history.specs.ClerkOrder.{EntriesRise};
ghost use Rattle.desk_history.specs.Entries.{command_of};
ghost use Rattle.desk_history.specs.Histories.{LineReplays, StepReplays};
ghost use Rattle.desk_history.specs.Replays.{replayed};

use desk_model::accepted_requests_replay;
use desk_words::requests_read_back;

/// The text of an entry of one command is that command's.
pub fn entries_read_back()
    ensures { (c : Command) → c.number < 2 ^ 32 → IsRequest c.request
        → command_of (commands_text (c ∷ [])) ≡ Some c }
{
    requests_read_back();
}

/// What a desk accepts and commits replays to the state that it left: so a journal that a desk
/// wrote always opens, and gives the desk's state again.
pub fn accepted_requests_are_replayed()
    ensures steps { (desk : Desk) (request : Request) → StepReplays desk request }
    ensures lines { (desk : Desk) (line : Line) → LineReplays desk line }
{
    accepted_requests_replay();
    entries_read_back();
}

/// Over the entries of a journal that replays, the numbers of each clerk's requests rise: so none
/// is in it twice.
pub fn numbers_rise_over_entries()
    ensures { (setting : Setting) (entries : List (List ℕ)) (state : State)
        → replayed setting entries ≡ Ok state → EntriesRise setting entries }
{}
