//! Laws over the definitions, each the contract of a function that does nothing.
ghost use Rattle.std.specs.Prelude.{◌≡◌, List};
ghost use Rattle.reg_base.specs.declared.line.Line.{Line};
ghost use Rattle.desk_words.specs.declared.request.Request.{Request};
ghost use Rattle.desk_words.specs.ReplyTexts.{HasScales};
ghost use Rattle.desk_model.specs.State.{Desk};
ghost use Rattle.desk_model.specs.Desk.{step};
ghost use Rattle.desk_model.specs.Laws.{TablesHold, NumbersRise, RepeatsChangeNothing};
ghost use Rattle.desk_model.specs.Laws.{RepeatsAreAnswered, IsRefusal, RefusalKeeps, Replays};

/// Every accepted table is the one that was asked for, over the records, the entries or the
/// documents at its place, whatever lines came before it.
pub fn tables_are_sums()
    ensures { (desk : Desk) (lines : List Line) → TablesHold desk lines }
{}

/// The numbers of each clerk rise over the lines that are answered; a request that is repeated
/// changes nothing, and is given the same reply while it is its clerk's last.
pub fn requests_act_once()
    ensures order { (desk : Desk) (lines : List Line) → NumbersRise desk lines }
    ensures once { (desk : Desk) (lines : List Line) → RepeatsChangeNothing desk lines }
    ensures repeats { (desk : Desk) (lines : List Line) → RepeatsAreAnswered desk lines }
{}

/// A request that is refused leaves the desk as it was, and so does a line.
pub fn refusals_change_nothing()
    ensures requests { (desk : Desk) (request : Request)
        → IsRefusal (step desk request).reply → (step desk request).desk ≡ desk }
    ensures lines { (desk : Desk) (line : Line) → RefusalKeeps desk line }
{}

/// What a desk accepts, the serial machine accepts as a command, with the same effect.
pub fn accepted_requests_replay()
    ensures { (desk : Desk) (request : Request) → Replays desk request }
{}

/// Each number that a reply prints has its scale.
pub fn replies_have_scales()
    ensures { (desk : Desk) (request : Request) → HasScales (step desk request).reply }
{}
