//! A law over the definitions, the contract of a function that does nothing.
ghost use Rattle.std.specs.Prelude.{◌≡◌, ℕ, List, Ok};
ghost use Rattle.desk_words.specs.declared.request.Request.{Request};
ghost use Rattle.desk_model.specs.State.{Desk};
ghost use Rattle.desk_model.specs.Desk.{step};
ghost use Rattle.desk_history.specs.Replays.{replayed};
ghost use Rattle.desk_reports.specs.Printable.{RepliesPrintable};

use post_model::yields_are_within_limits;
use reg_base::what_is_read_is_in_range;

/// A law: at a desk whose state the entries of a journal replay to, what is replied can be printed:
/// a table of accounts has at most 100,000 rows, and its numbers lie within 10^32 either side of
/// zero.
pub fn reports_can_be_printed()
    ensures { (desk : Desk) (entries : List (List ℕ))
        → replayed desk.setting entries ≡ Ok desk.serial
        → (request : Request) → RepliesPrintable (step desk request).reply }
{
    yields_are_within_limits();
    what_is_read_is_in_range();
}
