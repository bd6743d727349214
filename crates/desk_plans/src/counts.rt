//! How many records and entries a document has.
ghost use Rattle.std.specs.Prelude.{◌≡◌, ◌≤◌, ◌*◌, length};
ghost use Rattle.std.specs.List.{sum_by};
ghost use Rattle.desk_model.specs.Limits.{record_count as record_count_of};
ghost use Rattle.reg_base.specs.Documents.{AreShort};
ghost use Rattle.desk_plans.specs.Bounds.{IsWithinBounds};

use reg_base::{Document, List};

/// How many records and entries a document has, whether they count or not.
pub fn record_count(document: &Document) -> u32
    requires { IsWithinBounds document.now }
    ensures value { result ≡ record_count_of document.now }
    ensures few { result ≤ 200_000 }
{
    let records = total_len(document.sets.registers.as_slice());
    let entries = total_len(document.sets.ledgers.as_slice());
    records + entries
}

/// How many elements short lists have together.
pub fn total_len<T>(lists: &[List<T>]) -> u32
    requires few { length lists.now ≤ 32 }
    requires short { AreShort lists.now }
    ensures value { result ≡ sum_by length lists.now }
    ensures few { result ≤ 5_000 * length lists.now }
{
    let mut total = 0;
    for list in lists {
        total += list.len() as u32;
    }
    total
}
