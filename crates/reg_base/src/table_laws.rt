//! Laws of tables: they do not depend on the order of the records, their rows open and close, and
//! rows of smaller units come to those of the whole range.
ghost use Rattle.std.specs.Prelude.{◌≡◌, ◌≤◌, ℕ, ℤ, Bool, List, Option, IsPermutation};
ghost use Rattle.std.specs.List.{All, flat_map};
ghost use Rattle.std.specs.Cmp.{IsTotalOrder};
ghost use Rattle.std.specs.declared.cmp.Ordering.TheVariants.{Equal};
ghost use Rattle.reg_base.specs.declared.records.Document.{Document};
ghost use Rattle.reg_base.specs.declared.records.Filter.{Filter};
ghost use Rattle.reg_base.specs.declared.tables.Unit.{Unit};
ghost use Rattle.reg_base.specs.declared.tables.Range.{Range};
ghost use Rattle.reg_base.specs.declared.tables.Method.{Method};
ghost use Rattle.reg_base.specs.Records.{Booked, chosen_records};
ghost use Rattle.reg_base.specs.BookedEntries.{entered_by, entries_of};
ghost use Rattle.reg_base.specs.Turnovers.{RowKey, unit_cmp, key_cmp};
ghost use Rattle.reg_base.specs.Turnovers.{turnovers_of, balance_and_turnovers_of};
ghost use Rattle.reg_base.specs.TableLaws.{Opens, Closes, UnitsAddUp};

use crate::tables::Unit;

/// A law: tables are those of the same records in any order, and the entries of a ledger are those
/// of its documents.
pub fn tables_take_records_in_any_order()
    ensures turnovers { (balances : Bool) (resources : ℕ) (asked : Filter) (by : Option (List ℕ))
        (range : Range) (xs ys : List Booked) → IsPermutation xs ys
        → turnovers_of balances resources xs asked by range
        ≡ turnovers_of balances resources ys asked by range }
    ensures both { (resources : ℕ) (asked : Filter) (by : Option (List ℕ)) (range : Range)
        (method : Method) (xs ys : List Booked) → IsPermutation xs ys
        → balance_and_turnovers_of resources xs asked by range method
        ≡ balance_and_turnovers_of resources ys asked by range method }
    ensures entries { (ledger : ℕ) (documents : List Document) →
        IsPermutation (flat_map (entered_by ledger) documents) (entries_of ledger documents) }
{}

/// A law: the closing of each row of balances with turnovers is its opening plus its turnover, and
/// its opening is the balance of its group before the range, with what lower units moved.
pub fn rows_open_and_close()
    ensures opening { (resources : ℕ) (records : List Booked) (asked : Filter)
        (by : Option (List ℕ)) (range : Range) (method : Method) → range.from ≤ range.to
        → All (Opens resources by range (chosen_records asked records))
        (balance_and_turnovers_of resources records asked by range method) }
    ensures closing { (resources : ℕ) (records : List Booked) (asked : Filter)
        (by : Option (List ℕ)) (range : Range) (method : Method)
        → All Closes (balance_and_turnovers_of resources records asked by range method) }
{}

/// A law: the turnovers of a group over the units of a range sum to those of its row over the
/// whole range, in each column.
pub fn turnovers_add_up()
    ensures receipts { UnitsAddUp (λ row. row.receipt) }
    ensures expenses { UnitsAddUp (λ row. row.expense) }
    ensures turnovers { UnitsAddUp (λ row. row.turnover) }
{}

/// A law: the order that units derive is that of units, and it and the order of rows are total and
/// tell all apart.
pub fn rows_stand_in_order()
    ensures derived { (u v : Unit) → ⟦<Unit as Ord>⟧.cmp u v ≡ unit_cmp u v }
    ensures units { IsTotalOrder unit_cmp }
    ensures rows { IsTotalOrder key_cmp }
    ensures unit { (u v : Unit) → unit_cmp u v ≡ Equal → u ≡ v }
    ensures row { (a b : RowKey) → key_cmp a b ≡ Equal → a ≡ b }
{}
