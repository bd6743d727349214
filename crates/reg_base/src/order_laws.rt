//! Laws: in which orders codes, points and values stand, that these orders tell all apart, and that
//! a balance does not depend on the order of the records.
ghost use Rattle.std.specs.Prelude.{◌≡◌, ◌↔◌, ℕ, List, Option, IsTrue, IsPermutation};
ghost use Rattle.std.specs.List.{flat_map};
ghost use Rattle.std.specs.Cmp.{IsTotalOrder};
ghost use Rattle.std.specs.Cmp.Lexicographic.{slice_cmp};
ghost use Rattle.std.specs.Ordering.{nat_cmp};
ghost use Rattle.std.specs.declared.cmp.Ordering.TheVariants.{Equal};
ghost use Rattle.reg_base.specs.declared.records.Document.{Document};
ghost use Rattle.reg_base.specs.declared.records.Filter.{Filter};
ghost use Rattle.reg_base.specs.declared.cut.Cut.{Cut};
ghost use Rattle.reg_base.specs.Points.{point_cmp};
ghost use Rattle.reg_base.specs.Records.{Booked, booked_by, records_of, value_cmp, values_cmp};
ghost use Rattle.reg_base.specs.Balances.{balance_of};

use crate::code::Code;
use crate::name::Name;
use crate::point::Point;
use crate::value::Value;

/// A law: what the types derive. Codes and names stand in order of bytes, points of date and then
/// document number, values codes first.
pub fn values_stand_in_order()
    ensures codes { (a b : List ℕ) → ⟦<Code as Ord>⟧.cmp a b ≡ slice_cmp nat_cmp a b }
    ensures names { (a b : List ℕ) → ⟦<Name as Ord>⟧.cmp a b ≡ slice_cmp nat_cmp a b }
    ensures points { (p q : Point) → ⟦<Point as Ord>⟧.cmp p q ≡ point_cmp p q }
    ensures values { (x y : Value) → ⟦<Value as Ord>⟧.cmp x y ≡ value_cmp x y }
{}

/// A law: two codes, names, points or values are equal where they are the same, and only there.
pub fn equal_values_are_the_same()
    ensures codes { (a b : List ℕ) → IsTrue (⟦<Code as PartialEq>⟧.eq a b) ↔ (a ≡ b) }
    ensures names { (a b : List ℕ) → IsTrue (⟦<Name as PartialEq>⟧.eq a b) ↔ (a ≡ b) }
    ensures points { (p q : Point) → IsTrue (⟦<Point as PartialEq>⟧.eq p q) ↔ (p ≡ q) }
    ensures values { (x y : Value) → IsTrue (⟦<Value as PartialEq>⟧.eq x y) ↔ (x ≡ y) }
{}

/// A law: the orders of points, of values and of lists of values are total.
pub fn orders_are_total()
    ensures points { IsTotalOrder point_cmp }
    ensures values { IsTotalOrder value_cmp }
    ensures lists { IsTotalOrder values_cmp }
{}

/// A law: what one of these orders calls equal is the same.
pub fn orders_are_exact()
    ensures points { (p q : Point) → point_cmp p q ≡ Equal → p ≡ q }
    ensures values { (x y : Value) → value_cmp x y ≡ Equal → x ≡ y }
    ensures lists { (xs ys : List Value) → values_cmp xs ys ≡ Equal → xs ≡ ys }
{}

/// A law: a balance is that of the same records in any order, and the records of a register are
/// those of its documents.
pub fn balances_take_records_in_any_order()
    ensures balances { (resources : ℕ) (xs ys : List Booked) (asked : Filter)
        (by : Option (List ℕ)) (cut : Cut) → IsPermutation xs ys
        → balance_of resources xs asked by cut ≡ balance_of resources ys asked by cut }
    ensures records { (register : ℕ) (documents : List Document) →
        IsPermutation (flat_map (booked_by register) documents) (records_of register documents) }
{}
