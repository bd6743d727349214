//! Laws: unit starts and the next ones are what they are meant to be, and keep the order of dates.
ghost use Rattle.std.specs.Prelude.{◌≡◌, ◌↔◌, ◌<◌, ◌≤◌, ℕ, true, Some, None};
ghost use Rattle.reg_base.specs.declared.tables.Periodicity.{Periodicity};
ghost use Rattle.reg_base.specs.Units.{unit_start, next_unit, are_dates};
ghost use Rattle.reg_base.specs.Units.{IsStart, IsUnitStart, IsNextUnit, IsLastUnit};

/// A law: the unit of a date starts at the greatest start that is not above it, the next unit at
/// the least start above it, and there is no next unit exactly where none starts before 2100.
pub fn units_are_exact()
    ensures starts { (by : Periodicity) (date : ℕ) → are_dates by ≡ true
        → IsUnitStart by date (unit_start by date) }
    ensures next { (by : Periodicity) (date start : ℕ) → next_unit by date ≡ Some start
        → IsNextUnit by date start }
    ensures last { (by : Periodicity) (date : ℕ) →
        (next_unit by date ≡ None) ↔ IsLastUnit by date }
{}

/// A law: of two dates the later one has no earlier unit, and the unit of a date starts before a
/// start exactly where the date is before it.
pub fn unit_starts_keep_order()
    ensures order { (by : Periodicity) (date later : ℕ) → date ≤ later
        → unit_start by date ≤ unit_start by later }
    ensures before { (by : Periodicity) (date start : ℕ) → IsStart by start
        → (unit_start by date < start) ↔ (date < start) }
{}
