//! Laws: what is printed is read back to the same value, and what is read is in range.
ghost use Rattle.std.specs.Prelude.{◌≡◌, ℕ, ◌<◌, ◌≤◌, ℤ, List, unsigned_abs, Ok, IfOk};
ghost use Rattle.reg_base.specs.Numbers.{largest_units, parse_num, sum_text};
ghost use Rattle.reg_base.specs.Dates.{parse_date, parse_date_end, date_text};
ghost use Rattle.reg_base.specs.declared.point.Point.{Point};
ghost use Rattle.reg_base.specs.declared.cut.Cut.{Cut};
ghost use Rattle.reg_base.specs.Points.{IsPoint, parse_point, point_text};
ghost use Rattle.reg_base.specs.Cuts.{IsCut, parse_cut, cut_text};

/// A law: the text of a number at a scale spells the number.
pub fn numbers_read_back()
    ensures { (units : ℤ) (scale : ℕ) → unsigned_abs units ≤ largest_units
        → parse_num (sum_text units scale) scale ≡ Ok (record { units = units }) }
{}

/// A law: the text of a date spells the date, as the end of a range too.
pub fn dates_read_back()
    ensures dates { (date : ℕ) → date < 3_155_760_000 → parse_date (date_text date) ≡ Ok date }
    ensures ends { (date : ℕ) → date < 3_155_760_000 → parse_date_end (date_text date) ≡ Ok date }
{}

/// A law: the text of a point spells the point.
pub fn points_read_back()
    ensures { (point : Point) → IsPoint point → parse_point (point_text point) ≡ Ok point }
{}

/// A law: the text of a cut spells the cut.
pub fn cuts_read_back()
    ensures { (cut : Cut) → IsCut cut → parse_cut (cut_text cut) ≡ Ok cut }
{}

/// A law: what a text spells as a number lies within the largest number, either side of zero; what
/// it spells as a date lies in 2000 to 2099; what it spells as a point or a cut is one.
pub fn what_is_read_is_in_range()
    ensures numbers { (text : List ℕ) (scale : ℕ) →
        IfOk (parse_num text scale) (λ n. unsigned_abs n.units ≤ largest_units) }
    ensures dates { (text : List ℕ) → IfOk (parse_date text) (λ d. d < 3_155_760_000) }
    ensures ends { (text : List ℕ) → IfOk (parse_date_end text) (λ d. d < 3_155_760_000) }
    ensures points { (text : List ℕ) → IfOk (parse_point text) IsPoint }
    ensures cuts { (text : List ℕ) → IfOk (parse_cut text) IsCut }
{}
