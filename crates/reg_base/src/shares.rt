//! The part of an amount that falls to a part of a quantity.
ghost use Rattle.std.specs.Prelude.{◌≡◌, ℕ, ◌*◌, ◌^◌, ◌≤◌, ◌<◌, ◌<ℤ◌, ◌≤ℤ◌, pos, unsigned_abs};
ghost use Rattle.reg_base.specs.Numbers.{largest_units};
ghost use Rattle.reg_base.specs.Shares.{nearest, share as share_of};

/// The part of an amount that falls to `take` of a quantity `have`, to the nearest unit, half away
/// from zero: what is written off for a part of a lot, or of all that is left.
#[tactic(auto, unfolding(crate::specs::Shares::share))]
pub fn share(amount: i128, take: i64, have: i128) -> i128
    requires taken { pos 0 <ℤ take }
    requires within { take ≤ℤ have }
    requires number { unsigned_abs take ≤ largest_units }
    requires amount { unsigned_abs amount ≤ 10 ^ 22 }
    requires have { unsigned_abs have ≤ 10 ^ 22 }
    ensures { result ≡ share_of amount take have }
{
    let part = amount.unsigned_abs() * u128::from(take.unsigned_abs());
    let rounded = nearest(part, have.unsigned_abs());
    if amount < 0 {
        -(rounded as i128)
    } else {
        rounded as i128
    }
}

// The whole number nearest to `n / d`, the greater one where two are.
fn nearest(n: u128, d: u128) -> u128
    requires small { n ≤ 10 ^ 37 }
    requires above { 0 < d }
    requires divisor { d ≤ 10 ^ 22 }
    ensures value { result ≡ nearest n d }
    ensures bound { result < 2 ^ 127 }
{
    (2 * n + d) / (2 * d)
}
