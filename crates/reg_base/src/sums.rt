//! The texts of numbers and sums, written once as text.
ghost use Rattle.std.specs.Prelude.{◌≡◌, ◌++◌, ◌<◌, ◌≤◌, IfOk, OnOk, OnErr, string_bytes};
ghost use Rattle.reg_base.specs.Numbers.{number_text, last_digits, units_text, sum_text};

use crate::Memory;
use crate::num::power_of_ten;
use std::alloc::{AllocError, Global};

/// Appends the text of a sum at a scale: a minus sign below zero, the whole part without leading
/// zeros, and where the scale is above 0 a point and as many decimals.
pub fn print_sum(alloc: Global, units: i128, scale: u8, out: &mut Vec<u8>) -> Result<(), Memory>
    requires { scale ≤ 6 }
    ensures ok { OnOk result (out.new.items ≡ out.old.items ++ sum_text units scale) }
    ensures err { OnErr result (out.new.items ≡ out.old.items) }
{
    // The text is made first: where memory is refused, nothing is appended.
    let text = sum_string(alloc, units, scale)?;
    out.extend_from_slice(text.as_bytes())?;
    Ok(())
}

/// The text of a sum at a scale, as `print_sum` appends it.
#[tactic(auto, unfolding(crate::specs::Numbers::sum_text))]
pub fn sum_string(alloc: Global, units: i128, scale: u8) -> Result<String, Memory>
    requires { scale ≤ 6 }
    ensures { IfOk result (λ text. string_bytes text ≡ sum_text units scale) }
{
    let sign = if units < 0 { "-" } else { "" };
    Ok(units_string(alloc, sign, units.unsigned_abs(), scale)?)
}

#[tactic(auto, unfolding(crate::specs::Numbers::units_text))]
fn units_string(alloc: Global, sign: &str, units: u128, scale: u8) -> Result<String, AllocError>
    requires { scale ≤ 6 }
    ensures { IfOk result (λ text. string_bytes text ≡ sign.now ++ units_text units scale) }
{
    let mut text = number_string(alloc, sign, units / u128::from(power_of_ten(scale)))?;
    if scale > 0 {
        text.push('.')?;
        push_digits(&mut text, scale, units)?;
    }
    Ok(text)
}

// The number without leading zeros, behind the text in front.
pub(crate) fn number_string(alloc: Global, front: &str, number: u128) -> Result<String, AllocError>
    ensures { IfOk result (λ text. string_bytes text ≡ front.now ++ number_text number) }
{
    let text = format!(in alloc; "{front}{number}")?;
    Ok(text)
}

// Appends the last `count` digits of the number, with zeros in front where it has fewer.
pub(crate) fn push_digits(text: &mut String, count: u8, number: u128) -> Result<(), AllocError>
    requires { count ≤ 6 }
    ensures { OnOk result
        (string_bytes text.new ≡ string_bytes text.old ++ last_digits count number) }
{
    for place in (0..count).rev() {
        let digit = number / u128::from(power_of_ten(place)) % 10;
        text.push(char::from(b'0' + digit as u8))?;
    }
    Ok(())
}
