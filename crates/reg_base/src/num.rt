//! Numbers: whole counts of units at a scale, and how they are read.
ghost use Rattle.std.specs.Prelude.{◌≡◌, ◌+◌, ◌-◌, ◌*◌, ◌++◌, ◌<◌, ◌≤◌, ◌^◌, ◌==◌, min};
ghost use Rattle.std.specs.Prelude.{if◌then◌else◌, length, MatchResult, IfOk, Ok, Err};
ghost use Rattle.std.specs.List.{prefix_len};
ghost use Rattle.std.specs.Char.{is_ascii_digit};
ghost use Rattle.reg_base.specs.Numbers.{decimal_value, read_on, sign_len, digits_from};
ghost use Rattle.reg_base.specs.Numbers.{last_digits_from, decimals_from, units_of, num_of};
ghost use Rattle.reg_base.specs.Numbers.{parse_num};

/// The largest number either side of zero, in units.
pub const LARGEST_UNITS: u64 = 999_999_999_999_999;

/// A count of units, of which ten to the power of the scale make a whole one.
#[derive(Clone, Copy, Debug, PartialEq, Eq)]
pub struct Num {
    pub units: i64,
}

/// Why a text is no number at a scale.
#[derive(Clone, Copy, Debug, PartialEq, Eq)]
pub enum NumFault {
    /// No number can go on with the byte at this place, counted from 0; at the place behind the
    /// last byte, no number ends there.
    NotANumber { place: usize },
    /// It has more decimals than the scale.
    TooManyDecimals,
    /// Its units pass the largest number.
    TooLarge,
}

impl Num {
    /// Reads an optional minus sign, digits, and behind a point up to `scale` decimals. The first
    /// fault of the whole text is answered: a wrong byte, then too many decimals, then the size.
    #[tactic(auto, unfolding(crate::specs::Numbers::parse_num))]
    pub fn parse(text: &str, scale: u8) -> Result<Num, NumFault>
        requires { scale ≤ 6 }
        ensures { result ≡ parse_num text.now scale }
    {
        let text = text.as_bytes();
        let sign = sign_len(text);
        let whole = digits_from(text, sign)?;
        let decimals = decimals_from(text, sign + whole.len())?;
        let units = units_of(whole, decimals, scale)?;
        Ok(num_of(sign, units))
    }
}

fn sign_len(text: &[u8]) -> usize
    ensures value { result ≡ sign_len text.now }
    ensures within { result ≤ length text.now }
{
    match text.first() {
        Some(b'-') => 1,
        _ => 0,
    }
}

/// How many digits the bytes begin with.
pub fn digit_count(text: &[u8]) -> usize
    ensures value { result ≡ prefix_len is_ascii_digit text.now }
    ensures within { result ≤ length text.now }
{
    text.iter().take_while(|byte| byte.is_ascii_digit()).count()
}

#[tactic(auto, unfolding(crate::specs::Numbers::digits_from))]
fn digits_from(text: &[u8], place: usize) -> Result<&[u8], NumFault>
    requires { place ≤ length text.now }
    ensures value { MatchResult result (λ digits. digits_from text.now place ≡ Ok digits.now)
        (λ fault. digits_from text.now place ≡ Err fault) }
    ensures within { IfOk result (λ digits. place + length digits.now ≤ length text.now) }
{
    let rest = &text[place..];
    let count = digit_count(rest);
    if count == 0 {
        return Err(NumFault::NotANumber { place });
    }
    Ok(&rest[..count])
}

#[tactic(auto, unfolding(crate::specs::Numbers::last_digits_from))]
fn last_digits_from(text: &[u8], place: usize) -> Result<&[u8], NumFault>
    requires { place ≤ length text.now }
    ensures { MatchResult result (λ digits. last_digits_from text.now place ≡ Ok digits.now)
        (λ fault. last_digits_from text.now place ≡ Err fault) }
{
    let digits = digits_from(text, place)?;
    let end = place + digits.len();
    if end != text.len() {
        return Err(NumFault::NotANumber { place: end });
    }
    Ok(digits)
}

#[tactic(auto, unfolding(crate::specs::Numbers::decimals_from))]
fn decimals_from(text: &[u8], place: usize) -> Result<&[u8], NumFault>
    requires { place ≤ length text.now }
    ensures { MatchResult result (λ digits. decimals_from text.now place ≡ Ok digits.now)
        (λ fault. decimals_from text.now place ≡ Err fault) }
{
    if place == text.len() {
        return Ok(&[]);
    }
    if text[place] == b'.' {
        last_digits_from(text, place + 1)
    } else {
        Err(NumFault::NotANumber { place })
    }
}

/// The number that the digits spell behind those of `start`, or the largest `u64` where that is
/// less.
pub fn read_on(start: u64, digits: &[u8]) -> u64
    ensures { result ≡ min (read_on start digits.now) (2 ^ 64 - 1) }
{
    // Saturating: a text may have any number of digits, and what passes the largest `u64` passes
    // every limit that callers ask for.
    let mut value = start;
    for digit in digits {
        let unit = u64::from(digit.saturating_sub(b'0'));
        value = value.saturating_mul(10).saturating_add(unit);
    }
    value
}

// The units of the digits with so many zeros behind them, or the largest `u64` where less.
fn capped_units(whole: &[u8], decimals: &[u8], zeros: u8) -> u64
    requires { zeros ≤ 6 }
    ensures { result ≡ min (decimal_value (whole.now ++ decimals.now) * 10 ^ zeros) (2 ^ 64 - 1) }
{
    let value = read_on(read_on(0, whole), decimals);
    value.saturating_mul(power_of_ten(zeros))
}

#[tactic(auto, unfolding(crate::specs::Numbers::units_of))]
fn units_of(whole: &[u8], decimals: &[u8], scale: u8) -> Result<u64, NumFault>
    requires { scale ≤ 6 }
    ensures value { result ≡ units_of whole.now decimals.now scale }
    ensures range { IfOk result (λ units. units ≤ 999_999_999_999_999) }
{
    // The count of decimals is asked first: a number with too many is refused for them, whatever
    // its size.
    if decimals.len() > scale as usize {
        return Err(NumFault::TooManyDecimals);
    }
    let units = capped_units(whole, decimals, scale - decimals.len() as u8);
    if units > LARGEST_UNITS {
        return Err(NumFault::TooLarge);
    }
    Ok(units)
}

fn num_of(sign: usize, units: u64) -> Num
    requires { units ≤ 999_999_999_999_999 }
    ensures { result ≡ num_of sign units }
{
    // 0 has one form: behind a minus sign it is 0 too.
    let units = units as i64;
    Num {
        units: if sign == 1 { -units } else { units },
    }
}

/// Ten to a power of at most six.
pub fn power_of_ten(exponent: u8) -> u64
    requires { exponent ≤ 6 }
    ensures value { result ≡ 10 ^ exponent }
    ensures positive { 0 < result }
{
    match exponent {
        0 => 1,
        1 => 10,
        2 => 100,
        3 => 1_000,
        4 => 10_000,
        5 => 100_000,
        // No other exponent is left than 6.
        _ => 1_000_000,
    }
}
