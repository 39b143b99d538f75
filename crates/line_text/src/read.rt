ghost use Rattle.std.specs.Prelude.{◌≡◌, ◌≢◌, ◌+◌, ◌-◌, ◌*◌, ◌^◌, ◌≤◌, ◌<◌, ◌↔◌, [], Ok, IfOk, IsTrue, min, length, neg_ℤ, pos, option_copied, unwrap_or, ◌&&◌, if◌then◌else◌};
ghost use Rattle.std.specs.Char.{is_ascii_digit};
ghost use Rattle.std.specs.List.{before_first, list_all};
ghost use Rattle.std.specs.Str.{all_ascii_digits};
ghost use Rattle.std.specs.Str.Parse.{digits_value};
ghost use Rattle.fixed_num.specs.Numbers.{IsValue};
ghost use Rattle.line_text.specs.Reading.{reading, value_of, has_minus, without_minus, is_point, after_point};
ghost use Rattle.line_text.specs.Spelling.{Spelling, Spells, is_digits, are_decimals, decimal_places, units_of};

use crate::error::NumErr;

/// The most decimals.
const PLACES: usize = 6;

/// Units in one.
const ONE: u64 = 1_000_000;

/// The greatest absolute value, in units.
const LIMIT: u64 = 10_000_000_000_000;

/// A whole part from here on is past the limit, however far.
const CAP: u64 = 10_000_001;

/// The number that a text spells, in units; leading zeros are fine.
///
/// The errors are looked for in their order in [`NumErr`]. Takes no memory, and goes over the text
/// three times at most: for the point, for what is no digit, and for the number.
pub fn read_value(text: &str) -> Result<i64, NumErr>
    ensures answer { result ≡ reading text.now }
    ensures empty { (result ≡ Err NumErr.Empty) ↔ (text.now ≡ []) }
    ensures digit { (result ≡ Err NumErr.Digit)
        ↔ ((text.now ≢ []) × ((s : Spelling) → ¬ (Spells s text.now))) }
    ensures too_many_decimals { (result ≡ Err NumErr.TooManyDecimals)
        ↔ ((s : Spelling) × Spells s text.now × (6 < decimal_places s)) }
    ensures range { (result ≡ Err NumErr.Range)
        ↔ ((s : Spelling) × Spells s text.now × (decimal_places s ≤ 6) × ¬ (IsValue (units_of s))) }
    ensures value { IfOk result (λ units. (s : Spelling)
        × Spells s text.now × (decimal_places s ≤ 6) × (units ≡ units_of s) × IsValue units) }
    ensures number { (s : Spelling) → Spells s text.now → decimal_places s ≤ 6 → IsValue (units_of s)
        → result ≡ Ok (units_of s) }
{
    answer_to(text)
}

/// The same, by the definition of reading alone.
fn answer_to(text: &str) -> Result<i64, NumErr>
    ensures { result ≡ reading text.now }
{
    if text.is_empty() {
        return Err(NumErr::Empty);
    }
    let (is_negative, unsigned) = without_minus(text);
    let (whole, decimals) = split_at_point(unsigned);
    if !is_number(whole, decimals) {
        return Err(NumErr::Digit);
    }
    value_of(is_negative, whole, decimals)
}

/// Whether a minus stands in front, and the text after it.
fn without_minus(text: &str) -> (bool, &str)
    ensures minus { result.0 ≡ has_minus text.now }
    ensures rest { result.1.now ≡ without_minus text.now }
{
    match text.strip_prefix('-') {
        Some(rest) => (true, rest),
        None => (false, text),
    }
}

/// What stands before the first point, and after it where there is one.
fn split_at_point(text: &str) -> (&str, Option<&str>)
    ensures whole { result.0.now ≡ before_first is_point text.now }
    ensures decimals { option_copied result.1 ≡ after_point text.now }
{
    match text.split_once('.') {
        Some((whole, decimals)) => (whole, Some(decimals)),
        None => (text, None),
    }
}

fn is_number(whole: &str, decimals: Option<&str>) -> bool
    ensures { result ≡ (is_digits whole.now && are_decimals (option_copied decimals.entry)) }
{
    is_digits(whole) && are_decimals(decimals)
}

fn is_digits(text: &str) -> bool
    ensures { result ≡ is_digits text.now }
{
    !text.is_empty() && all_digits(text)
}

fn all_digits(text: &str) -> bool
    ensures { result ≡ list_all is_ascii_digit text.now }
{
    text.as_bytes().iter().all(|byte| byte.is_ascii_digit())
}

fn are_decimals(decimals: Option<&str>) -> bool
    ensures { result ≡ are_decimals (option_copied decimals.entry) }
{
    match decimals {
        Some(text) => is_digits(text),
        None => true,
    }
}

/// The units that the parts of a number's text mean.
fn value_of(is_negative: bool, whole: &str, decimals: Option<&str>) -> Result<i64, NumErr>
    requires whole { IsTrue (is_digits whole.now) }
    requires decimals { IsTrue (are_decimals (option_copied decimals)) }
    ensures { result ≡ value_of (record {
      is_negative = is_negative;
      whole = whole.now;
      decimals = option_copied decimals.entry;
    }) }
{
    let decimals = digits_after(decimals);
    if decimals.len() > PLACES {
        return Err(NumErr::TooManyDecimals);
    }
    let magnitude = magnitude_of(whole, decimals);
    if magnitude > LIMIT {
        return Err(NumErr::Range);
    }
    Ok(signed(is_negative, magnitude))
}

fn digits_after(decimals: Option<&str>) -> &str
    ensures { result.now ≡ unwrap_or (option_copied decimals.entry) [] }
{
    match decimals {
        Some(text) => text,
        None => "",
    }
}

/// The units of the digits before and after a point, where the number before it goes up to
/// [`CAP`] at most.
fn magnitude_of(whole: &str, decimals: &str) -> u64
    requires whole { IsTrue (all_ascii_digits whole.now) }
    requires decimals { IsTrue (all_ascii_digits decimals.now) }
    requires places { length decimals.now ≤ 6 }
    ensures { result ≡ min (digits_value 10 whole.now) CAP * 10 ^ 6
        + digits_value 10 decimals.now * 10 ^ (6 - length decimals.now) }
{
    let weight = 10u64.pow((PLACES - decimals.len()) as u32);
    capped_number(whole) * ONE + capped_number(decimals) * weight
}

/// The number that digits spell, or [`CAP`] where it is more: the digits may be many.
fn capped_number(digits: &str) -> u64
    requires { IsTrue (all_ascii_digits digits.now) }
    ensures { result ≡ min (digits_value 10 digits.now) CAP }
{
    let mut number: u64 = 0;
    for digit in digits.as_bytes() {
        number = CAP.min(10 * number + u64::from(*digit - b'0'));
    }
    number
}

fn signed(is_negative: bool, magnitude: u64) -> i64
    requires { magnitude ≤ 10 ^ 13 }
    ensures { result ≡ (if is_negative then neg_ℤ (pos magnitude) else pos magnitude) }
{
    let units = magnitude as i64;
    if is_negative { -units } else { units }
}

#[cfg(test)]
mod tests {
    use super::*;

    const CASES: [(&str, Result<i64, NumErr>); 23] = [
        ("10000000", Ok(10_000_000_000_000)),
        ("-10000000", Ok(-10_000_000_000_000)),
        ("10000000.000001", Err(NumErr::Range)),
        ("-10000000.000001", Err(NumErr::Range)),
        ("10000001", Err(NumErr::Range)),
        (
            "9999999999999999999999999999999999999999",
            Err(NumErr::Range),
        ),
        ("99999999999999999999.0000001", Err(NumErr::TooManyDecimals)),
        ("1.0000001", Err(NumErr::TooManyDecimals)),
        ("1.0000000", Err(NumErr::TooManyDecimals)),
        ("1.000000", Ok(1_000_000)),
        ("0.000001", Ok(1)),
        ("007", Ok(7_000_000)),
        ("-0", Ok(0)),
        ("-0.5", Ok(-500_000)),
        ("1.75", Ok(1_750_000)),
        ("", Err(NumErr::Empty)),
        ("1.", Err(NumErr::Digit)),
        (".5", Err(NumErr::Digit)),
        ("-", Err(NumErr::Digit)),
        ("+1", Err(NumErr::Digit)),
        (" 1", Err(NumErr::Digit)),
        ("1.5.5", Err(NumErr::Digit)),
        ("--1", Err(NumErr::Digit)),
    ];

    #[test]
    fn reads_each_case(rt: HostRuntime) {
        for (text, expected) in CASES {
            assert_eq!(rt; read_value(text), expected, "of {text:?}");
        }
    }
}
