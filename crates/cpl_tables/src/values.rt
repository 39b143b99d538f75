//! What a value of TOML is: its text, its items, its number, and whether it is one of a kind.
ghost use Rattle.std.specs.Prelude.{◌≡◌, map};
ghost use Rattle.std.specs.List.{list_all};
ghost use Rattle.toml.specs.Data.{integer};
ghost use Rattle.toml.specs.View.{view};
ghost use Rattle.cpl_tables.specs.Values.{text_of, list_of, number_of, number_of_pair, is_text, is_integer, is_number, is_table, is_point, is_pair, is_in_range, is_visible, is_name, is_short_text, is_number_in, is_pair_in, is_point_in};

use crate::items::{IsNumber, IsNumberIn, all_pass};
use crate::shapes::Range;
use line_text::read_value;
use toml::Value;

/// The greatest absolute value of a whole number that is a Value.
const MOST_WHOLE: i64 = 10_000_000;

const UNITS_OF_ONE: i64 = 1_000_000;

/// The text of a value that is one; of any other it is empty.
pub fn text_of(value: &Value) -> &str
    ensures { result.now ≡ text_of (view value.now) }
{
    match value {
        Value::String(text) => text.as_str(),
        _ => "",
    }
}

/// The items of a value that is a list; of any other there are none.
#[tactic(auto, using(crate::proofs::Lists::list_of_view))]
pub fn list_of(value: &Value) -> &[Value]
    ensures { map view result.now ≡ list_of (view value.now) }
{
    match value {
        Value::Array(items) => items.as_slice(),
        _ => &[],
    }
}

/// The units of a number, which is the text of one or a whole number. None of what is no number
/// or past ten million in absolute value.
pub fn number_of(value: &Value) -> Option<i64>
    ensures { result ≡ number_of (view value.now) }
{
    match value {
        Value::String(text) => read_value(text.as_str()).ok(),
        Value::Integer(whole) => whole_units(*whole),
        _ => None,
    }
}

fn whole_units(whole: i64) -> Option<i64>
    ensures { result ≡ number_of (integer whole) }
{
    if whole < -MOST_WHOLE || MOST_WHOLE < whole {
        return None;
    }
    Some(whole * UNITS_OF_ONE)
}

/// The units of the second of a pair.
pub fn number_of_pair(value: &Value) -> Option<i64>
    ensures { result ≡ number_of_pair (view value.now) }
{
    match list_of(value) {
        [_, number] => number_of(number),
        _ => None,
    }
}

/// Whether a value is a text.
pub fn is_text(value: &Value) -> bool
    ensures { result ≡ is_text (view value.now) }
{
    matches!(value, Value::String(_))
}

/// Whether a value is a whole number.
pub fn is_integer(value: &Value) -> bool
    ensures { result ≡ is_integer (view value.now) }
{
    matches!(value, Value::Integer(_))
}

/// Whether a value is a text or a whole number, as numbers are written.
pub fn is_number(value: &Value) -> bool
    ensures { result ≡ is_number (view value.now) }
{
    matches!(value, Value::String(_) | Value::Integer(_))
}

/// Whether a value is a table.
pub fn is_table(value: &Value) -> bool
    ensures { result ≡ is_table (view value.now) }
{
    matches!(value, Value::Table(_))
}

/// Whether a value is a list of numbers.
pub fn is_point(value: &Value) -> bool
    ensures { result ≡ is_point (view value.now) }
{
    match value {
        Value::Array(_) => all_pass(list_of(value), &IsNumber),
        _ => false,
    }
}

/// Whether a value is a list of an integer and a number.
pub fn is_pair(value: &Value) -> bool
    ensures { result ≡ is_pair (view value.now) }
{
    match list_of(value) {
        [index, number] => is_integer(index) && is_number(number),
        _ => false,
    }
}

/// Whether a number is in range.
pub fn is_in_range(range: Range, number: i64) -> bool
    ensures { result ≡ is_in_range range number }
{
    match range {
        Range::Within(most) => number.unsigned_abs() <= most,
        Range::Between(least, most) => is_between(least, most, number),
    }
}

fn is_between(least: u64, most: u64, number: i64) -> bool
    ensures { result ≡ is_in_range (Range.Between least most) number }
{
    match u64::try_from(number) {
        Ok(number) => least <= number && number <= most,
        Err(_) => false,
    }
}

/// Whether a value is a number in range.
pub fn is_number_in(range: Range, value: &Value) -> bool
    ensures { result ≡ is_number_in range (view value.now) }
{
    match number_of(value) {
        Some(number) => is_in_range(range, number),
        None => false,
    }
}

/// Whether the number of a pair is in range.
pub fn is_pair_in(range: Range, value: &Value) -> bool
    ensures { result ≡ is_pair_in range (view value.now) }
{
    match number_of_pair(value) {
        Some(number) => is_in_range(range, number),
        None => false,
    }
}

/// Whether the numbers of a point are in range.
pub fn is_point_in(range: Range, value: &Value) -> bool
    ensures { result ≡ is_point_in range (view value.now) }
{
    all_pass(list_of(value), &IsNumberIn(range))
}

/// Whether a text is a name: 1 to 64 visible bytes of ASCII.
pub fn is_name(text: &str) -> bool
    ensures { result ≡ is_name text.now }
{
    1 <= text.len() && text.len() <= 64 && is_all_visible(text)
}

fn is_all_visible(text: &str) -> bool
    ensures { result ≡ list_all is_visible text.now }
{
    text.as_bytes().iter().all(|byte| is_visible(*byte))
}

fn is_visible(byte: u8) -> bool
    ensures { result ≡ is_visible byte }
{
    33 <= byte && byte <= 126
}

/// Whether a text has 1 to 256 bytes.
pub fn is_short_text(text: &str) -> bool
    ensures { result ≡ is_short_text text.now }
{
    1 <= text.len() && text.len() <= 256
}
