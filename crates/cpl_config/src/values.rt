//! What a value of TOML means, by the type that is asked for.
//!
//! A value of another type means something arbitrary, since no accepted file has one.
ghost use Rattle.std.specs.Prelude.{◌≡◌};
ghost use Rattle.toml.specs.View.{view};
ghost use Rattle.cpl_config.specs.TreeValues.{integer_of, units_of, truth_of};

use cpl_tables::number_of;
use toml::Value;

/// The integer that a value is.
pub fn integer_of(value: &Value) -> i64
    ensures { result ≡ integer_of (view value.now) }
{
    match value {
        Value::Integer(number) => *number,
        _ => 0,
    }
}

/// The units of the number that a value is.
pub fn units_of(value: &Value) -> i64
    ensures { result ≡ units_of (view value.now) }
{
    match number_of(value) {
        Some(units) => units,
        None => 0,
    }
}

/// The truth that a value is, or the default where it is none.
pub fn truth_of(value: &Value, default: bool) -> bool
    ensures { result ≡ truth_of (view value.now) default }
{
    match value {
        Value::Boolean(truth) => *truth,
        _ => default,
    }
}
