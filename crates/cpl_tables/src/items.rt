//! What each item of a list has to be.
ghost use Rattle.std.specs.Prelude.{◌≡◌, Bool, map};
ghost use Rattle.std.specs.List.{list_all};
ghost use Rattle.toml.specs.Data.{Data};
ghost use Rattle.toml.specs.View.{view};
ghost use Rattle.cpl_tables.specs.Values.{is_text, is_integer, is_number, is_table, is_point, is_pair, is_name_text, is_number_in, is_point_in, is_pair_in};

use crate::shapes::Range;
use crate::values::{
    is_integer, is_name, is_number, is_number_in, is_pair, is_pair_in, is_point, is_point_in,
    is_table, is_text, text_of,
};
use toml::Value;

/// A test that each item of a list has to pass.
pub trait ItemTest {
    /// Which items pass it.
    ghost test: { Self → Data → Bool };

    fn passes(&self, item: &Value) -> bool
        ensures { result ≡ test self.now (view item.now) };
}

/// Whether all items pass the test.
pub fn all_pass<T: ItemTest>(items: &[Value], test: &T) -> bool
    ensures { result ≡ list_all (T.test test.now) (map view items.now) }
{
    'items: for item in items {
        if !test.passes(item) {
            return false;
        }
    }
    true
}

/// An item is a text.
#[derive(Clone, Copy)]
pub struct IsText;

/// An item is a whole number.
#[derive(Clone, Copy)]
pub struct IsInteger;

/// An item is written as a number is: a text or a whole number.
#[derive(Clone, Copy)]
pub struct IsNumber;

/// An item is a table.
#[derive(Clone, Copy)]
pub struct IsTable;

/// An item is a list of numbers.
#[derive(Clone, Copy)]
pub struct IsPoint;

/// An item is an index and a number.
#[derive(Clone, Copy)]
pub struct IsPair;

/// An item is spelled as a name.
#[derive(Clone, Copy)]
pub struct IsName;

/// An item is spelled as a number, within a range in units.
#[derive(Clone, Copy)]
pub struct IsNumberIn(pub Range);

/// An item has numbers only that are spelled so, each within a range in units.
#[derive(Clone, Copy)]
pub struct IsPointIn(pub Range);

/// The second of a pair is spelled as a number, within a range in units.
#[derive(Clone, Copy)]
pub struct IsPairIn(pub Range);

impl ItemTest for IsText {
    ghost test = { λ _. is_text };

    fn passes(&self, item: &Value) -> bool {
        is_text(item)
    }
}

impl ItemTest for IsInteger {
    ghost test = { λ _. is_integer };

    fn passes(&self, item: &Value) -> bool {
        is_integer(item)
    }
}

impl ItemTest for IsNumber {
    ghost test = { λ _. is_number };

    fn passes(&self, item: &Value) -> bool {
        is_number(item)
    }
}

impl ItemTest for IsTable {
    ghost test = { λ _. is_table };

    fn passes(&self, item: &Value) -> bool {
        is_table(item)
    }
}

impl ItemTest for IsPoint {
    ghost test = { λ _. is_point };

    fn passes(&self, item: &Value) -> bool {
        is_point(item)
    }
}

impl ItemTest for IsPair {
    ghost test = { λ _. is_pair };

    fn passes(&self, item: &Value) -> bool {
        is_pair(item)
    }
}

impl ItemTest for IsName {
    ghost test = { λ _. is_name_text };

    fn passes(&self, item: &Value) -> bool {
        is_name(text_of(item))
    }
}

impl ItemTest for IsNumberIn {
    ghost test = { λ s. is_number_in s.0 };

    fn passes(&self, item: &Value) -> bool {
        is_number_in(self.0, item)
    }
}

impl ItemTest for IsPointIn {
    ghost test = { λ s. is_point_in s.0 };

    fn passes(&self, item: &Value) -> bool {
        is_point_in(self.0, item)
    }
}

impl ItemTest for IsPairIn {
    ghost test = { λ s. is_pair_in s.0 };

    fn passes(&self, item: &Value) -> bool {
        is_pair_in(self.0, item)
    }
}
