use crate::kinds::TableKind;
use crate::word_lists::WordList;

/// Which numbers are in range. Those of a text of digits or a whole number are in units
/// (millionths); integers and counts are as they stand.
#[derive(Clone, Copy, Debug, PartialEq, Eq)]
pub enum Range {
    /// At most so far from zero.
    Within(u64),
    /// From the first to the second.
    Between(u64, u64),
}

/// How many items a list may have.
#[derive(Clone, Copy, Debug, PartialEq, Eq)]
pub enum Limit {
    /// Any number of items.
    Any,
    /// From the first number of items to the second.
    Items(u64, u64),
}

/// What the value of a key has to be.
#[derive(Clone, Copy, Debug, PartialEq, Eq)]
pub enum Shape {
    /// A text of 1 to 64 bytes, each a visible ASCII character.
    Name,
    /// A text of 1 to 256 bytes.
    Text,
    /// One of the listed words.
    Word(WordList),
    /// `true` or `false`.
    Boolean,
    /// A whole number, as it stands.
    Integer(Range),
    /// A text of digits, or a whole number.
    Number(Range),
    /// Names, none of them twice.
    Names(Limit),
    /// Whole numbers, as they stand.
    Integers,
    /// Numbers, in units.
    Numbers(Limit, Range),
    /// Lists of numbers.
    Points(Limit, Range),
    /// Lists of an integer and a number.
    Pairs(Limit, Range),
    /// Tables of a kind.
    Tables(TableKind, Limit),
    /// One table of a kind.
    Table(TableKind),
}

/// Whether a key may be left out.
#[derive(Clone, Copy, Debug, PartialEq, Eq)]
pub enum Presence {
    /// The table is refused without it.
    Required,
    /// It may be left out.
    Optional,
}

/// A key that is listed for a kind of table.
#[derive(Clone, Copy, Debug)]
pub struct Key {
    pub name: &'static str,
    /// Whether it may be left out.
    pub presence: Presence,
    /// What its value has to be.
    pub shape: Shape,
}
