//! What a shape asks of a value: its type, how it is written, how long a list may be, and which
//! names are distinct.
ghost use Rattle.std.specs.Prelude.{◌≡◌, map, IfOk};
ghost use Rattle.toml.specs.View.{view};
ghost use Rattle.cpl_tables.specs.Values.{text_of, has_type, is_list_of, is_spelled, are_spelled, is_within, has_length, are_distinct_texts, has_no_repeat};

use crate::items::{
    IsInteger, IsName, IsNumber, IsNumberIn, IsPair, IsPairIn, IsPoint, IsPointIn, IsTable, IsText,
    all_pass,
};
use crate::shapes::{Limit, Shape};
use crate::values::{
    is_in_range, is_name, is_number, is_number_in, is_short_text, list_of, text_of,
};
use crate::word_lists::is_word;
use fixed_num::Memory;
use std::alloc::Global;
use std::collections::BTreeSet;
use toml::Value;

/// Whether a value has the type of the shape; a word that is not listed has not.
pub fn has_type(shape: Shape, value: &Value) -> bool
    ensures { result ≡ has_type shape (view value.now) }
{
    match (shape, value) {
        (Shape::Name, Value::String(_)) => true,
        (Shape::Text, Value::String(_)) => true,
        (Shape::Word(list), Value::String(text)) => is_word(list, text.as_str()),
        (Shape::Boolean, Value::Boolean(_)) => true,
        (Shape::Integer(_), Value::Integer(_)) => true,
        (Shape::Number(_), value) => is_number(value),
        (Shape::Table(_), Value::Table(_)) => true,
        (shape, Value::Array(_)) => is_list_of(shape, list_of(value)),
        _ => false,
    }
}

/// Whether the items of a list have the type that the shape asks of each.
fn is_list_of(shape: Shape, items: &[Value]) -> bool
    ensures { result ≡ is_list_of shape (map view items.now) }
{
    match shape {
        Shape::Names(_) => all_pass(items, &IsText),
        Shape::Integers => all_pass(items, &IsInteger),
        Shape::Numbers(_, _) => all_pass(items, &IsNumber),
        Shape::Points(_, _) => all_pass(items, &IsPoint),
        Shape::Pairs(_, _) => all_pass(items, &IsPair),
        Shape::Tables(_, _) => all_pass(items, &IsTable),
        _ => false,
    }
}

/// Whether a value that has the type of the shape is spelled as its names and numbers have to be,
/// and these are in range.
pub fn is_spelled(shape: Shape, value: &Value) -> bool
    ensures { result ≡ is_spelled shape (view value.now) }
{
    match (shape, value) {
        (Shape::Name, value) => is_name(text_of(value)),
        (Shape::Text, value) => is_short_text(text_of(value)),
        (Shape::Integer(range), Value::Integer(number)) => is_in_range(range, *number),
        (Shape::Number(range), value) => is_number_in(range, value),
        (shape, value) => are_spelled(shape, list_of(value)),
    }
}

/// Whether the items of a list are spelled so.
fn are_spelled(shape: Shape, items: &[Value]) -> bool
    ensures { result ≡ are_spelled shape (map view items.now) }
{
    match shape {
        Shape::Names(_) => all_pass(items, &IsName),
        Shape::Numbers(_, range) => all_pass(items, &IsNumberIn(range)),
        Shape::Points(_, range) => all_pass(items, &IsPointIn(range)),
        Shape::Pairs(_, range) => all_pass(items, &IsPairIn(range)),
        _ => true,
    }
}

/// Whether a list is as long as the shape allows.
pub fn has_length(shape: Shape, value: &Value) -> bool
    ensures { result ≡ has_length shape (view value.now) }
{
    match shape {
        Shape::Names(limit) => is_within(limit, list_of(value).len()),
        Shape::Numbers(limit, _) => is_within(limit, list_of(value).len()),
        Shape::Points(limit, _) => is_within(limit, list_of(value).len()),
        Shape::Pairs(limit, _) => is_within(limit, list_of(value).len()),
        Shape::Tables(_, limit) => is_within(limit, list_of(value).len()),
        _ => true,
    }
}

fn is_within(limit: Limit, count: usize) -> bool
    ensures { result ≡ is_within limit count }
{
    match limit {
        Limit::Any => true,
        Limit::Items(least, most) => least <= count as u64 && count as u64 <= most,
    }
}

/// Whether no name of a list of names stands in it twice. Takes little more than linear time.
pub fn has_no_repeat(alloc: Global, shape: Shape, value: &Value) -> Result<bool, Memory>
    ensures { IfOk result (λ distinct. distinct ≡ has_no_repeat shape (view value.now)) }
{
    match shape {
        Shape::Names(_) => are_distinct_texts(alloc, list_of(value)),
        _ => Ok(true),
    }
}

fn are_distinct_texts(alloc: Global, items: &[Value]) -> Result<bool, Memory>
    ensures { IfOk result (λ distinct. distinct ≡ are_distinct_texts (map text_of (map view items.now))) }
{
    let mut seen: BTreeSet<String> = BTreeSet::new(alloc);
    'texts: for item in items {
        let text = String::from_str(alloc, text_of(item))?;
        if !seen.insert(text)? {
            return Ok(false);
        }
    }
    Ok(true)
}
