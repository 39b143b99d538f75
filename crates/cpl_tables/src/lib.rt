//! The tables of a configuration and of case files: their kinds, the keys of each, what a key's
//! value has to be, and how places in a file are named.
#![tactic(auto)]

pub mod asks;
mod items;
pub mod key_lists;
pub mod kinds;
pub mod laws;
pub mod place_text;
pub mod places;
pub mod shapes;
pub mod values;
pub mod word_lists;

pub use asks::{has_length, has_no_repeat, has_type, is_spelled};
pub use key_lists::keys;
pub use kinds::{Format, TableKind};
pub use place_text::print_place;
pub use places::{Place, number_at};
pub use shapes::{Key, Limit, Presence, Range, Shape};
pub use values::{
    is_in_range, is_integer, is_name, is_number, is_number_in, is_pair, is_pair_in, is_point,
    is_point_in, is_short_text, is_table, is_text, list_of, number_of, number_of_pair, text_of,
};
pub use word_lists::{WordList, is_word, word_at, words};
