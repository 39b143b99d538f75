//! The configuration of a coupling: a text in TOML, read whole and refused exactly.
#![tactic(auto)]

pub mod config;
pub mod error;
pub mod fields;
pub mod kind_words;
pub mod laws;
mod part_tables;
pub mod read;
mod scheme_tables;
pub mod tables_of;
pub mod values;
mod words_of;

pub use config::{
    AccelEntry, ActionEntry, Config, DataEntry, DataTable, ExchangeEntry, MapEntry, MeasureEntry,
    MeshTable, PartTable, ReceivesEntry, SchemeTable, WatchEntry,
};
pub use error::ConfigErr;
pub use kind_words::{
    AccelWord, ActionWord, Constraint, DataKind, Direction, KindWord, MapWord, MeasureWord,
    WindowWord,
};
pub use laws::{tree_without_fault_is_sound, words_have_their_meanings};
pub use read::read_config;
