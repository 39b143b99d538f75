//! The outside as the rest of the workspace sees it: files that are loaded and sinks that take bytes.
//!
//! Both are traits with written meanings, so that code above can be proved over any of them. For
//! tests there are values in memory, which fail where they are told to; for programs there are thin
//! adapters of the runtime's files and standard output, of which no content is known. They are an
//! open, [`load_from`] and [`put_to`], which say of any reader and writer what they do.
#![tactic(auto)]

pub mod disk_files;
pub mod files;
pub mod mem_files;
pub mod mem_sink;
pub mod never_files;
pub mod never_sink;
pub mod reading;
mod shelf;
pub mod sink;
pub mod std_sink;
#[cfg(test)]
mod tests;
pub mod writing;

pub use disk_files::DiskFiles;
pub use files::{Files, LoadErr};
pub use mem_files::MemFiles;
pub use mem_sink::MemSink;
pub use never_files::NeverFiles;
pub use never_sink::NeverSink;
pub use reading::load_from;
pub use sink::{PutErr, Sink, put_all};
pub use std_sink::StdSink;
pub use writing::put_to;
