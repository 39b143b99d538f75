//! The program `coupling`: checks the files of a coupling, and runs one of two participants on one
//! thread.
//!
//! Values are whole numbers of millionths, time is whole ticks.
#![tactic(auto)]

pub mod answer;
mod base;
pub mod check;
pub mod driver;
pub mod fault;
mod form;
mod laws;
pub mod report;
pub mod run;
pub mod solo;
pub mod status;
#[cfg(test)]
mod tests;
mod tree;
pub mod turn;
pub mod words;

use fixed_num::Memory;
use io_edge::{DiskFiles, StdSink};
use solo::coupling_solo;
use status::Status;
use std::env;
use std::io::ErrorKind;
use std::process::ExitCode;
use words::after_the_name;

fn main(rt: HostRuntime) -> ExitCode {
    let status = match words_of(&rt) {
        Ok(words) => coupling_solo(
            rt.alloc(),
            after_the_name(words.as_slice()),
            &mut DiskFiles::new(&rt),
            &mut StdSink::new(&rt),
        ),
        Err(Memory) => Status::Memory,
    };
    status.exit_code()
}

/// The words of the command line, from the program's name on. A word that is not UTF-8 leaves none,
/// which is refused as it is to be.
fn words_of<R: env::Env + AllocGlobal>(rt: &R) -> Result<Vec<String>, Memory> {
    match env::args(rt) {
        Ok(args) => Ok(args.collect(rt.alloc())?),
        Err(error) if error.kind() == ErrorKind::OutOfMemory => Err(Memory),
        Err(_) => Ok(Vec::new(rt.alloc())),
    }
}
