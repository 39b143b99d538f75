//! What a participant's calls stand on, by hand: what it writes, what it reads, its mappings.
#![tactic(auto)]

#[cfg(test)]
mod maps;
#[cfg(test)]
mod reading;
#[cfg(test)]
mod samples;
#[cfg(test)]
mod writing;
