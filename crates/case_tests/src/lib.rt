//! What is told of case files: each alone, beside its configuration, and loaded with it.
#![tactic(auto)]

#[cfg(test)]
mod cases_judged;
#[cfg(test)]
mod cases_loaded;
#[cfg(test)]
mod cases_read;
