//! What the plans of configurations say, by numbers found by hand in their texts.
mod composed;
mod wall;

use config_rules::check_config;
use cpl_config::read_config;
use cpl_plan::Plan;
use plan_build::build;
use std::alloc::{AllocError, Global};
use std::fmt::Debug;
use std::test::Fail;

/// The plan of a configuration in a text.
fn plan_of(alloc: Global, text: &str) -> Result<Plan, Fail> {
    let config = read_config(alloc, text.as_bytes())?;
    check_config(alloc, &config)?;
    let plan = build(alloc, &config)?;
    Ok(plan)
}

/// How a value is shown, without the types that hold texts, lists and numbers.
fn shown<T: Debug>(alloc: Global, value: &T) -> Result<String, AllocError> {
    let text = format!(in alloc; "{value:?}")?;
    let text = text.replace(alloc, "Name { text: ", "")?;
    let text = text.replace(alloc, "\" }", "\"")?;
    let text = text.replace(alloc, "Items { items: ", "")?;
    text.replace(alloc, "] }", "]")
}
