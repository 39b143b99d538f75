//! How a refusal is told.
ghost use Rattle.std.specs.Prelude.{◌≡◌, [], IfOk, option_map, slice_get, ◌-◌, unwrap_or};
ghost use Rattle.accepted_case.specs.Acceptance.{name_at, refused_in, refused_config};

use crate::parts::RefusedCase;
use cpl_config::Config;
use cpl_rules::Refusal;
use cpl_tables::Place;
use fixed_num::{Memory, Name};
use std::alloc::Global;

/// What is told where a configuration is refused.
pub fn refused_config(alloc: Global, refusal: Refusal) -> RefusedCase
    ensures { result ≡ refused_config refusal }
{
    RefusedCase {
        refusal,
        name: Name::from_string(String::new(alloc)),
    }
}

/// What is told where a case file is refused: with the name of its participant.
pub fn refused_in(alloc: Global, config: &Config, refusal: Refusal) -> Result<RefusedCase, Memory>
    ensures { IfOk result (λ refused. refused ≡ refused_in config.now refusal) }
{
    let name = String::from_str(alloc, name_at(config, refusal.place))?;
    Ok(RefusedCase {
        refusal,
        name: Name::from_string(name),
    })
}

/// The name of the participant whose case file a place is.
fn name_at(config: &Config, place: Place) -> &str
    ensures { result.now ≡ name_at config.now place }
{
    match place {
        Place::Case(number) => name_of(config, number),
        _ => "",
    }
}

/// The name of the participant with this number, from 1.
fn name_of(config: &Config, number: u32) -> &str
    ensures { result.now ≡ unwrap_or (option_map (λ part. part.name) (slice_get (config.now).participant (number - 1))) [] }
{
    let index = number.saturating_sub(1) as usize;
    match config.participant.as_slice().get(index) {
        Some(part) => part.name.as_str(),
        None => "",
    }
}
