//! The line of a fault.

ghost use Rattle.std.specs.Prelude.{◌≡◌, ◌<◌, ◌++◌, length, IfOk, OnOk};
ghost use Rattle.watch_log.specs.FaultText.{participant_part, scheme_part, map_part, relax_part, fault_words, fault_text};
ghost use Rattle.watch_log.specs.Told.{IsFaultOf};

use crate::words::{push_counted, push_number, push_turn, push_word};
use cpl_plan::{Fault, Plan};
use fixed_num::Memory;
use plan_order::{ExchangeId, PartId, SchemeId};
use std::alloc::Global;

/// The line of a fault, in memory of its own.
pub fn fault_line(alloc: Global, plan: &Plan, fault: &Fault) -> Result<Vec<u8>, Memory>
    requires { IsFaultOf plan.now fault.now }
    ensures { IfOk result (λ text. text.items ≡ fault_text plan.now fault.now) }
{
    let mut text = Vec::new(alloc);
    push_fault(alloc, plan, *fault, &mut text)?;
    text.push(b'\n')?;
    Ok(text)
}

/// Appends the line without its end.
fn push_fault(alloc: Global, plan: &Plan, fault: Fault, text: &mut Vec<u8>) -> Result<(), Memory>
    requires { IsFaultOf plan.now fault }
    ensures { OnOk result (text.new.items ≡ text.old.items ++ fault_words plan.now fault) }
{
    match fault {
        Fault::Solver {
            part,
            window,
            iteration,
            step,
            code,
        } => {
            push_part(alloc, plan, part, window, iteration, text)?;
            push_number(alloc, " step ", u64::from(step), text)?;
            push_number(alloc, " code ", u64::from(code), text)?;
            Ok(())
        }
        Fault::Steps {
            part,
            window,
            iteration,
        } => {
            push_part(alloc, plan, part, window, iteration, text)?;
            push_word(" steps", text)?;
            Ok(())
        }
        Fault::WriteMap {
            part,
            window,
            iteration,
            exchange,
            time,
            vertex,
            component,
        } => {
            push_part(alloc, plan, part, window, iteration, text)?;
            push_word(" write-map", text)?;
            push_map(alloc, exchange, time, vertex, component, text)?;
            Ok(())
        }
        Fault::ReadMap {
            part,
            window,
            iteration,
            exchange,
            time,
            vertex,
            component,
        } => {
            push_part(alloc, plan, part, window, iteration, text)?;
            push_word(" read-map", text)?;
            push_map(alloc, exchange, time, vertex, component, text)?;
            Ok(())
        }
        Fault::Relax {
            scheme,
            window,
            iteration,
            exchange,
            time,
            component,
        } => {
            push_scheme(alloc, scheme, window, iteration, text)?;
            push_relax(alloc, exchange, time, component, text)?;
            Ok(())
        }
        Fault::NotConverged {
            scheme,
            window,
            iteration,
            measure,
        } => {
            push_scheme(alloc, scheme, window, iteration, text)?;
            push_counted(alloc, " measure ", measure, text)?;
            push_word(" not converged", text)?;
            Ok(())
        }
    }
}

/// Appends whose fault it is, and in which turn.
fn push_part(
    alloc: Global,
    plan: &Plan,
    part: PartId,
    window: u32,
    iteration: u32,
    text: &mut Vec<u8>,
) -> Result<(), Memory>
    requires { part < length plan.now.parts }
    ensures { OnOk result (text.new.items ≡ text.old.items ++ participant_part plan.now part window iteration) }
{
    let name = plan.part(part).name.as_str();
    let words = format!(in alloc;
        "fault participant {name} window {window} iteration {iteration}"
    )?;
    push_word(words.as_str(), text)?;
    Ok(())
}

/// Appends which scheme faults, and in which iteration.
fn push_scheme(
    alloc: Global,
    scheme: SchemeId,
    window: u32,
    iteration: u32,
    text: &mut Vec<u8>,
) -> Result<(), Memory>
    ensures { OnOk result (text.new.items ≡ text.old.items ++ scheme_part scheme window iteration) }
{
    let scheme = u64::from(scheme) + 1;
    let part = format!(in alloc; "fault scheme {scheme} window {window} iteration {iteration}")?;
    push_word(part.as_str(), text)?;
    Ok(())
}

/// Appends where a mapped sum is out of range.
fn push_map(
    alloc: Global,
    exchange: ExchangeId,
    time: u64,
    vertex: u32,
    component: u32,
    text: &mut Vec<u8>,
) -> Result<(), Memory>
    ensures { OnOk result (text.new.items ≡ text.old.items ++ map_part exchange time vertex component) }
{
    let exchange = u64::from(exchange) + 1;
    let place = format!(in alloc;
        " exchange {exchange} time {time} vertex {vertex} component {component}"
    )?;
    push_word(place.as_str(), text)?;
    Ok(())
}

/// Appends where a relaxed value is out of range.
fn push_relax(
    alloc: Global,
    exchange: ExchangeId,
    time: u64,
    component: u32,
    text: &mut Vec<u8>,
) -> Result<(), Memory>
    ensures { OnOk result (text.new.items ≡ text.old.items ++ relax_part exchange time component) }
{
    let exchange = u64::from(exchange) + 1;
    let place = format!(in alloc; " relax exchange {exchange} time {time} component {component}")?;
    push_word(place.as_str(), text)?;
    Ok(())
}
