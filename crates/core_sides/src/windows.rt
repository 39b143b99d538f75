//! Which windows there are, and when they start and end.

ghost use Rattle.std.specs.Prelude.{◌≡◌, ◌≤◌, slice_get};
ghost use Rattle.cpl_plan.specs.Windows.{start_by, window_start, is_window, window_end};
ghost use Rattle.cpl_plan.specs.declared.parts.WindowMethod.TheVariants.{FirstParticipant};

use cpl_plan::{Plan, WindowMethod};

/// When window w starts, by the ends of the windows that were made; None where that is not told.
pub fn start_of(plan: &Plan, ends: &[u64], w: u32) -> Option<u64>
    requires { w ≤ plan.now.most_windows }
    ensures { result ≡ window_start plan.now ends.now w }
{
    if w == 0 {
        return None;
    }
    match plan.window_method() {
        WindowMethod::Fixed => Some(plan.window_span(w).0),
        WindowMethod::FirstParticipant => made_start(ends, w),
    }
}

/// When a window starts that a step makes.
fn made_start(ends: &[u64], w: u32) -> Option<u64>
    requires { 1 ≤ w }
    ensures { result ≡ start_by FirstParticipant 0 ends.now w }
{
    if w == 1 { Some(0) } else { end_at(ends, w - 2) }
}

/// The end at a place.
fn end_at(ends: &[u64], place: u32) -> Option<u64>
    ensures { result ≡ slice_get ends.now place }
{
    ends.get(place as usize).copied()
}

/// Whether there is a window w, by the ends of the windows that were made.
pub fn is_there(plan: &Plan, ends: &[u64], w: u32) -> bool
    ensures { result ≡ is_window plan.now ends.now w }
{
    if w > plan.window_count() {
        return false;
    }
    match start_of(plan, ends, w) {
        Some(start) => start < plan.end_time(),
        None => false,
    }
}

/// When window w ends; None where that is not told.
pub fn end_of(plan: &Plan, ends: &[u64], w: u32) -> Option<u64>
    requires { 1 ≤ w }
    ensures { result ≡ window_end plan.now ends.now w }
{
    if !is_there(plan, ends, w) {
        return None;
    }
    match plan.window_method() {
        WindowMethod::Fixed => Some(plan.window_span(w).1),
        WindowMethod::FirstParticipant => end_at(ends, w - 1),
    }
}
