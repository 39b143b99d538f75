//! How many windows of one size there are, and where they start and end.

ghost use Rattle.std.specs.Prelude.{◌≡◌, ◌-◌, ◌*◌, ◌^◌, ◌≤◌, min};
ghost use Rattle.cpl_plan.specs.Windows.{IsLeastToReach, windows_to_reach};

/// How many windows of a size reach the end time, both in ticks: as few as can be.
pub fn windows_to_reach(size: u64, end_time: u64) -> u32
    requires size { 1 ≤ size }
    requires end_time { 1 ≤ end_time }
    requires few { end_time ≤ 10 ^ 6 * size }
    ensures count { result ≡ windows_to_reach size end_time }
    ensures least { IsLeastToReach size end_time result }
    ensures range { (1 ≤ result) × (result ≤ 10 ^ 6) }
{
    end_time.div_ceil(size) as u32
}

/// From when to when window `w` of a size goes.
pub(crate) fn span(size: u64, end_time: u64, w: u32) -> (u64, u64)
    requires size { size ≤ 10 ^ 9 }
    requires from { 1 ≤ w }
    requires to { w ≤ 10 ^ 6 }
    ensures start { result.0 ≡ (w - 1) * size }
    ensures end { result.1 ≡ min (w * size) end_time }
{
    let w = u64::from(w);
    ((w - 1) * size, (w * size).min(end_time))
}
