//! The samples of a step.
ghost use Rattle.std.specs.Prelude.{◌≡◌, ◌++◌, ◌∷◌, [], ℕ, List, map, All, OnOk, OnErr};
ghost use Rattle.participant_tables.specs.WriteKept.{TakesSample, WriteKept};
ghost use Rattle.participant_tables.specs.WriteSteps.{sampled};

use fixed_num::Memory;
use participant_tables::WriteTable;
use std::alloc::Global;

/// Takes a sample of each entry at a time, the end of a step; or none.
pub fn take_samples(
    alloc: Global,
    writes: &mut WriteTable,
    times: &mut Vec<u64>,
    time: u64,
) -> Result<(), Memory>
    requires { All (TakesSample time) writes.old }
    ensures sampled { OnOk result (writes.new ≡ map (sampled time) writes.old) }
    ensures noted { OnOk result (times.new.items ≡ times.old.items ++ time ∷ []) }
    ensures unchanged { OnErr result (writes.new ≡ writes.old) }
    ensures forgotten { OnErr result (times.new.items ≡ times.old.items) }
{
    times.push(time)?;
    if writes.push_samples(alloc, time).is_err() {
        times.pop();
        return Err(Memory);
    }
    Ok(())
}

/// Undoes [`take_samples`]. Takes no memory.
pub fn untake_samples(writes: &mut WriteTable, times: &mut Vec<u64>)
    ensures unsampled { (time : ℕ) (before : List WriteKept) → writes.old ≡ map (sampled time) before → writes.new ≡ before }
    ensures forgotten { (time : ℕ) (before : List ℕ) → times.old.items ≡ before ++ time ∷ [] → times.new.items ≡ before }
{
    writes.pop_samples();
    times.pop();
}
