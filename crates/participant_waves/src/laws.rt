//! What is true of the definitions alone, as contracts of functions that do nothing.
ghost use Rattle.std.specs.Prelude.{◌≤◌, ℕ, List, All, length};
ghost use Rattle.cpl_plan.specs.declared.parts.PlanParts.{PlanParts};
ghost use Rattle.wave_coupling.specs.Known.{Known};
ghost use Rattle.wave_coupling.specs.Noted.{Written};
ghost use Rattle.participant_tables.specs.WriteKept.{WriteKept};
ghost use Rattle.participant_waves.specs.SendsStand.{AreSends, CanSend, CanSendInitial};
ghost use Rattle.participant_waves.specs.Written.{AreEntries, AreWritten};
ghost use Rattle.participant_waves.specs.declared.sends.Sends.{Sends};

/// What a participant has written in a turn, by some step, can be sent by all that is kept of its
/// exchanges; so can the values that stand before its first turn.
pub fn what_is_written_can_be_sent()
    ensures turn { (plan : PlanParts) (part : ℕ) (known : Known) (sends : Sends) (written : List Written) (writes : List WriteKept)
        → AreSends plan part known sends → AreWritten plan part known written writes → 1 ≤ length written
        → All (CanSend writes) sends.sendings }
    ensures initial { (plan : PlanParts) (part : ℕ) (known : Known) (sends : Sends) (writes : List WriteKept)
        → AreSends plan part known sends → AreEntries plan part known writes → All (CanSendInitial writes) sends.sendings }
{}
