//! What is true of the definitions alone, as contracts of functions that do nothing.
ghost use Rattle.std.specs.Prelude.{◌≡◌, ◌≢◌, ℕ, ℤ, true, false, is_some, nat_eq, List, [], Some, None, Ok, Err, map};
ghost use Rattle.cpl_plan.specs.declared.parts.PlanParts.{PlanParts};
ghost use Rattle.cpl_plan.specs.Windows.{window_end, window_start};
ghost use Rattle.cpl_plan.specs.declared.words.Fault.{Fault};
ghost use Rattle.cpl_plan.specs.declared.words.StopWish.{StopWish};
ghost use Rattle.cpl_plan.specs.declared.words.Verdict.TheVariants.{Again, Converged, AtLimit};
ghost use Rattle.mesh_data.specs.declared.any_mesh.AnyMesh.{AnyMesh};
ghost use Rattle.coupled_loop.specs.PlanFrames.{group_of};
ghost use Rattle.wave_coupling.specs.InputWave.{InputWave};
ghost use Rattle.wave_coupling.specs.Noted.{Written};
ghost use Rattle.wave_coupling.specs.Known.{Known, points_of};
ghost use Rattle.wave_coupling.specs.PostedWaves.{initial_post, post_of};
ghost use Rattle.wave_coupling.specs.MappedInputs.{mapped_inputs};
ghost use Rattle.core_sides.specs.declared.event.Input.{Input};
ghost use Rattle.core_sides.specs.declared.event.Reply.TheVariants.{Posted, Judged, Faulted, Inputs, Cut, Over};
ghost use Rattle.participant_words.specs.KnownByReply.{IsToldBy, known_by};
ghost use Rattle.participant_words.specs.Deeds.{advances, finalizes, initializes, stops, takes};
ghost use Rattle.participant_words.specs.Course.{Course, Turn, known};
ghost use Rattle.participant_words.specs.Begun.{ends_window, input_wave_of, is_last, next_window};
ghost use Rattle.participant_words.specs.AfterDeed.{after};
ghost use Rattle.participant_words.specs.declared.phase.EventKind.{EventKind};

use crate::phase::{EventKind, Phase};
use cpl_plan::WindowMethod;

/// The reply that gives a participant the meshes that it receives tells all that it needs of them:
/// whatever else is known of their owners' meshes, it posts the same and reads the same.
pub fn the_reply_tells_the_meshes()
    ensures points { (plan : PlanParts) (part : ℕ) (all : Known) (given : List AnyMesh) (mesh : ℕ)
        → IsToldBy plan part all given
        → points_of plan part all mesh ≡ points_of plan part (known_by plan part all.own given) mesh }
    ensures posts { (plan : PlanParts) (part : ℕ) (all : Known) (given : List AnyMesh) (w k : ℕ) (written : List Written)
        → IsToldBy plan part all given
        → post_of plan part all w k written ≡ post_of plan part (known_by plan part all.own given) w k written }
    ensures initial_posts { (plan : PlanParts) (part : ℕ) (all : Known) (given : List AnyMesh) (values : List ℤ)
        → IsToldBy plan part all given
        → initial_post plan part all values ≡ initial_post plan part (known_by plan part all.own given) values }
    ensures inputs { (plan : PlanParts) (part : ℕ) (all : Known) (given : List AnyMesh) (w k : ℕ) (waves : List InputWave)
        → IsToldBy plan part all given
        → mapped_inputs plan part all w k waves ≡ mapped_inputs plan part (known_by plan part all.own given) w k waves }
{}

/// Calls lead from phase to phase: to Joining, to Pending where a window ends, where a stop is wished and
/// where the participant finalizes, and from Stopped to Final at once.
pub fn calls_lead_to_their_phases()
    ensures begins { (plan : PlanParts) (part : ℕ) (c : Course) → (after plan part c initializes).phase ≡ Phase.Joining }
    ensures steps { (plan : PlanParts) (part : ℕ) (c : Course) (dt : ℕ) → ends_window plan part c.turn dt ≡ false
        → (after plan part c (advances dt)).phase ≡ c.phase }
    ensures ends_window { (plan : PlanParts) (part : ℕ) (c : Course) (dt : ℕ) → ends_window plan part c.turn dt ≡ true
        → (after plan part c (advances dt)).phase ≡ Phase.Pending }
    ensures finalizes { (plan : PlanParts) (part : ℕ) (c : Course) → c.phase ≢ Phase.Stopped
        → (after plan part c finalizes).phase ≡ Phase.Pending }
    ensures is_through { (plan : PlanParts) (part : ℕ) (c : Course) → c.phase ≡ Phase.Stopped
        → (after plan part c finalizes).phase ≡ Phase.Final }
    ensures stops { (plan : PlanParts) (part : ℕ) (c : Course) (why : StopWish)
        → (after plan part c (stops why)).phase ≡ Phase.Pending }
{}

/// Replies lead from phase to phase: to Running once inputs are taken, to Done after the last window, to
/// Final after an End, and to Stopped after a Stop, a fault or a cut.
pub fn replies_lead_to_their_phases()
    ensures runs { (plan : PlanParts) (part : ℕ) (c : Course) (inputs : List Input) (mapped : List InputWave)
        → c.out ≡ Some EventKind.Take
        → mapped_inputs plan part (known plan part c) c.turn.window c.turn.iteration (map input_wave_of inputs) ≡ Ok mapped
        → (after plan part c (takes (Inputs inputs))).phase ≡ Phase.Running }
    ensures overflows { (plan : PlanParts) (part : ℕ) (c : Course) (inputs : List Input) (fault : Fault)
        → c.out ≡ Some EventKind.Take
        → mapped_inputs plan part (known plan part c) c.turn.window c.turn.iteration (map input_wave_of inputs) ≡ Err (Some fault)
        → (after plan part c (takes (Inputs inputs))).phase ≡ c.phase }
    ensures posted { (plan : PlanParts) (part : ℕ) (c : Course) → c.out ≡ Some EventKind.Post
        → nat_eq c.turn.window 0 ≡ false → is_some (group_of plan part) ≡ false → is_last plan c.turn ≡ true
        → (after plan part c (takes Posted)).phase ≡ Phase.Done }
    ensures converged { (plan : PlanParts) (part : ℕ) (c : Course) → c.out ≡ Some EventKind.Judge → is_last plan c.turn ≡ true
        → (after plan part c (takes (Judged Converged))).phase ≡ Phase.Done }
    ensures at_limit { (plan : PlanParts) (part : ℕ) (c : Course) → c.out ≡ Some EventKind.Judge → is_last plan c.turn ≡ true
        → (after plan part c (takes (Judged AtLimit))).phase ≡ Phase.Done }
    ensures repeats { (plan : PlanParts) (part : ℕ) (c : Course) → c.out ≡ Some EventKind.Judge
        → (after plan part c (takes (Judged Again))).phase ≡ c.phase }
    ensures goes_on { (plan : PlanParts) (part : ℕ) (c : Course) → c.out ≡ Some EventKind.Judge → is_last plan c.turn ≡ false
        → (after plan part c (takes (Judged Converged))).phase ≡ c.phase }
    ensures ended { (plan : PlanParts) (part : ℕ) (c : Course) → c.out ≡ Some EventKind.End
        → (after plan part c (takes Over)).phase ≡ Phase.Final }
    ensures stopped { (plan : PlanParts) (part : ℕ) (c : Course) → c.out ≡ Some EventKind.Stop
        → (after plan part c (takes Over)).phase ≡ Phase.Stopped }
    ensures faulted { (plan : PlanParts) (part : ℕ) (c : Course) (kind : EventKind) (fault : Fault) → c.out ≡ Some kind
        → (after plan part c (takes (Faulted fault))).phase ≡ Phase.Stopped }
    ensures cut { (plan : PlanParts) (part : ℕ) (c : Course) (kind : EventKind) (who : ℕ) → c.out ≡ Some kind
        → (after plan part c (takes (Cut who))).phase ≡ Phase.Stopped }
{}

/// Where windows have one size the next one starts where the plan says, since it starts where the one
/// before it has ended.
pub fn windows_follow_one_another()
    ensures { (plan : PlanParts) (turn : Turn) → plan.method ≡ WindowMethod.Fixed
        → window_end plan [] turn.window ≡ Some turn.now → is_last plan turn ≡ false
        → window_start plan [] (next_window turn).window ≡ Some (next_window turn).start }
{}
