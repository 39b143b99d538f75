//! Whether inputs may be those of a turn.
ghost use Rattle.std.specs.Prelude.{◌≡◌, ◌*◌, ◌<◌, ℕ, Some, IfSome, IsTrue, length, slice_get};
ghost use Rattle.std.specs.Option.{option_map};
ghost use Rattle.cpl_plan.specs.PlanWords.{components_of};
ghost use Rattle.cpl_plan.specs.declared.parts.Exchange.{Exchange as AnExchange};
ghost use Rattle.wave_coupling.specs.Coupling.{makes_windows};
ghost use Rattle.wave_coupling.specs.Known.{points_of};
ghost use Rattle.participant_words.specs.Begun.{latest_of};
ghost use Rattle.participant_words.specs.Course.{Course, Turn};
ghost use Rattle.participant_words.specs.KnownByReply.{known_by};
ghost use Rattle.participant_words.specs.Replies.{AreInputs};
ghost use Rattle.participant_waves.specs.KnownMeshes.{HasMeshes};
ghost use Rattle.call_parts.specs.Listening.{IsAt, CanTakeInputs};
ghost use Rattle.call_parts.specs.InputLengths.{AreAllInputs, IsInputOf};

use crate::taken::newest_time;
use crate::waves::{Lengths, has_lengths, spans};
use core_sides::Input;
use cpl_plan::{ExchangeId, PartId, Plan};
use mesh_data::AnyMesh;
use participant_tables::Clock;
use participant_waves::vertices_of_exchange;
use waveform::Wave;

/// Whether there is one input for each exchange that the participant receives, in order, over a window
/// that ends in time.
pub(crate) fn are_inputs(
    plan: &Plan,
    part: PartId,
    own: &[AnyMesh],
    received: &[AnyMesh],
    clock: Clock,
    inputs: &[Input],
) -> bool
    requires one_step { clock.one_step ≡ makes_windows plan.now part }
    requires taking { CanTakeInputs plan.now part own.now received.now clock }
    ensures { IsTrue result → (c : Course) → IsAt own.now received.now clock c → AreInputs plan.now part c inputs.now }
{
    let latest = clock.started(plan, newest_time(inputs)).latest;
    if latest < clock.start || plan.end_time() < latest {
        return false;
    }
    are_all_inputs(plan, part, own, received, (clock.start, latest), inputs)
}

/// Whether there is one input for each exchange, in order, which spans the window.
fn are_all_inputs(
    plan: &Plan,
    part: PartId,
    own: &[AnyMesh],
    received: &[AnyMesh],
    window: (u64, u64),
    inputs: &[Input],
) -> bool
    requires { HasMeshes plan.now part own.now received.now }
    ensures { IsTrue result → AreAllInputs plan.now part (known_by plan.now part own.now received.now) window inputs.now }
{
    let mut place = 0;
    for x in 0..plan.exchange_count() {
        if plan.exchange(x).to == part {
            if inputs.len() <= place {
                return false;
            }
            if !is_input(plan, part, own, received, window, x, &inputs[place].wave) {
                return false;
            }
            place += 1;
        }
    }
    place == inputs.len()
}

/// Whether a wave spans the window, and each of its samples has the lengths of its exchange.
fn is_input(
    plan: &Plan,
    part: PartId,
    own: &[AnyMesh],
    received: &[AnyMesh],
    window: (u64, u64),
    x: ExchangeId,
    wave: &Wave,
) -> bool
    requires exchange { x < length plan.now.exchanges }
    requires reader { option_map (λ (e : AnExchange). e.to) (slice_get plan.now.exchanges x) ≡ Some part }
    requires meshes { HasMeshes plan.now part own.now received.now }
    ensures { IsTrue result → IfSome (slice_get plan.now.exchanges x)
        (λ e. IsInputOf plan.now part (known_by plan.now part own.now received.now) window e wave.now) }
{
    if !spans(wave, window) {
        return false;
    }
    // What the plan says of itself is valid.
    let _parts = plan.parts();
    let exchange = *plan.exchange(x);
    let components = plan.components(exchange.data_id, exchange.mesh);
    let vertices = vertices_of_exchange(plan, part, own, received, x);
    let lengths = Lengths {
        components,
        values: components as usize * vertices,
    };
    has_lengths(wave, lengths)
}
