ghost use Rattle.std.specs.Prelude.{◌≡◌, ◌≤◌, ◌<◌, ◌^◌, length, slice_get, Some, IfSome};
ghost use Rattle.std.specs.Option.{option_map};
ghost use Rattle.cpl_plan.specs.declared.parts.Exchange.{Exchange as AnExchange};
ghost use Rattle.wave_coupling.specs.Known.{points_of};
ghost use Rattle.participant_words.specs.KnownByReply.{known_by};
ghost use Rattle.participant_waves.specs.KnownMeshes.{HasMeshes};

use crate::known_meshes::known_mesh;
use cpl_plan::Plan;
use mesh_data::AnyMesh;
use plan_order::{ExchangeId, PartId};

/// How many vertices the mesh has on which an exchange stands that the participant receives.
pub fn vertices_of_exchange(
    plan: &Plan,
    part: PartId,
    own: &[AnyMesh],
    received: &[AnyMesh],
    x: ExchangeId,
) -> usize
    requires exchange { x < length plan.now.exchanges }
    requires reader { option_map (λ (e : AnExchange). e.to) (slice_get plan.now.exchanges x) ≡ Some part }
    requires meshes { HasMeshes plan.now part own.now received.now }
    ensures vertices { IfSome (slice_get plan.now.exchanges x)
        (λ e. length (points_of plan.now part (known_by plan.now part own.now received.now) e.mesh) ≡ result) }
    ensures few { result ≤ 10 ^ 4 }
{
    // What the plan says of itself is valid.
    let _parts = plan.parts();
    let exchange = *plan.exchange(x);
    known_mesh(plan, part, own, received, exchange.mesh).len()
}
