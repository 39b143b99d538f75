ghost use Rattle.std.specs.Prelude.{IfOk};
ghost use Rattle.participant_words.specs.KnownByReply.{known_by};
ghost use Rattle.participant_waves.specs.KnownMeshes.{HasMeshes};
ghost use Rattle.participant_waves.specs.PassagesStand.{ArePassages};

use crate::sends::Sends;
use crate::takes::Takes;
use crate::watches::Watches;
use cpl_plan::Plan;
use fixed_num::Memory;
use mesh_data::AnyMesh;
use plan_order::PartId;
use std::alloc::Global;

/// What a participant makes once all meshes are there: the mappings of what it sends and of what it
/// receives, and the vertices that its watch-points follow.
#[derive(Drop)]
pub struct Passages {
    pub sends: Sends,
    pub takes: Takes,
    pub watches: Watches,
}

impl Passages {
    /// All of them between the participant's own meshes, one for each that it provides, and those that it
    /// received, one for each that it receives.
    pub fn make(
        alloc: Global,
        plan: &Plan,
        part: PartId,
        own: &[AnyMesh],
        received: &[AnyMesh],
    ) -> Result<Passages, Memory>
        requires { HasMeshes plan.now part own.now received.now }
        ensures { IfOk result (ArePassages plan.now part (known_by plan.now part own.now received.now)) }
    {
        Ok(Passages {
            sends: Sends::make(alloc, plan, part, own, received)?,
            takes: Takes::make(alloc, plan, part, own, received)?,
            watches: Watches::make(alloc, plan, part, own, received)?,
        })
    }
}
