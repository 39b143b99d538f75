ghost use Rattle.std.specs.Prelude.{◌≡◌, ℕ, Ok, map, length, IfOk, IfErr};
ghost use Rattle.cpl_plan.specs.declared.parts.PlanParts.{PlanParts};
ghost use Rattle.wave_coupling.specs.Known.{Known};
ghost use Rattle.wave_coupling.specs.MappedInputs.{mapped_inputs};
ghost use Rattle.participant_words.specs.Begun.{input_wave_of};
ghost use Rattle.participant_words.specs.KnownByReply.{known_by};
ghost use Rattle.participant_waves.specs.KnownMeshes.{HasMeshes};
ghost use Rattle.participant_waves.specs.TakesStand.{AreTakes, CanTake};
ghost use Rattle.participant_waves.specs.TakenWaves.{waves_taken, with_waves};
ghost use Rattle.participant_waves.specs.Refusals.{IsNoTake};

use crate::no_waves::NoTake;
use crate::taking::Taking;
use core_sides::Input;
use cpl_plan::Plan;
use fixed_num::Memory;
use mesh_data::AnyMesh;
use plan_order::PartId;
use std::alloc::Global;
use std::marker::Model;
use waveform::Wave;

/// The exchanges that a participant receives, in order, with their read mappings, which are made once.
#[derive(Drop)]
pub struct Takes {
    part: PartId,
    takings: Vec<Taking>,
}

impl Model for Takes {
    ghost use Rattle.participant_waves.specs.TakingKept.{TakesKept};

    ghost Value = { TakesKept };

    ghost view = { λ t. record { part = t.part; takings = t.takings.items } };
}

impl Takes {
    /// What a participant receives between its own meshes, one for each that it provides, and those that it
    /// received, one for each that it receives.
    pub fn make(
        alloc: Global,
        plan: &Plan,
        part: PartId,
        own: &[AnyMesh],
        received: &[AnyMesh],
    ) -> Result<Takes, Memory>
        requires { HasMeshes plan.now part own.now received.now }
        ensures { IfOk result (AreTakes plan.now part (known_by plan.now part own.now received.now)) }
    {
        let mut takings = Vec::new(alloc);
        for x in 0..plan.exchange_count() {
            if plan.exchange(x).to == part {
                takings.push(Taking::make(alloc, plan, part, x, own, received)?)?;
            }
        }
        Ok(Takes { part, takings })
    }

    /// The waves that are read in a turn, of its inputs: one for each exchange that is received, mapped
    /// where it has a read mapping. `Overflow` exactly where a mapped value is out of range, with the first
    /// such place. The first sample of a window's inputs is mapped once, whatever the iteration.
    pub fn map_inputs(
        &mut self,
        alloc: Global,
        inputs: &[Input],
        window: u32,
        iteration: u32,
    ) -> Result<Vec<Wave>, NoTake>
        requires { CanTake self.old.takings inputs.now }
        ensures unchanged { self.new ≡ self.old }
        ensures mapped { IfOk result (λ waves. (plan : PlanParts) (part : ℕ) (known : Known) → AreTakes plan part known self.old
            → mapped_inputs plan part known window iteration (map input_wave_of inputs.now) ≡ Ok (with_waves inputs.now waves.items)) }
        ensures refused { IfErr result (λ why. (plan : PlanParts) (part : ℕ) (known : Known) → AreTakes plan part known self.old
            → IsNoTake (mapped_inputs plan part known window iteration (map input_wave_of inputs.now)) why) }
    {
        mapped_waves(
            alloc,
            self.part,
            &mut self.takings,
            inputs,
            window,
            iteration,
        )
    }
}

/// The waves of the inputs, one for each exchange.
fn mapped_waves(
    alloc: Global,
    part: PartId,
    takings: &mut [Taking],
    inputs: &[Input],
    window: u32,
    iteration: u32,
) -> Result<Vec<Wave>, NoTake>
    requires { CanTake takings.old inputs.now }
    ensures unchanged { takings.new ≡ takings.old }
    ensures mapped { IfOk result (λ waves. waves_taken part window iteration takings.old inputs.now ≡ Ok waves.items) }
    ensures refused { IfErr result (IsNoTake (waves_taken part window iteration takings.old inputs.now)) }
{
    let mut waves = Vec::with_capacity(alloc, inputs.len())?;
    for i in 0..inputs.len() {
        match takings[i].take_input(alloc, part, window, iteration, &inputs[i]) {
            Ok(wave) => waves.push(wave)?,
            Err(why) => return Err(why),
        }
    }
    Ok(waves)
}
