ghost use Rattle.std.specs.Prelude.{◌≡◌, ℕ, List, All, Ok, flat_map, length, IfOk, IfErr};
ghost use Rattle.cpl_plan.specs.declared.parts.PlanParts.{PlanParts};
ghost use Rattle.wave_coupling.specs.Known.{Known};
ghost use Rattle.wave_coupling.specs.Noted.{Written};
ghost use Rattle.wave_coupling.specs.PostedWaves.{initial_post, post_of};
ghost use Rattle.participant_words.specs.KnownByReply.{known_by};
ghost use Rattle.participant_tables.specs.WriteKept.{WriteKept};
ghost use Rattle.participant_waves.specs.KnownMeshes.{HasMeshes};
ghost use Rattle.participant_waves.specs.SendsStand.{AreSends, CanSend, CanSendInitial};
ghost use Rattle.participant_waves.specs.SentWaves.{initial_sent, turn_sent};
ghost use Rattle.participant_waves.specs.Written.{AreEntries, AreWritten};
ghost use Rattle.participant_waves.specs.Refusals.{IsNoPost};

use crate::no_waves::NoPost;
use crate::sending::Sending;
use cpl_plan::Plan;
use fixed_num::{Items, Memory};
use mesh_data::AnyMesh;
use participant_tables::WriteTable;
use plan_order::PartId;
use std::alloc::Global;
use waveform::Wave;

/// The exchanges that a participant sends, in order, with their write mappings, which are made once.
#[derive(Drop)]
pub struct Sends {
    /// The participant.
    pub part: PartId,
    pub sendings: Items<Sending>,
}

impl Sends {
    /// What a participant sends between its own meshes, one for each that it provides, and those that it
    /// received, one for each that it receives.
    pub fn make(
        alloc: Global,
        plan: &Plan,
        part: PartId,
        own: &[AnyMesh],
        received: &[AnyMesh],
    ) -> Result<Sends, Memory>
        requires { HasMeshes plan.now part own.now received.now }
        ensures { IfOk result (AreSends plan.now part (known_by plan.now part own.now received.now)) }
    {
        let mut sendings = Vec::new(alloc);
        for x in 0..plan.exchange_count() {
            if plan.exchange(x).from == part {
                sendings.push(Sending::make(alloc, plan, part, x, own, received)?)?;
            }
        }
        Ok(Sends {
            part,
            sendings: Items::from_vec(sendings),
        })
    }

    /// The initial post, of the values as they stand: a wave for each exchange that is sent, of zeros where
    /// it has no initial data. `Overflow` exactly where a mapped value is out of range, with the first such
    /// place.
    pub fn initial_post(&self, alloc: Global, writes: &WriteTable) -> Result<Items<Wave>, NoPost>
        requires { All (CanSendInitial writes.now) self.now.sendings }
        ensures posted { IfOk result (λ waves. (plan : PlanParts) (part : ℕ) (known : Known)
            → AreSends plan part known self.now → AreEntries plan part known writes.now
            → initial_post plan part known (flat_map (λ (e : WriteKept). e.values) writes.now) ≡ Ok waves) }
        ensures refused { IfErr result (λ why. (plan : PlanParts) (part : ℕ) (known : Known)
            → AreSends plan part known self.now → AreEntries plan part known writes.now
            → IsNoPost (initial_post plan part known (flat_map (λ (e : WriteKept). e.values) writes.now)) why) }
    {
        self.initial_waves(alloc, writes)
    }

    /// The post of a turn, of the samples that were written in it: a wave for each exchange that is sent.
    /// `Overflow` exactly where a mapped value is out of range, with the first such place.
    pub fn turn_post(
        &self,
        alloc: Global,
        writes: &WriteTable,
        window: u32,
        iteration: u32,
    ) -> Result<Items<Wave>, NoPost>
        requires { All (CanSend writes.now) self.now.sendings }
        ensures posted { IfOk result (λ waves. (plan : PlanParts) (part : ℕ) (known : Known) (written : List Written)
            → AreSends plan part known self.now → AreWritten plan part known written writes.now
            → post_of plan part known window iteration written ≡ Ok waves) }
        ensures refused { IfErr result (λ why. (plan : PlanParts) (part : ℕ) (known : Known) (written : List Written)
            → AreSends plan part known self.now → AreWritten plan part known written writes.now
            → IsNoPost (post_of plan part known window iteration written) why) }
    {
        self.turn_waves(alloc, writes, window, iteration)
    }

    fn initial_waves(&self, alloc: Global, writes: &WriteTable) -> Result<Items<Wave>, NoPost>
        requires { All (CanSendInitial writes.now) self.now.sendings }
        ensures posted { IfOk result (λ waves. initial_sent self.now writes.now ≡ Ok waves) }
        ensures refused { IfErr result (IsNoPost (initial_sent self.now writes.now)) }
    {
        let sendings = self.sendings.as_slice();
        let mut waves = Vec::with_capacity(alloc, sendings.len())?;
        for i in 0..sendings.len() {
            match sendings[i].initial_wave(alloc, self.part, writes) {
                Ok(wave) => waves.push(wave)?,
                Err(why) => return Err(why),
            }
        }
        Ok(Items::from_vec(waves))
    }

    fn turn_waves(
        &self,
        alloc: Global,
        writes: &WriteTable,
        window: u32,
        iteration: u32,
    ) -> Result<Items<Wave>, NoPost>
        requires { All (CanSend writes.now) self.now.sendings }
        ensures posted { IfOk result (λ waves. turn_sent self.now window iteration writes.now ≡ Ok waves) }
        ensures refused { IfErr result (IsNoPost (turn_sent self.now window iteration writes.now)) }
    {
        let sendings = self.sendings.as_slice();
        let mut waves = Vec::with_capacity(alloc, sendings.len())?;
        for i in 0..sendings.len() {
            match sendings[i].turn_wave(alloc, self.part, window, iteration, writes) {
                Ok(wave) => waves.push(wave)?,
                Err(why) => return Err(why),
            }
        }
        Ok(Items::from_vec(waves))
    }
}
