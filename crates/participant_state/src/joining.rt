//! How a participant takes the meshes that it receives.
ghost use Rattle.std.specs.Prelude.{◌≡◌, [], ◌∷◌, None, Ok, Some, IfOk, OnOk, OnErr};
ghost use Rattle.participant_waves.specs.KnownMeshes.{HasMeshes};
ghost use Rattle.participant_waves.specs.PassagesStand.{ArePassages};
ghost use Rattle.participant_words.specs.Deeds.{takes};
ghost use Rattle.participant_words.specs.KnownByReply.{known_by};
ghost use Rattle.participant_words.specs.Replied.{overflowed, posting};
ghost use Rattle.participant_words.specs.Replies.{AreMeshes};
ghost use Rattle.participant_words.specs.declared.phase.EventKind.TheVariants.{TakeMeshes};
ghost use Rattle.core_sides.specs.declared.event.Event.TheVariants.{Stop, Take};
ghost use Rattle.core_sides.specs.declared.event.Reply.TheVariants.{Meshes};
ghost use Rattle.core_sides.specs.declared.event.StopCause.TheVariants.{Fault as ByFault};
ghost use Rattle.participant_state.specs.Member.{did};

use crate::local::Local;
use call_parts::{copies_of, wait_to_stop};
use core_sides::{Event, StopCause};
use cpl_plan::Fault;
use fixed_num::{Items, Memory};
use mesh_data::AnyMesh;
use participant_tables::Queue;
use participant_waves::{NoPost, Passages};
use std::alloc::Global;
use waveform::Wave;

impl Local {
    /// Takes the meshes that it receives, makes its mappings, and lets the initial post wait; or the Stop
    /// for the first place where its write mapping is out of range.
    pub(crate) fn take_meshes(&mut self, meshes: &[AnyMesh]) -> Result<(), Memory>
        requires out { self.old.course.out ≡ Some TakeMeshes }
        requires meshes { AreMeshes self.old.plan self.old.part self.old.course meshes.now }
        ensures done { OnOk result (self.new ≡ did self.old (takes (Meshes meshes.now))) }
        ensures unchanged { OnErr result (self.new ≡ self.old) }
    {
        // What the plan says of itself is valid.
        let _parts = self.plan.parts();
        let received = copies_of(self.alloc, meshes)?;
        let passages = Passages::make(
            self.alloc,
            &self.plan,
            self.part,
            self.own.as_slice(),
            meshes,
        )?;
        match passages.sends.initial_post(self.alloc, &self.writes) {
            Ok(waves) => self.join(received, passages, waves),
            Err(NoPost::Overflow(fault)) => self.join_in_vain(received, passages, fault),
            Err(NoPost::Memory) => return Err(Memory),
        }
        Ok(())
    }

    /// The meshes are joined: the initial post waits, and then the first inputs are asked for.
    fn join(&mut self, received: Vec<AnyMesh>, passages: Passages, waves: Items<Wave>)
        requires out { self.old.course.out ≡ Some TakeMeshes }
        requires meshes { HasMeshes self.old.plan self.old.part self.old.course.own received.items }
        requires stand { ArePassages self.old.plan self.old.part (known_by self.old.plan self.old.part self.old.course.own received.items) passages }
        ensures { self.new ≡ record self.old {
          course = posting (Ok waves) (Take ∷ []) (record self.old.course { out = None; received = received.items });
        } }
    {
        self.received = Items::from_vec(received);
        self.passages = Some(passages);
        self.queue.clear();
        self.queue.push(Event::Post(waves));
        self.queue.push(Event::Take);
    }

    /// The meshes are joined, and the initial post is out of range: the Stop for that waits.
    fn join_in_vain(&mut self, received: Vec<AnyMesh>, passages: Passages, fault: Fault)
        requires out { self.old.course.out ≡ Some TakeMeshes }
        requires meshes { HasMeshes self.old.plan self.old.part self.old.course.own received.items }
        requires stand { ArePassages self.old.plan self.old.part (known_by self.old.plan self.old.part self.old.course.own received.items) passages }
        ensures { self.new ≡ record self.old {
          course = overflowed fault (record self.old.course { out = None; received = received.items });
        } }
    {
        self.received = Items::from_vec(received);
        self.passages = Some(passages);
        wait_to_stop(&mut self.queue, fault);
        self.overflow = Some(fault);
    }
}
