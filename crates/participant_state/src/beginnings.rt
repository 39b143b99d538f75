//! How a participant begins to initialize.
ghost use Rattle.std.specs.Prelude.{◌≡◌, None, IfErr, OnOk, OnErr};
ghost use Rattle.participant_words.specs.Deeds.{initializes};
ghost use Rattle.participant_words.specs.Refusals.{IsCause, has_empty_mesh, refusal_of_begin_initialize};
ghost use Rattle.participant_state.specs.Member.{did};

use crate::local::Local;
use core_sides::Event;
use participant_words::{ApiErr, Call, Phase, allow};

impl Local {
    /// Begins to initialize: the meshes are posted, and then the received ones are asked for. The refusals
    /// come in the order of `refusal_of_begin_initialize`, and `Memory` where none of them applies.
    pub fn begin_initialize(&mut self) -> Result<(), ApiErr>
        ensures cause { IfErr result (IsCause (refusal_of_begin_initialize self.old.plan self.old.part self.old.course)) }
        ensures granted { OnOk result (refusal_of_begin_initialize self.old.plan self.old.part self.old.course ≡ None) }
        ensures done { OnOk result (self.new ≡ did self.old initializes) }
        ensures unchanged { OnErr result (self.new ≡ self.old) }
    {
        allow(Call::BeginInitialize, self.phase)?;
        if self.has_empty_mesh() {
            return Err(ApiErr::EmptyMesh);
        }
        if self.sends_initial_data() && !self.asked.initial {
            return Err(ApiErr::InitialDataOwed);
        }
        let meshes = match self.own.copies(self.alloc) {
            Ok(meshes) => meshes,
            Err(_) => return Err(ApiErr::Memory),
        };
        self.queue.clear();
        self.queue.push(Event::PostMesh(meshes));
        self.queue.push(Event::TakeMeshes);
        self.phase = Phase::Joining;
        Ok(())
    }

    /// Whether a provided mesh has no vertex.
    fn has_empty_mesh(&self) -> bool
        ensures { result ≡ has_empty_mesh self.now.plan self.now.part self.now.course }
    {
        self.own.as_slice().iter().any(|mesh| mesh.len() == 0)
    }
}
