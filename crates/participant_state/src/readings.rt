//! What a participant reads at vertices.
ghost use Rattle.std.specs.Prelude.{◌≡◌, ◌∷◌, [], ◌*◌, ◌<◌, ◌≤◌, None, Some, All, nat_lt, length, slice_get, IfErr, IfSome, OnOk, OnErr};
ghost use Rattle.wave_coupling.specs.Known.{read_entries};
ghost use Rattle.participant_words.specs.Entries.{components_read, size_at};
ghost use Rattle.participant_words.specs.Named.{place_of};
ghost use Rattle.participant_words.specs.Questions.{most_step, rows_read};
ghost use Rattle.participant_words.specs.Refusals.{bad_length, bad_vertex, first_of, refusal_of_read_data, where_holds};
ghost use Rattle.participant_words.specs.declared.phase.Phase.TheVariants.{Running};
ghost use Rattle.participant_words.specs.declared.api_err.ApiErr.TheVariants.{BadReadTime as TooLate};
ghost use Rattle.participant_state.specs.Member.{read_called};

use crate::local::Local;
use field_buffers::first_bad_vertex;
use participant_words::{ApiErr, Call};
use wave_reading::read_rows;

impl Local {
    /// Reads what an entry has at some vertices, so many ticks from now, in units, component after
    /// component. The refusals come in the order of `refusal_of_read_data`. It takes no memory.
    pub fn read_data(
        &self,
        mesh: &str,
        data_name: &str,
        vertices: &[u32],
        at: u64,
        out: &mut [i64],
    ) -> Result<(), ApiErr>
        ensures refused { IfErr result (λ error. refusal_of_read_data self.now.plan self.now.part self.now.course mesh.now data_name.now vertices.now at (length out.old) ≡ Some error) }
        ensures granted { OnOk result (refusal_of_read_data self.now.plan self.now.part self.now.course mesh.now data_name.now vertices.now at (length out.old) ≡ None) }
        ensures read { OnOk result (IfSome (slice_get (read_entries self.now.plan self.now.part) (read_called self.now mesh.now data_name.now))
            (λ entry. out.new ≡ rows_read self.now.plan self.now.part self.now.course entry vertices.now at)) }
        ensures unchanged { OnErr result (out.new ≡ out.old) }
    {
        let place = self.granted_mesh(Call::ReadData, mesh)?;
        let data_id = self.data_named(place, data_name)?;
        let number = match self.reads.entry(place, data_id) {
            Some(number) => number,
            None => return Err(ApiErr::NotReadable),
        };
        self.read_entry(place, number, vertices, at, out)
    }

    /// Reads an entry, which is on the mesh at a place.
    fn read_entry(
        &self,
        place: usize,
        number: usize,
        vertices: &[u32],
        at: u64,
        out: &mut [i64],
    ) -> Result<(), ApiErr>
        requires running { self.now.course.phase ≡ Running }
        requires place { place < length self.now.course.own }
        requires entry { number < length (read_entries self.now.plan self.now.part) }
        requires mesh { IfSome (slice_get (read_entries self.now.plan self.now.part) number)
            (λ entry. place_of self.now.plan self.now.part entry.mesh ≡ place) }
        ensures refused { IfErr result (λ error. first_of (bad_vertex (size_at self.now.course place) vertices.now
            ∷ bad_length (length vertices.now * components_read self.now.plan self.now.part number) (length out.old)
            ∷ where_holds (nat_lt (most_step self.now.course) at) (TooLate (most_step self.now.course)) ∷ []) ≡ Some error) }
        ensures granted { OnOk result (first_of (bad_vertex (size_at self.now.course place) vertices.now
            ∷ bad_length (length vertices.now * components_read self.now.plan self.now.part number) (length out.old)
            ∷ where_holds (nat_lt (most_step self.now.course) at) (TooLate (most_step self.now.course)) ∷ []) ≡ None) }
        ensures read { OnOk result (IfSome (slice_get (read_entries self.now.plan self.now.part) number)
            (λ entry. out.new ≡ rows_read self.now.plan self.now.part self.now.course entry vertices.now at)) }
        ensures unchanged { OnErr result (out.new ≡ out.old) }
    {
        // What the plan says of itself is valid.
        let _parts = self.plan.parts();
        let entry = self.reads.get(number);
        self.may_read(place, entry.components, vertices, at, out.len())?;
        let wave = &self.inputs[entry.received].wave;
        read_rows(
            wave,
            entry.components,
            entry.degree,
            self.clock.now + at,
            vertices,
            out,
        );
        Ok(())
    }

    /// Whether these vertices of the mesh at a place may be read then, into so much room, or the first
    /// cause by which that is refused.
    fn may_read(
        &self,
        place: usize,
        components: u32,
        vertices: &[u32],
        at: u64,
        room: usize,
    ) -> Result<(), ApiErr>
        requires place { place < length self.now.course.own }
        requires components { components ≤ 3 }
        ensures refused { IfErr result (λ error. first_of (bad_vertex (size_at self.now.course place) vertices.now
            ∷ bad_length (length vertices.now * components) room
            ∷ where_holds (nat_lt (most_step self.now.course) at) (TooLate (most_step self.now.course)) ∷ []) ≡ Some error) }
        ensures granted { OnOk result (first_of (bad_vertex (size_at self.now.course place) vertices.now
            ∷ bad_length (length vertices.now * components) room
            ∷ where_holds (nat_lt (most_step self.now.course) at) (TooLate (most_step self.now.course)) ∷ []) ≡ None) }
        ensures vertices { OnOk result (All (λ v. v < size_at self.now.course place) vertices.now) }
        ensures room { OnOk result (room ≡ length vertices.now * components) }
        ensures time { OnOk result (at ≤ most_step self.now.course) }
    {
        let size = self.vertices_at(place);
        if let Some(id) = first_bad_vertex(vertices, size as usize) {
            return Err(ApiErr::BadVertex { id, size });
        }
        let want = vertices.len() * components as usize;
        if room != want {
            return Err(ApiErr::BadLength { want, got: room });
        }
        let most = self.most();
        if most < at {
            return Err(ApiErr::BadReadTime { most });
        }
        Ok(())
    }
}
