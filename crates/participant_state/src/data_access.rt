//! What a participant writes at vertices.
ghost use Rattle.std.specs.Prelude.{◌≡◌, ◌*◌, ◌<◌, ◌∷◌, [], Some, None, length, slice_get, IfErr, IfSome, OnOk, OnErr};
ghost use Rattle.wave_coupling.specs.Known.{write_entries};
ghost use Rattle.participant_words.specs.Deeds.{writes};
ghost use Rattle.participant_words.specs.Entries.{components_written, size_at};
ghost use Rattle.participant_words.specs.Named.{place_of};
ghost use Rattle.participant_words.specs.Refusals.{bad_length, bad_value, bad_vertex, first_of, refusal_of_write_data};
ghost use Rattle.participant_state.specs.Member.{did, written_called};

use crate::local::Local;
use field_buffers::{first_bad_value, first_bad_vertex};
use participant_words::{ApiErr, Call};

impl Local {
    /// Writes what an entry has at some vertices, in units, component after component; of a vertex that is
    /// named twice the last row stands. The refusals come in the order of `refusal_of_write_data`. It takes
    /// no memory.
    pub fn write_data(
        &mut self,
        mesh: &str,
        data_name: &str,
        vertices: &[u32],
        values: &[i64],
    ) -> Result<(), ApiErr>
        ensures refused { IfErr result (λ error. refusal_of_write_data self.old.plan self.old.part self.old.course mesh.now data_name.now vertices.now values.now ≡ Some error) }
        ensures granted { OnOk result (refusal_of_write_data self.old.plan self.old.part self.old.course mesh.now data_name.now vertices.now values.now ≡ None) }
        ensures done { OnOk result (self.new ≡ did self.old (writes (written_called self.old mesh.now data_name.now) vertices.now values.now)) }
        ensures unchanged { OnErr result (self.new ≡ self.old) }
    {
        let place = self.granted_mesh(Call::WriteData, mesh)?;
        let data_id = self.data_named(place, data_name)?;
        let entry = match self.writes.entry(place, data_id) {
            Some(entry) => entry,
            None => return Err(ApiErr::NotWritable),
        };
        self.write_rows(place, entry, vertices, values)
    }

    /// Writes rows in the buffer of an entry on the mesh at a place.
    fn write_rows(
        &mut self,
        place: usize,
        entry: usize,
        vertices: &[u32],
        values: &[i64],
    ) -> Result<(), ApiErr>
        requires place { place < length self.old.course.own }
        requires entry { entry < length self.old.course.buffers }
        requires mesh { IfSome (slice_get (write_entries self.old.plan self.old.part) entry)
            (λ e. place_of self.old.plan self.old.part e.mesh ≡ place) }
        ensures refused { IfErr result (λ error. first_of (bad_vertex (size_at self.old.course place) vertices.now
            ∷ bad_length (length vertices.now * components_written self.old.plan self.old.part entry) (length values.now) ∷ bad_value values.now ∷ []) ≡ Some error) }
        ensures granted { OnOk result (first_of (bad_vertex (size_at self.old.course place) vertices.now
            ∷ bad_length (length vertices.now * components_written self.old.plan self.old.part entry) (length values.now) ∷ bad_value values.now ∷ []) ≡ None) }
        ensures done { OnOk result (self.new ≡ did self.old (writes entry vertices.now values.now)) }
        ensures unchanged { OnErr result (self.new ≡ self.old) }
    {
        let _valid = self.plan.parts();
        let size = self.vertices_at(place);
        if let Some(id) = first_bad_vertex(vertices, size as usize) {
            return Err(ApiErr::BadVertex { id, size });
        }
        let want = vertices.len() * self.writes.components(entry) as usize;
        if values.len() != want {
            return Err(ApiErr::BadLength {
                want,
                got: values.len(),
            });
        }
        if let Some(index) = first_bad_value(values) {
            return Err(ApiErr::ValueRange { index });
        }
        self.writes.write(entry, vertices, values);
        Ok(())
    }
}
