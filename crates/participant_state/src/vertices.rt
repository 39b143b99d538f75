//! A participant's vertices.
ghost use Rattle.std.specs.Prelude.{◌≡◌, ◌≢◌, ◌⊎◌, ◌+◌, ◌*◌, ◌/◌, ◌^◌, ◌<◌, ◌≤◌, ℕ, [], ◌∷◌, Some, None, All, not, position, length, option_map, slice_get, slice_index_or, pos, IfOk, IfErr, IfSome, IfNone, OnOk, OnErr};
ghost use Rattle.std.specs.List.{AllWithin};
ghost use Rattle.cpl_plan.specs.PlanWords.{components_on};
ghost use Rattle.fixed_num.specs.Numbers.{IsCoordinate};
ghost use Rattle.mesh_data.specs.AnyMeshes.{dimensions_of, vertices_of};
ghost use Rattle.participant_words.specs.Deeds.{sets_vertices};
ghost use Rattle.participant_words.specs.Entries.{dimensions_at, points_in, size_at};
ghost use Rattle.participant_words.specs.Named.{mesh_at};
ghost use Rattle.participant_words.specs.Refusals.{IsCause, bad_coordinate, first_of, is_coordinate, refusal_of_data_dimensions, refusal_of_mesh_dimensions, refusal_of_set_vertex, refusal_of_set_vertices, refusal_of_vertex_count, too_many_vertices};
ghost use Rattle.participant_state.specs.Member.{data_called, did, mesh_called};
ghost use Rattle.participant_words.specs.declared.phase.Phase.TheVariants.{Fresh};

use crate::local::Local;
use call_parts::first_bad_coordinate;
use participant_words::{ApiErr, Call, Phase};

/// The most vertices that a mesh has.
const VERTEX_LIMIT: usize = 10_000;

impl Local {
    /// Sets a vertex of a provided mesh at a point, in units, and gives its number, from 0; or sets none.
    /// The refusals come in the order of `refusal_of_set_vertex`, and `Memory` where none of them applies.
    pub fn set_vertex(&mut self, mesh: &str, point: &[i64]) -> Result<u32, ApiErr>
        ensures cause { IfErr result (IsCause (refusal_of_set_vertex self.old.plan self.old.part self.old.course mesh.now point.now)) }
        ensures granted { OnOk result (refusal_of_set_vertex self.old.plan self.old.part self.old.course mesh.now point.now ≡ None) }
        ensures number { IfOk result (λ v. v ≡ size_at self.old.course (mesh_called self.old mesh.now)) }
        ensures done { OnOk result (self.new ≡ did self.old (sets_vertices (mesh_called self.old mesh.now) (point.now ∷ []))) }
        ensures unchanged { OnErr result (self.new ≡ self.old) }
    {
        let place = self.granted_mesh(Call::SetVertex, mesh)?;
        let dimensions = self.own.dimensions(place);
        if point.len() != dimensions {
            return Err(ApiErr::BadLength {
                want: dimensions,
                got: point.len(),
            });
        }
        self.add_vertices(place, point)
    }

    /// Sets the vertices of these coordinates, point after point, and gives the number of the first, from
    /// 0; or sets none.
    pub fn set_vertices(&mut self, mesh: &str, points: &[i64]) -> Result<u32, ApiErr>
        ensures cause { IfErr result (IsCause (refusal_of_set_vertices self.old.plan self.old.part self.old.course mesh.now points.now)) }
        ensures granted { OnOk result (refusal_of_set_vertices self.old.plan self.old.part self.old.course mesh.now points.now ≡ None) }
        ensures number { IfOk result (λ v. v ≡ size_at self.old.course (mesh_called self.old mesh.now)) }
        ensures done { OnOk result (self.new ≡ did self.old (sets_vertices (mesh_called self.old mesh.now)
            (points_in (dimensions_at self.old.course (mesh_called self.old mesh.now)) points.now))) }
        ensures unchanged { OnErr result (self.new ≡ self.old) }
    {
        let place = self.granted_mesh(Call::SetVertices, mesh)?;
        let dimensions = self.own.dimensions(place);
        if points.len() % dimensions != 0 {
            return Err(ApiErr::BadLength {
                want: dimensions,
                got: points.len(),
            });
        }
        self.add_vertices(place, points)
    }

    /// How many vertices a provided mesh has.
    pub fn vertex_count(&self, mesh: &str) -> Result<u32, ApiErr>
        ensures refused { IfErr result (λ error. refusal_of_vertex_count self.now.plan self.now.part self.now.course mesh.now ≡ Some error) }
        ensures granted { OnOk result (refusal_of_vertex_count self.now.plan self.now.part self.now.course mesh.now ≡ None) }
        ensures answer { IfOk result (λ count. count ≡ size_at self.now.course (mesh_called self.now mesh.now)) }
    {
        let place = self.granted_mesh(Call::VertexCount, mesh)?;
        Ok(self.vertices_at(place))
    }

    /// How many dimensions a provided mesh has.
    pub fn mesh_dimensions(&self, mesh: &str) -> Result<u32, ApiErr>
        ensures refused { IfErr result (λ error. refusal_of_mesh_dimensions self.now.plan self.now.part self.now.course mesh.now ≡ Some error) }
        ensures granted { OnOk result (refusal_of_mesh_dimensions self.now.plan self.now.part self.now.course mesh.now ≡ None) }
        ensures answer { IfOk result (λ count. count ≡ dimensions_at self.now.course (mesh_called self.now mesh.now)) }
    {
        let place = self.granted_mesh(Call::MeshDimensions, mesh)?;
        Ok(self.dimensions_at(place))
    }

    /// How many components the data have at each vertex of a provided mesh.
    pub fn data_dimensions(&self, mesh: &str, data_name: &str) -> Result<u32, ApiErr>
        ensures refused { IfErr result (λ error. refusal_of_data_dimensions self.now.plan self.now.part self.now.course mesh.now data_name.now ≡ Some error) }
        ensures granted { OnOk result (refusal_of_data_dimensions self.now.plan self.now.part self.now.course mesh.now data_name.now ≡ None) }
        ensures answer { IfOk result (λ count. components_on self.now.plan (data_called self.now mesh.now data_name.now)
            (mesh_at self.now.plan self.now.part (mesh_called self.now mesh.now)) ≡ Some count) }
    {
        let place = self.granted_mesh(Call::DataDimensions, mesh)?;
        let data_id = self.data_named(place, data_name)?;
        let id = self.mesh_at(place);
        Ok(self.plan.components(data_id, id))
    }

    /// How many vertices the mesh at a place has.
    pub(crate) fn vertices_at(&self, place: usize) -> u32
        requires { place < length self.now.course.own }
        ensures size { result ≡ size_at self.now.course place }
        ensures few { result ≤ 10 ^ 4 }
    {
        self.own.as_slice()[place].len() as u32
    }

    fn dimensions_at(&self, place: usize) -> u32
        requires { place < length self.now.course.own }
        ensures { result ≡ dimensions_at self.now.course place }
    {
        self.own.dimensions(place) as u32
    }

    /// Sets the vertices of these coordinates, which are whole points, or none of them.
    fn add_vertices(&mut self, place: usize, points: &[i64]) -> Result<u32, ApiErr>
        requires fresh { self.old.course.phase ≡ Fresh }
        requires place { place < length self.old.course.own }
        requires whole { length points.now / dimensions_at self.old.course place * dimensions_at self.old.course place ≡ length points.now }
        ensures cause { IfErr result (IsCause (first_of (bad_coordinate points.now
            ∷ too_many_vertices self.old.plan self.old.part self.old.course place (length points.now / dimensions_at self.old.course place) ∷ []))) }
        ensures granted { OnOk result (first_of (bad_coordinate points.now
            ∷ too_many_vertices self.old.plan self.old.part self.old.course place (length points.now / dimensions_at self.old.course place) ∷ []) ≡ None) }
        ensures number { IfOk result (λ v. v ≡ size_at self.old.course place) }
        ensures done { OnOk result (self.new ≡ did self.old (sets_vertices place (points_in (dimensions_at self.old.course place) points.now))) }
        ensures unchanged { OnErr result (self.new ≡ self.old) }
    {
        if let Some(index) = first_bad_coordinate(points) {
            return Err(ApiErr::ValueRange { index });
        }
        let size = self.vertices_at(place);
        let before = size as usize;
        let more = points.len() / self.own.dimensions(place);
        if VERTEX_LIMIT < before + more {
            return Err(ApiErr::TooManyVertices);
        }
        if self.writes.grow(place, before, more).is_err() {
            return Err(ApiErr::Memory);
        }
        if self.own.add_points(self.alloc, place, points).is_err() {
            self.writes.shrink(place, before, more);
            return Err(ApiErr::Memory);
        }
        Ok(size)
    }
}
