//! What the table of calls and the names of a call grant.
ghost use Rattle.std.specs.Prelude.{◌≡◌, ◌<◌, ℕ, Some, None, length, MatchResult};
ghost use Rattle.cpl_plan.specs.PlanWords.{is_among, mesh_carries};
ghost use Rattle.participant_words.specs.Named.{data_on, mesh_at, place_named};
ghost use Rattle.participant_words.specs.Refusals.{Refusal, on_mesh, or_then, phase_refuses};
ghost use Rattle.participant_words.specs.declared.api_err.ApiErr.TheVariants.{UnknownData, UnknownMesh};

use crate::local::Local;
use cpl_plan::MeshId;
use participant_words::{ApiErr, Call, allow};

impl Local {
    /// The place of the mesh that a call names, where the call is allowed.
    pub(crate) fn granted_mesh(&self, call: Call, mesh: &str) -> Result<usize, ApiErr>
        ensures found { MatchResult result
            (λ place. (place_named self.now.plan self.now.part mesh.now ≡ Some place) × (place < length self.now.course.own))
            (λ error. (later : ℕ → Refusal) → or_then (phase_refuses self.now.plan self.now.part self.now.course call)
            (on_mesh self.now.plan self.now.part self.now.course mesh.now later) ≡ Some error) }
        ensures granted { MatchResult result
            (λ place. (later : ℕ → Refusal) → or_then (phase_refuses self.now.plan self.now.part self.now.course call)
            (on_mesh self.now.plan self.now.part self.now.course mesh.now later) ≡ later place)
            (λ error. (later : ℕ → Refusal) → or_then (phase_refuses self.now.plan self.now.part self.now.course call)
            (on_mesh self.now.plan self.now.part self.now.course mesh.now later) ≡ Some error) }
    {
        allow(call, self.phase)?;
        self.mesh_named(mesh)
    }

    /// The place of a provided mesh, by its name.
    fn mesh_named(&self, mesh: &str) -> Result<usize, ApiErr>
        ensures { MatchResult result
            (λ place. (place_named self.now.plan self.now.part mesh.now ≡ Some place) × (place < length self.now.course.own))
            (λ error. (place_named self.now.plan self.now.part mesh.now ≡ None) × (error ≡ UnknownMesh)) }
    {
        match self.names.mesh(mesh) {
            Some(place) => Ok(place),
            None => Err(ApiErr::UnknownMesh),
        }
    }

    /// The number of data that a provided mesh carries, by their name.
    pub(crate) fn data_named(&self, place: usize, data_name: &str) -> Result<u32, ApiErr>
        requires { place < length self.now.course.own }
        ensures { MatchResult result
            (λ data_id. (data_on self.now.plan self.now.part place data_name.now ≡ Some data_id) × (data_id < length self.now.plan.data_list))
            (λ error. (data_on self.now.plan self.now.part place data_name.now ≡ None) × (error ≡ UnknownData)) }
    {
        let data_id = match self.names.data_item(data_name) {
            Some(data_id) => data_id,
            None => return Err(ApiErr::UnknownData),
        };
        if self.carries(place, data_id) {
            return Ok(data_id);
        }
        Err(ApiErr::UnknownData)
    }

    /// Whether a provided mesh carries the data.
    fn carries(&self, place: usize, data_id: u32) -> bool
        requires { place < length self.now.course.own }
        ensures { result ≡ mesh_carries self.now.plan (mesh_at self.now.plan self.now.part place) data_id }
    {
        let mesh = self.mesh_at(place);
        is_among(self.plan.data_on(mesh), data_id)
    }

    /// The number of the provided mesh at a place.
    pub(crate) fn mesh_at(&self, place: usize) -> MeshId
        requires { place < length self.now.course.own }
        ensures number { result ≡ mesh_at self.now.plan self.now.part place }
        ensures there { result < length self.now.plan.meshes }
    {
        let parts = self.plan.parts();
        parts.parts.as_slice()[self.part as usize]
            .provides
            .as_slice()[place]
    }
}

/// Whether a number is among others.
fn is_among(numbers: &[u32], number: u32) -> bool
    ensures { result ≡ is_among number numbers.now }
{
    numbers.iter().any(|other| *other == number)
}
