ghost use Rattle.std.specs.Prelude.{◌≡◌, ℕ, ◌<◌, Contains, Some, length, map, slice_get, slice_index, IfOk};
ghost use Rattle.mesh_data.specs.Nearest.{nearest_vertex};
ghost use Rattle.wave_coupling.specs.Known.{Known, points_of, write_entries};
ghost use Rattle.participant_words.specs.KnownByReply.{known_by};
ghost use Rattle.participant_words.specs.Course.{Turn};
ghost use Rattle.participant_words.specs.WatchShown.{watch_rows, watches};
ghost use Rattle.participant_tables.specs.ReadKept.{opening_reads};
ghost use Rattle.participant_waves.specs.KnownMeshes.{HasMeshes};
ghost use Rattle.participant_waves.specs.WatchesStand.{AreWatches};
ghost use Rattle.participant_waves.specs.Written.{AreWritten};
ghost use Rattle.participant_waves.specs.CanShow.{CanShow, input_kept};
ghost use Rattle.participant_waves.specs.RowsKept.{HaveInputs, HaveRows, HaveWritten, row_kept, rows_kept};

use crate::kept_input::KeptInput;
use crate::known_meshes::known_mesh;
use crate::nearest::nearest_to;
use crate::shown::{push_all_read, push_all_written};
use cpl_plan::{Plan, Watch, WatchRow};
use fixed_num::{Items, Memory};
use mesh_data::AnyMesh;
use participant_tables::{Clock, ReadTable, WriteTable};
use plan_order::{MeshId, PartId};
use std::alloc::Global;

/// What a participant's watch-points follow: of each the nearest vertex of its mesh, which is looked for
/// once.
#[derive(Drop)]
pub struct Watches {
    /// The participant.
    pub part: PartId,
    /// For each watch-point, in order, the vertex.
    pub vertices: Items<u32>,
}

impl Watches {
    /// The vertices that the participant's watch-points follow, on its own meshes.
    pub fn make(
        alloc: Global,
        plan: &Plan,
        part: PartId,
        own: &[AnyMesh],
        received: &[AnyMesh],
    ) -> Result<Watches, Memory>
        requires { HasMeshes plan.now part own.now received.now }
        ensures { IfOk result (AreWatches plan.now part (known_by plan.now part own.now received.now)) }
    {
        let watches = plan.part(part).watches.as_slice();
        let mut vertices = Vec::with_capacity(alloc, watches.len())?;
        for i in 0..watches.len() {
            vertices.push(followed_by(plan, part, own, received, &watches[i]))?;
        }
        Ok(Watches {
            part,
            vertices: Items::from_vec(vertices),
        })
    }

    /// What the watch-points show at the end of a window: of each a row with what was written last and what
    /// is read then, at the vertex that it follows.
    pub fn rows(
        &self,
        alloc: Global,
        plan: &Plan,
        reads: &ReadTable,
        writes: &WriteTable,
        inputs: &[KeptInput],
        clock: Clock,
    ) -> Result<Vec<WatchRow>, Memory>
        requires { CanShow plan.now self.now reads.now writes.now inputs.now clock }
        ensures { IfOk result (λ rows. (part : ℕ) (known : Known) (turn : Turn) → AreWatches plan.now part known self.now
            → AreWritten plan.now part known turn.written writes.now → turn.inputs ≡ map input_kept inputs.now → turn.window ≡ clock.window
            → turn.now ≡ clock.now → watch_rows plan.now part known turn ≡ rows.items) }
    {
        // What the plan says of itself is valid.
        let _parts = plan.parts();
        self.rows_kept(alloc, plan, reads, writes, inputs, clock)
    }

    /// The rows, one for each watch-point.
    fn rows_kept(
        &self,
        alloc: Global,
        plan: &Plan,
        reads: &ReadTable,
        writes: &WriteTable,
        inputs: &[KeptInput],
        clock: Clock,
    ) -> Result<Vec<WatchRow>, Memory>
        requires opened { reads.now ≡ opening_reads plan.now self.now.part }
        requires rows { HaveRows plan.now self.now.part self.now.vertices writes.now inputs.now clock.now }
        ensures { IfOk result (λ rows. rows.items ≡ rows_kept plan.now self.now writes.now inputs.now clock) }
    {
        // What the plan says of itself is valid.
        let _parts = plan.parts();
        let watches = plan.part(self.part).watches.as_slice();
        let mut rows = Vec::with_capacity(alloc, watches.len())?;
        for i in 0..watches.len() {
            let vertex = self.vertices.as_slice()[i];
            let mesh = watches[i].mesh;
            let values = self.values_at(
                alloc, plan, reads, writes, inputs, clock.now, mesh, vertex,
            )?;
            rows.push(WatchRow {
                part: self.part,
                watch: i as u32,
                window: clock.window,
                values,
            })?;
        }
        Ok(rows)
    }

    /// The values at a vertex of a mesh: of the entries on it first those that are written and then those
    /// that are read.
    fn values_at(
        &self,
        alloc: Global,
        plan: &Plan,
        reads: &ReadTable,
        writes: &WriteTable,
        inputs: &[KeptInput],
        now: u64,
        mesh: MeshId,
        vertex: u32,
    ) -> Result<Items<i64>, Memory>
        requires participant { self.now.part < length plan.now.parts }
        requires opened { reads.now ≡ opening_reads plan.now self.now.part }
        requires written { HaveWritten (write_entries plan.now self.now.part) writes.now mesh vertex }
        requires inputs { HaveInputs plan.now self.now.part inputs.now now mesh vertex }
        ensures { IfOk result (λ values. values ≡ row_kept plan.now self.now.part writes.now inputs.now now mesh vertex) }
    {
        let mut values = Vec::new(alloc);
        push_all_written(plan, self.part, writes, mesh, vertex, &mut values)?;
        push_all_read(
            plan,
            self.part,
            reads,
            inputs,
            now,
            mesh,
            vertex,
            &mut values,
        )?;
        Ok(Items::from_vec(values))
    }
}

/// The vertex that a watch-point of the participant follows.
fn followed_by(
    plan: &Plan,
    part: PartId,
    own: &[AnyMesh],
    received: &[AnyMesh],
    watch: &Watch,
) -> u32
    requires meshes { HasMeshes plan.now part own.now received.now }
    requires watch { Contains (watches plan.now part) watch.now }
    ensures { result ≡ nearest_vertex (points_of plan.now part (known_by plan.now part own.now received.now) watch.now.mesh) watch.now.at }
{
    // What the plan says of itself is valid.
    let _parts = plan.parts();
    let _participant = plan.part(part);
    let mesh = known_mesh(plan, part, own, received, watch.mesh);
    nearest_to(mesh, watch.at.as_slice())
}
