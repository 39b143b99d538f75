ghost use Rattle.std.specs.Prelude.{◌≡◌, ◌<◌, ◌≤◌, ◌^◌, ℕ, List, length, slice_get, Some, IfOk};
ghost use Rattle.std.specs.Option.{option_map};
ghost use Rattle.cpl_plan.specs.ValidPlan.{IsValidPlan};
ghost use Rattle.cpl_plan.specs.Windows.{IsLeastToReach, window_end, window_start};
ghost use Rattle.cpl_plan.specs.Needs.{needs};
ghost use Rattle.cpl_plan.specs.PlanWords.{components_on};

use crate::needs::need_at;
use crate::parts::{DataPlan, Exchange, MeshPlan, Part, PlanParts, Scheme, WindowMethod};
use crate::windows::span;
use crate::words::Need;
use fixed_num::{CopyIn, Memory, Name};
use plan_order::{DataId, ExchangeId, MeshId, Node, PartId, SchemeId};
use std::alloc::Global;
use std::marker::Model;

/// An accepted configuration in numbers, which contracts see as its parts; they are valid.
#[derive(Debug, Drop)]
pub struct Plan {
    parts: PlanParts,
}

impl Model for Plan {
    ghost use Rattle.cpl_plan.specs.declared.parts.PlanParts.{PlanParts};
    ghost use Rattle.cpl_plan.specs.ValidPlan.{IsValidPlan};

    ghost Value = { PlanParts };

    ghost view = { λ p. p.parts };

    ghost invariant = { λ p. IsValidPlan p.parts };
}

impl Plan {
    /// The plan of these parts.
    pub fn from_parts(parts: PlanParts) -> Plan
        requires { IsValidPlan parts }
        ensures { result ≡ parts }
    {
        Plan { parts }
    }

    /// An equal plan in memory of its own.
    pub fn copy(&self, alloc: Global) -> Result<Plan, Memory>
        ensures { IfOk result (λ plan. plan ≡ self.now) }
    {
        Ok(Plan {
            parts: self.parts.copy_in(alloc)?,
        })
    }

    /// All that the plan says. It is valid, and so stands in what contracts see of the plan itself.
    pub fn parts(&self) -> &PlanParts
        ensures value { result.now ≡ self.now }
        ensures valid { IsValidPlan self.now }
    {
        &self.parts
    }

    /// How many participants there are.
    pub fn part_count(&self) -> u32
        ensures { result ≡ length self.now.parts }
    {
        self.parts.parts.len() as u32
    }

    /// Participant `p`.
    pub fn part(&self, p: PartId) -> &Part
        requires { p < length self.now.parts }
        ensures { slice_get self.now.parts p ≡ Some result.now }
    {
        &self.parts.parts.as_slice()[p as usize]
    }

    /// The name of mesh `m`.
    pub fn mesh_name(&self, m: MeshId) -> &Name
        requires { m < length self.now.meshes }
        ensures { option_map (λ mesh. mesh.name) (slice_get self.now.meshes m) ≡ Some result.now }
    {
        &self.mesh(m).name
    }

    /// How many dimensions the points of mesh `m` have.
    pub fn mesh_dimensions(&self, m: MeshId) -> u32
        requires { m < length self.now.meshes }
        ensures { option_map (λ mesh. mesh.dimensions) (slice_get self.now.meshes m) ≡ Some result }
    {
        self.mesh(m).dimensions
    }

    /// The participant that provides mesh `m`.
    pub fn mesh_owner(&self, m: MeshId) -> PartId
        requires { m < length self.now.meshes }
        ensures { option_map (λ mesh. mesh.owner) (slice_get self.now.meshes m) ≡ Some result }
    {
        self.mesh(m).owner
    }

    /// The data that mesh `m` carries, in the order of its list.
    pub fn data_on(&self, m: MeshId) -> &[DataId]
        requires { m < length self.now.meshes }
        ensures { option_map (λ mesh. mesh.data_list) (slice_get self.now.meshes m) ≡ Some result.now }
    {
        self.mesh(m).data_list.as_slice()
    }

    /// The name of data item `d`.
    pub fn data_name(&self, d: DataId) -> &Name
        requires { d < length self.now.data_list }
        ensures { option_map (λ item. item.name) (slice_get self.now.data_list d) ≡ Some result.now }
    {
        &self.data_item(d).name
    }

    /// How many components data item `d` has at each vertex of mesh `m`: one, or of a vector one for
    /// each dimension.
    pub fn components(&self, d: DataId, m: MeshId) -> u32
        requires data_item { d < length self.now.data_list }
        requires mesh { m < length self.now.meshes }
        ensures { components_on self.now d m ≡ Some result }
    {
        if self.data_item(d).vector {
            self.mesh_dimensions(m)
        } else {
            1
        }
    }

    /// The degree by which waves of data item `d` are read.
    pub fn degree(&self, d: DataId) -> u32
        requires { d < length self.now.data_list }
        ensures { option_map (λ item. item.degree) (slice_get self.now.data_list d) ≡ Some result }
    {
        self.data_item(d).degree
    }

    /// How many coupling schemes there are.
    pub fn scheme_count(&self) -> u32
        ensures { result ≡ length self.now.schemes }
    {
        self.parts.schemes.len() as u32
    }

    /// Coupling scheme `s`.
    pub fn scheme(&self, s: SchemeId) -> &Scheme
        requires { s < length self.now.schemes }
        ensures { slice_get self.now.schemes s ≡ Some result.now }
    {
        &self.parts.schemes.as_slice()[s as usize]
    }

    /// How many exchanges all schemes have together.
    pub fn exchange_count(&self) -> u32
        ensures { result ≡ length self.now.exchanges }
    {
        self.parts.exchanges.len() as u32
    }

    /// Exchange `x`.
    pub fn exchange(&self, x: ExchangeId) -> &Exchange
        requires { x < length self.now.exchanges }
        ensures { slice_get self.now.exchanges x ≡ Some result.now }
    {
        &self.parts.exchanges.as_slice()[x as usize]
    }

    /// The nodes of a window, in the order in which they are solved.
    pub fn nodes(&self) -> &[Node]
        ensures { result.now ≡ self.now.nodes }
    {
        self.parts.nodes.as_slice()
    }

    /// When the simulation ends at the latest, in ticks.
    pub fn end_time(&self) -> u64
        ensures { result ≡ self.now.end_time }
    {
        self.parts.end_time
    }

    /// How windows are made.
    pub fn window_method(&self) -> WindowMethod
        ensures { result ≡ self.now.method }
    {
        self.parts.method
    }

    /// The size of a window, in ticks: the greatest one where the first participant makes them.
    pub fn window_most(&self) -> u64
        ensures size { result ≡ self.now.window }
        ensures range { (1 ≤ result) × (result ≤ 10 ^ 9) }
    {
        self.parts.window
    }

    /// How many windows there are, where the first participant makes them at most. Those of one size
    /// are as few as reach the end time.
    pub fn window_count(&self) -> u32
        ensures count { result ≡ self.now.most_windows }
        ensures least { self.now.method ≡ WindowMethod.Fixed
            → IsLeastToReach self.now.window self.now.end_time result }
        ensures range { (1 ≤ result) × (result ≤ 10 ^ 6) }
    {
        self.parts.most_windows
    }

    /// From when to when window `w` goes, in ticks, where windows have one size.
    pub fn window_span(&self, w: u32) -> (u64, u64)
        requires fixed { self.now.method ≡ WindowMethod.Fixed }
        requires from { 1 ≤ w }
        requires to { w ≤ self.now.most_windows }
        ensures start { (ends : List ℕ) → window_start self.now ends w ≡ Some result.0 }
        ensures end { (ends : List ℕ) → window_end self.now ends w ≡ Some result.1 }
    {
        span(self.parts.window, self.parts.end_time, w)
    }

    /// The `i`-th need, from 0, of participant `p` for the take of window `w` and iteration `k`: one of
    /// each partner, by scheme and then by number. None past the last.
    pub fn need(&self, p: PartId, i: u32, w: u32, k: u32) -> Option<Need>
        requires participant { p < length self.now.parts }
        requires window { 1 ≤ w }
        ensures { result ≡ slice_get (needs self.now p w k) i }
    {
        need_at(self.parts.schemes.as_slice(), self.part_count(), p, i, w, k)
    }

    fn mesh(&self, m: MeshId) -> &MeshPlan
        requires { m < length self.now.meshes }
        ensures { slice_get self.now.meshes m ≡ Some result.now }
    {
        &self.parts.meshes.as_slice()[m as usize]
    }

    fn data_item(&self, d: DataId) -> &DataPlan
        requires { d < length self.now.data_list }
        ensures { slice_get self.now.data_list d ≡ Some result.now }
    {
        &self.parts.data_list.as_slice()[d as usize]
    }
}
