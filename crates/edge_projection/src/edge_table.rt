ghost use Rattle.std.specs.Prelude.{◌≡◌, ◌↔◌, ◌⊎◌, ◌*◌, ◌<◌, ◌≤◌, ◌^◌, ◌/◌, ◌%◌, ℕ, true, false, [], length, All, Ok, Err, IsOk, IfOk, IfErr, OnOk, OnErr};
ghost use Rattle.mesh_data.specs.AnyMeshes.{dimensions_of, vertices_of};
ghost use Rattle.waveform.specs.Shape.{IsLike};
ghost use Rattle.edge_projection.specs.NearestFoot.{IsEdgeOf};
ghost use Rattle.edge_projection.specs.EdgeMapping.{IsEdgeMapping, mapping_of, searched};
ghost use Rattle.edge_projection.specs.MappedField.{IsFieldOn, mapped_field, total_of};
ghost use Rattle.edge_projection.specs.Refusals.{HaveVertices, IsBuildCause, IsSumCause};

use crate::edge::{Edge, Foot};
use crate::edge_errors::{EdgeErr, SumErr};
use crate::feet_between::feet_between;
use crate::rows::write_rows;
use crate::sums::{first_overflow, whole_sums, write_sums};
use fixed_num::{Items, Value};
use mesh_data::AnyMesh;
use std::alloc::Global;
use std::marker::Model;
use std::mem;
use waveform::Field;

/// A nearest-projection map from one mesh to another.
///
/// Contracts see it as an `EdgeMapping`: whether it is conservative, how many vertices each mesh has,
/// and the list of the feet. Consistent, that has for each target the foot among the sources;
/// conservative, for each source the foot among the targets. Applying a conservative map takes
/// memory for its sums, so the table keeps its allocator.
#[derive(Debug, Drop)]
pub struct EdgeTable {
    conservative: bool,
    sources: usize,
    targets: usize,
    feet: Vec<Foot>,
    alloc: Global,
}

impl Model for EdgeTable {
    ghost use Rattle.edge_projection.specs.EdgeMapping.{EdgeMapping, IsEdgeMapping};

    ghost Value = { EdgeMapping };

    ghost view = { λ t. record {
      conservative = t.conservative;
      sources = t.sources;
      targets = t.targets;
      feet = t.feet.items;
    } };

    ghost invariant = { λ t. IsEdgeMapping (record {
      conservative = t.conservative;
      sources = t.sources;
      targets = t.targets;
      feet = t.feet.items;
    }) };
}

impl EdgeTable {
    /// The map from one mesh to another of as many dimensions: consistent, the foot of each target on
    /// the edges of the first mesh; conservative, the foot of each source on those of the second. The
    /// edges are of the mesh that is searched, at most 100,000.
    ///
    /// `Empty` where a mesh has no vertex, then `BadEdge` at the first edge with an end out of range,
    /// then `Memory`.
    pub fn build(
        alloc: Global,
        from: &AnyMesh,
        to: &AnyMesh,
        edges: &[Edge],
        conservative: bool,
    ) -> Result<EdgeTable, EdgeErr>
        requires alike { dimensions_of from.now ≡ dimensions_of to.now }
        requires few { length edges.now ≤ 10 ^ 5 }
        ensures table { IfOk result (λ table.
            table ≡ mapping_of (vertices_of from.now) (vertices_of to.now) edges.now conservative) }
        ensures sound { IfOk result IsEdgeMapping }
        ensures vertices { OnOk result (HaveVertices (vertices_of from.now) (vertices_of to.now)) }
        ensures edges { OnOk result (All (IsEdgeOf
            (length (searched conservative (vertices_of from.now) (vertices_of to.now)))) edges.now) }
        ensures empty { (result ≡ Err EdgeErr.Empty)
            ↔ ((vertices_of from.now ≡ []) ⊎ (vertices_of to.now ≡ [])) }
        ensures cause { IfErr result
            (IsBuildCause (vertices_of from.now) (vertices_of to.now) edges.now conservative) }
    {
        let sources = from.len();
        let targets = to.len();
        if sources == 0 {
            return Err(EdgeErr::Empty);
        }
        if targets == 0 {
            return Err(EdgeErr::Empty);
        }
        let feet = if conservative {
            feet_between(alloc, to, edges, from)?
        } else {
            feet_between(alloc, from, edges, to)?
        };
        Ok(EdgeTable {
            conservative,
            sources,
            targets,
            feet,
            alloc,
        })
    }

    /// Maps a field on the first mesh to `out`, a field on the second with as many components.
    ///
    /// A consistent map reads between the ends of each foot, takes no memory and cannot fail. A
    /// conservative one sums what goes to each target whole before it looks at the range: `Overflow`
    /// at the first vertex, then component, whose whole sum is no Value; `Memory`. After an error
    /// `out` is as before.
    pub fn apply(&self, field: &Field, out: &mut Field) -> Result<(), SumErr>
        requires field { IsFieldOn field.now self.now.sources }
        requires out { IsFieldOn out.old self.now.targets }
        requires components { field.now.components ≡ out.old.components }
        ensures mapped { OnOk result (mapped_field self.now field.now ≡ Ok out.new) }
        ensures overflow { IfErr result (IsSumCause self.now field.now) }
        ensures consistent { self.now.conservative ≡ false → IsOk result }
        ensures total { self.now.conservative ≡ true → OnOk result ((c : ℕ) → c < field.now.components
            → total_of out.new self.now.targets c ≡ total_of field.now self.now.sources c) }
        ensures shape { IsLike out.old out.new }
        ensures unchanged { OnErr result (out.new ≡ out.old) }
    {
        let feet = self.feet.as_slice();
        if self.conservative {
            let sums = whole_sums(self.alloc, feet, field, self.targets)?;
            if let Some(i) = first_overflow(sums.as_slice()) {
                return Err(overflow_at(i, field.components));
            }
            let mut values = take_values(self.alloc, out);
            write_sums(sums.as_slice(), &mut values);
            out.values = Items::from_vec(values);
        } else {
            let mut values = take_values(self.alloc, out);
            write_rows(
                feet,
                field.components as usize,
                field.values.as_slice(),
                &mut values,
            );
            out.values = Items::from_vec(values);
        }
        Ok(())
    }
}

/// The values of a field, which is left with none. It takes no memory.
fn take_values(alloc: Global, field: &mut Field) -> Vec<Value>
    ensures values { result.items ≡ field.old.values }
    ensures components { field.new.components ≡ field.old.components }
{
    mem::replace(&mut field.values, Items::from_vec(Vec::new(alloc))).into_vec()
}

/// The overflow at place `i` of the values.
fn overflow_at(i: usize, components: u32) -> SumErr
    requires some { 0 < components }
    requires few { i < 10 ^ 4 * components }
    ensures { result ≡ SumErr.Overflow (i / components) (i % components) }
{
    let components = components as usize;
    SumErr::Overflow {
        vertex: (i / components) as u32,
        component: (i % components) as u32,
    }
}
