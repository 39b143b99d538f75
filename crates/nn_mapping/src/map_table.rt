ghost use Rattle.std.specs.Prelude.{◌≡◌, ◌↔◌, ◌⊎◌, ◌*◌, ◌<◌, ◌≤◌, ◌^◌, ◌/◌, ◌%◌, Bool, false, [], length, Ok, Err, IsOk, IfOk, IfErr, OnOk, OnErr};
ghost use Rattle.mesh_data.specs.AnyMeshes.{dimensions_of, vertices_of};
ghost use Rattle.waveform.specs.Shape.{IsLike};
ghost use Rattle.nn_mapping.specs.Mapping.{IsMapping, IsMappingOf, mapping_of};
ghost use Rattle.nn_mapping.specs.MappedField.{IsFieldOn, mapped_field};
ghost use Rattle.nn_mapping.specs.Refusals.{IsCauseOf};

use crate::map_errors::{ApplyErr, MapErr};
use crate::nearest::nearest_between;
use crate::rows::copy_rows;
use crate::sums::{first_overflow, whole_sums, write_sums};
use fixed_num::{Items, Value};
use mesh_data::AnyMesh;
use std::alloc::Global;
use std::marker::Model;
use std::mem;
use waveform::Field;

/// A nearest-neighbour map from one mesh to another.
///
/// Contracts see it as a `Mapping`: whether it is conservative, how many vertices each mesh has, and
/// the list of the nearest vertices. Consistent, that has for each target the nearest source;
/// conservative, for each source the nearest target. Applying a conservative map takes memory for
/// its sums, so the table keeps its allocator.
#[derive(Debug, Drop)]
pub struct MapTable {
    conservative: bool,
    sources: usize,
    targets: usize,
    nearest: Vec<u32>,
    alloc: Global,
}

impl Model for MapTable {
    ghost use Rattle.nn_mapping.specs.Mapping.{Mapping, IsMapping};

    ghost Value = { Mapping };

    ghost view = { λ t. record {
      conservative = t.conservative;
      sources = t.sources;
      targets = t.targets;
      nearest = t.nearest.items;
    } };

    ghost invariant = { λ t. IsMapping (record {
      conservative = t.conservative;
      sources = t.sources;
      targets = t.targets;
      nearest = t.nearest.items;
    }) };
}

impl MapTable {
    /// The map from one mesh to another of as many dimensions: consistent, the nearest source of
    /// each target; conservative, the nearest target of each source. Nearest is least square
    /// distance, then least number. `Empty` exactly where a mesh has no vertex.
    pub fn build(
        alloc: Global,
        from: &AnyMesh,
        to: &AnyMesh,
        conservative: bool,
    ) -> Result<MapTable, MapErr>
        requires alike { dimensions_of from.now ≡ dimensions_of to.now }
        ensures nearest { IfOk result
            (IsMappingOf (vertices_of from.now) (vertices_of to.now) conservative) }
        ensures table { IfOk result
            (λ table. table ≡ mapping_of (vertices_of from.now) (vertices_of to.now) conservative) }
        ensures sound { IfOk result IsMapping }
        ensures empty { (result ≡ Err MapErr.Empty)
            ↔ ((vertices_of from.now ≡ []) ⊎ (vertices_of to.now ≡ [])) }
    {
        let sources = from.len();
        let targets = to.len();
        if sources == 0 {
            return Err(MapErr::Empty);
        }
        if targets == 0 {
            return Err(MapErr::Empty);
        }
        let nearest = if conservative {
            nearest_between(alloc, to, from)?
        } else {
            nearest_between(alloc, from, to)?
        };
        Ok(MapTable {
            conservative,
            sources,
            targets,
            nearest,
            alloc,
        })
    }

    /// Maps a field on the first mesh to `out`, a field on the second with as many components.
    ///
    /// A consistent map copies values, takes no memory and cannot fail. A conservative one sums each
    /// target's sources whole before it looks at the range: `Overflow` at the first vertex, then
    /// component, whose whole sum is no Value; `Memory`. After an error `out` is as before.
    pub fn apply(&self, field: &Field, out: &mut Field) -> Result<(), ApplyErr>
        requires field { IsFieldOn field.now self.now.sources }
        requires out { IsFieldOn out.old self.now.targets }
        requires components { field.now.components ≡ out.old.components }
        ensures mapped { OnOk result (mapped_field self.now field.now ≡ Ok out.new) }
        ensures overflow { IfErr result (IsCauseOf self.now field.now) }
        ensures consistent { self.now.conservative ≡ false → IsOk result }
        ensures shape { IsLike out.old out.new }
        ensures unchanged { OnErr result (out.new ≡ out.old) }
    {
        let nearest = self.nearest.as_slice();
        if self.conservative {
            let sums = whole_sums(self.alloc, nearest, field, self.targets)?;
            if let Some(i) = first_overflow(sums.as_slice()) {
                return Err(overflow_at(i, field.components));
            }
            let mut values = take_values(self.alloc, out);
            write_sums(sums.as_slice(), &mut values);
            out.values = Items::from_vec(values);
        } else {
            let mut values = take_values(self.alloc, out);
            copy_rows(
                nearest,
                field.components as usize,
                field.values.as_slice(),
                &mut values,
            );
            out.values = Items::from_vec(values);
        }
        Ok(())
    }
}

/// The values of a field, which is left with none. It takes no memory.
fn take_values(alloc: Global, field: &mut Field) -> Vec<Value>
    ensures values { result.items ≡ field.old.values }
    ensures components { field.new.components ≡ field.old.components }
{
    mem::replace(&mut field.values, Items::from_vec(Vec::new(alloc))).into_vec()
}

/// The overflow at place `i` of the values.
fn overflow_at(i: usize, components: u32) -> ApplyErr
    requires some { 0 < components }
    requires few { i < 10 ^ 4 * components }
    ensures { result ≡ ApplyErr.Overflow (i / components) (i % components) }
{
    let components = components as usize;
    ApplyErr::Overflow {
        vertex: (i / components) as u32,
        component: (i % components) as u32,
    }
}
