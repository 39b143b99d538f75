ghost use Rattle.std.specs.Prelude.{◌≡◌, ◌↔◌, ◌+◌, ◌-◌, ◌*◌, ◌^◌, ◌<◌, ◌≤◌, [], ◌∷◌, length, IsTrue, IfOk, IfSome, IfNone, OnSome};
ghost use Rattle.mesh_data.specs.Nearest.{IsNearest, distance_to};
ghost use Rattle.mesh_data.specs.Points.{IsDimension, IsPoint};
ghost use Rattle.grid_index.specs.Block.{block_of, least_width};
ghost use Rattle.grid_index.specs.Boxes.{box_within, padded};
ghost use Rattle.grid_index.specs.Candidates.{IsWithinReach};
ghost use Rattle.grid_index.specs.Cells.{AreCellsOf};
ghost use Rattle.grid_index.specs.GriddedMesh.{IsGridded};
ghost use Rattle.grid_index.specs.Places.{places_in};

use crate::axis::{Axis, axes_on, cells_per_axis, least_width, place_from};
use crate::candidate::{Candidate, Search};
use crate::chains::{Chains, chains_of};
use crate::spans::{Region, Span, span_within};
use crate::steps::Steps;
use fixed_num::{Memory, root_floor};
use mesh_data::{Mesh, Point};
use std::alloc::Global;
use std::marker::Model;

/// A mesh of `D` dimensions whose nearest vertices are found by cells.
///
/// Contracts see it as the mesh, a list of points, and its cells: how many there are along each axis
/// (the greatest number with which there are no more cells than vertices), and for each axis the
/// least coordinate of the vertices, where the cells begin, and the width of a cell.
#[derive(Drop)]
pub struct Grid<const D: usize> {
    pub(crate) mesh: Mesh<D>,
    pub(crate) per_axis: usize,
    pub(crate) axes: [Axis; D],
    pub(crate) chains: Chains,
}

impl<const D: usize> Model for Grid<D> {
    ghost use Rattle.grid_index.specs.GriddedMesh.{GriddedMesh, IsGrid};

    ghost Value = { GriddedMesh };

    ghost view = { λ g. record {
      mesh = g.mesh;
      cells = record { per_axis = g.per_axis; axes = g.axes };
    } };

    ghost invariant = { λ g. IsGrid D
        (record { mesh = g.mesh; cells = record { per_axis = g.per_axis; axes = g.axes } })
        g.chains.ends.items g.chains.before.items };
}

impl<const D: usize> Grid<D> {
    /// The grid of a mesh that is not empty, over a copy of it.
    ///
    /// It has at most as many cells as the mesh has vertices.
    pub fn build(alloc: Global, mesh: &Mesh<D>) -> Result<Grid<D>, Memory>
        requires dimensions { IsDimension D }
        requires some { 0 < length mesh.now }
        ensures mesh { IfOk result (λ grid. grid.mesh ≡ mesh.now) }
        ensures cells { IfOk result (IsGridded D) }
    {
        let per_axis = cells_per_axis(mesh.len(), D as u32);
        let axes = axes_on(mesh, per_axis);
        let places = places_of(alloc, mesh, per_axis, &axes)?;
        let chains = chains_of(alloc, &places, per_axis.pow(D as u32))?;
        Ok(Grid {
            mesh: mesh.copy(alloc)?,
            per_axis,
            axes,
            chains,
        })
    }

    /// The nearest vertex to a point: the least square distance, then the least number. It takes no
    /// memory.
    ///
    /// A step is one vertex or one cell that is looked at. There are at most twice as many as the
    /// mesh has vertices; and where the nearest vertex is no further away than the least width of a
    /// cell, at most 3^D, and one more for each vertex in the point's block: the cells whose numbers
    /// differ from the point's own by at most 1 on every axis.
    pub fn nearest(&self, p: &Point<D>, steps: &mut Steps) -> u32
        requires dimensions { IsDimension D }
        requires room { steps.old + 2 * length self.now.mesh < 2 ^ 64 }
        ensures nearest { IsNearest self.now.mesh p.now result }
        ensures steps { steps.new ≤ steps.old + 2 * length self.now.mesh }
        ensures near { let h = least_width self.now.cells.axes in
            distance_to self.now.mesh p.now result ≤ h * h
            → steps.new
            ≤ steps.old + 3 ^ D + length (block_of self.now.cells self.now.mesh p.now) }
    {
        let mut search = Search {
            best: None,
            steps: *steps,
        };
        let mut known = self.box_within(p, 0);
        self.look_in_box(p, known.planes, known, &mut search);
        let mut reach = 0;
        while let Some(farther) = self.farther(search.best, reach) {
            let within = self.box_within(p, farther);
            self.look_round(p, within, known, &mut search);
            known = within;
            reach = farther;
        }
        *steps = search.steps;
        match search.best {
            Some(found) => found.vertex,
            None => unreachable!(),
        }
    }

    /// How far to look next, if the best so far may not be the nearest within reach: as far as the
    /// best lies; where there is none, twice as far; but first no further than the least width.
    fn farther(&self, best: Option<Candidate>, reach: u64) -> Option<u64>
        requires dimensions { IsDimension D }
        requires best { IfSome best (λ c. c.distance ≤ 16 * 10 ^ 24) }
        requires none { IfNone best (reach ≤ 4 * 10 ^ 12) }
        ensures done { IfNone result (IsWithinReach best reach) }
        ensures open { OnSome result (¬ IsWithinReach best reach) }
        ensures farther { IfSome result (λ next. (reach < next) × (next ≤ 10 ^ 13)) }
        ensures width { IfSome result
            (λ next. reach < least_width self.now.cells.axes → next ≤ least_width self.now.cells.axes) }
    {
        farther(best, reach, least_width(&self.axes))
    }

    /// The box of cells that overlap what is within reach of a point on every axis. Axes of which the
    /// space has none stand in front, with one number.
    fn box_within(&self, point: &Point<D>, reach: u64) -> Region
        requires dimensions { IsDimension D }
        requires reach { reach ≤ 10 ^ 13 }
        ensures gridded { IsGridded D self.now }
        ensures point { IsPoint D point.now }
        ensures spans { result.planes ∷ result.rows ∷ result.row ∷ [] ≡ padded (3 - D)
            (box_within self.now.cells.per_axis reach self.now.cells.axes point.now) }
    {
        let at = point.at();
        let mut spans = [Span { first: 0, end: 1 }; 3];
        for i in 0..D {
            spans[3 - D + i] = span_within(self.per_axis, reach, self.axes[i], at[i]);
        }
        Region {
            planes: spans[0],
            rows: spans[1],
            row: spans[2],
        }
    }
}

/// The same of a grid whose cells have this least width.
fn farther(best: Option<Candidate>, reach: u64, width: u64) -> Option<u64>
    requires width { 0 < width }
    requires narrow { width ≤ 10 ^ 13 }
    requires best { IfSome best (λ c. c.distance ≤ 16 * 10 ^ 24) }
    requires none { IfNone best (reach ≤ 4 * 10 ^ 12) }
    ensures done { IfNone result (IsWithinReach best reach) }
    ensures open { OnSome result (¬ IsWithinReach best reach) }
    ensures farther { IfSome result (λ next. (reach < next) × (next ≤ 10 ^ 13)) }
    ensures width { IfSome result (λ next. reach < width → next ≤ width) }
{
    let most = match best {
        Some(found) => {
            if is_within_reach(found.distance, reach) {
                return None;
            }
            root_floor(found.distance) + 1
        }
        None => width.max(2 * reach),
    };
    Some(if reach < width { most.min(width) } else { most })
}

/// Whether a square distance is that of a point within reach.
fn is_within_reach(distance: u128, reach: u64) -> bool
    ensures { IsTrue result ↔ (distance ≤ reach * reach) }
{
    distance <= u128::from(reach) * u128::from(reach)
}

/// The place of each vertex's cell.
fn places_of<const D: usize>(
    alloc: Global,
    mesh: &Mesh<D>,
    per_axis: usize,
    axes: &[Axis],
) -> Result<Vec<u32>, Memory>
    requires dimensions { IsDimension D }
    requires cells { AreCellsOf D mesh.now (record { per_axis = per_axis; axes = axes.now }) }
    ensures { IfOk result (λ places.
        places.items ≡ places_in (record { per_axis = per_axis; axes = axes.now }) mesh.now) }
{
    let mut places = Vec::with_capacity(alloc, mesh.len())?;
    for v in 0..mesh.len() as u32 {
        places.push(place_from(per_axis, axes, mesh.point(v).at(), 0) as u32)?;
    }
    Ok(places)
}
