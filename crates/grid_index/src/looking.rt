//! Looking at cells and vertices. Each look is counted where it is made.

ghost use Rattle.std.specs.Prelude.{◌≡◌, ◌+◌, ◌<◌, ◌≤◌, ◌^◌, [], ◌∷◌, ℕ, length, slice_index};
ghost use Rattle.mesh_data.specs.Nearest.{distance_to};
ghost use Rattle.mesh_data.specs.Points.{IsDimension};
ghost use Rattle.grid_index.specs.Boxes.{IsSpan, cell_cost};
ghost use Rattle.grid_index.specs.Candidates.{GoesBefore, Improves, IsFound};
ghost use Rattle.grid_index.specs.Chains.{IsEndBelow};
ghost use Rattle.grid_index.specs.GriddedMesh.{IsGridded};
ghost use Rattle.grid_index.specs.Looking.{MayLook, HasLooked, MayLookRound, HasLookedRound};
ghost use Rattle.grid_index.specs.Places.{places_in};

use crate::candidate::{Candidate, Search, better};
use crate::grid::Grid;
use crate::spans::{Region, Span};
use mesh_data::{Point, square_distance};

impl<const D: usize> Grid<D> {
    /// How many cells there are along each axis.
    fn per_axis(&self) -> usize
        ensures value { result ≡ self.now.cells.per_axis }
        ensures gridded { IsGridded D self.now }
    {
        let Grid { per_axis, .. } = self;
        *per_axis
    }

    /// Looks at a cell: gives one more than its last vertex, or 0.
    fn end_of_cell(&self, cell: usize, search: &mut Search) -> u32
        requires cell { cell < self.now.cells.per_axis ^ D }
        requires room { search.old.steps + 1 < 2 ^ 64 }
        ensures chain { IsEndBelow (places_in self.now.cells self.now.mesh) cell (length self.now.mesh) result }
        ensures step { search.new.steps ≡ search.old.steps + 1 }
        ensures best { search.new.best ≡ search.old.best }
    {
        search.steps.tick();
        self.chains.ends[cell]
    }

    /// Looks at a vertex: keeps it if it is the best so far, and gives one more than the last vertex
    /// before it in its cell, or 0.
    fn look_at_vertex(&self, point: &Point<D>, vertex: u32, search: &mut Search) -> u32
        requires dimensions { IsDimension D }
        requires vertex { vertex < length self.now.mesh }
        requires found { IsFound self.now.mesh point.now search.old.best }
        requires room { search.old.steps + 1 < 2 ^ 64 }
        ensures chain { let places = places_in self.now.cells self.now.mesh in
            IsEndBelow places (slice_index places vertex) vertex result }
        ensures step { search.new.steps ≡ search.old.steps + 1 }
        ensures improved { Improves self.now.mesh point.now search.old.best search.new.best }
        ensures looked { GoesBefore self.now.mesh point.now search.new.best vertex }
    {
        search.steps.tick();
        let distance = square_distance(point, self.mesh.point(vertex));
        search.best = better(search.best, Candidate { distance, vertex });
        self.chains.before[vertex as usize]
    }

    /// Looks at a cell and all its vertices.
    fn look_at_cell(&self, point: &Point<D>, cell: usize, search: &mut Search)
        requires dimensions { IsDimension D }
        requires cell { cell < self.now.cells.per_axis ^ D }
        requires found { IsFound self.now.mesh point.now search.old.best }
        requires room { search.old.steps + cell_cost (places_in self.now.cells self.now.mesh) cell < 2 ^ 64 }
        ensures steps { search.new.steps
            ≡ search.old.steps + cell_cost (places_in self.now.cells self.now.mesh) cell }
        ensures improved { Improves self.now.mesh point.now search.old.best search.new.best }
        ensures looked { (u : ℕ) → u < length self.now.mesh
            → slice_index (places_in self.now.cells self.now.mesh) u ≡ cell
            → GoesBefore self.now.mesh point.now search.new.best u }
    {
        let mut end = self.end_of_cell(cell, search);
        while end > 0 {
            end = self.look_at_vertex(point, end - 1, search);
        }
    }

    /// Looks through the cells of a row, whose digits in front are those of `front`.
    fn look_in_row(&self, point: &Point<D>, numbers: Span, front: usize, search: &mut Search)
        requires dimensions { IsDimension D }
        requires front { front ≤ 10 ^ 9 }
        requires may { MayLook (self.now.cells.per_axis ^ D) self.now point.now [] front
            numbers.first numbers.end search.old }
        ensures { HasLooked self.now point.now [] front numbers.first numbers.end
            search.old search.new }
    {
        for n in numbers.first..numbers.end {
            self.look_at_cell(point, front * self.per_axis() + n, search);
        }
    }

    /// Looks through the same span of rows that follow each other.
    fn look_in_plane(
        &self,
        point: &Point<D>,
        numbers: Span,
        row: Span,
        front: usize,
        search: &mut Search,
    )
        requires dimensions { IsDimension D }
        requires front { front ≤ 10 ^ 4 }
        requires row { IsSpan self.now.cells.per_axis row }
        requires may { MayLook (self.now.cells.per_axis ^ D) self.now point.now (row ∷ []) front
            numbers.first numbers.end search.old }
        ensures { HasLooked self.now point.now (row ∷ []) front numbers.first numbers.end
            search.old search.new }
    {
        for n in numbers.first..numbers.end {
            self.look_in_row(point, row, front * self.per_axis() + n, search);
        }
    }

    /// Looks through the rows of a box in planes that follow each other.
    pub(crate) fn look_in_box(
        &self,
        point: &Point<D>,
        numbers: Span,
        within: Region,
        search: &mut Search,
    )
        requires dimensions { IsDimension D }
        requires few { self.now.cells.per_axis ≤ 10 ^ 4 }
        requires rows { IsSpan self.now.cells.per_axis within.rows }
        requires row { IsSpan self.now.cells.per_axis within.row }
        requires may { MayLook (self.now.cells.per_axis ^ D) self.now point.now
            (within.rows ∷ within.row ∷ []) 0 numbers.first numbers.end search.old }
        ensures { HasLooked self.now point.now (within.rows ∷ within.row ∷ []) 0
            numbers.first numbers.end search.old search.new }
    {
        for n in numbers.first..numbers.end {
            self.look_in_plane(point, within.rows, within.row, n, search);
        }
    }

    /// Looks through a row, but for a span inside it that was looked through before.
    fn look_round_row(
        &self,
        point: &Point<D>,
        row: Span,
        known: Span,
        front: usize,
        search: &mut Search,
    )
        requires dimensions { IsDimension D }
        requires front { front ≤ 10 ^ 9 }
        requires may { MayLookRound (self.now.cells.per_axis ^ D) self.now point.now
            (row ∷ []) (known ∷ []) front search.old }
        ensures { HasLookedRound self.now point.now (row ∷ []) (known ∷ []) front
            search.old search.new }
    {
        let below = row.before(known);
        self.look_in_row(point, below, front, search);
        let above = row.after(known);
        self.look_in_row(point, above, front, search);
    }

    /// Looks through the rows of a box in a plane, but for those of a box inside it that were looked
    /// through before.
    fn look_round_plane(
        &self,
        point: &Point<D>,
        within: Region,
        known: Region,
        front: usize,
        search: &mut Search,
    )
        requires dimensions { IsDimension D }
        requires front { front ≤ 10 ^ 4 }
        requires may { MayLookRound (self.now.cells.per_axis ^ D) self.now point.now
            (within.rows ∷ within.row ∷ []) (known.rows ∷ known.row ∷ []) front search.old }
        ensures { HasLookedRound self.now point.now (within.rows ∷ within.row ∷ [])
            (known.rows ∷ known.row ∷ []) front search.old search.new }
    {
        let below = within.rows.before(known.rows);
        self.look_in_plane(point, below, within.row, front, search);
        for n in known.rows.first..known.rows.end {
            let row = front * self.per_axis() + n;
            self.look_round_row(point, within.row, known.row, row, search);
        }
        let above = within.rows.after(known.rows);
        self.look_in_plane(point, above, within.row, front, search);
    }

    /// Looks through a box, but for a box inside it that was looked through before.
    pub(crate) fn look_round(
        &self,
        point: &Point<D>,
        within: Region,
        known: Region,
        search: &mut Search,
    )
        requires dimensions { IsDimension D }
        requires few { self.now.cells.per_axis ≤ 10 ^ 4 }
        requires may { MayLookRound (self.now.cells.per_axis ^ D) self.now point.now
            (within.planes ∷ within.rows ∷ within.row ∷ [])
            (known.planes ∷ known.rows ∷ known.row ∷ []) 0 search.old }
        ensures { HasLookedRound self.now point.now
            (within.planes ∷ within.rows ∷ within.row ∷ [])
            (known.planes ∷ known.rows ∷ known.row ∷ []) 0 search.old search.new }
    {
        let below = within.planes.before(known.planes);
        self.look_in_box(point, below, within, search);
        for n in known.planes.first..known.planes.end {
            self.look_round_plane(point, within, known, n, search);
        }
        let above = within.planes.after(known.planes);
        self.look_in_box(point, above, within, search);
    }
}
