ghost use Rattle.std.specs.Prelude.{◌≡◌, ◌+◌, ◌<◌, ◌≤◌, ◌^◌, unsigned_abs, length};
ghost use Rattle.fixed_num.specs.Numbers.{IsCoordinate};
ghost use Rattle.grid_index.specs.Boxes.{span_within};

use crate::axis::Axis;

/// The cell numbers from `first` on and below `end`, along one axis.
#[derive(Clone, Copy)]
pub(crate) struct Span {
    pub(crate) first: usize,
    pub(crate) end: usize,
}

/// A box of cells: a span of planes, of rows in each, and of cells in each row.
#[derive(Clone, Copy)]
pub(crate) struct Region {
    pub(crate) planes: Span,
    pub(crate) rows: Span,
    pub(crate) row: Span,
}

impl Span {
    /// The numbers of this span before those of a span inside it.
    pub(crate) fn before(self, inner: Span) -> Span
        ensures { result ≡ record { first = self.first; end = inner.first } }
    {
        Span {
            first: self.first,
            end: inner.first,
        }
    }

    /// The numbers of this span after those of a span inside it.
    pub(crate) fn after(self, inner: Span) -> Span
        ensures { result ≡ record { first = inner.end; end = self.end } }
    {
        Span {
            first: inner.end,
            end: self.end,
        }
    }
}

/// The cells that overlap what is within reach of a coordinate.
pub(crate) fn span_within(per_axis: usize, reach: u64, axis: Axis, x: i64) -> Span
    requires width { 0 < axis.width }
    requires cells { per_axis ≤ 10 ^ 4 }
    requires reach { reach ≤ 10 ^ 13 }
    requires least { IsCoordinate axis.least }
    requires coordinate { IsCoordinate x }
    ensures { result ≡ span_within per_axis reach axis x }
{
    if axis.least <= x {
        let past = x.abs_diff(axis.least);
        Span {
            first: (past.saturating_sub(reach) / axis.width).min(per_axis as u64) as usize,
            end: ((past + reach) / axis.width + 1).min(per_axis as u64) as usize,
        }
    } else {
        let short = x.abs_diff(axis.least);
        let end = if reach < short {
            0
        } else {
            ((reach - short) / axis.width + 1).min(per_axis as u64) as usize
        };
        Span { first: 0, end }
    }
}
