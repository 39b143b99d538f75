//! What is true of the definitions alone. The calls do nothing.

ghost use Rattle.std.specs.Prelude.{◌≡◌, ◌≤◌, ◌*◌, ◌-ℤ◌, ℕ, ℤ, List, [], Some, length, map, slice_get, unsigned_abs};
ghost use Rattle.std.specs.List.{range_with_len};
ghost use Rattle.line_solvers.specs.declared.case.RowParts.{RowParts};
ghost use Rattle.line_solvers.specs.declared.case.RodNumbers.{RodNumbers};
ghost use Rattle.line_solvers.specs.declared.case.SpringNumbers.{SpringNumbers};
ghost use Rattle.line_solvers.specs.Components.{component};
ghost use Rattle.line_solvers.specs.RowsStep.{rows_components};
ghost use Rattle.line_solvers.specs.RodStep.{rod_components};
ghost use Rattle.line_solvers.specs.SpringStep.{spring_components};
ghost use Rattle.line_solvers.specs.Laws.{total, identity_row, at_rest};

/// A rod without reads keeps the sum of its components but for rounding, which is at most half a
/// unit for each component, however many ticks a step has.
pub fn a_free_rod_keeps_its_total()
    ensures { (rod : RodNumbers) (ticks : ℕ) (state : List ℤ)
        → 2 * unsigned_abs (total (rod_components rod ticks state []) -ℤ total state) ≤ length state }
{}

/// A row that is its component itself leaves it as it is; rows that all are leave the state.
pub fn identity_rows_change_nothing()
    ensures component { (rows : List RowParts) (state inputs : List ℤ) (i : ℕ)
        → slice_get rows i ≡ Some (identity_row i)
        → component (rows_components rows state inputs) i ≡ component state i }
    ensures state { (state inputs : List ℤ)
        → rows_components (map identity_row (range_with_len 0 (length state))) state inputs ≡ state }
{}

/// A spring at rest without reads stays at rest.
pub fn a_spring_at_rest_stays_so()
    ensures { (spring : SpringNumbers) (ticks m : ℕ)
        → spring_components spring ticks (at_rest (2 * m)) [] ≡ at_rest (2 * m) }
{}
