ghost use Rattle.std.specs.Prelude.{◌≡◌, ◌<◌, ℕ, Some};
ghost use Rattle.call_table.specs.CallMatrix.{matrix, may_call};
ghost use Rattle.call_table.specs.Tables.{IsTable, answer_at};

use std::marker::Model;

/// Which of `CALLS` calls may be made in which of `PHASES` phases. Both are numbered from 0.
///
/// Contracts see it as the list of its rows, one for each call, each the list of its answers.
#[derive(Clone, Copy)]
pub struct CallTable<const CALLS: usize, const PHASES: usize> {
    rows: [[bool; PHASES]; CALLS],
}

impl<const CALLS: usize, const PHASES: usize> Model for CallTable<CALLS, PHASES> {
    ghost use Rattle.std.specs.Prelude.{Bool, List};
    ghost use Rattle.call_table.specs.Tables.{IsTable};

    ghost Value = { List (List Bool) };

    ghost view = { λ t. t.rows };

    ghost invariant = { λ t. IsTable CALLS PHASES t.rows };

    ghost inverse = { λ rows. record { rows = rows } };
}

impl<const CALLS: usize, const PHASES: usize> CallTable<CALLS, PHASES> {
    /// Whether the call may be made in the phase.
    pub fn verdict(&self, call: usize, phase: usize) -> bool
        requires call { call < CALLS }
        requires phase { phase < PHASES }
        ensures answer { answer_at self.now call phase ≡ Some result }
        ensures table { IsTable CALLS PHASES self.now }
    {
        self.rows[call][phase]
    }
}

/// Rows of a table: after a call's name the phases stand in order, `x` where the call may be made.
macro_rules! rows_of {
    (@answer x) => { true };
    (@answer -) => { false };
    ($($call:ident [$($mark:tt)+])+) => {
        [$([$(rows_of!(@answer $mark)),+]),+]
    };
}

/// The calls of a participant, by their numbers, against the phases that it goes through: 0 fresh,
/// 1 joining, 2 running, 3 pending, 4 done, 5 final, 6 stopped.
///
/// `initialize`, `advance` and `finalize` have the rows of `begin_initialize`, `begin_advance` and
/// `begin_finalize`. To leave is allowed always, and has no row.
pub fn api_table() -> CallTable<18, 7>
    ensures matrix { result ≡ matrix }
    ensures calls { (call phase : ℕ) → call < 18 → phase < 7
        → answer_at result call phase ≡ Some (may_call call phase) }
{
    CallTable {
        rows: rows_of! {
            set_vertex                  [x - - - - - -]
            set_vertices                [x - - - - - -]
            vertex_count                [x x x x x x x]
            mesh_dimensions             [x x x x x x x]
            data_dimensions             [x x x x x x x]
            requires_initial_data       [x - - - - - -]
            requires_writing_checkpoint [- - x - x - -]
            requires_reading_checkpoint [- - x - x - -]
            is_ongoing                  [- - x - x - -]
            is_window_complete          [- - x - x - -]
            max_step                    [- - x - x - -]
            read_data                   [- - x - - - -]
            write_data                  [x - x - - - -]
            begin_initialize            [x - - - - - -]
            begin_advance               [- - x - - - -]
            begin_finalize              [x - x - x - x]
            stop                        [x x x x - - -]
            try_poll                    [- x - x - - -]
        },
    }
}
