ghost use Rattle.std.specs.Prelude.{◌≡◌, length, All, IfOk};
ghost use Rattle.fixed_num.specs.Numbers.{IsValue};

use fixed_num::Memory;
use std::alloc::Global;
use std::marker::Model;

/// Room for the state of a [`LineSolver`](crate::LineSolver), which contracts see as the list of
/// its components.
#[derive(Debug, Drop)]
pub struct LineCheckpoint {
    components: Vec<i64>,
}

impl Model for LineCheckpoint {
    ghost use Rattle.std.specs.Prelude.{List, ℤ, All};
    ghost use Rattle.fixed_num.specs.Numbers.{IsValue};

    ghost Value = { List ℤ };

    ghost view = { λ c. c.components.items };

    ghost invariant = { λ c. All IsValue c.components.items };
}

impl LineCheckpoint {
    /// A checkpoint that holds these components.
    pub(crate) fn of(alloc: Global, components: &[i64]) -> Result<LineCheckpoint, Memory>
        requires { All IsValue components.now }
        ensures { IfOk result (λ made. made ≡ components.now) }
    {
        Ok(LineCheckpoint {
            components: Vec::from_slice(alloc, components)?,
        })
    }

    /// Holds these components in place of its own.
    pub(crate) fn set(&mut self, components: &[i64])
        requires same_len { length components.now ≡ length self.old }
        requires values { All IsValue components.now }
        ensures { self.new ≡ components.now }
    {
        self.components.copy_from_slice(components);
    }

    pub(crate) fn components(&self) -> &[i64]
        ensures held { result.now ≡ self.now }
        ensures values { All IsValue self.now }
    {
        self.components.as_slice()
    }
}
