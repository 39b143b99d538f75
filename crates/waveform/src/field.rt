ghost use Rattle.std.specs.Prelude.{◌≡◌, ◌*◌, ◌↔◌, pos, replicate, IfOk, IsTrue};
ghost use Rattle.waveform.specs.Shape.{IsLike};

use fixed_num::{Items, Memory, Value};
use std::alloc::Global;

/// A value for each component at each vertex of a mesh: those of the first vertex come first.
#[derive(Debug, Drop)]
pub struct Field {
    /// How many components each vertex has.
    pub components: u32,
    /// The components of all vertices.
    pub values: Items<Value>,
}

impl Field {
    /// The field of zeros on so many vertices. More values than a `usize` counts are told as
    /// `Memory`.
    pub fn zeros(alloc: Global, vertices: usize, components: u32) -> Result<Field, Memory>
        ensures components { IfOk result (λ field. field.components ≡ components) }
        ensures zeros { IfOk result (λ field. field.values ≡ replicate (vertices * components) (pos 0)) }
    {
        let count = vertices.checked_mul(components as usize).ok_or(Memory)?;
        let mut values = Vec::with_capacity(alloc, count)?;
        for _ in 0..count {
            values.push(Value::default())?;
        }
        Ok(Field {
            components,
            values: Items::from_vec(values),
        })
    }

    /// An equal field in memory of its own.
    pub fn copy(&self, alloc: Global) -> Result<Field, Memory>
        ensures { IfOk result (λ copy. copy ≡ self.now) }
    {
        Ok(Field {
            components: self.components,
            values: self.values.copy(alloc)?,
        })
    }

    /// Whether both have as many components each vertex and as many values.
    pub fn is_like(&self, other: &Field) -> bool
        ensures { IsTrue result ↔ IsLike self.now other.now }
    {
        self.components == other.components && self.values.len() == other.values.len()
    }
}
