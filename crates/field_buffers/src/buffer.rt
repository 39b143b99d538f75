ghost use Rattle.std.specs.Prelude.{◌≡◌, ◌*◌, [], ◌++◌, pos, replicate, length, take, All, IfOk, OnOk, OnErr};
ghost use Rattle.fixed_num.specs.Numbers.{IsValue};
ghost use Rattle.field_buffers.specs.Rows.{HasRow, row_of, with_rows};

use crate::rows::{push_zeros, set_zeros, write_rows};
use fixed_num::{Items, Memory, Value};
use std::alloc::Global;
use std::marker::Model;
use waveform::Field;

/// The values that a participant writes of one of its data on one of its meshes: a row of components
/// for each vertex. Contracts see it as a `Field`.
#[derive(Drop)]
pub struct WriteBuffer {
    components: u32,
    values: Vec<Value>,
}

impl Model for WriteBuffer {
    ghost use Rattle.waveform.specs.declared.field.Field.{Field};

    ghost Value = { Field };

    ghost view = { λ b. record { components = b.components; values = b.values.items } };
}

impl WriteBuffer {
    /// A buffer for no vertex yet, with so many components for each.
    pub fn new(alloc: Global, components: u32) -> WriteBuffer
        ensures { result ≡ record { components = components; values = [] } }
    {
        WriteBuffer {
            components,
            values: Vec::new(alloc),
        }
    }

    /// How many components each vertex has.
    pub fn components(&self) -> u32
        ensures { result ≡ self.now.components }
    {
        self.components
    }

    /// Adds rows of zeros for so many vertices. More values than a `usize` counts are told as `Memory`.
    pub fn grow(&mut self, vertices: usize) -> Result<(), Memory>
        ensures grown { OnOk result (self.new ≡ record self.old {
          values = self.old.values ++ replicate (vertices * self.old.components) (pos 0);
        }) }
        ensures unchanged { OnErr result (self.new ≡ self.old) }
    {
        let count = vertices
            .checked_mul(self.components as usize)
            .ok_or(Memory)?;
        push_zeros(&mut self.values, count)
    }

    /// Keeps the rows of the first vertices alone. It takes no memory.
    pub fn cut(&mut self, vertices: usize)
        requires { HasRow self.old.components self.old.values vertices }
        ensures { self.new ≡ record self.old { values = take (vertices * self.old.components) self.old.values } }
    {
        self.values.truncate(vertices * self.components as usize);
    }

    /// Writes a row at each vertex in turn, so that the last row of a vertex that is named twice stands.
    /// It takes no memory.
    pub fn write(&mut self, vertices: &[u32], rows: &[i64])
        requires vertices { All (HasRow self.old.components self.old.values) vertices.now }
        requires len { length rows.now ≡ length vertices.now * self.old.components }
        requires in_range { All IsValue rows.now }
        ensures { self.new ≡ record self.old {
          values = with_rows self.old.components vertices.now rows.now self.old.values;
        } }
    {
        write_rows(self.components as usize, vertices, rows, &mut self.values);
    }

    /// Sets all values to zero. It takes no memory.
    pub fn clear(&mut self)
        ensures { self.new ≡ record self.old { values = replicate (length self.old.values) (pos 0) } }
    {
        set_zeros(&mut self.values);
    }

    /// The values as they stand, in memory of their own.
    pub fn field(&self, alloc: Global) -> Result<Field, Memory>
        ensures { IfOk result (λ field. field ≡ self.now) }
    {
        Ok(Field {
            components: self.components,
            values: Items::from_vec(Vec::from_slice(alloc, self.values.as_slice())?),
        })
    }

    /// The row of a vertex.
    pub fn row(&self, vertex: u32) -> &[Value]
        requires { HasRow self.now.components self.now.values vertex }
        ensures { result.now ≡ row_of self.now.components vertex self.now.values }
    {
        let at = vertex as usize * self.components as usize;
        &self.values[at..at + self.components as usize]
    }
}
