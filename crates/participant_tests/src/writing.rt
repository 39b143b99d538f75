ghost use Rattle.std.specs.Prelude.{◌≡◌, ◌<◌, ℕ, IfOk};
ghost use Rattle.field_buffers.specs.Rows.{HasRow};

use crate::samples::has;
use field_buffers::{WriteBuffer, first_bad_value, first_bad_vertex};
use fixed_num::Memory;
use std::alloc::Global;
use std::test::Fail;

/// How many vertices a buffer of vectors of two components has, as its field shows.
fn size(alloc: Global, buffer: &WriteBuffer) -> Result<usize, Memory>
    ensures two { IfOk result (λ _size. buffer.now.components ≡ 2) }
    ensures rows { IfOk result (λ size. (v : ℕ) → v < size
        → HasRow buffer.now.components buffer.now.values v) }
{
    let field = buffer.field(alloc)?;
    if field.components != 2 {
        return Err(Memory);
    }
    Ok(field.values.len() / 2)
}

/// Writes rows of two components. No test names a vertex or a value that is refused.
fn write(
    alloc: Global,
    buffer: &mut WriteBuffer,
    vertices: &[u32],
    rows: &[i64],
) -> Result<(), Memory> {
    let size = size(alloc, buffer)?;
    if rows.len() != vertices.len() * 2 {
        return Err(Memory);
    }
    if first_bad_vertex(vertices, size).is_some() || first_bad_value(rows).is_some() {
        return Err(Memory);
    }
    buffer.write(vertices, rows);
    Ok(())
}

/// Keeps the rows of the first vertices, fewer than there are.
fn cut(alloc: Global, buffer: &mut WriteBuffer, vertices: usize) -> Result<(), Memory> {
    if size(alloc, buffer)? <= vertices {
        return Err(Memory);
    }
    buffer.cut(vertices);
    Ok(())
}

/// The first component of a vertex.
fn first_of(alloc: Global, buffer: &WriteBuffer, vertex: u32) -> Result<i64, Memory> {
    if size(alloc, buffer)? <= vertex as usize {
        return Err(Memory);
    }
    Ok(buffer.row(vertex)[0].get())
}

#[test]
fn the_last_row_of_a_vertex_stands(rt: HostRuntime) -> Result<(), Fail> {
    let alloc = rt.alloc();
    let mut buffer = WriteBuffer::new(alloc, 2);
    assert!(rt; has(&buffer.field(alloc)?, &[]));
    buffer.grow(3)?;
    assert!(rt; has(&buffer.field(alloc)?, &[0; 6]));
    write(alloc, &mut buffer, &[2, 0, 2], &[1, 2, 3, 4, 5, 6])?;
    assert!(rt; has(&buffer.field(alloc)?, &[3, 4, 0, 0, 5, 6]));
    assert!(rt; first_of(alloc, &buffer, 0)? == 3 && first_of(alloc, &buffer, 1)? == 0);
    assert!(rt; first_of(alloc, &buffer, 2)? == 5);
    write(alloc, &mut buffer, &[1], &[-7, 10_000_000_000_000])?;
    assert!(rt; has(&buffer.field(alloc)?, &[3, 4, -7, 10_000_000_000_000, 5, 6]));
    Ok(())
}

#[test]
fn rows_are_added_cut_and_cleared(rt: HostRuntime) -> Result<(), Fail> {
    let alloc = rt.alloc();
    let mut buffer = WriteBuffer::new(alloc, 2);
    buffer.grow(2)?;
    write(alloc, &mut buffer, &[0, 1], &[1, 2, 3, 4])?;
    buffer.grow(1)?;
    assert!(rt; has(&buffer.field(alloc)?, &[1, 2, 3, 4, 0, 0]));
    assert!(rt; buffer.grow(usize::MAX).is_err());
    assert!(rt; has(&buffer.field(alloc)?, &[1, 2, 3, 4, 0, 0]));
    cut(alloc, &mut buffer, 1)?;
    assert!(rt; has(&buffer.field(alloc)?, &[1, 2]));
    buffer.clear();
    assert!(rt; has(&buffer.field(alloc)?, &[0, 0]));
    Ok(())
}

#[test]
fn the_first_that_is_refused_is_told(rt: HostRuntime) {
    let most = 10_000_000_000_000;
    assert!(rt; first_bad_vertex(&[0, 2, 3, 1, 4], 3) == Some(3));
    assert!(rt; first_bad_vertex(&[0, 2, 1], 3).is_none());
    assert!(rt; first_bad_vertex(&[0], 0) == Some(0) && first_bad_vertex(&[], 0).is_none());
    assert!(rt; first_bad_value(&[0, most, -most]).is_none());
    assert!(rt; first_bad_value(&[most, -most - 1, most + 1]) == Some(1));
    assert!(rt; first_bad_value(&[0, 0, i64::MIN]) == Some(2));
}
