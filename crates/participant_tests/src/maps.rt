ghost use Rattle.std.specs.Prelude.{◌≡◌, All};
ghost use Rattle.nn_mapping.specs.MappedField.{IsFieldOn};
ghost use Rattle.wave_maps.specs.MappedThrough.{sources_of, targets_of};

use crate::samples::{field_on, has, wave_on};
use cpl_plan::MapPlan;
use mesh_data::{AnyMesh, Mesh, MeshErr};
use std::alloc::Global;
use std::test::Fail;
use wave_maps::{FieldRefusal, WaveMap, WaveRefusal};
use waveform::{Field, Wave};

/// The greatest Value, in units.
const MOST: i128 = 10_000_000_000_000;

const CORNER: [[i64; 2]; 3] = [[0, 0], [2_000_000, 0], [2_000_000, 2_000_000]];

fn mesh_of(alloc: Global, points: &[[i64; 2]]) -> Result<AnyMesh, MeshErr> {
    let mut mesh = Mesh::new(alloc);
    for at in points {
        mesh.push_vertex(*at)?;
    }
    Ok(AnyMesh::Two(mesh))
}

/// A mapping of a plan, onto edges or onto vertices, which keeps sums or values.
fn map_plan(projection: bool, conservative: bool) -> MapPlan {
    MapPlan {
        reading: true,
        from: 0,
        to: 1,
        conservative,
        projection,
    }
}

/// A field of one component, mapped. The sizes are the right ones in each
/// test, as are the dimensions, and no mesh is empty.
fn mapped(
    alloc: Global,
    plan: &MapPlan,
    from: &AnyMesh,
    to: &AnyMesh,
    units: &[i128],
) -> Result<Field, FieldRefusal> {
    if from.dimensions() != to.dimensions() {
        return Err(FieldRefusal::Memory);
    }
    if from.len() == 0 {
        return Err(FieldRefusal::Memory);
    }
    if to.len() == 0 {
        return Err(FieldRefusal::Memory);
    }
    let map = WaveMap::build(alloc, plan, from, to)?;
    let field = field_on(alloc, 1, from.len(), units)?;
    map.map_field(alloc, &field, to.len())
}

#[test]
fn fields_by_nearest_vertices(rt: HostRuntime) -> Result<(), Fail> {
    let alloc = rt.alloc();
    let two = mesh_of(alloc, &[[0, 0], [2_000_000, 0]])?;
    let three = mesh_of(alloc, &[[0, 0], [900_000, 0], [2_000_000, 0]])?;
    let queries = mesh_of(alloc, &[[1_500_000, 0], [1_000_000, 0]])?;
    // Of two vertices that are as near the first is taken.
    let read = mapped(alloc, &map_plan(false, false), &two, &queries, &[1, 3])?;
    assert!(rt; has(&read, &[3, 1]));
    let sums = mapped(alloc, &map_plan(false, true), &three, &two, &[1, 2, 4])?;
    assert!(rt; has(&sums, &[3, 4]));
    let over = mapped(alloc, &map_plan(false, true), &three, &two, &[0, MOST, 1])?;
    assert!(rt; has(&over, &[10_000_000_000_000, 1]));
    Ok(())
}

#[test]
fn fields_by_edges(rt: HostRuntime) -> Result<(), Fail> {
    let alloc = rt.alloc();
    let two = mesh_of(alloc, &[[0, 0], [2_000_000, 0]])?;
    let one = mesh_of(alloc, &[[500_000, 0]])?;
    let corner = mesh_of(alloc, &CORNER)?;
    let queries = mesh_of(
        alloc,
        &[
            [1_000_000, 1_000_000],
            [500_000, 0],
            [3_000_000, 3_000_000],
            [1, 0],
        ],
    )?;
    let middle = mesh_of(alloc, &[[1_000_000, 0]])?;
    let read = mapped(
        alloc,
        &map_plan(true, false),
        &two,
        &one,
        &[1_000_000, 3_000_000],
    )?;
    assert!(rt; has(&read, &[1_500_000]));
    let units = [0, 2_000_000, 4_000_000];
    let bent = mapped(alloc, &map_plan(true, false), &corner, &queries, &units)?;
    assert!(rt; has(&bent, &[1_000_000, 500_000, 4_000_000, 0]));
    let split = mapped(alloc, &map_plan(true, true), &middle, &corner, &[3])?;
    assert!(rt; has(&split, &[1, 2, 0]));
    Ok(())
}

/// A wave of a sample at time 0 and one at time 10, mapped: whole, or in two parts. The sizes are the
/// right ones in each test, as are the dimensions.
fn mapped_wave(
    alloc: Global,
    plan: &MapPlan,
    (from, to): (&AnyMesh, &AnyMesh),
    components: u32,
    (first, last): (&[i128], &[i128]),
    whole: bool,
) -> Result<Wave, WaveRefusal> {
    if from.dimensions() != to.dimensions() {
        return Err(WaveRefusal::Memory);
    }
    if from.len() == 0 {
        return Err(WaveRefusal::Memory);
    }
    if to.len() == 0 {
        return Err(WaveRefusal::Memory);
    }
    let map = WaveMap::build(alloc, plan, from, to)?;
    let wave = wave_on(alloc, components, from.len(), first, 10, last)?;
    if whole {
        return map.map_wave(alloc, &wave, to.len());
    }
    mapped_in_parts(alloc, &map, &wave, to.len())
}

/// The mapped wave by its first sample, which no test has refused, and then the rest.
fn mapped_in_parts(
    alloc: Global,
    map: &WaveMap,
    wave: &Wave,
    vertices: usize,
) -> Result<Wave, WaveRefusal>
    requires fields { All (λ s. IsFieldOn s.field (sources_of map.now)) wave.now }
    requires vertices { vertices ≡ targets_of map.now }
{
    // Its length tells that a wave has a first sample.
    let _samples = wave.len();
    match map.map_field(alloc, wave.field(0), vertices) {
        Ok(first) => map.map_rest(alloc, first, wave, vertices),
        Err(_) => Err(WaveRefusal::Memory),
    }
}

/// Whether a wave has a sample of these units at time 0 and one at time 10, and no more.
fn is_wave(wave: &Wave, first: &[i64], last: &[i64]) -> bool {
    wave.len() == 2
        && wave.time(0) == 0
        && wave.time(1) == 10
        && has(wave.field(0), first)
        && has(wave.field(1), last)
}

#[test]
fn waves_sample_by_sample(rt: HostRuntime) -> Result<(), Fail> {
    let alloc = rt.alloc();
    let two = mesh_of(alloc, &[[0, 0], [2_000_000, 0]])?;
    let one = mesh_of(alloc, &[[500_000, 0]])?;
    let samples = (&[1_000_000, 3_000_000][..], &[5_000_000, -3_000_000][..]);
    for whole in [true, false] {
        let read = mapped_wave(
            alloc,
            &map_plan(true, false),
            (&two, &one),
            1,
            samples,
            whole,
        )?;
        assert!(rt; is_wave(&read, &[1_500_000], &[3_000_000]), "at {whole}");
        let near = mapped_wave(
            alloc,
            &map_plan(false, false),
            (&two, &one),
            1,
            samples,
            whole,
        )?;
        assert!(rt; is_wave(&near, &[1_000_000], &[5_000_000]), "at {whole}");
    }
    Ok(())
}

#[test]
fn the_first_sum_out_of_range_is_told(rt: HostRuntime) -> Result<(), Fail> {
    let alloc = rt.alloc();
    let half = MOST / 2;
    let two = mesh_of(alloc, &[[0, 0], [1_000_000, 0]])?;
    let one = mesh_of(alloc, &[[0, 0]])?;
    let over = Some(WaveRefusal::OutOfRange {
        time: 10,
        vertex: 0,
        component: 0,
    });
    let within = (&[0, MOST][..], &[half, half][..]);
    let beyond = (&[half, half][..], &[MOST, MOST][..]);
    for whole in [true, false] {
        for projection in [false, true] {
            let plan = map_plan(projection, true);
            let sums = mapped_wave(alloc, &plan, (&two, &one), 1, within, whole)?;
            assert!(rt; is_wave(&sums, &[10_000_000_000_000], &[10_000_000_000_000]));
            let told = mapped_wave(alloc, &plan, (&two, &one), 1, beyond, whole).err();
            assert!(rt; told == over);
        }
    }
    Ok(())
}

#[test]
fn a_place_out_of_range_is_a_vertex_and_a_component(rt: HostRuntime) -> Result<(), Fail> {
    let alloc = rt.alloc();
    let three = mesh_of(alloc, &[[0, 0], [2_000_000, 0], [2_000_000, 0]])?;
    let two = mesh_of(alloc, &[[0, 0], [2_000_000, 0]])?;
    let over = Some(WaveRefusal::OutOfRange {
        time: 0,
        vertex: 1,
        component: 0,
    });
    let samples = (&[0, 0, MOST, 0, 1, 0][..], &[MOST; 6][..]);
    for projection in [false, true] {
        let plan = map_plan(projection, true);
        let told = mapped_wave(alloc, &plan, (&three, &two), 2, samples, true).err();
        assert!(rt; told == over);
    }
    Ok(())
}
