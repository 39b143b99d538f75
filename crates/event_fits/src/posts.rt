//! Posts: one wave for each exchange that a participant sends, in order. Times are in ticks.

ghost use Rattle.std.specs.Prelude.{◌≡◌, ◌<◌, ◌≤◌, ◌^◌, List, [], true, false, All, IfSome, IsTrue, length, slice_get, Some};
ghost use Rattle.std.specs.Option.{option_copied, option_map_or};
ghost use Rattle.cpl_plan.specs.PlanWords.{components_of, components_on};
ghost use Rattle.cpl_plan.specs.Windows.{latest_end, window_end};
ghost use Rattle.coupled_loop.specs.PlanFrames.{window_maker};
ghost use Rattle.mesh_data.specs.AnyMeshes.{vertices_of};
ghost use Rattle.waveform.specs.IsWave.{last_time};
ghost use Rattle.waveform.specs.declared.sample.Sample.{Sample};
ghost use Rattle.wave_coupling.specs.Coupling.{makes_windows};
ghost use Rattle.wave_coupling.specs.Posts.{newest_time};
ghost use Rattle.core_sides.specs.CoreWords.{WaveState};
ghost use Rattle.core_sides.specs.FittingPosts.{AreWaves, IsInitialPost, IsWindowPost};
ghost use Rattle.core_sides.specs.PostedMeshes.{values_in};
ghost use Rattle.core_sides.specs.SidesStand.{AreStanding};
ghost use Rattle.event_fits.specs.Spans.{EndsBy, FitsAs, IsSpanOf};

use crate::meshes::posted_mesh;
use crate::waves::{Lengths, is_of_lengths, last_time, stands_after, stands_at_0};
use core_sides::Sides;
use core_sides::windows::{end_of, start_of};
use cpl_plan::{DataId, Exchange, MeshId, PartId, Plan, WindowMethod};
use mesh_data::AnyMesh;
use waveform::{MOST_SAMPLES, Wave};

/// From when to when the data of a window stand, and whether the participant's step ends it.
#[derive(Clone, Copy)]
pub(crate) struct Span {
    pub start: u64,
    pub latest: u64,
    pub makes: bool,
}

/// Whether these are what a participant may post as its initial data.
pub(crate) fn is_initial_post(plan: &Plan, sides: &Sides, p: PartId, waves: &[Wave]) -> bool
    ensures { IsTrue result → (state : WaveState) → AreStanding plan.now sides.now state
        → IsInitialPost plan.now state p waves.now }
{
    are_waves(plan, sides, p, waves, None)
}

/// Whether these are what a participant may post in window w.
pub(crate) fn is_window_post(plan: &Plan, sides: &Sides, p: PartId, w: u32, waves: &[Wave]) -> bool
    ensures { IsTrue result → (state : WaveState) → AreStanding plan.now sides.now state
        → IsWindowPost plan.now state p w waves.now }
{
    let Some(span) = span_of(plan, sides, p, w) else {
        return false;
    };
    if !end_together(waves) {
        return false;
    }
    are_waves(plan, sides, p, waves, Some(span))
}

/// Whether all waves of a post end at one time.
fn end_together(waves: &[Wave]) -> bool
    ensures { IsTrue result → All (λ wave. last_time wave ≡ newest_time waves.now) waves.now }
{
    let newest = newest_time(waves);
    for i in 0..waves.len() {
        if last_time(&waves[i]) != newest {
            return false;
        }
    }
    true
}

/// The newest time of a post: the last one of its first wave.
fn newest_time(waves: &[Wave]) -> u64
    ensures { result ≡ newest_time waves.now }
{
    match waves.first() {
        Some(wave) => last_time(wave),
        None => 0,
    }
}

/// The span of window w for a participant; None where there is no such window, or it is not told.
fn span_of(plan: &Plan, sides: &Sides, p: PartId, w: u32) -> Option<Span>
    ensures { IfSome result (λ span. (state : WaveState) → AreStanding plan.now sides.now state
        → IsSpanOf plan.now state p w span) }
{
    if w == 0 || w > plan.window_count() {
        return None;
    }
    let ends = sides.ends.as_slice();
    let start = start_of(plan, ends, w)?;
    if makes_windows(plan, p) {
        made_span(plan, start)
    } else {
        told_span(plan, ends, w, start)
    }
}

/// The span of a window that a step makes which starts then.
fn made_span(plan: &Plan, start: u64) -> Option<Span>
    ensures start { IfSome result (λ span. span.start ≡ start) }
    ensures latest { IfSome result (λ span. span.latest ≡ latest_end plan.now start) }
    ensures makes { IfSome result (λ span. span.makes ≡ true) }
{
    let reach = start.checked_add(plan.window_most())?;
    Some(Span {
        start,
        latest: reach.min(plan.end_time()),
        makes: true,
    })
}

/// The span of a window that starts then, and whose end is told.
fn told_span(plan: &Plan, ends: &[u64], w: u32, start: u64) -> Option<Span>
    requires { 1 ≤ w }
    ensures start { IfSome result (λ span. span.start ≡ start) }
    ensures latest { IfSome result (λ span. window_end plan.now ends.now w ≡ Some span.latest) }
    ensures makes { IfSome result (λ span. span.makes ≡ false) }
{
    let latest = end_of(plan, ends, w)?;
    Some(Span {
        start,
        latest,
        makes: false,
    })
}

/// Whether the participant makes the windows by its steps.
fn makes_windows(plan: &Plan, p: PartId) -> bool
    ensures { result ≡ makes_windows plan.now p }
{
    match plan.window_method() {
        WindowMethod::Fixed => false,
        WindowMethod::FirstParticipant => p == window_maker(plan),
    }
}

/// Whose steps make the windows, where they are made by steps.
fn window_maker(plan: &Plan) -> PartId
    ensures { result ≡ window_maker plan.now }
{
    let _valid = plan.parts();
    let members = plan.scheme(0).members.as_slice();
    if members.is_empty() { 0 } else { members[0] }
}

/// Whether there is a wave for each exchange that a participant sends, each of which fits: as initial
/// data, or in a span.
fn are_waves(plan: &Plan, sides: &Sides, p: PartId, waves: &[Wave], span: Option<Span>) -> bool
    ensures { IsTrue result → (state : WaveState) → AreStanding plan.now sides.now state
        → AreWaves plan.now p (FitsAs plan.now state span) waves.now }
{
    let mut place = 0;
    for x in 0..plan.exchange_count() {
        let exchange = plan.exchange(x);
        if exchange.from != p {
            continue;
        }
        if !fits_next(plan, sides, exchange, waves, place, span) {
            return false;
        }
        place += 1;
    }
    place == waves.len()
}

/// Whether there is a wave at a place, and fits an exchange.
fn fits_next(
    plan: &Plan,
    sides: &Sides,
    exchange: &Exchange,
    waves: &[Wave],
    place: usize,
    span: Option<Span>,
) -> bool
    ensures there { IsTrue result → place < length waves.now }
    ensures fits { IsTrue result → (wave : List Sample) → slice_get waves.now place ≡ Some wave
        → (state : WaveState) → AreStanding plan.now sides.now state
        → FitsAs plan.now state span exchange.now wave }
{
    if place >= waves.len() {
        return false;
    }
    fits_wave(plan, sides, exchange, &waves[place], span)
}

/// Whether a wave fits an exchange.
fn fits_wave(
    plan: &Plan,
    sides: &Sides,
    exchange: &Exchange,
    wave: &Wave,
    span: Option<Span>,
) -> bool
    ensures { IsTrue result → (state : WaveState) → AreStanding plan.now sides.now state
        → FitsAs plan.now state span exchange.now wave.now }
{
    let lengths = lengths_of(plan, sides, exchange);
    if !is_of_lengths(wave, lengths) {
        return false;
    }
    match span {
        None => stands_at_0(wave),
        Some(span) => stands_in(wave, exchange.substeps, span),
    }
}

/// Whether a wave stands in a span: after its start, the last sample at its end, and that one alone
/// where there are no substeps.
fn stands_in(wave: &Wave, substeps: bool, span: Span) -> bool
    ensures later { IsTrue result → All (λ s. span.start < s.time) wave.now }
    ensures end { IsTrue result → EndsBy span.makes (last_time wave.now) span.latest }
    ensures few { IsTrue result → length wave.now ≤ 1024 }
    ensures without_substeps { IsTrue result → substeps ≡ false → length wave.now ≡ 1 }
    ensures of_one_step { IsTrue result → span.makes ≡ true → length wave.now ≡ 1 }
{
    ends_at(last_time(wave), span)
        && stands_after(wave, span.start)
        && has_fitting_length(wave.len(), substeps && !span.makes)
}

/// Whether so many samples may stand in a window: one, or some steps' where that may have several.
fn has_fitting_length(count: usize, several: bool) -> bool
    ensures few { IsTrue result → count ≤ 1024 }
    ensures one { IsTrue result → several ≡ false → count ≡ 1 }
{
    count == 1 || (several && count < MOST_SAMPLES)
}

/// Whether a span may end then.
fn ends_at(time: u64, span: Span) -> bool
    ensures { IsTrue result → EndsBy span.makes time span.latest }
{
    if span.makes {
        time <= span.latest
    } else {
        time == span.latest
    }
}

/// How long the samples of an exchange are.
fn lengths_of(plan: &Plan, sides: &Sides, exchange: &Exchange) -> Lengths
    ensures components { result.components ≡ components_of plan.now exchange.now }
    ensures values { (state : WaveState) → AreStanding plan.now sides.now state
        → result.values ≡ values_in plan.now state exchange.now }
{
    let components = components_on(plan, exchange.data_id, exchange.mesh);
    let vertices = vertex_count(posted_mesh(plan, sides, exchange.mesh));
    Lengths {
        components,
        values: u64::from(components) * vertices,
    }
}

/// How many components data have on a mesh; 0 where there are no such data or no such mesh.
fn components_on(plan: &Plan, data_id: DataId, mesh: MeshId) -> u32
    ensures { result ≡ option_map_or (λ n. n) (components_on plan.now data_id mesh) 0 }
{
    let parts = plan.parts();
    let data_item = parts.data_list.as_slice().get(data_id as usize);
    let mesh = parts.meshes.as_slice().get(mesh as usize);
    match (data_item, mesh) {
        (Some(data_item), Some(mesh)) => { if data_item.vector { mesh.dimensions } else { 1 } }
        _ => 0,
    }
}

/// How many vertices a mesh has, if there is one.
fn vertex_count(mesh: Option<&AnyMesh>) -> u64
    ensures count { result ≡ length (option_map_or vertices_of (option_copied mesh.entry) []) }
    ensures few { result ≤ 10 ^ 4 }
{
    match mesh {
        Some(mesh) => mesh.len() as u64,
        None => 0,
    }
}
