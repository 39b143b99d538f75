//! What an implicit scheme of a coupling makes of three iterations, by what its second participant
//! posts: verdicts with their lines, what the first reads next, and faults that end both.

use crate::answer::Answer;
use crate::plans::{accelerated_trio, plain_trio, strict_trio};
use crate::play::Play;
use core_sides::Ending;
use cpl_plan::{Fault, PartId, Plan, Verdict};
use fixed_num::Memory;
use std::alloc::Global;
use std::test::Fail;

/// What a coupling of which nobody waits any more has come to: what the first read at (1, 2) and at
/// (1, 3), the verdicts and norms of the first three lines, and the endings.
#[derive(Drop)]
struct Course {
    reads: [Option<i64>; 2],
    lines: [Option<(u32, Verdict, u64)>; 3],
    endings: [Option<Ending>; 3],
}

/// Plays a coupling to its end.
fn played(alloc: Global, plan: &Plan, second: [i128; 3]) -> Result<Course, Memory> {
    let mut play = Play::new(alloc, plan, second)?;
    let reads = reads_of(alloc, &mut play)?;
    Ok(course_of(&play, reads))
}

/// Goes on until nobody waits any more. Gives what the first participant reads.
fn reads_of(alloc: Global, play: &mut Play) -> Result<[Option<i64>; 2], Memory> {
    let mut reads = [None; 2];
    for _round in 0..200 {
        let turn = play.position(0);
        let answer = play.tries(alloc, 0)?;
        read_at(&mut reads, turn, answer);
        play.tries(alloc, 1)?;
        play.tries(alloc, 2)?;
    }
    Ok(reads)
}

fn course_of(play: &Play, reads: [Option<i64>; 2]) -> Course {
    Course {
        reads,
        lines: [line(play, 0), line(play, 1), line(play, 2)],
        endings: [play.ending(0), play.ending(1), play.ending(2)],
    }
}

/// Notes what the first participant reads in the second and the third iteration of window 1.
fn read_at(reads: &mut [Option<i64>; 2], turn: (u32, u32), answer: Answer) {
    if let Answer::Input(_, _, _, newest) = answer {
        match turn {
            (1, 2) => reads[0] = Some(newest),
            (1, 3) => reads[1] = Some(newest),
            _ => {}
        }
    }
}

/// The iteration, the verdict and the norm of a line of window 1.
fn line(play: &Play, i: usize) -> Option<(u32, Verdict, u64)> {
    let line = play.core().lines().get(i)?;
    if line.window != 1 {
        return None;
    }
    let norm = line.norms.as_slice().first()?;
    Some((line.iteration, line.verdict, *norm))
}

const RELAXED_TOO_FAR: Fault = Fault::Relax {
    scheme: 0,
    window: 1,
    iteration: 2,
    exchange: 1,
    time: 10,
    component: 0,
};

const NOT_CONVERGED: Fault = Fault::NotConverged {
    scheme: 0,
    window: 1,
    iteration: 3,
    measure: 0,
};

/// One step in each iteration, so that nothing settles.
const RISING: [i128; 3] = [1_000_000, 2_000_000, 3_000_000];

/// At the last iteration that is allowed the window ends anyway.
#[test]
fn at_its_limit_a_window_ends(rt: HostRuntime) -> Result<(), Fail> {
    let come = played(rt.alloc(), &plain_trio(rt.alloc())?, RISING)?;
    assert!(rt; come.reads == [Some(1_000_000), Some(2_000_000)]);
    assert!(rt;
        come.lines
            == [
                Some((1, Verdict::Again, 1_000_000)),
                Some((2, Verdict::Again, 1_000_000)),
                Some((3, Verdict::AtLimit, 1_000_000)),
            ]
    );
    assert!(rt; come.endings == [Some(Ending::Done); 3]);
    Ok(())
}

/// But not where the measure is strict: both members fault, and the third is cut by the first.
#[test]
fn a_strict_measure_faults(rt: HostRuntime) -> Result<(), Fail> {
    let come = played(rt.alloc(), &strict_trio(rt.alloc())?, RISING)?;
    let faulted = Some(Ending::Faulted(NOT_CONVERGED));
    assert!(rt; come.lines[2] == Some((3, Verdict::NotConverged { measure: 0 }, 1_000_000)));
    assert!(rt; come.endings == [faulted, faulted, Some(Ending::Cut)]);
    Ok(())
}

/// Aitken's second iterate by hand: the residuals are 0.5 and 0.375, so g is 0.125 and the factor
/// 0.5 · 0.5 / 0.125 = 2; the iterates are 0.25 and 0.25 + 2 · 0.375 = 1.
#[test]
fn aitken_jumps_to_the_answer(rt: HostRuntime) -> Result<(), Fail> {
    let posts = [500_000, 625_000, 1_000_000];
    let come = played(rt.alloc(), &accelerated_trio(rt.alloc())?, posts)?;
    assert!(rt; come.reads == [Some(250_000), Some(1_000_000)]);
    assert!(rt;
        come.lines
            == [
                Some((1, Verdict::Again, 500_000)),
                Some((2, Verdict::Again, 375_000)),
                Some((3, Verdict::Converged, 0)),
            ]
    );
    assert!(rt; come.endings == [Some(Ending::Done); 3]);
    Ok(())
}

/// The residuals are 20000 and 19990, so the factor is 0.5 · 20000 / 10 = 1000, and the iterate would
/// be 10000 + 1000 · 19990, which is out of range. The line says Again.
#[test]
fn a_relaxation_out_of_range_faults(rt: HostRuntime) -> Result<(), Fail> {
    let posts = [20_000_000_000, 29_990_000_000, 0];
    let come = played(rt.alloc(), &accelerated_trio(rt.alloc())?, posts)?;
    let faulted = Some(Ending::Faulted(RELAXED_TOO_FAR));
    assert!(rt; come.reads == [Some(10_000_000_000), None]);
    assert!(rt;
        come.lines
            == [
                Some((1, Verdict::Again, 20_000_000_000)),
                Some((2, Verdict::Again, 19_990_000_000)),
                None,
            ]
    );
    assert!(rt; come.endings == [faulted, faulted, Some(Ending::Cut)]);
    Ok(())
}
