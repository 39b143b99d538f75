//! A Stop or an End of one participant before each of its events, and how the others then fare.
//!
//! Each fate was worked by hand from whom an event asks: TakeMeshes the owners of received meshes; the
//! Take of (w, k) each partner, for w - 1, and the second of a serial scheme the first, for w or for
//! (w, k); Judge all members.

use crate::answer::Answer;
use crate::plans::{plain_trio, serial_iterated};
use crate::play::Play;
use core_sides::{Ending, Event, StopCause};
use cpl_plan::{Fault, PartId, Plan};
use fixed_num::Memory;
use std::alloc::Global;
use std::test::Fail;

/// How a participant fared: the events that it made, who cut it, and how it ended.
#[derive(Clone, Copy, PartialEq)]
struct Fate {
    made: u32,
    cut_by: Option<PartId>,
    ending: Option<Ending>,
}

const UNBORN: Fate = Fate {
    made: 0,
    cut_by: None,
    ending: None,
};

/// By what a participant ends.
#[derive(Clone, Copy)]
enum Way {
    ByFault,
    ForMemory,
    ByEnd,
}

impl Way {
    fn event(self) -> Event {
        match self {
            Way::ByFault => Event::Stop(StopCause::Fault(OWN_FAULT)),
            Way::ForMemory => Event::Stop(StopCause::NoMemory),
            Way::ByEnd => Event::End,
        }
    }

    /// How it then has ended, before its last window is through or after that.
    fn ending(self, through: bool) -> Ending {
        match self {
            Way::ByFault => Ending::Faulted(OWN_FAULT),
            Way::ForMemory => Ending::NoMemory,
            Way::ByEnd if through => Ending::Done,
            Way::ByEnd => Ending::Early,
        }
    }
}

const OWN_FAULT: Fault = Fault::Steps {
    part: 0,
    window: 1,
    iteration: 1,
};

/// Who ends before its event of which number, and how.
#[derive(Clone, Copy)]
struct End {
    who: PartId,
    at: u32,
    way: Way,
}

/// A coupling of which one participant ends.
#[derive(Drop)]
struct Ended {
    play: Play,
    fates: [Fate; 3],
    end: End,
}

impl Ended {
    fn new(alloc: Global, plan: &Plan, end: End) -> Result<Ended, Memory> {
        Ok(Ended {
            play: Play::new(alloc, plan, [7_000_000; 3])?,
            fates: [UNBORN; 3],
            end,
        })
    }

    /// Tries an event of `p`. Says whether something happened.
    fn tries(&mut self, alloc: Global, p: PartId) -> Result<bool, Memory> {
        let Some(fate) = self.fates.get(p as usize).copied() else {
            return Ok(false);
        };
        let after = if p == self.end.who && fate.made == self.end.at && fate.ending.is_none() {
            self.play.asks(p, self.end.way.event())?;
            Some(fate)
        } else {
            after(fate, self.play.tries(alloc, p)?)
        };
        let Some(mut fate) = after else {
            return Ok(false);
        };
        fate.ending = self.play.ending(p);
        if let Some(place) = self.fates.get_mut(p as usize) {
            *place = fate;
        }
        Ok(true)
    }

    /// Each participant tries an event. Says whether something happened.
    fn round(&mut self, alloc: Global, backward: bool) -> Result<bool, Memory> {
        let count = self.play.part_count();
        let mut happened = false;
        for i in 0..count {
            let p = if backward { count - 1 - i } else { i };
            if self.tries(alloc, p)? {
                happened = true;
            }
        }
        Ok(happened)
    }

    /// All go on until nothing happens.
    fn fates(&mut self, alloc: Global, backward: bool) -> Result<[Fate; 3], Memory> {
        for _round in 0..100 {
            if !self.round(alloc, backward)? {
                break;
            }
        }
        Ok(self.fates)
    }
}

/// How all fare where one ends.
fn fates_after(alloc: Global, plan: &Plan, end: End, backward: bool) -> Result<[Fate; 3], Memory> {
    let mut ended = Ended::new(alloc, plan, end)?;
    ended.fates(alloc, backward)
}

/// The fate after an answer; None where nothing happened.
fn after(fate: Fate, answer: Answer) -> Option<Fate> {
    match answer {
        Answer::Nothing | Answer::Unfit | Answer::Waits(..) => None,
        Answer::Cut(who) => Some(Fate {
            cut_by: Some(who),
            ..fate
        }),
        _ => Some(Fate {
            made: fate.made.saturating_add(1),
            ..fate
        }),
    }
}

/// One ends before its event of a number in a range: who, the least and the greatest number, and
/// how the others fare, in order.
#[derive(Clone, Copy)]
struct Row(PartId, u32, u32, Other, Other);

/// How many events one made, and who cut it.
type Other = (u32, Option<PartId>);

/// The fates of a row, with the one that ends put in its place.
fn fates_of(row: Row, end: End, last: u32) -> [Fate; 3] {
    let own = Fate {
        made: end.at,
        cut_by: None,
        ending: Some(end.way.ending(end.at == last)),
    };
    let first = fate_of(row.3);
    let second = fate_of(row.4);
    match row.0 {
        0 => [own, first, second],
        1 => [first, own, second],
        _ => [first, second, own],
    }
}

/// Who is not cut is through; none has no event.
fn fate_of(other: Other) -> Fate {
    let (made, cut_by) = other;
    if made == 0 {
        return UNBORN;
    }
    let ending = match cut_by {
        Some(_) => Ending::Cut,
        None => Ending::Done,
    };
    Fate {
        made,
        cut_by,
        ending: Some(ending),
    }
}

/// The first row whose ends lead to other fates. The End is event 9 of a third participant, and event
/// 15 of the others.
fn first_other(alloc: Global, plan: &Plan, rows: &[Row]) -> Result<Option<usize>, Memory> {
    for i in 0..rows.len() {
        let row = rows[i];
        let last = if row.0 == 2 { 9 } else { 15 };
        if !holds(alloc, plan, row, last)? {
            return Ok(Some(i));
        }
    }
    Ok(None)
}

/// Whether each end of a row, in each way, leads to the fates of the row.
fn holds(alloc: Global, plan: &Plan, row: Row, last: u32) -> Result<bool, Memory> {
    for at in row.1..=row.2 {
        if !holds_at(alloc, plan, row, at, last)? {
            return Ok(false);
        }
    }
    Ok(true)
}

/// Whether an end in each way leads to the fates of its row, whoever is the first to go on.
fn holds_at(alloc: Global, plan: &Plan, row: Row, at: u32, last: u32) -> Result<bool, Memory> {
    for way in [Way::ByFault, Way::ForMemory, Way::ByEnd] {
        let end = End {
            who: row.0,
            at,
            way,
        };
        let wanted = fates_of(row, end, last);
        let forward = fates_after(alloc, plan, end, false)?;
        let backward = fates_after(alloc, plan, end, true)?;
        if forward != wanted || backward != wanted {
            return Ok(false);
        }
    }
    Ok(true)
}

const NOBODY: Other = (0, None);

/// Both iterate twice in window 1, and once in windows 2 and 3.
static OF_TWO: [Row; 14] = [
    // the second asks for meshes, then for what is posted at each turn
    Row(0, 0, 0, (1, Some(0)), NOBODY),
    Row(0, 1, 4, (3, Some(0)), NOBODY),
    Row(0, 5, 7, (6, Some(0)), NOBODY),
    Row(0, 8, 10, (9, Some(0)), NOBODY),
    Row(0, 11, 13, (12, Some(0)), NOBODY),
    Row(0, 14, 15, (16, None), NOBODY),
    // the first asks at its Take for what is completed, at its Judge for what is posted
    Row(1, 0, 2, (3, Some(1)), NOBODY),
    Row(1, 3, 4, (5, Some(1)), NOBODY),
    Row(1, 5, 7, (8, Some(1)), NOBODY),
    Row(1, 8, 8, (9, Some(1)), NOBODY),
    Row(1, 9, 10, (11, Some(1)), NOBODY),
    Row(1, 11, 11, (12, Some(1)), NOBODY),
    Row(1, 12, 13, (14, Some(1)), NOBODY),
    Row(1, 14, 15, (16, None), NOBODY),
];

/// The first two as above.
static OF_THREE: [Row; 21] = [
    Row(0, 0, 0, (1, Some(0)), (1, Some(0))),
    Row(0, 1, 4, (3, Some(0)), (3, Some(0))),
    Row(0, 5, 7, (6, Some(0)), (3, Some(0))),
    Row(0, 8, 8, (9, Some(0)), (3, Some(0))),
    Row(0, 9, 10, (9, Some(0)), (5, Some(0))),
    Row(0, 11, 11, (12, Some(0)), (5, Some(0))),
    Row(0, 12, 13, (12, Some(0)), (7, Some(0))),
    Row(0, 14, 14, (16, None), (7, Some(0))),
    Row(0, 15, 15, (16, None), (10, None)),
    // the third is cut by the first, which the second has cut
    Row(1, 0, 2, (3, Some(1)), (3, Some(0))),
    Row(1, 3, 4, (5, Some(1)), (3, Some(0))),
    Row(1, 5, 7, (8, Some(1)), (3, Some(0))),
    Row(1, 8, 8, (9, Some(1)), (5, Some(0))),
    Row(1, 9, 10, (11, Some(1)), (5, Some(0))),
    Row(1, 11, 11, (12, Some(1)), (7, Some(0))),
    Row(1, 12, 13, (14, Some(1)), (7, Some(0))),
    Row(1, 14, 15, (16, None), (10, None)),
    // the first waits for what the third completes, and the second for the first
    Row(2, 0, 2, (3, Some(2)), (3, Some(0))),
    Row(2, 3, 4, (9, Some(2)), (9, Some(0))),
    Row(2, 5, 6, (12, Some(2)), (12, Some(0))),
    Row(2, 7, 9, (16, None), (16, None)),
];

#[test]
fn one_of_two_ends(rt: HostRuntime) -> Result<(), Fail> {
    let plan = serial_iterated(rt.alloc())?;
    let other = first_other(rt.alloc(), &plan, &OF_TWO)?;
    assert!(rt; other.is_none(), "row {}", other.unwrap_or(0));
    Ok(())
}

#[test]
fn one_of_three_ends(rt: HostRuntime) -> Result<(), Fail> {
    let plan = plain_trio(rt.alloc())?;
    let other = first_other(rt.alloc(), &plan, &OF_THREE)?;
    assert!(rt; other.is_none(), "row {}", other.unwrap_or(0));
    Ok(())
}
