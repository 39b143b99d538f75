ghost use Rattle.std.specs.Prelude.{IsTrue};
ghost use Rattle.pair_core.specs.CoreStep.{IsAtItsPlace};

use crate::{Core, CoreErr, Enabled, Ending, Event, NextKind, PartId, Reply};
use fixed_num::value_of;
use std::test::Fail;

/// An event of a participant and what it must answer, with values in units.
#[derive(Clone, Copy, Debug)]
enum Step {
    Posts(i128),
    Takes(i128),
    /// The Take is refused: the partner stands at this window and iteration.
    Waits(u32, u32),
    IsCut,
    Stops(u32),
    Ends,
}

impl Step {
    /// The event, or None where its value is out of range.
    fn event(self) -> Option<Event> {
        match self {
            Step::Posts(value) => match value_of(value) {
                Some(value) => Some(Event::Post(value)),
                None => None,
            },
            Step::Takes(_) | Step::Waits(..) | Step::IsCut => Some(Event::Take),
            Step::Stops(code) => Some(Event::Stop { code }),
            Step::Ends => Some(Event::End),
        }
    }

    /// Whether this is how the event must be told before it is made.
    fn is_enabled_so(self, partner: PartId, enabled: Enabled) -> bool {
        match self {
            Step::Waits(window, iteration) => {
                enabled
                    == Enabled::Missing {
                        owner: partner,
                        window,
                        iteration,
                    }
            }
            Step::IsCut => enabled == Enabled::CutBy { who: partner },
            Step::Posts(_) | Step::Takes(_) => enabled == Enabled::Yes,
            Step::Stops(_) | Step::Ends => enabled != Enabled::Ended,
        }
    }

    /// Whether this is how the event must be answered.
    fn is_answered_so(self, partner: PartId, answer: Result<Reply, (CoreErr, Event)>) -> bool {
        match answer {
            Ok(reply) => self.is_replied_so(partner, reply),
            Err((error, event)) => self.is_refused_so(partner, error) && event == Event::Take,
        }
    }

    fn is_replied_so(self, partner: PartId, reply: Reply) -> bool {
        match self {
            Step::Posts(_) => reply == Reply::Posted,
            Step::Takes(value) => match reply {
                Reply::Input(input) => i128::from(input.get()) == value,
                Reply::Posted | Reply::Cut { .. } | Reply::Over => false,
            },
            Step::Waits(..) => false,
            Step::IsCut => reply == Reply::Cut { who: partner },
            Step::Stops(_) | Step::Ends => reply == Reply::Over,
        }
    }

    fn is_refused_so(self, partner: PartId, error: CoreErr) -> bool {
        match self {
            Step::Waits(window, iteration) => {
                error
                    == CoreErr::NotEnabled {
                        owner: partner,
                        window,
                        iteration,
                    }
            }
            _ => false,
        }
    }
}

/// Whether the event is at its place.
fn is_at_its_place(next: NextKind, event: &Event) -> bool
    ensures { IsTrue result → IsAtItsPlace next event.now }
{
    match event {
        Event::Post(_) => next == NextKind::Post,
        Event::Take => next == NextKind::Take,
        Event::Stop { .. } | Event::End => true,
    }
}

/// Whether `p` makes the step, at its place, with the answer that it must have.
fn makes(core: &mut Core, p: PartId, step: Step) -> bool {
    if p > 1 || core.ending(p).is_some() {
        return false;
    }
    let Some(event) = step.event() else {
        return false;
    };
    let enabled = core.enabled(p);
    if !is_at_its_place(core.next_kind(p), &event) || !step.is_enabled_so(1 - p, enabled) {
        return false;
    }
    step.is_answered_so(1 - p, core.apply(p, event))
}

/// Whether the steps are made in turn, each with the position that its participant then has, and
/// the two endings at the end.
fn runs(
    mut core: Core,
    steps: &[(PartId, Step, (u32, u32))],
    endings: (Option<Ending>, Option<Ending>),
) -> bool {
    for (p, step, position) in steps {
        if !makes(&mut core, *p, *step) || *p > 1 || core.position(*p) != *position {
            return false;
        }
    }
    core.ending(0) == endings.0 && core.ending(1) == endings.1
}

/// The first adds one to what it reads, the second halves it.
#[test]
fn two_windows_of_the_base_case(rt: HostRuntime) -> Result<(), Fail> {
    let core = Core::new(rt.alloc(), 2).ok().ok_or("no memory")?;
    let steps = [
        (0, Step::Posts(0), (1, 1)),
        (0, Step::Waits(0, 0), (1, 1)),
        (1, Step::Posts(0), (1, 1)),
        (1, Step::Waits(1, 1), (1, 1)),
        (0, Step::Takes(0), (1, 1)),
        (1, Step::Waits(1, 1), (1, 1)),
        (0, Step::Posts(1_000_000), (2, 1)),
        (0, Step::Waits(1, 1), (2, 1)),
        (1, Step::Takes(1_000_000), (1, 1)),
        (1, Step::Posts(500_000), (2, 1)),
        (0, Step::Takes(500_000), (2, 1)),
        (0, Step::Posts(1_500_000), (3, 1)),
        (1, Step::Takes(1_500_000), (2, 1)),
        (0, Step::Ends, (3, 1)),
        (1, Step::Posts(750_000), (3, 1)),
        (1, Step::Ends, (3, 1)),
    ];
    let endings = (Some(Ending::Done), Some(Ending::Done));
    assert!(rt; runs(core, &steps, endings));
    Ok(())
}

#[test]
fn a_stop_cuts_the_partner(rt: HostRuntime) -> Result<(), Fail> {
    let core = Core::new(rt.alloc(), 3).ok().ok_or("no memory")?;
    let steps = [
        (0, Step::Posts(0), (1, 1)),
        (1, Step::Posts(0), (1, 1)),
        (0, Step::Takes(0), (1, 1)),
        (0, Step::Stops(7), (1, 1)),
        (1, Step::IsCut, (1, 1)),
    ];
    let stopped = Ending::Faulted { window: 1, code: 7 };
    assert!(rt; runs(core, &steps, (Some(stopped), Some(Ending::Cut))));
    Ok(())
}

#[test]
fn an_early_end_cuts_only_what_is_missing(rt: HostRuntime) -> Result<(), Fail> {
    let core = Core::new(rt.alloc(), 3).ok().ok_or("no memory")?;
    let steps = [
        (1, Step::Posts(250_000), (1, 1)),
        (1, Step::Ends, (1, 1)),
        (0, Step::Posts(0), (1, 1)),
        (0, Step::Takes(250_000), (1, 1)),
        (0, Step::Posts(1_000_000), (2, 1)),
        (0, Step::IsCut, (2, 1)),
    ];
    assert!(rt; runs(core, &steps, (Some(Ending::Cut), Some(Ending::Early))));
    Ok(())
}

#[test]
fn a_stop_before_the_initial_post_is_in_no_window(rt: HostRuntime) -> Result<(), Fail> {
    let core = Core::new(rt.alloc(), 1).ok().ok_or("no memory")?;
    let stopped = Ending::Faulted { window: 0, code: 3 };
    assert!(rt; runs(core, &[(1, Step::Stops(3), (0, 0))], (None, Some(stopped))));
    Ok(())
}
