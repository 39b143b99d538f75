ghost use Rattle.std.specs.Prelude.{◌≡◌, ℕ, ◌≤◌, ◌<◌, ◌^◌, [], ◌∷◌, ◌++◌, Ok, Err, IsOk, IfOk, IfErr, OnOk, OnErr, IsNone};
ghost use Rattle.pair_core.specs.Kept.{kept_of, kept_with, kept_next_kind};
ghost use Rattle.pair_core.specs.KeptSide.{kept_side};
ghost use Rattle.pair_core.specs.InStep.{IsKept};
ghost use Rattle.pair_core.specs.CoreState.{History, state_after, part_of, partner_of};
ghost use Rattle.pair_core.specs.CoreStep.{next_kind_in, position_in, enabled_in, take_in, answer_in, entry_in, IsAtItsPlace, IsStopOrEnd, UnlessMemory};
ghost use Rattle.pair_core.specs.StandsFor.{StandsFor};
ghost use Rattle.pair_core.specs.TakeTurn.{kept_take};
ghost use Rattle.pair_core.specs.TurnStep.{step_of};

use crate::event::{CoreErr, Enabled, Ending, Event, NextKind, PartId, Reply};
use crate::side::Side;
use crate::turn::{TakeTurn, take_turn};
use fixed_num::{Memory, Value};
use std::alloc::Global;
use std::marker::Model;

/// The events of a coupling of two participants, as far as they must be kept.
///
/// It stands for the list of events made so far: all that it answers is what the state after that
/// list says. A participant is 0, the first of the scheme, or 1, the second.
#[derive(Drop)]
pub struct Core {
    windows: u32,
    first: Side,
    second: Side,
}

impl Model for Core {
    ghost use Rattle.pair_core.specs.Kept.{Kept};

    ghost Value = { Kept };

    ghost use Rattle.pair_core.specs.KeptView.{kept_view};
    ghost use Rattle.pair_core.specs.InStep.{IsKept};

    ghost view = { kept_view };

    ghost invariant = { λ c. IsKept (kept_view c) };
}

impl Core {
    /// The core of a coupling of 1 to 10^6 windows in which nothing has happened.
    pub fn new(alloc: Global, windows: u32) -> Result<Core, Memory>
        requires some_window { 1 ≤ windows }
        requires windows_within { windows ≤ 10 ^ 6 }
        ensures stands { IfOk result (λ core. StandsFor windows core []) }
    {
        let _ = alloc;
        Ok(Core {
            windows,
            first: Side::opening(),
            second: Side::opening(),
        })
    }

    /// The kind of the next event of `p`; None exactly where `p` has ended.
    pub fn next_kind(&self, p: PartId) -> NextKind
        requires participant { p < 2 }
        ensures kept { result ≡ kept_next_kind self.now p }
        ensures state { (windows : ℕ) (h : History) → StandsFor windows self.now h →
            result ≡ next_kind_in windows (state_after windows h) p }
    {
        self.side(p).next_kind(self.windows)
    }

    /// Whether the next event of `p` is enabled.
    pub fn enabled(&self, p: PartId) -> Enabled
        requires participant { p < 2 }
        ensures state { (windows : ℕ) (h : History) → StandsFor windows self.now h →
            result ≡ enabled_in windows (state_after windows h) p }
    {
        match self.next_kind(p) {
            NextKind::None => Enabled::Ended,
            NextKind::Post | NextKind::End => Enabled::Yes,
            NextKind::Take => self.turn(p).enabled(),
        }
    }

    /// How `p` ended; None exactly where it has not.
    pub fn ending(&self, p: PartId) -> Option<Ending>
        requires participant { p < 2 }
        ensures kept { result ≡ (kept_of self.now p).ending }
        ensures state { (windows : ℕ) (h : History) → StandsFor windows self.now h →
            result ≡ (part_of (state_after windows h) p).ending }
    {
        self.side(p).ending
    }

    /// The turn of `p`, as window and iteration: (0, 0) before its initial post, then the turn whose
    /// Take or Post comes next. Where `p` has ended it stays.
    pub fn position(&self, p: PartId) -> (u32, u32)
        requires participant { p < 2 }
        ensures state { (windows : ℕ) (h : History) → StandsFor windows self.now h →
            result ≡ position_in (state_after windows h) p }
    {
        self.side(p).position()
    }

    /// Makes one event of `p`: its next one, or a Stop or an End at any place.
    ///
    /// A Take whose partner has ended before giving what it needs becomes a cut. A refused event
    /// comes back beside the error.
    ///
    /// # Errors
    ///
    /// `NotEnabled` exactly where a Take waits for the partner; `Memory`.
    pub fn apply(&mut self, p: PartId, event: Event) -> Result<Reply, (CoreErr, Event)>
        requires participant { p < 2 }
        requires running { IsNone (kept_of self.old p).ending }
        requires at_its_place { IsAtItsPlace (kept_next_kind self.old p) event }

        // What it answers is the answer in the state after the events that it stands for.
        ensures reply { IfOk result (λ reply. (windows : ℕ) (h : History) → StandsFor windows self.old h →
            answer_in (state_after windows h) p event ≡ Ok reply) }
        ensures not_enabled { IfErr result (λ refused. UnlessMemory refused.0 (
            (windows : ℕ) (h : History) → StandsFor windows self.old h →
            answer_in (state_after windows h) p event ≡ Err refused.0)) }

        // It then stands for the events with this one, or its cut; after a refusal it is as before.
        ensures stands { OnOk result ((windows : ℕ) (h : History) → StandsFor windows self.old h →
            StandsFor windows self.new (h ++ entry_in (state_after windows h) p event ∷ [])) }
        ensures unchanged { OnErr result (self.new ≡ self.old) }
        ensures returned { IfErr result (λ refused. refused.1 ≡ event) }
        ensures never_refused { IsStopOrEnd event → IsOk result }
    {
        match event {
            Event::Post(value) => {
                self.post(p, value);
                Ok(Reply::Posted)
            }
            Event::Take => self.take(p).map_err(|error| (error, Event::Take)),
            Event::Stop { code } => {
                self.stop(p, code);
                Ok(Reply::Over)
            }
            Event::End => {
                self.finish(p);
                Ok(Reply::Over)
            }
        }
    }

    /// The Post of `p`, which comes next.
    fn post(&mut self, p: PartId, value: Value)
        requires participant { p < 2 }
        requires next { kept_next_kind self.old p ≡ NextKind.Post }
        ensures stands { (windows : ℕ) (h : History) → StandsFor windows self.old h →
            StandsFor windows self.new (h ++ entry_in (state_after windows h) p (Event.Post value) ∷ []) }
    {
        let own = self.side(p);
        self.put(p, own.posted(value));
    }

    /// The Take of `p`, which comes next.
    fn take(&mut self, p: PartId) -> Result<Reply, CoreErr>
        requires participant { p < 2 }
        requires next { kept_next_kind self.old p ≡ NextKind.Take }
        ensures answer { (windows : ℕ) (h : History) → StandsFor windows self.old h →
            result ≡ answer_in (state_after windows h) p Event.Take }
        ensures stands { OnOk result ((windows : ℕ) (h : History) → StandsFor windows self.old h →
            StandsFor windows self.new (h ++ entry_in (state_after windows h) p Event.Take ∷ [])) }
        ensures unchanged { OnErr result (self.new ≡ self.old) }
    {
        let own = self.side(p);
        match self.turn(p) {
            TakeTurn::Reads(value) => {
                self.put(p, own.with_input());
                Ok(Reply::Input(value))
            }
            TakeTurn::CutBy { who } => {
                self.put(p, own.ended(Ending::Cut));
                Ok(Reply::Cut { who })
            }
            TakeTurn::Waits {
                owner,
                window,
                iteration,
            } => Err(CoreErr::NotEnabled {
                owner,
                window,
                iteration,
            }),
        }
    }

    /// What becomes of the Take of `p`, which comes next.
    fn turn(&self, p: PartId) -> TakeTurn
        requires participant { p < 2 }
        requires next { kept_next_kind self.now p ≡ NextKind.Take }
        ensures kept { step_of result ≡ kept_take p (kept_of self.now p) (kept_of self.now (partner_of p)) }
        ensures state { (windows : ℕ) (h : History) → StandsFor windows self.now h →
            step_of result ≡ take_in (state_after windows h) p }
    {
        let own = self.side(p);
        let partner = self.side(1 - p);
        take_turn(p, &own, &partner)
    }

    /// Ends `p` by a fault in its window.
    fn stop(&mut self, p: PartId, code: u32)
        requires participant { p < 2 }
        ensures stands { (windows : ℕ) (h : History) → StandsFor windows self.old h →
            StandsFor windows self.new (h ++ entry_in (state_after windows h) p (Event.Stop code) ∷ []) }
    {
        let own = self.side(p);
        let (window, _) = own.position();
        self.put(p, own.ended(Ending::Faulted { window, code }));
    }

    /// Ends `p` by itself.
    fn finish(&mut self, p: PartId)
        requires participant { p < 2 }
        ensures stands { (windows : ℕ) (h : History) → StandsFor windows self.old h →
            StandsFor windows self.new (h ++ entry_in (state_after windows h) p Event.End ∷ []) }
    {
        let own = self.side(p);
        self.put(p, own.ended(own.own_ending(self.windows)));
    }

    /// What is kept of `p`.
    fn side(&self, p: PartId) -> Side
        requires { p < 2 }
        ensures side { kept_side result ≡ kept_of self.now p }
        ensures kept { IsKept self.now }
    {
        if p == 0 { self.first } else { self.second }
    }

    /// Puts what is kept of `p`.
    fn put(&mut self, p: PartId, side: Side)
        requires participant { p < 2 }
        requires kept { IsKept (kept_with self.old p (kept_side side)) }
        ensures { self.new ≡ kept_with self.old p (kept_side side) }
    {
        if p == 0 {
            self.first = side;
        } else {
            self.second = side;
        }
    }
}
