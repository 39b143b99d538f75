ghost use Rattle.std.specs.Prelude.{◌≡◌, ◌↔◌, ◌-◌, false, true, List, [], ◌∷◌, Some, option_map, IsSome, IfSome, IsOk, IfOk, IfErr, OnOk, OnErr};
ghost use Rattle.cpl_plan.specs.declared.words.Item.TheVariants.{Completed, Posted};
ghost use Rattle.coupled_loop.specs.Given.{Gift, found, gives, accepts};
ghost use Rattle.waveform.specs.declared.sample.Sample.{Sample};
ghost use Rattle.sample_store.specs.NextTurn.{next_turn};
ghost use Rattle.sample_store.specs.Held.{HoldsEndBefore, HoldsIterate, HoldsAccepted};
ghost use Rattle.sample_store.specs.Ends.{end_sample, end_of_wave, window_end};
ghost use Rattle.sample_store.specs.KeptSteps.{in_next_window, in_next_iteration};
ghost use Rattle.sample_store.specs.EndView.{end_view, held_view};
ghost use Rattle.sample_store.specs.StandsFor.{StandsFor};

use crate::progress::Progress;
use fixed_num::Memory;
use std::alloc::Global;
use std::marker::Model;
use std::mem::replace;
use waveform::{Field, Sample, Wave};

/// What was posted, and in which iteration; 0 for initial values.
#[derive(Drop)]
pub(crate) struct Iterate {
    pub iteration: u32,
    pub wave: Wave,
}

/// What was accepted at the end of a window, and in which iteration; 0 for initial values.
#[derive(Drop)]
pub(crate) struct End {
    pub iteration: u32,
    pub sample: Sample,
}

/// An end that is held, wherever it is kept.
#[derive(Clone, Copy)]
struct HeldEnd<'a> {
    iteration: u32,
    time: u64,
    field: &'a Field,
}

/// What is kept of all posts of one exchange, and of their acceptances.
///
/// It stands for the list of all gifts: the initial values, the posts, and the acceptances in
/// between. It holds the newest window's last two iterates, and of the two windows before it the ends
/// alone, and no more.
#[derive(Drop)]
pub struct Store {
    window: u32,
    is_accepted: bool,
    newest: Iterate,
    /// The iterate before the newest, of the same window.
    previous: Option<Iterate>,
    /// The end of the window before the newest.
    last: Option<End>,
    /// The end of the one before that; given up once the newest is accepted.
    older: Option<End>,
}

impl Iterate {
    /// The end of the window, where this is accepted.
    fn end(&self) -> HeldEnd<'_>
        ensures { held_view result ≡ end_of_wave (self.now).iteration (self.now).wave }
    {
        let newest = self.wave.len() - 1;
        HeldEnd {
            iteration: self.iteration,
            time: self.wave.time(newest),
            field: self.wave.field(newest),
        }
    }

    /// The same, kept without the other samples, which are given up.
    fn into_end(self) -> End
        ensures { end_view result ≡ end_of_wave self.iteration self.wave }
    {
        End {
            iteration: self.iteration,
            sample: self.wave.into_newest(),
        }
    }
}

impl End {
    /// The same, lent.
    fn held(&self) -> HeldEnd<'_>
        ensures { held_view result ≡ end_view self.now }
    {
        HeldEnd {
            iteration: self.iteration,
            time: self.sample.time,
            field: &self.sample.field,
        }
    }
}

impl Model for Store {
    ghost use Rattle.sample_store.specs.Kept.{Kept};

    ghost Value = { Kept };

    ghost use Rattle.sample_store.specs.Kept.{IsKept};
    ghost use Rattle.sample_store.specs.KeptView.{kept_view};

    ghost view = { kept_view };

    ghost invariant = { λ s. IsKept (kept_view s) };
}

impl Store {
    /// The store of the sender's initial values, which are accepted for window 0 at time 0. The
    /// error has the field.
    pub fn new(alloc: Global, initial: Field) -> Result<Store, (Field, Memory)>
        ensures stands { IfOk result (λ store.
            StandsFor (gives (Completed 0) 0 (record { time = 0; field = initial } ∷ []) []) store) }
        ensures progress { IfOk result (λ store.
            store.progress ≡ record { window = 0; iteration = 0; is_accepted = true }) }
        ensures given_back { IfErr result (λ error. error.0 ≡ initial) }
    {
        let wave = Wave::constant(alloc, 0, initial)?;
        Ok(Store {
            window: 0,
            is_accepted: true,
            newest: Iterate { iteration: 0, wave },
            previous: None,
            last: None,
            older: None,
        })
    }

    /// How far the exchange has come.
    pub fn progress(&self) -> Progress
        ensures { result ≡ self.now.progress }
    {
        Progress {
            window: self.window,
            iteration: self.newest.iteration,
            is_accepted: self.is_accepted,
        }
    }

    /// Takes in the post of the next turn (w, k). It takes no memory and is never refused; an error
    /// would have the wave.
    pub fn put(&mut self, w: u32, k: u32, wave: Wave) -> Result<(), (Wave, Memory)>
        requires next { next_turn self.old.progress ≡ (w, k) }
        ensures stands { OnOk result ((given : List (Gift (List Sample))) → StandsFor given self.old →
            StandsFor (gives (Posted w k) k wave given) self.new) }
        ensures progress { OnOk result (
            self.new.progress ≡ record { window = w; iteration = k; is_accepted = false }) }
        ensures unchanged { OnErr result (self.new ≡ self.old) }
        ensures given_back { IfErr result (λ error. error.0 ≡ wave) }
        ensures never_refused { IsOk result }
    {
        if self.is_accepted {
            self.begin_window(w, wave);
        } else {
            self.repeat_window(k, wave);
        }
        Ok(())
    }

    /// The newest iterate, which is of window w, is accepted. It takes no memory.
    pub fn accept(&mut self, w: u32)
        requires newest { self.old.progress.window ≡ w }
        requires open { self.old.progress.is_accepted ≡ false }
        ensures stands { (given : List (Gift (List Sample))) → StandsFor given self.old →
            StandsFor (accepts w self.old.progress.iteration given) self.new }
        ensures progress { self.new.progress ≡ record self.old.progress { is_accepted = true } }
    {
        let _ = w;
        self.is_accepted = true;
        self.older = None;
    }

    /// The values accepted at the end of window w - 1.
    pub fn end_before(&self, w: u32) -> &Field
        requires held { HoldsEndBefore self.now.progress w }
        ensures looked_up { (given : List (Gift (List Sample))) → StandsFor given self.now →
            option_map (λ s. s.field) (end_sample given (w - 1)) ≡ Some result.now }
    {
        self.end(w).field
    }

    /// The time of these values in ticks: the end of window w - 1, which is the start of window w.
    pub fn end_time_before(&self, w: u32) -> u64
        requires held { HoldsEndBefore self.now.progress w }
        ensures looked_up { (given : List (Gift (List Sample))) → StandsFor given self.now →
            option_map (λ s. s.time) (end_sample given (w - 1)) ≡ Some result }
    {
        self.end(w).time
    }

    /// The iteration that these values come from; 0 for initial values.
    pub fn iteration_before(&self, w: u32) -> u32
        requires held { HoldsEndBefore self.now.progress w }
        ensures looked_up { (given : List (Gift (List Sample))) → StandsFor given self.now →
            option_map (λ gift. gift.iteration) (found given (Completed (w - 1))) ≡ Some result }
    {
        self.end(w).iteration
    }

    /// The post of turn (w, k); None exactly where it is not held.
    pub fn iterate(&self, w: u32, k: u32) -> Option<&Wave>
        ensures held { IsSome result ↔ HoldsIterate self.now.progress w k }
        ensures looked_up { (given : List (Gift (List Sample))) → StandsFor given self.now →
            IfSome result (λ wave. found given (Posted w k)
            ≡ Some (record { item = Posted w k; iteration = k; post = wave.now })) }
    {
        if w != self.window || k == 0 {
            return None;
        }
        if k == self.newest.iteration {
            return Some(&self.newest.wave);
        }
        match &self.previous {
            Some(previous) if previous.iteration == k => Some(&previous.wave),
            _ => None,
        }
    }

    /// The samples accepted for window w; None exactly where it is not the newest window, or is not
    /// accepted.
    pub fn accepted(&self, w: u32) -> Option<&Wave>
        ensures held { IsSome result ↔ HoldsAccepted self.now.progress w }
        ensures looked_up { (given : List (Gift (List Sample))) → StandsFor given self.now →
            IfSome result (λ wave. option_map (λ gift. gift.post) (found given (Completed w))
            ≡ Some wave.now) }
    {
        if self.is_accepted && w == self.window {
            Some(&self.newest.wave)
        } else {
            None
        }
    }

    /// The end of window w - 1.
    fn end(&self, w: u32) -> HeldEnd<'_>
        requires held { HoldsEndBefore self.now.progress w }
        ensures looked_up { (given : List (Gift (List Sample))) → StandsFor given self.now →
            window_end given (w - 1) ≡ Some (held_view result) }
    {
        if w > self.window {
            self.newest.end()
        } else if w == self.window {
            self.last.as_ref().unwrap().held()
        } else {
            self.older.as_ref().unwrap().held()
        }
    }

    /// The first post of the window after the newest.
    fn begin_window(&mut self, w: u32, wave: Wave)
        requires next { next_turn self.old.progress ≡ (w, 1) }
        requires accepted { self.old.progress.is_accepted ≡ true }
        ensures { self.new ≡ in_next_window self.old w wave }
    {
        let before = replace(&mut self.newest, Iterate { iteration: 1, wave });
        self.older = replace(&mut self.last, Some(before.into_end()));
        self.previous = None;
        self.window = w;
        self.is_accepted = false;
    }

    /// The next post of the newest window.
    fn repeat_window(&mut self, k: u32, wave: Wave)
        requires next { next_turn self.old.progress ≡ (self.old.progress.window, k) }
        requires open { self.old.progress.is_accepted ≡ false }
        ensures { self.new ≡ in_next_iteration self.old k wave }
    {
        let before = replace(&mut self.newest, Iterate { iteration: k, wave });
        self.previous = Some(before);
    }
}
