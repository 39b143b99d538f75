//! The turn of a participant, and how far it has stepped.
ghost use Rattle.std.specs.Prelude.{◌≡◌, ◌+◌, ◌<◌, ◌≤◌, ◌^◌, ◌||◌, ℕ, List, nat_eq, true, false, Some, IsTrue};
ghost use Rattle.cpl_plan.specs.Windows.{is_window, is_last_window, latest_end, window_end};
ghost use Rattle.wave_coupling.specs.Coupling.{makes_windows};
ghost use Rattle.coupled_loop.specs.PlanFrames.{window_maker};
ghost use Rattle.plan_order.specs.NodeOrder.{first_member};

use cpl_plan::{PartId, Plan, WindowMethod};

/// The turn of a participant, and how far it has stepped. Times are in ticks.
#[derive(Clone, Copy, Debug, PartialEq, Eq)]
pub struct Clock {
    /// The window and iteration of the turn whose inputs come next or were taken last; 0 before the
    /// reply to the initial post.
    pub window: u32,
    pub iteration: u32,
    /// When the window starts, and when it ends at the latest.
    pub start: u64,
    pub latest: u64,
    pub now: u64,
    /// How many steps were accepted in this turn.
    pub steps: u32,
    /// Whether one step makes the window.
    pub one_step: bool,
    /// Whether the last step has completed a window.
    pub complete: bool,
}

impl Clock {
    /// The clock of a participant before its first call.
    pub fn new(plan: &Plan, part: PartId) -> Clock
        ensures { result ≡ record {
          window = 0;
          iteration = 0;
          start = 0;
          latest = 0;
          now = 0;
          steps = 0;
          one_step = makes_windows plan.now part;
          complete = false;
        } }
    {
        Clock {
            window: 0,
            iteration: 0,
            start: 0,
            latest: 0,
            now: 0,
            steps: 0,
            one_step: makes_windows(plan, part),
            complete: false,
        }
    }

    /// The clock once the inputs of its turn are taken, the newest of which is of that time: the window
    /// ends when the plan says, or at the longest step of the one whose step makes it, or at the end of
    /// the step that has made it.
    pub fn started(self, plan: &Plan, newest: u64) -> Clock
        requires window { 1 ≤ self.window }
        requires there { self.window ≤ plan.now.most_windows }
        requires start { self.start ≤ plan.now.end_time }
        ensures by_plan { plan.now.method ≡ WindowMethod.Fixed → (ends : List ℕ)
            → window_end plan.now ends self.window ≡ Some result.latest }
        ensures by_own_step { plan.now.method ≡ WindowMethod.FirstParticipant → self.one_step ≡ true
            → result.latest ≡ latest_end plan.now self.start }
        ensures by_the_step_made { plan.now.method ≡ WindowMethod.FirstParticipant → self.one_step ≡ false
            → result.latest ≡ newest }
        ensures rest { result ≡ record self { latest = result.latest; now = self.start; steps = 0 } }
    {
        Clock {
            latest: latest_of(plan, self, newest),
            now: self.start,
            steps: 0,
            ..self
        }
    }

    /// The clock after a step of so many ticks.
    pub fn stepped(self, dt: u64) -> Clock
        requires time { self.now + dt ≤ self.latest }
        requires steps { self.steps < 1024 }
        ensures { result ≡ record self {
          now = self.now + dt;
          steps = self.steps + 1;
          complete = false;
        } }
    {
        Clock {
            now: self.now + dt,
            steps: self.steps + 1,
            complete: false,
            ..self
        }
    }

    /// The clock before the first window.
    pub fn joined(self) -> Clock
        ensures { result ≡ record self { window = 1; iteration = 1; steps = 0 } }
    {
        Clock {
            window: 1,
            iteration: 1,
            steps: 0,
            ..self
        }
    }

    /// The clock where the window is repeated.
    pub fn again(self) -> Clock
        requires { self.iteration + 1 < 2 ^ 32 }
        ensures { result ≡ record self {
          iteration = self.iteration + 1;
          steps = 0;
          complete = false;
        } }
    {
        Clock {
            iteration: self.iteration + 1,
            steps: 0,
            complete: false,
            ..self
        }
    }

    /// The clock once the window is completed: the next one starts now.
    pub fn completed(self) -> Clock
        requires { self.window + 1 < 2 ^ 32 }
        ensures { result ≡ record self {
          window = self.window + 1;
          iteration = 1;
          start = self.now;
          latest = self.now;
          steps = 0;
          complete = true;
        } }
    {
        Clock {
            window: self.window + 1,
            iteration: 1,
            start: self.now,
            latest: self.now,
            steps: 0,
            complete: true,
            ..self
        }
    }

    /// How long a step may be.
    pub fn most(self) -> u64
        requires { self.now ≤ self.latest }
        ensures { self.now + result ≡ self.latest }
    {
        self.latest - self.now
    }

    /// Whether a step of so many ticks ends the window.
    pub fn ends_with(self, dt: u64) -> bool
        requires { self.now ≤ self.latest }
        ensures { result ≡ (self.one_step || nat_eq (self.now + dt) self.latest) }
    {
        if self.one_step {
            return true;
        }
        dt == self.most()
    }

    /// Whether the window that ends now is the last one.
    pub fn is_last(self, plan: &Plan) -> bool
        ensures told { result ≡ (nat_eq self.window plan.now.most_windows || nat_eq plan.now.end_time self.now) }
        ensures last { (ends : List ℕ) → IsTrue (is_window plan.now ends self.window)
            → window_end plan.now ends self.window ≡ Some self.now
            → result ≡ is_last_window plan.now ends self.window }
    {
        if self.window == plan.window_count() {
            return true;
        }
        plan.end_time() == self.now
    }
}

/// When the window of a turn ends at the latest.
fn latest_of(plan: &Plan, clock: Clock, newest: u64) -> u64
    requires window { 1 ≤ clock.window }
    requires there { clock.window ≤ plan.now.most_windows }
    requires start { clock.start ≤ plan.now.end_time }
    ensures by_plan { plan.now.method ≡ WindowMethod.Fixed → (ends : List ℕ)
        → window_end plan.now ends clock.window ≡ Some result }
    ensures by_own_step { plan.now.method ≡ WindowMethod.FirstParticipant → clock.one_step ≡ true
        → result ≡ latest_end plan.now clock.start }
    ensures by_the_step_made { plan.now.method ≡ WindowMethod.FirstParticipant → clock.one_step ≡ false
        → result ≡ newest }
{
    match plan.window_method() {
        WindowMethod::Fixed => plan.window_span(clock.window).1,
        WindowMethod::FirstParticipant => made_end(plan, clock, newest),
    }
}

/// When a window that a step makes ends at the latest.
fn made_end(plan: &Plan, clock: Clock, newest: u64) -> u64
    requires { clock.start ≤ plan.now.end_time }
    ensures by_own_step { clock.one_step ≡ true → result ≡ latest_end plan.now clock.start }
    ensures by_the_step_made { clock.one_step ≡ false → result ≡ newest }
{
    if clock.one_step {
        longest_step(plan, clock.start)
    } else {
        newest
    }
}

/// The latest end of a window that starts then.
fn longest_step(plan: &Plan, start: u64) -> u64
    requires { start ≤ plan.now.end_time }
    ensures { result ≡ latest_end plan.now start }
{
    let _parts = plan.parts();
    (start + plan.window_most()).min(plan.end_time())
}

/// Whether the participant makes the windows by its steps.
fn makes_windows(plan: &Plan, part: PartId) -> bool
    ensures { result ≡ makes_windows plan.now part }
{
    match plan.window_method() {
        WindowMethod::Fixed => false,
        WindowMethod::FirstParticipant => part == window_maker(plan),
    }
}

/// The participant whose steps make the windows.
fn window_maker(plan: &Plan) -> PartId
    ensures { result ≡ window_maker plan.now }
{
    match plan.parts().schemes.as_slice().first() {
        Some(scheme) => first_of(scheme.members.as_slice()),
        None => 0,
    }
}

fn first_of(members: &[PartId]) -> PartId
    ensures { result ≡ first_member members.now }
{
    if members.is_empty() { 0 } else { members[0] }
}
