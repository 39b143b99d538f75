//! The events that wait to be made.
ghost use Rattle.std.specs.Prelude.{◌≡◌, ◌==◌, ◌<◌, [], ◌∷◌, ◌++◌, Some, None, length, IfOk, MatchOption};
ghost use Rattle.participant_tables.specs.Queued.{kind_of};

use core_sides::Event;
use fixed_num::Memory;
use std::alloc::Global;
use std::collections::VecDeque;
use std::marker::Model;

/// How many events wait at the most.
const WAITING_LIMIT: usize = 4;

/// What kind of event was handed out.
#[derive(Clone, Copy, Debug, PartialEq, Eq)]
pub enum Out {
    PostMesh,
    TakeMeshes,
    Post,
    Judge,
    Take,
    Stop,
    End,
}

/// The events that wait to be made, in the order in which they are handed out, at most four; and of what
/// kind the event is that is out, which was handed out and neither answered nor put back.
///
/// Its memory is taken when it is made, so that nothing that is put into it takes any.
#[derive(Drop)]
pub struct Queue {
    waiting: VecDeque<Event>,
    out: Option<Out>,
}

impl Model for Queue {
    ghost use Rattle.std.specs.Prelude.{◌≤◌};
    ghost use Rattle.std.specs.VecDeque.{deque_capacity};
    ghost use Rattle.participant_tables.specs.Queued.{Queued};

    ghost Value = { Queued };

    ghost view = { λ q. record { waiting = q.waiting.items; out = q.out } };

    ghost invariant = { λ q. 4 ≤ deque_capacity q.waiting };
}

impl Queue {
    /// Nothing waits.
    pub fn new(alloc: Global) -> Result<Queue, Memory>
        ensures { IfOk result (λ q. q ≡ record { waiting = []; out = None }) }
    {
        Ok(Queue {
            waiting: VecDeque::with_capacity(alloc, WAITING_LIMIT)?,
            out: None,
        })
    }

    /// Whether nothing waits.
    pub fn is_empty(&self) -> bool
        ensures { result ≡ (length self.now.waiting == 0) }
    {
        self.waiting.is_empty()
    }

    /// Of what kind the event is that is out.
    pub fn out(&self) -> Option<Out>
        ensures { result ≡ self.now.out }
    {
        self.out
    }

    /// Puts an event behind those that wait. Takes no memory.
    pub fn push(&mut self, event: Event)
        requires room { length self.old.waiting < 4 }
        ensures { self.new ≡ record self.old { waiting = self.old.waiting ++ event ∷ [] } }
    {
        self.waiting.push_back_reserved(event);
    }

    /// Hands out the first event that waits, which is out then; None where nothing waits.
    pub fn next(&mut self) -> Option<Event>
        ensures first { MatchOption result (self.old.waiting ≡ []) (λ event. self.old.waiting ≡ event ∷ self.new.waiting) }
        ensures out { MatchOption result (self.new ≡ self.old) (λ event. self.new.out ≡ Some (kind_of event)) }
    {
        let event = self.waiting.pop_front()?;
        self.out = Some(kind_of(&event));
        Some(event)
    }

    /// Takes the event back that is out: it is the next one again. Takes no memory.
    pub fn put_back(&mut self, event: Event)
        requires out { self.old.out ≡ Some (kind_of event) }
        requires room { length self.old.waiting < 4 }
        ensures { self.new ≡ record { waiting = event ∷ self.old.waiting; out = None } }
    {
        self.waiting.push_front_reserved(event);
        self.out = None;
    }

    /// The event that is out has its answer.
    pub fn answered(&mut self)
        ensures { self.new ≡ record self.old { out = None } }
    {
        self.out = None;
    }

    /// Gives up all events, and the one that is out.
    pub fn clear(&mut self)
        ensures { self.new ≡ record { waiting = []; out = None } }
    {
        self.waiting.clear();
        self.out = None;
    }
}

fn kind_of(event: &Event) -> Out
    ensures { result ≡ kind_of event.now }
{
    match event {
        Event::PostMesh(_) => Out::PostMesh,
        Event::TakeMeshes => Out::TakeMeshes,
        Event::Post(_) => Out::Post,
        Event::Judge => Out::Judge,
        Event::Take => Out::Take,
        Event::Stop(_) => Out::Stop,
        Event::End => Out::End,
    }
}
