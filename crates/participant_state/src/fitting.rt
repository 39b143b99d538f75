//! Whether a reply may come to the event that is out: the test of what `take_reply` wants.
ghost use Rattle.std.specs.Prelude.{◌≡◌, IsTrue};
ghost use Rattle.participant_words.specs.Replies.{IsReply};
ghost use Rattle.participant_state.specs.Kept.{kind_out};

use crate::local::Local;
use core_sides::Reply;
use participant_tables::Out;
use participant_words::EventKind;

impl Local {
    /// Of what kind the event is that is out, if one is.
    pub fn out(&self) -> Option<EventKind>
        ensures { result ≡ self.now.course.out }
    {
        let out = self.queue.out()?;
        Some(kind_of(out))
    }

    /// Whether a reply may come to the event that is out, which is what [`Local::take_reply`] wants. If it
    /// answers true, the reply may come. It takes no memory.
    pub fn fits(&self, reply: &Reply) -> bool
        ensures fitting { IsTrue result → IsReply self.now.plan self.now.part self.now.course reply.now }
    {
        match self.out() {
            Some(kind) => call_parts::fits(
                &self.plan,
                self.part,
                self.own.as_slice(),
                self.received.as_slice(),
                self.clock,
                kind,
                reply,
            ),
            None => false,
        }
    }
}

fn kind_of(out: Out) -> EventKind
    ensures { result ≡ kind_out out }
{
    match out {
        Out::PostMesh => EventKind::PostMesh,
        Out::TakeMeshes => EventKind::TakeMeshes,
        Out::Post => EventKind::Post,
        Out::Judge => EventKind::Judge,
        Out::Take => EventKind::Take,
        Out::Stop => EventKind::Stop,
        Out::End => EventKind::End,
    }
}
