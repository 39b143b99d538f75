ghost use Rattle.std.specs.Prelude.{◌≡◌, ◌<◌, ◌≤◌, ◌^◌, ◌+◌, pos, false, true, Some, None, ◌↔◌, IsTrue};
ghost use Rattle.pair_core.specs.CoreState.{position_of, next_kind_of, end_at};
ghost use Rattle.pair_core.specs.Kept.{side_posted, side_taken, side_ended};
ghost use Rattle.pair_core.specs.KeptSide.{kept_side};

use crate::event::{Ending, NextKind};
use fixed_num::Value;

/// What a core keeps of one participant.
#[derive(Clone, Copy)]
pub struct Side {
    /// How many posts it has made, the initial one among them.
    pub posts: u32,
    /// Whether it has taken its input since its last post.
    pub taken: bool,
    /// The value that it posted last, and zero before its initial post.
    pub last: Value,
    pub ending: Option<Ending>,
}

impl Side {
    /// A participant that has done nothing yet.
    pub fn opening() -> Side
        ensures { result ≡ record { posts = 0; taken = false; last = pos 0; ending = None } }
    {
        Side {
            posts: 0,
            taken: false,
            last: Value::default(),
            ending: None,
        }
    }

    /// The kind of its next event in a coupling of so many windows.
    pub fn next_kind(&self, windows: u32) -> NextKind
        ensures { result ≡ next_kind_of windows self.now.posts self.now.taken self.now.ending }
    {
        if self.ending.is_some() {
            NextKind::None
        } else if self.posts == 0 {
            NextKind::Post
        } else if windows < self.posts {
            NextKind::End
        } else if self.taken {
            NextKind::Post
        } else {
            NextKind::Take
        }
    }

    /// The turn whose events come next.
    pub fn position(&self) -> (u32, u32)
        ensures { result ≡ position_of self.now.posts }
    {
        if self.posts == 0 {
            (0, 0)
        } else {
            (self.posts, 1)
        }
    }

    /// This participant after a post.
    pub fn posted(self, value: Value) -> Side
        requires { self.posts ≤ 10 ^ 6 }
        ensures { kept_side result ≡ side_posted (kept_side self) value }
    {
        Side {
            posts: self.posts + 1,
            taken: false,
            last: value,
            ending: self.ending,
        }
    }

    /// This participant after it has taken its input.
    pub fn with_input(self) -> Side
        ensures { kept_side result ≡ side_taken (kept_side self) }
    {
        Side {
            taken: true,
            ..self
        }
    }

    /// This participant after its ending.
    pub fn ended(self, ending: Ending) -> Side
        ensures { kept_side result ≡ side_ended (kept_side self) ending }
    {
        Side {
            ending: Some(ending),
            ..self
        }
    }

    /// How it ends where it ends now by itself: early unless its last window is over.
    pub fn own_ending(&self, windows: u32) -> Ending
        ensures { result ≡ end_at (next_kind_of windows self.now.posts self.now.taken self.now.ending) }
    {
        match self.next_kind(windows) {
            NextKind::End => Ending::Done,
            NextKind::Post | NextKind::Take | NextKind::None => Ending::Early,
        }
    }
}
