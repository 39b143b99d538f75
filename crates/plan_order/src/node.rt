use crate::ids::{PartId, SchemeId};

/// What is solved as one in a window.
#[derive(Clone, Copy, Debug, PartialEq, Eq)]
pub enum Node {
    /// A participant in no implicit scheme.
    Single(PartId),
    /// The members of an implicit scheme, which repeat the window together.
    Group(SchemeId),
}
