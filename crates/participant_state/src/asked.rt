//! Small parts of what is kept of a participant.
/// Which questions were asked: on initial data, and in this turn on checkpoints.
#[derive(Clone, Copy, Debug, PartialEq, Eq)]
pub struct Asked {
    pub initial: bool,
    pub writing: bool,
    pub reading: bool,
}
