use waveform::Wave;

/// An input as it is kept for a turn: the wave that is read, mapped where its exchange has a read mapping,
/// and the turn that its newest sample comes from, (0, 0) for a value from before the first window.
#[derive(Drop)]
pub struct KeptInput {
    pub source_window: u32,
    pub source_iteration: u32,
    pub wave: Wave,
}
