use plan_order::SchemeId;

/// An iteration of a scheme.
#[derive(Clone, Copy, Debug, PartialEq, Eq)]
pub struct Iteration {
    pub scheme: SchemeId,
    pub window: u32,
    /// The start of the window, in ticks.
    pub start: u64,
    /// Its number in the window, from 1.
    pub number: u32,
}
