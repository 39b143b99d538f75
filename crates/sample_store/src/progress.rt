/// How far an exchange has come.
#[derive(Clone, Copy, Debug, PartialEq, Eq)]
pub struct Progress {
    /// The newest window: 0 before the first post after the initial values.
    pub window: u32,
    /// Its newest iteration: 0 in window 0.
    pub iteration: u32,
    /// Whether the window is accepted, as window 0 is from the start.
    pub is_accepted: bool,
}
