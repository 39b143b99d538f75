use pair_core::PartId;

/// A solver's fault, and the step that met it. Windows, iterations and steps count from 1.
#[derive(Clone, Copy, Debug, PartialEq, Eq)]
pub struct Fault {
    pub part: PartId,
    pub window: u32,
    pub iteration: u32,
    pub step: u32,
    pub code: u32,
}
