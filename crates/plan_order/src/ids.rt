//! The numbers that name things of a plan: each counts from 0 in the order of declaration.

/// The number of a participant.
pub type PartId = u32;
/// The number of a mesh.
pub type MeshId = u32;
/// The number of a data item.
pub type DataId = u32;
/// The number of a coupling scheme.
pub type SchemeId = u32;
/// The number of an exchange, counted over all schemes.
pub type ExchangeId = u32;
