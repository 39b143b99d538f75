//! The plan: an accepted configuration in numbers.
#![tactic(auto)]

mod copies;
pub mod example;
pub mod kinds;
pub mod laws;
mod needs;
pub mod parts;
pub mod plan;
pub mod windows;
pub mod words;

pub use kinds::{exchange_kind, is_implicit};
pub use parts::{
    Accel, DataPlan, Exchange, Kind, MapPlan, Measure, MeasureKind, MeshPlan, Part, PlanEntry,
    PlanParts, Scheme, SchemeKind, Watch, WindowMethod,
};
pub use plan::Plan;
pub use plan_order::{DataId, ExchangeId, MeshId, Node, OrderErr, PartId, SchemeId, node_order};
pub use windows::windows_to_reach;
pub use words::{Fault, Item, IterLine, Need, StopWish, Verdict, WatchRow};
