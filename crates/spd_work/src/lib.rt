//! Workers that run the vertices of a field.
#![tactic(auto)]

mod events;
mod gate;
mod gathering;
mod hands;
mod log;
mod placing;
mod region_end;
mod told;
mod turns;
mod worker;
mod workers;

pub use gate::{Gate, Open};
pub use log::RunLog;
pub use region_end::RegionEnd;
pub use workers::region;
