//! Bufferevents by identifier, with boxed callbacks that may free any of them. No link, no port.
#![tactic(auto)]

mod callback;
mod fault;
mod passage;
mod roster;
mod slot;
mod world;

pub use bev_core::{Bev, BevState, Dir, SpareRoom};
pub use callback::Callback;
pub use ev_types::{BevId, FilterKind, Flags, Mode, NoMemory, Why};
pub use fault::WorldFault;
pub use roster::{Roster, run_due};
pub use stream_filters::{AnyFilter, Step, StreamFilter};
pub use world::World;
