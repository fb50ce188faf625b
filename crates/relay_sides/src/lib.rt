//! The sides of all links, and the directions between them: flags, marks, timeouts, the bytes on their way with their filters, and
//! what is counted of them. Each call changes what it is told to; when one is called for, and in which order, is said above.
//!
//! A contract sees the lists of `specs/Links.antt`; `specs/SidesView.antt` says how the code keeps them.
#![tactic(auto)]

mod activity;
mod asks;
mod counts;
mod ends;
mod flags;
mod limits;
mod opening;
mod pass;
mod questions;
mod serve;
mod side;
mod sides;

pub use bev_core::Dir;
pub use counts::{Counts, SPENT};
pub use ev_types::{Marks, Timeouts};
pub use flags::SideFlags;
pub use limits::SpareLimits;
pub use opening::NewSide;
pub use questions::Lengths;
pub use side::MOST_AT_ONCE;
pub use sides::Sides;
