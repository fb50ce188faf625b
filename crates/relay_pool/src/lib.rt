//! A pool of links: as many are kept whole as are open at once. Of a link that is over, whose sides are freed and shut and have no
//! reference, what its line of a report needs is kept, and what it was kept in goes to the next link that opens.
//!
//! A contract sees the lists of `relay_sides`, with all links that were ever opened, as if none was forgotten: what the code forgets of a
//! link that is over stands in ghost fields. Calls that would have to know it ask that the link is open.
#![tactic(auto)]

mod asks;
mod bay;
mod change;
mod ends;
mod left;
mod limits;
mod memory;
mod opening;
mod pass;
mod pool;
mod questions;
mod serve;
mod space;
mod stay;

pub use pool::LinkPool;
pub use space::Space;
