// Where a link is, and what is left of one that is over.
use crate::memory::Memory;
use relay_sides::{Counts, SideFlags};

/// Where a link is: in a bay, or over.
#[derive(Drop)]
pub(crate) enum Stay {
    Bay(u32),
    Over(Over),
}

/// What is left of a link that is over: what is so of its sides, what was counted of them, and whether a count has come to 2^62.
#[derive(Drop)]
pub(crate) struct Over {
    pub(crate) near: SideFlags,
    pub(crate) far: SideFlags,
    pub(crate) near_counts: Counts,
    pub(crate) far_counts: Counts,
    pub(crate) is_spent: bool,
    pub(crate) memory: Memory,
}
