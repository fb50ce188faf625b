// What the lines of a script plan for a hook.
use crate::{Act, WhyKind};

/// At the fire with this number of a hook, counted from 1 among those for a reason of this kind: an ask, or nothing.
///
/// Own.
#[derive(Clone, Copy, Debug, PartialEq, Eq)]
pub struct PlanLine {
    pub why: WhyKind,
    pub nth: u32,
    pub act: Option<Act>,
}
