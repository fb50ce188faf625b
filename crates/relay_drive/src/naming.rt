// The table of wants, with a note of the groups by which it was written.
use ev_port::WantTable;
use relay_core::Halts;

/// What the sides want, and in which directions each group was suspended as that was written. The rows of members stay right as long as
/// that is so.
#[derive(Drop)]
pub(crate) struct Naming {
    pub(crate) table: WantTable,
    pub(crate) seen: Vec<Halts>,
}
