// The two bytes of a line end, and by how many bytes at once they are looked for.

pub(crate) const CR: u8 = b'\r';

pub(crate) const LF: u8 = b'\n';

/// How many bytes are turned at once at most.
pub(crate) const BLOCK: usize = 512;
