// Slices one after another, beside the bytes that they must make.

/// Whether slices one after another are these bytes.
pub fn join(slices: &[&[u8]], bytes: &[u8]) -> bool {
    let mut rest = bytes;
    for slice in slices {
        match rest.strip_prefix(*slice) {
            Some(left) => rest = left,
            None => return false,
        }
    }
    rest.is_empty()
}
