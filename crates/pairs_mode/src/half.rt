// The halves of the pair.

/// One of the two halves.
///
/// Own.
#[derive(Clone, Copy, Debug, PartialEq, Eq)]
pub(crate) enum Half {
    A,
    B,
}
