//! Where a table stands in a certificate. Each step of judging is given it, and has no other use
//! for it than to name the place of a fault.

/// Where a table stands in a certificate: the number of its pair of formats, and its own among the
/// pair's tables, both counted from 0.
#[derive(Clone, Copy, Debug, PartialEq, Eq)]
pub(crate) struct Site {
    pub(crate) pair: u32,
    pub(crate) table: u32,
}
