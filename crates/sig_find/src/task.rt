//! Which pair of formats is judged, and within which budget. The steps behind a pair are given it
//! whole: those of `finder`, `pair` and `class`.

use sig_table::FormatId;

/// Two formats, and the greatest number of different rows that one search may reach.
#[derive(Clone, Copy)]
pub(crate) struct PairTask {
    pub(crate) a: FormatId,
    pub(crate) b: FormatId,
    pub(crate) budget: u32,
}
