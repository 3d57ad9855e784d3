//! Which product a table of a certificate is of. The steps behind its blockers are given it whole.

use sig_table::SigId;

/// Two signatures, and the blockers that their table names: what their product is made of.
#[derive(Clone, Copy)]
pub(crate) struct ProductKey<'b> {
    pub(crate) s: SigId,
    pub(crate) t: SigId,
    pub(crate) blockers: &'b [SigId],
}
