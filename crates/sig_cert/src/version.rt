//! The two versions of a certificate. The type is public, since the definition of a closed
//! certificate names it, and the finder's contract speaks of certificates of version 2.

/// The version of a certificate: how a row is looked for among those of a table.
#[derive(Clone, Copy, Debug, PartialEq, Eq)]
pub enum Version {
    /// As it is: version 1.
    Exact,
    /// A row that covers it will do: version 2.
    Covering,
}
