//! What the finder answers: a certificate, a witness, or two signatures on which it gave up.
//!
//! What each means of the table is `IsFound` and `Decides` in `specs/Answers.antt`.

use sig_table::{FormatId, SigId};

/// What is found of a table.
#[derive(Debug, Drop)]
pub enum Found {
    /// The table is decided: a certificate of version 2, in which no row covers another of its
    /// table.
    Certificate(Vec<u8>),
    /// The table is not decided: a file that leaves the formats a and b, in table order. No shorter
    /// file that the same two signatures hit leaves both.
    Witness {
        file: Vec<u8>,
        a: FormatId,
        b: FormatId,
    },
    /// Nothing is told of these two signatures: over 64 signatures outrank one of them, or more
    /// rows are reached than the budget allows.
    GaveUp {
        s: SigId,
        t: SigId,
    },
}
