//! Why a certificate is refused: a variant for each condition, in the order of C1 to C13.
//!
//! Their texts are for a caller of this crate; the program prints the codes.

ghost use Rattle.std.specs.Prelude.{◌≡◌};

use std::alloc::AllocError;
use thiserror::Error;

/// Why a certificate is refused: the first condition that fails. Pairs, tables of a pair and rows
/// of a table are counted from 0. `docs/CERTIFICATES.md` has the order of judging.
#[derive(Clone, Copy, Debug, PartialEq, Eq, Error)]
pub enum CheckError {
    /// The first four bytes are not `PSAC`.
    #[error("not a certificate")]
    Magic,
    /// The version is neither 1 nor 2.
    #[error("unknown version")]
    Version,
    /// The count of pairs is not that of the table's formats.
    #[error("wrong count of pairs")]
    PairCount,
    /// The kind is not the one that the priorities ask.
    #[error("wrong kind of pair {pair}")]
    Kind {
        pair: u32,
    },
    /// Over 64 blockers, or one that is no signature, not above the one before, or of a format that
    /// outranks neither of the pair.
    #[error("bad blockers in table {table} of pair {pair}")]
    Blockers {
        pair: u32,
        table: u32,
    },
    /// A state of the row is none of its sequence, or a spare bit of a set is not 0.
    #[error("row {row} in table {table} of pair {pair} is malformed")]
    RowForm {
        pair: u32,
        table: u32,
        row: u32,
    },
    /// The row is not above the row before it.
    #[error("row {row} in table {table} of pair {pair} is out of order")]
    RowOrder {
        pair: u32,
        table: u32,
        row: u32,
    },
    /// The start row is missing: it is not there, or in version 2 no row covers it.
    #[error("no start row in table {table} of pair {pair}")]
    NoStart {
        pair: u32,
        table: u32,
    },
    /// The row accepts for both signatures, and no blocker is hit.
    #[error("bad row {row} in table {table} of pair {pair}")]
    Bad {
        pair: u32,
        table: u32,
        row: u32,
    },
    /// A successor of the row on the byte is missing: it is not there, or in version 2 no row
    /// covers it.
    #[error("row {row} in table {table} of pair {pair} has no successor on {byte}")]
    NotClosed {
        pair: u32,
        table: u32,
        row: u32,
        byte: u8,
    },
    /// Bytes follow the last entry.
    #[error("bytes behind the end")]
    Trailing,
    /// A field is cut off by the end of the bytes.
    #[error("cut off")]
    Truncated,
    /// A growth was refused.
    #[error("out of memory")]
    OutOfMemory,
}

impl From<AllocError> for CheckError {
    ghost use Rattle.sig_cert.specs.declared.error.CheckError.{CheckError};

    ghost from_gives = { λ _ e. e ≡ CheckError.OutOfMemory };

    fn from(_: AllocError) -> CheckError {
        CheckError::OutOfMemory
    }
}
