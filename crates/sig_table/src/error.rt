//! Why two files are no table, and why a table was not written.
//!
//! The variants of `TableError` stand in the order of judging; a refused allocation may come at any
//! time. Their texts are for a caller of this crate; the program prints codes.

use sig_expr::ExprError;
use std::fmt;
use thiserror::Error;

/// The two files of a table.
#[derive(Clone, Copy, Debug, PartialEq, Eq)]
pub enum TableFile {
    /// The signature file, which is read and judged first.
    Signatures,
    /// The priority file.
    Priorities,
}

impl fmt::Display for TableFile {
    fn fmt<W: fmt::Write>(&self, f: &mut fmt::Formatter<W>) -> fmt::Result {
        f.write_str(match self {
            TableFile::Signatures => "signatures",
            TableFile::Priorities => "priorities",
        })
    }
}

/// Why two files are no table, in the order of judging. Row N is the N-th record after the first.
#[derive(Clone, Copy, Debug, PartialEq, Eq, Error)]
pub enum TableError {
    /// A read failed.
    #[error("{file}: read failed")]
    Read { file: TableFile },
    /// The first record is another than the header, or there is none.
    #[error("{file}: no header")]
    Header { file: TableFile },
    /// A row has not six fields, or not two in the priority file.
    #[error("{file}: fields of row {row}")]
    Fields { file: TableFile, row: usize },
    /// A PUID of another form.
    #[error("{file}: PUID in row {row}")]
    Puid { file: TableFile, row: usize },
    /// A signature number of another form.
    #[error("signature number in row {row}")]
    SignatureNumber { row: usize },
    /// A position that is none of the three words.
    #[error("position in row {row}")]
    Position { row: usize },
    /// An offset or a greatest offset of another form, or the two out of order.
    #[error("offset in row {row}")]
    Offset { row: usize },
    /// A text that is no expression.
    #[error("expression in row {row}: {error}")]
    Expression { row: usize, error: ExprError },
    /// An earlier row gives the signature number to another PUID.
    #[error("signature of two formats in row {row}")]
    SignatureOfTwo { row: usize },
    /// The ninth sequence of its signature.
    #[error("too many sequences in row {row}")]
    TooManySequences { row: usize },
    /// A sequence of over 65,535 slots.
    #[error("too many slots in row {row}")]
    TooManySlots { row: usize },
    /// The 1,001st format, or the 4,001st signature.
    #[error("too many formats in row {row}")]
    TooManyFormats { row: usize },
    /// A PUID that is not in the signature file.
    #[error("unknown format in row {row}")]
    PriorityUnknown { row: usize },
    /// A format over itself.
    #[error("format over itself in row {row}")]
    PrioritySelf { row: usize },
    /// A pair that an earlier row has.
    #[error("pair twice in row {row}")]
    PriorityTwice { row: usize },
    /// A pair that closes a cycle.
    #[error("cycle in row {row}")]
    PriorityCycle { row: usize },
    /// A growth was refused.
    #[error("out of memory")]
    OutOfMemory,
}

/// Why a table was not written.
#[derive(Clone, Copy, Debug, PartialEq, Eq, Error)]
pub enum OutError {
    /// A write failed.
    #[error("write failed")]
    Write,
    /// A growth was refused.
    #[error("out of memory")]
    OutOfMemory,
}
