//! Why a text is no expression: a variant for each refusal, in the order of E1 to E10.
//!
//! Their texts are for a caller of this crate; the program prints the codes. What each refusal
//! means of a text is `specs/Refusals.antt`.

use thiserror::Error;

/// Why a text was refused as an expression: the refusals by their numbers, E1 to E10. A place is
/// counted in bytes from 0.
#[derive(Clone, Copy, Debug, PartialEq, Eq, Error)]
pub enum ExprError {
    /// The text has over 8,192 bytes.
    #[error("the text is too long")]
    TooLong,
    /// Not in the grammar. The place is the length of the longest front of the text that begins
    /// some text of the grammar.
    #[error("no expression goes on so at {place}")]
    Syntax { place: usize },
    /// A gap number over 65,535.
    #[error("gap number over 65535 at {place}")]
    GapNumber { place: usize },
    /// The greatest length of a gap is 0.
    #[error("empty gap at {place}")]
    GapEmpty { place: usize },
    /// The least length of a gap is above its greatest.
    #[error("gap out of order at {place}")]
    GapOrder { place: usize },
    /// The first end of a range is not below its second.
    #[error("range out of order at {place}")]
    RangeOrder { place: usize },
    /// No word is outside the range.
    #[error("empty class at {place}")]
    ClassEmpty { place: usize },
    /// A growth was refused. The text is an expression.
    #[error("out of memory")]
    OutOfMemory,
    /// The ends of a range have different lengths.
    #[error("range of two lengths at {place}")]
    RangeLength { place: usize },
    /// An end of a bracket has over eight bytes.
    #[error("bracket over eight bytes at {place}")]
    BracketTooLong { place: usize },
}
