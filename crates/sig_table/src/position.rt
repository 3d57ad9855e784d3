//! Where an expression may occur in a file. With `Bof { min: 0, max: 4 }` a word begins at one of
//! the offsets 0 to 4; with `Eof { min: 0, max: 4 }` at most four bytes follow it. An offset is a
//! `u16`, as the greatest is 65,535.

/// Where a sequence stands in a file. Offsets are counted in bytes.
#[derive(Clone, Copy, Debug, PartialEq, Eq)]
pub enum Position {
    /// From the start of the file to the start of the word, at least `min` bytes and at most `max`.
    Bof { min: u16, max: u16 },
    /// From the end of the word to the end of the file, at least `min` bytes and at most `max`.
    Eof { min: u16, max: u16 },
    /// Anywhere.
    Variable,
}
