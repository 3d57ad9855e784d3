//! Names of files, one after another out of an input: a line each, or ended by another byte.
//!
//! A name is any bytes, also none where one end follows another. What stands behind the last end is
//! a name unless it is nothing, so a list may leave its last end out. One name and one piece of the
//! input are kept at a time.

ghost use Rattle.std.specs.Prelude.{◌≡◌, ◌<◌, ◌∷◌, [], true, false, Ok, IfOk, IsErrOf, OnOk};
ghost use Rattle.sig_engines.specs.Listed.{AreListed, TakesNames, end_of, has_failed, left_of, unread_of};

use crate::name_piece::Piece;
use sig_bits::{Input, ReadWholeError};
use std::alloc::{AllocError, Global};

/// The names in an input that are not taken yet.
#[derive(Drop)]
pub struct NameReader<I> {
    input: I,
    piece: Piece,
    end: u8,
}

impl<I: Input + Drop> NameReader<I> {
    /// All names of this input, which has not been read.
    pub fn new(alloc: Global, input: I, end: u8) -> Result<NameReader<I>, AllocError>
        ensures unread { IfOk result (λ names. unread_of I.to_come names ≡ I.to_come input) }
        ensures end { IfOk result (λ names. end_of names ≡ end) }
        ensures failed { IfOk result (λ names. has_failed I.failed names ≡ I.failed input) }
    {
        let piece = Piece::new(alloc)?;
        Ok(NameReader { input, piece, end })
    }

    /// Reads the next name, in place of what `name` holds. Answers whether there is one.
    pub fn next(&mut self, name: &mut Vec<u8>) -> Result<bool, ReadWholeError>
        ensures takes { result ≡ Ok true → TakesNames (end_of self.old) (unread_of I.to_come self.old) (name.new.items ∷ []) (unread_of I.to_come self.new) }
        ensures lowers { result ≡ Ok true → left_of I.limit self.new < left_of I.limit self.old }
        ensures done { result ≡ Ok false → AreListed (end_of self.old) (unread_of I.to_come self.old) [] }
        ensures end { end_of self.new ≡ end_of self.old }
        ensures sound { OnOk result (has_failed I.failed self.old ≡ false → has_failed I.failed self.new ≡ false) }
        ensures read { IsErrOf result ReadWholeError.Read → has_failed I.failed self.new ≡ true }
    {
        name.clear();
        'pieces: loop {
            match self.piece.move_name(self.end, name) {
                Ok(true) => return Ok(true),
                Ok(false) => {}
                Err(_) => return Err(ReadWholeError::OutOfMemory),
            }
            match self.piece.refill(&mut self.input) {
                Ok(true) => {}
                Ok(false) => return Ok(!name.is_empty()),
                Err(_) => return Err(ReadWholeError::Read),
            }
        }
    }
}
