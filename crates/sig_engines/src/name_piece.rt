//! The bytes that were read of a list of names and are not taken yet.
//!
//! Of `a`, a line feed and `b`, the first `move_name` moves `a` and answers yes. The second moves
//! `b` and answers no, as the rest of that name may be in the next piece. Whether `b` is a name if
//! nothing follows is left to `name_reader`.

ghost use Rattle.std.specs.Prelude.{◌≡◌, ◌<◌, ◌+◌, ◌++◌, ◌∷◌, [], true, false, IfOk, OnErr, IsErr, length, List, ℕ};
ghost use Rattle.sig_bits.specs.Device.{Gives, IsAtEnd};
ghost use Rattle.sig_engines.specs.Listed.{EndsAt, MovesName};

use memchr::memchr;
use sig_bits::{DeviceFault, Input};
use std::alloc::{AllocError, Global};
use std::marker::Model;

// How many bytes a read asks for.
const ROOM: usize = 1 << 14;

/// Bytes that were read, of which those from `at` on are not taken.
#[derive(Drop)]
pub(crate) struct Piece {
    bytes: Vec<u8>,
    at: usize,
    filled: usize,
}

impl Model for Piece {
    ghost use Rattle.std.specs.Prelude.{ℕ, ◌≤◌, List, drop, take, vec_len};

    ghost Value = { List ℕ };

    ghost view = { λ p. drop p.at (take p.filled p.bytes.items) };

    ghost invariant = { λ p. (p.at ≤ p.filled) × (p.filled ≤ vec_len p.bytes) × (16384 ≤ vec_len p.bytes) };
}

impl Piece {
    /// Nothing is read yet.
    pub(crate) fn new(alloc: Global) -> Result<Piece, AllocError>
        ensures { IfOk result (λ piece. piece ≡ []) }
    {
        let mut bytes = Vec::new(alloc);
        bytes.resize(ROOM, 0)?;
        Ok(Piece {
            bytes,
            at: 0,
            filled: 0,
        })
    }

    /// Moves the bytes before the next end to the name, and drops the end. Without one all bytes
    /// are moved, and the answer is no.
    pub(crate) fn move_name(&mut self, end: u8, name: &mut Vec<u8>) -> Result<bool, AllocError>
        ensures moves { IfOk result (λ found. MovesName end found self.old name.old.items self.new name.new.items) }
    {
        match push_front(end, self.rest(), name)? {
            Some(len) => {
                self.at += len + 1;
                Ok(true)
            }
            None => {
                self.at = self.filled;
                Ok(false)
            }
        }
    }

    // The bytes that are not taken.
    fn rest(&self) -> &[u8]
        ensures { result.now ≡ self.now }
    {
        &self.bytes[..self.filled][self.at..]
    }

    /// Reads the next bytes in place of those that were read before. Answers whether there are
    /// some.
    pub(crate) fn refill<I: Input>(&mut self, input: &mut I) -> Result<bool, DeviceFault>
        ensures gives { IfOk result (λ some. Gives (I.to_come input.old) self.new (I.to_come input.new)) }
        ensures lowers { IfOk result (λ some. I.limit input.old ≡ length self.new + I.limit input.new) }
        ensures some { result ≡ Ok true → 0 < length self.new }
        ensures none { result ≡ Ok false → (self.new ≡ []) × IsAtEnd (I.to_come input.new) }
        ensures fails { IsErr result → I.failed input.new ≡ true }
        ensures sound { IfOk result (λ some. I.failed input.new ≡ false) }
    {
        let n = input.read(&mut self.bytes)?;
        self.at = 0;
        self.filled = n;
        Ok(n > 0)
    }
}

// Adds the bytes before the first end, and answers how many; all bytes where there is no end.
fn push_front(end: u8, bytes: &[u8], name: &mut Vec<u8>) -> Result<Option<usize>, AllocError>
    ensures front { IfOk result (λ at. EndsAt end at name.old.items bytes.now name.new.items) }
{
    let at = memchr(end, bytes);
    match at {
        Some(len) => name.extend_from_slice(&bytes[..len])?,
        None => name.extend_from_slice(bytes)?,
    }
    Ok(at)
}
