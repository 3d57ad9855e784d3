//! The bytes at hand: the last ones of those that were read.
//!
//! Bytes are read to their place behind the last one, so none is copied as it comes, and taken off
//! at the front, where the rest moves to. The room is made when a buffer is made, and once more if
//! it proves too small: then it grows. Behind the last byte there is always one more, which belongs
//! to no file: the prefilter looks at whole fours of bytes, and so it finds what ends with the file
//! too.

ghost use Rattle.std.specs.Prelude.{◌≡◌, ℕ, ◌+◌, ◌<◌, ◌≤◌, ◌^◌, ◌++◌, ◌∷◌, [], IfOk, IsTrue, OnErr, OnOk, drop, false, length, take};
ghost use Rattle.sig_bits.specs.Bytes.{IsBytes};
ghost use Rattle.sig_bits.specs.Device.{Gives};
ghost use Rattle.sig_scan.specs.Scans.{IsFilled, ReadsOn};

use sig_bits::{DeviceFault, Input};
use std::alloc::{AllocError, Global};
use std::marker::Model;

#[derive(Debug, Drop)]
pub(crate) struct Buffer {
    bytes: Vec<u8>,
    len: usize,
}

impl Model for Buffer {
    ghost use Rattle.std.specs.Prelude.{◌-◌, ◌<◌, length, take};
    ghost use Rattle.sig_scan.specs.Scans.{BufferView};

    ghost Value = { BufferView };

    ghost view = { λ b. record { room = length b.bytes.items - 1; bytes = take b.len b.bytes.items } };

    ghost invariant = { λ b. b.len < length b.bytes.items };
}

impl Buffer {
    /// With room for so many bytes.
    pub(crate) fn new(alloc: Global, room: usize) -> Result<Buffer, AllocError>
        requires { room < 2 ^ 63 }
        ensures { IfOk result (λ b. b ≡ record { room = room; bytes = [] }) }
    {
        Ok(Buffer {
            bytes: vec![in alloc; 0; room + 1]?,
            len: 0,
        })
    }

    /// The same bytes, with room for so many.
    pub(crate) fn grown(self, room: usize) -> Result<Buffer, AllocError>
        requires room { room < 2 ^ 63 }
        requires more { self.room ≤ room }
        ensures { IfOk result (λ b. b ≡ record { room = room; bytes = self.bytes }) }
    {
        let mut bytes = self.bytes;
        bytes.resize(room + 1, 0)?;
        Ok(Buffer {
            bytes,
            len: self.len,
        })
    }

    /// The same bytes, with room for no more.
    pub(crate) fn trimmed(self) -> Buffer
        ensures { result ≡ record { room = length self.bytes; bytes = self.bytes } }
    {
        let mut bytes = self.bytes;
        bytes.truncate(self.len + 1);
        Buffer {
            bytes,
            len: self.len,
        }
    }

    /// The bytes.
    pub(crate) fn as_bytes(&self) -> &[u8]
        ensures bytes { result.now ≡ self.now.bytes }
        ensures room { length result.now ≤ self.now.room }
    {
        &self.bytes[..self.len]
    }

    /// The bytes, and one more.
    pub(crate) fn with_one_more(&self) -> &[u8]
        ensures { (byte : ℕ) × (result.now ≡ self.now.bytes ++ byte ∷ []) }
    {
        &self.bytes[..self.len + 1]
    }

    /// How many bytes there is room for.
    pub(crate) fn room(&self) -> usize
        ensures { result ≡ self.now.room }
    {
        self.bytes.len() - 1
    }

    /// Whether there is room for no more bytes.
    pub(crate) fn is_full(&self) -> bool
        ensures full { IsTrue result → length self.now.bytes ≡ self.now.room }
        ensures free { result ≡ false → length self.now.bytes < self.now.room }
    {
        self.len == self.room()
    }

    /// Reads until it is full, or nothing more is to come.
    pub(crate) fn fill<R: Input>(&mut self, input: &mut R) -> Result<(), DeviceFault>
        requires { length self.old.bytes < self.old.room }
        ensures filled { OnOk result (IsFilled self.old self.new (R.to_come input.old) (R.to_come input.new)) }
        ensures stays { OnErr result (self.new ≡ self.old) }
        ensures lowers { OnOk result (length self.old.bytes + R.limit input.old ≡ length self.new.bytes + R.limit input.new) }
        ensures reads { ReadsOn (λ _. length self.new.bytes < self.new.room) result (R.failed input.old) (R.failed input.new) (R.to_come input.new) }
    {
        let end = self.room();
        self.len += read_up_to(input, &mut self.bytes[self.len..end])?;
        Ok(())
    }

    /// Takes off the first bytes.
    pub(crate) fn take_off(&mut self, count: usize)
        requires { count ≤ length self.old.bytes }
        ensures { self.new ≡ record { room = self.old.room; bytes = drop count self.old.bytes } }
    {
        self.bytes.copy_within(count..self.len, 0);
        self.len -= count;
    }
}

// Reads until the room is full, or nothing more is to come. Answers how many bytes came.
fn read_up_to<R: Input>(input: &mut R, room: &mut [u8]) -> Result<usize, DeviceFault>
    requires { 0 < length room.old }
    ensures bytes { IsBytes room.new }
    ensures within { IfOk result (λ n. n ≤ length room.new) }
    ensures gives { IfOk result (λ n. Gives (R.to_come input.old) (take n room.new) (R.to_come input.new)) }
    ensures lowers { IfOk result (λ n. R.limit input.old ≡ n + R.limit input.new) }
    ensures reads { ReadsOn (λ n. n < length room.new) result (R.failed input.old) (R.failed input.new) (R.to_come input.new) }
{
    let mut filled = 0;
    'reads: loop {
        let n = input.read(&mut room[filled..])?;
        filled += n;
        if n == 0 || filled == room.len() {
            return Ok(filled);
        }
    }
}
