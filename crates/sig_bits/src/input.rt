//! Where bytes come from: the trait `Input`, and `FromRead`, which makes an input of any reader.
//!
//! What an input means is in three ghost members: whether a read has failed, how many bytes may
//! still come, and which ones, if its type exposes them. A failed read is final, an interrupted one
//! too, since an interrupted reader has not reached its end. That a failed reader is left alone is
//! a clause of `FromRead` (`idle`) and not of the trait, so any device that meets the trait will
//! do.

ghost use Rattle.std.specs.Prelude.{◌≡◌, ℕ, ◌+◌, ◌-◌, ◌^◌, Bool, false, List, Option, IfOk, OnErr, IsErr, IsTrue, is_err};
ghost use Rattle.std.specs.Io.KnownBytes.{Keeps};
ghost use Rattle.sig_bits.specs.Device.{Reads};

use crate::fault::DeviceFault;
use std::io::Read;

/// A source of bytes, read once from its front.
///
/// A failed read is final: an interrupted one too is a failure, and no read is tried again.
pub trait Input {
    /// Whether a read has failed so far.
    ghost failed: { Self → Bool };

    /// How many bytes may still come.
    ghost limit: { Self → ℕ };

    /// The bytes still to come, where they are known.
    ghost to_come: { Self → Option (List ℕ) };

    /// Puts the next bytes at the front of the buffer and answers how many. None, for a buffer with
    /// room, is the end.
    fn read(&mut self, buf: &mut [u8]) -> Result<usize, DeviceFault>
        ensures fails { failed self.new ≡ is_err result }
        ensures stays_failed { IsTrue (failed self.old) → IsErr result }
        ensures lowers { IfOk result (λ n. limit self.old ≡ n + limit self.new) }
        ensures reads { IfOk result (λ n. Reads (to_come self.old) buf.new n (to_come self.new)) }
        ensures stays { OnErr result ((limit self.new ≡ limit self.old) × Keeps (to_come self.old) (to_come self.new)) };
}

/// The input of any reader.
///
/// It gives at most 18,446,744,073,709,551,615 bytes, and any read after them fails, so an endless
/// source ends in a fault. A source of exactly so many bytes does too. After a failed read no later
/// call touches the reader.
#[derive(Drop)]
pub struct FromRead<R> {
    reader: R,
    budget: u64,
    failed: bool,
}

impl<R: Read> FromRead<R> {
    /// Nothing is read yet.
    pub fn new(reader: R) -> FromRead<R>
        ensures fresh { ⟦<FromRead<R> as Input>⟧.failed result ≡ false }
        ensures limit { ⟦<FromRead<R> as Input>⟧.limit result ≡ 2 ^ 64 - 1 }
        ensures to_come { ⟦<FromRead<R> as Input>⟧.to_come result ≡ R.remaining reader }
    {
        FromRead {
            reader,
            budget: u64::MAX,
            failed: false,
        }
    }
}

impl<R: Read> Input for FromRead<R> {
    ghost failed = { λ s. s.failed };

    ghost limit = { λ s. s.budget };

    ghost to_come = { λ s. R.remaining s.reader };

    fn read(&mut self, buf: &mut [u8]) -> Result<usize, DeviceFault>
        ensures fails { self.new.failed ≡ is_err result }
        ensures lowers { IfOk result (λ n. self.old.budget ≡ n + self.new.budget) }
        ensures reads { IfOk result (λ n. Reads (R.remaining self.old.reader) buf.new n (R.remaining self.new.reader)) }
        ensures stays { OnErr result ((self.new.budget ≡ self.old.budget) × Keeps (R.remaining self.old.reader) (R.remaining self.new.reader)) }

        // A reader that failed is not read again, and one that gave all bytes that are taken is not
        // read at all.
        ensures idle { IsTrue self.old.failed → IsErr result × (self.new ≡ self.old) }
        ensures spent { self.old.budget ≡ 0 → IsErr result × (self.new.reader ≡ self.old.reader) }
    {
        if self.failed {
            return Err(DeviceFault);
        }
        if self.budget == 0 {
            self.failed = true;
            return Err(DeviceFault);
        }
        let room = buf.len().min(self.budget as usize);
        match self.reader.read(&mut buf[..room]) {
            Ok(n) => {
                self.budget -= n as u64;
                Ok(n)
            }
            Err(_) => {
                self.failed = true;
                Err(DeviceFault)
            }
        }
    }
}
