//! Where bytes go: the trait `Output`, and `FromWrite`, which makes an output of any writer.
//!
//! A write ends at the sink: `write_all` flushes, and a failed flush is a failed write, so a line
//! that only reached a buffer does not count as written. A failed write is final, an interrupted
//! one too; std's `write_all` tries again, so `FromWrite` calls `write`. After a failed write a
//! prefix of its bytes may have been written, and nothing says how long it is.

ghost use Rattle.std.specs.Prelude.{◌≡◌, ℕ, ◌+◌, ◌-◌, ◌^◌, ◌<◌, ◌≤◌, Bool, true, false, List, length, Option, OnOk, OnErr, IsErr, IsTrue, is_err};
ghost use Rattle.sig_bits.specs.Device.{Adds, AddsFront};

use crate::fault::DeviceFault;
use std::io::Write;

/// A sink of bytes, written once from its front.
///
/// A failed write is final, an interrupted one too. A front of its bytes, of unknown length, may be
/// written.
pub trait Output {
    /// Whether a write has failed so far.
    ghost failed: { Self → Bool };

    /// How many bytes may still be written.
    ghost limit: { Self → ℕ };

    /// The bytes written so far, where they are known.
    ghost written: { Self → Option (List ℕ) };

    /// Writes all the bytes, and sees them through to the sink.
    fn write_all(&mut self, bytes: &[u8]) -> Result<(), DeviceFault>
        ensures fails { failed self.new ≡ is_err result }
        ensures stays_failed { IsTrue (failed self.old) → IsErr result }
        ensures lowers { OnOk result (limit self.old ≡ length bytes.now + limit self.new) }
        ensures adds { OnOk result (Adds (written self.old) bytes.now (written self.new)) }

        // After a failed write only a front of its bytes may be written.
        ensures front { OnErr result (AddsFront (written self.old) bytes.now (written self.new) × (limit self.new ≤ limit self.old)) };
}

/// The output to any writer.
///
/// It takes at most 18,446,744,073,709,551,615 bytes, and a write of more fails. After a failed
/// call no later one touches the writer. Within one call `write` may be called several times, and
/// never again after it failed.
#[derive(Drop)]
pub struct FromWrite<W> {
    writer: W,
    budget: u64,
    failed: bool,
}

impl<W: Write> FromWrite<W> {
    /// Nothing is written yet.
    pub fn new(writer: W) -> FromWrite<W>
        ensures fresh { ⟦<FromWrite<W> as Output>⟧.failed result ≡ false }
        ensures limit { ⟦<FromWrite<W> as Output>⟧.limit result ≡ 2 ^ 64 - 1 }
        ensures written { ⟦<FromWrite<W> as Output>⟧.written result ≡ W.contents writer }
    {
        FromWrite {
            writer,
            budget: u64::MAX,
            failed: false,
        }
    }

    /// The writer, with what was written.
    pub fn into_inner(self) -> W
        ensures { W.contents result ≡ ⟦<FromWrite<W> as Output>⟧.written self }
    {
        let FromWrite {
            writer,
            budget: _,
            failed: _,
        } = self;
        writer
    }
}

impl<W: Write> Output for FromWrite<W> {
    ghost failed = { λ s. s.failed };

    ghost limit = { λ s. s.budget };

    ghost written = { λ s. W.contents s.writer };

    fn write_all(&mut self, bytes: &[u8]) -> Result<(), DeviceFault>
        ensures fails { self.new.failed ≡ is_err result }
        ensures lowers { OnOk result (self.old.budget ≡ length bytes.now + self.new.budget) }
        ensures adds { OnOk result (Adds (W.contents self.old.writer) bytes.now (W.contents self.new.writer)) }
        ensures front { OnErr result (AddsFront (W.contents self.old.writer) bytes.now (W.contents self.new.writer) × (self.new.budget ≤ self.old.budget)) }

        // A writer that failed is not written again, and one with no room for all the bytes is not
        // written at all.
        ensures idle { IsTrue self.old.failed → IsErr result × (self.new ≡ self.old) }
        ensures none { self.old.budget < length bytes.now → self.new.writer ≡ self.old.writer }
    {
        if self.failed {
            return Err(DeviceFault);
        }
        if (self.budget as usize) < bytes.len() || !write_through(&mut self.writer, bytes) {
            self.failed = true;
            return Err(DeviceFault);
        }
        self.budget -= bytes.len() as u64;
        Ok(())
    }
}

// Writes piece after piece until all is written, and flushes. A piece that takes nothing fails, and
// no piece is tried again.
fn write_through<W: Write>(writer: &mut W, bytes: &[u8]) -> bool
    ensures all { IsTrue result → Adds (W.contents writer.old) bytes.now (W.contents writer.new) }
    ensures front { AddsFront (W.contents writer.old) bytes.now (W.contents writer.new) }
{
    let mut done = 0;
    while done < bytes.len() {
        match writer.write(&bytes[done..]) {
            Ok(n) if n > 0 => done += n,
            _ => return false,
        }
    }
    writer.flush().is_ok()
}
