//! An input that counts the bytes that it gives.
//!
//! Of a file of three bytes, read by two at a time, it counts 2, then 3, and 3 at the end.
//! `match --summary` adds these counts up. What it gives, and when it fails, is as of the input
//! below. How long the file is, it does not know: a matcher that left off early would count less.

ghost use Rattle.std.specs.Prelude.{◌≡◌, ◌+◌, IfOk, IsErr, IsTrue, OnErr, is_err};
ghost use Rattle.std.specs.Io.KnownBytes.{Keeps};
ghost use Rattle.sig_bits.specs.Device.{Reads};
ghost use Rattle.sig_engines.specs.Tallies.{plus};

use sig_bits::{DeviceFault, Input};

/// An input, and how many bytes it gave. The count stays where it is full.
#[derive(Drop)]
pub(crate) struct Counted<R> {
    input: R,
    pub(crate) bytes: u64,
}

impl<R: Input> Counted<R> {
    /// Nothing is read yet.
    pub(crate) fn new(input: R) -> Counted<R>
        ensures input { result.input ≡ input }
        ensures none { result.bytes ≡ 0 }
    {
        Counted { input, bytes: 0 }
    }
}

impl<R: Input> Input for Counted<R> {
    ghost failed = { λ s. R.failed s.input };

    ghost limit = { λ s. R.limit s.input };

    ghost to_come = { λ s. R.to_come s.input };

    fn read(&mut self, buf: &mut [u8]) -> Result<usize, DeviceFault>
        ensures fails { R.failed self.new.input ≡ is_err result }
        ensures stays_failed { IsTrue (R.failed self.old.input) → IsErr result }
        ensures lowers { IfOk result (λ n. R.limit self.old.input ≡ n + R.limit self.new.input) }
        ensures reads { IfOk result (λ n. Reads (R.to_come self.old.input) buf.new n (R.to_come self.new.input)) }
        ensures stays { OnErr result ((R.limit self.new.input ≡ R.limit self.old.input) × Keeps (R.to_come self.old.input) (R.to_come self.new.input)) }
        ensures counts { IfOk result (λ n. self.new.bytes ≡ plus self.old.bytes n) }
    {
        let count = self.input.read(buf)?;
        self.bytes = self.bytes.saturating_add(count as u64);
        Ok(count)
    }
}
