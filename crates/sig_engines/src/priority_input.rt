//! Where the priorities of a table come from.
//!
//! Where no priority file is named, a header without rows is read in place of one. So the loader
//! and `lint` know no table without a priority file, and none of their reads can fail for it.

ghost use Rattle.std.specs.Prelude.{◌≡◌, Some};
ghost use Rattle.sig_engines.specs.PriorityInputs.{has_failed, limit_of, to_come_of};
ghost use Rattle.sig_engines.specs.Stores.{no_priorities};

use sig_bits::{DeviceFault, Input};
use std::io::Read;

/// The priorities of a table.
#[derive(Drop)]
pub enum PriorityInput<R> {
    /// Those of a file.
    File(R),
    /// None: what is still to come of a header without rows.
    Header(&'static [u8]),
}

impl<R: Input> PriorityInput<R> {
    /// No priorities. No read fails.
    pub fn none() -> PriorityInput<R>
        ensures to_come { ⟦<PriorityInput<R> as Input>⟧.to_come result ≡ Some no_priorities }
    {
        PriorityInput::Header(b"higher,lower\n")
    }
}

impl<R: Input> Input for PriorityInput<R> {
    ghost failed = { has_failed R.failed };

    ghost limit = { limit_of R.limit };

    ghost to_come = { to_come_of R.to_come };

    fn read(&mut self, buf: &mut [u8]) -> Result<usize, DeviceFault> {
        match self {
            PriorityInput::File(file) => file.read(buf),
            PriorityInput::Header(rest) => rest.read(buf).map_err(|_| DeviceFault),
        }
    }
}
