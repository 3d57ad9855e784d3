//! Texts that are written in pieces, which takes no memory.
//!
//! `files 2` is written as `files ` and then the number, whose digits stand on the stack. So it can
//! be told that memory ran out. If a piece fails, those before it are written: a text that has to
//! be whole is made in memory first (`lines`).

ghost use Rattle.std.specs.Prelude.{◌≡◌, false};
ghost use Rattle.sig_engines.specs.Writing.{Prints};

use itoa::{Buffer, Integer};
use sig_bits::{DeviceFault, Output};

/// Writes a number in decimal.
pub fn put_number<E: Output, I: Integer>(err: &mut E, number: I) -> Result<(), DeviceFault>
    ensures prints { Prints result (I.text number) (E.written err.old) (E.written err.new) (E.failed err.new) }
    ensures sound { E.failed err.new ≡ false → E.failed err.old ≡ false }
{
    let mut buffer = Buffer::new();
    put(err, buffer.format(number))
}

/// Writes a text.
pub fn put<E: Output>(err: &mut E, text: &str) -> Result<(), DeviceFault>
    ensures prints { Prints result text.now (E.written err.old) (E.written err.new) (E.failed err.new) }
    ensures sound { E.failed err.new ≡ false → E.failed err.old ≡ false }
{
    err.write_all(text.as_bytes())
}
