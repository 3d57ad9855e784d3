//! How many files are done, as one line of the error output that is written over and over, and the
//! lines of the faults between.

ghost use Rattle.std.specs.Prelude.{◌≡◌, false};
ghost use Rattle.sig_bits.specs.Device.{Adds};
ghost use Rattle.sig_engines.specs.FileProgress.{done_line, done_text, end_text, is_shown};
ghost use Rattle.sig_engines.specs.Writing.{Prints};

use crate::writing::{put, put_number};
use sig_bits::{DeviceFault, Output};

/// Shows how many files are done, if reports are asked for: of the first hundred each one, and then
/// each hundredth.
pub(crate) fn show_done<E: Output>(progress: bool, done: u64, err: &mut E)
    ensures reports { E.failed err.new ≡ false → Adds (E.written err.old) (done_text progress done) (E.written err.new) }
    ensures quiet { progress ≡ false → err.new ≡ err.old }
    ensures sound { E.failed err.new ≡ false → E.failed err.old ≡ false }
{
    if progress && is_shown(done) {
        let _ = put_done(done, err);
    }
}

/// Ends the line of the reports.
pub(crate) fn end_reports<E: Output>(progress: bool, err: &mut E)
    ensures reports { E.failed err.new ≡ false → Adds (E.written err.old) (end_text progress) (E.written err.new) }
    ensures quiet { progress ≡ false → err.new ≡ err.old }
    ensures sound { E.failed err.new ≡ false → E.failed err.old ≡ false }
{
    if progress {
        let _ = put(err, "\n");
    }
}

/// Writes one report.
pub(crate) fn put_done<E: Output>(done: u64, err: &mut E) -> Result<(), DeviceFault>
    ensures prints { Prints result (done_line done) (E.written err.old) (E.written err.new) (E.failed err.new) }
    ensures sound { E.failed err.new ≡ false → E.failed err.old ≡ false }
{
    put(err, "\r")?;
    put_number(err, done)?;
    put(err, " files")
}

fn is_shown(done: u64) -> bool
    ensures { result ≡ is_shown done }
{
    done < 100 || done % 100 == 0
}
