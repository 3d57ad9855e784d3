//! How many files came to what: the last line of `match --summary`.
//!
//! After a file of two bytes that left one format, and one that can't be opened, it is
//! `files 2 identified 1 several 0 none 0 failed 1 bytes 2`. It counts what is printed: with
//! `--all` a file with two lines is one of several, even if priorities leave one format.

ghost use Rattle.std.specs.Prelude.{◌≡◌, ◌++◌, decimal, false};
ghost use Rattle.sig_engines.specs.Tallies.{done_of, none_yet, plus, summary_line, with_fault, with_file};
ghost use Rattle.sig_engines.specs.Writing.{Prints};

use crate::writing::{put, put_number};
use sig_bits::{DeviceFault, Output};

/// How many files were identified, left several formats or none, and had a fault, and how many
/// bytes those without a fault have. A count that is full stays as it is.
#[derive(Clone, Copy, Debug, PartialEq, Eq)]
pub(crate) struct Tally {
    pub(crate) identified: u64,
    pub(crate) several: u64,
    pub(crate) none: u64,
    pub(crate) failed: u64,
    pub(crate) bytes: u64,
}

impl Tally {
    /// No file yet.
    pub(crate) fn new() -> Tally
        ensures { result ≡ none_yet }
    {
        Tally {
            identified: 0,
            several: 0,
            none: 0,
            failed: 0,
            bytes: 0,
        }
    }

    /// One more file, with so many hits and bytes.
    pub(crate) fn with_file(self, hits: usize, bytes: u64) -> Tally
        ensures { result ≡ with_file self hits bytes }
    {
        let mut tally = self;
        tally.bytes = tally.bytes.saturating_add(bytes);
        if hits == 0 {
            tally.none = tally.none.saturating_add(1);
        } else if hits == 1 {
            tally.identified = tally.identified.saturating_add(1);
        } else {
            tally.several = tally.several.saturating_add(1);
        }
        tally
    }

    /// One more fault.
    pub(crate) fn with_fault(self) -> Tally
        ensures { result ≡ with_fault self }
    {
        Tally {
            failed: self.failed.saturating_add(1),
            ..self
        }
    }

    /// How many files are done.
    pub(crate) fn done(self) -> u64
        ensures { result ≡ done_of self }
    {
        self.identified
            .saturating_add(self.several)
            .saturating_add(self.none)
            .saturating_add(self.failed)
    }

    /// Writes the last line.
    pub(crate) fn put_summary<E: Output>(self, err: &mut E) -> Result<(), DeviceFault>
        ensures prints { Prints result (summary_line self) (E.written err.old) (E.written err.new) (E.failed err.new) }
        ensures sound { E.failed err.new ≡ false → E.failed err.old ≡ false }
    {
        put_count("files ", self.done(), err)?;
        put_count(" identified ", self.identified, err)?;
        put_count(" several ", self.several, err)?;
        put_count(" none ", self.none, err)?;
        put_count(" failed ", self.failed, err)?;
        put_count(" bytes ", self.bytes, err)?;
        put(err, "\n")
    }
}

fn put_count<E: Output>(word: &str, count: u64, err: &mut E) -> Result<(), DeviceFault>
    ensures prints { Prints result (word.now ++ decimal count) (E.written err.old) (E.written err.new) (E.failed err.new) }
    ensures sound { E.failed err.new ≡ false → E.failed err.old ≡ false }
{
    put(err, word)?;
    put_number(err, count)
}
