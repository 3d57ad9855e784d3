//! Why an engine gives no answer.
//!
//! If a read of a certificate fails, `check` answers `RunError::Read`, with the text `read failed`;
//! if memory runs out behind the first line of `dead`, that is `CutShort::OutOfMemory`. The name of
//! a file is put before such a text by `named_file`, and the status is left to `sig_command`. For
//! faults of a table see `sig_table`.

use crate::witness_name::WitnessName;
use sig_bits::{DeviceFault, ReadWholeError};
use std::alloc::AllocError;
use std::error::Error;
use std::fmt;

/// Why an engine gave no answer.
#[derive(Clone, Copy, Debug, PartialEq, Eq)]
pub enum RunError {
    /// A read failed.
    Read,
    /// A write failed.
    Write,
    /// A growth was refused.
    OutOfMemory,
}

impl RunError {
    ghost use Rattle.std.specs.Prelude.{◌≡◌};
    ghost use Rattle.sig_engines.specs.Writing.{run_text};

    pub fn text(self) -> &'static str
        ensures { result.now ≡ run_text self }
    {
        match self {
            RunError::Read => "read failed",
            RunError::Write => "write failed",
            RunError::OutOfMemory => "out of memory",
        }
    }
}

impl fmt::Display for RunError {
    ghost use Rattle.std.specs.Prelude.{Some};
    ghost use Rattle.sig_engines.specs.Writing.{run_text};

    ghost output = { λ error. Some (run_text error) };

    fn fmt<W: fmt::Write>(&self, f: &mut fmt::Formatter<W>) -> fmt::Result {
        f.write_str(self.text())
    }
}

impl Error for RunError {}

/// Why an engine gave no answer of a file that it opens or makes by its name.
#[derive(Clone, Copy, Debug, PartialEq, Eq)]
pub enum FileFault {
    /// It can't be opened or made.
    CannotOpen,
    /// It was opened or made, or was not needed, and there is no answer.
    Run(RunError),
}

/// Why nothing is identified under a name.
#[derive(Clone, Copy, Debug, PartialEq, Eq)]
pub enum NameFault {
    /// The file has no answer, or the folder is not listed.
    File(FileFault),
    /// A folder, where its files are not asked for.
    IsFolder,
    /// A pipe, a socket or a device that stands in a folder.
    NotRegular,
    /// The folder of this name has a name in it that is no text.
    NotText,
    /// A folder below so many others that it is not listed.
    TooDeep,
}

/// Why an engine stopped before its last line. The lines that it wrote until then stand.
#[derive(Clone, Copy, Debug, PartialEq, Eq)]
pub enum CutShort {
    /// A write failed.
    Write,
    /// A growth was refused.
    OutOfMemory,
}

impl CutShort {
    ghost use Rattle.std.specs.Prelude.{◌≡◌};
    ghost use Rattle.sig_engines.specs.Writing.{cut_text};

    pub fn text(self) -> &'static str
        ensures { result.now ≡ cut_text self }
    {
        match self {
            CutShort::Write => "write failed",
            CutShort::OutOfMemory => "out of memory",
        }
    }
}

impl fmt::Display for CutShort {
    ghost use Rattle.std.specs.Prelude.{Some};
    ghost use Rattle.sig_engines.specs.Writing.{cut_text};

    ghost output = { λ error. Some (cut_text error) };

    fn fmt<W: fmt::Write>(&self, f: &mut fmt::Formatter<W>) -> fmt::Result {
        f.write_str(self.text())
    }
}

impl Error for CutShort {}

impl From<DeviceFault> for CutShort {
    ghost use Rattle.std.specs.Prelude.{◌≡◌};
    ghost use Rattle.sig_engines.specs.declared.error.CutShort.{CutShort};

    ghost from_gives = { λ _ gives. gives ≡ CutShort.Write };

    fn from(_fault: DeviceFault) -> CutShort {
        CutShort::Write
    }
}

impl From<AllocError> for CutShort {
    ghost use Rattle.std.specs.Prelude.{◌≡◌};
    ghost use Rattle.sig_engines.specs.declared.error.CutShort.{CutShort};

    ghost from_gives = { λ _ gives. gives ≡ CutShort.OutOfMemory };

    fn from(_error: AllocError) -> CutShort {
        CutShort::OutOfMemory
    }
}

impl From<ReadWholeError> for RunError {
    ghost use Rattle.std.specs.Prelude.{◌≡◌};
    ghost use Rattle.sig_engines.specs.Writing.{reading_fault};

    ghost from_gives = { λ error gives. gives ≡ reading_fault error };

    fn from(error: ReadWholeError) -> RunError {
        match error {
            ReadWholeError::Read => RunError::Read,
            ReadWholeError::OutOfMemory => RunError::OutOfMemory,
        }
    }
}

/// Why `conflicts` stopped before its last line. The lines that it wrote until then stand.
#[derive(Clone, Copy, Debug, PartialEq, Eq)]
pub enum PairsFault<'a> {
    /// The folder or the priority file of this name can't be made. Nothing was searched.
    CannotOpen(&'a str),
    /// The file of two formats can't be made in this folder.
    NoFile(&'a str, WitnessName),
    /// A write failed, or a growth was refused.
    Cut(CutShort),
}

impl From<CutShort> for PairsFault<'_> {
    ghost use Rattle.std.specs.Prelude.{◌≡◌};
    ghost use Rattle.sig_engines.specs.declared.error.PairsFault.{PairsFault};

    ghost from_gives = { λ cut gives. gives ≡ PairsFault.Cut cut };

    fn from(cut: CutShort) -> Self {
        PairsFault::Cut(cut)
    }
}

impl From<AllocError> for PairsFault<'_> {
    ghost use Rattle.std.specs.Prelude.{◌≡◌};
    ghost use Rattle.sig_engines.specs.declared.error.CutShort.{CutShort};
    ghost use Rattle.sig_engines.specs.declared.error.PairsFault.{PairsFault};

    ghost from_gives = { λ _ gives. gives ≡ PairsFault.Cut CutShort.OutOfMemory };

    fn from(_error: AllocError) -> Self {
        PairsFault::Cut(CutShort::OutOfMemory)
    }
}
