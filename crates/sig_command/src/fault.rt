//! Faults: why the program gives no answer, the line that it then writes to standard error, and the
//! status that it ends with.
//!
//! A line is written in pieces and takes no memory, so no fault is reported as another.

ghost use Rattle.std.specs.Prelude.{◌++◌, ◌≡◌, false};
ghost use Rattle.sig_command.specs.Faults.{Reports, fault_line, fault_text, line_end, names_row, names_text, site_text};
ghost use Rattle.sig_command.specs.Statuses.{status_of};
ghost use Rattle.sig_lint.specs.Codes.{code_words};
ghost use Rattle.sig_engines.specs.Writing.{Prints};

use sig_bits::{DeviceFault, Output};
use sig_engines::{CutShort, NamesError, RunError, WitnessName, put, put_number, put_path};
use sig_lint::{Code, Site, code_of, file_name, site_of};
use sig_table::TableError;

/// Why the program gives no answer, but for a fault that `clap` finds in the words.
#[derive(Clone, Copy, Debug, PartialEq, Eq)]
pub(crate) enum Fault<'a> {
    /// An argument is no UTF-8.
    NotText,
    /// A file can't be opened. It is named as in the words.
    CannotOpen(&'a str),
    /// A folder, where a file is wanted.
    IsFolder(&'a str),
    /// The file of two formats can't be made in this folder.
    NoFile(&'a str, WitnessName),
    /// The table is refused, or was not read.
    Table(TableError),
    /// `--summary` is of all formats, and `--only` of one.
    SummaryOfOne,
    /// The word of `--only` is the PUID of no format of the table.
    NotInTable,
    /// An engine gave no answer.
    Run(RunError),
    /// An engine stopped before its last line.
    CutShort(CutShort),
    /// Some of several files have no lines. Each is told already, so this has no line of its own.
    SomeFiles,
    /// The table that `lint` is asked of has faults. The output has a line for each, so this has no
    /// line of its own.
    FaultyTable,
    /// The file with the names of formats is refused, or was not read.
    Names(NamesError),
}

impl Fault<'_> {
    /// The status that the program ends with: 2 for its words, and for a table or names of formats
    /// that are refused, else 3.
    pub(crate) fn status(self) -> u8
        ensures { result ≡ status_of self.entry }
    {
        match self {
            Fault::NotText | Fault::SummaryOfOne | Fault::NotInTable => 2,
            Fault::Table(TableError::Read { .. } | TableError::OutOfMemory) => 3,
            Fault::Names(NamesError::Read | NamesError::OutOfMemory) => 3,
            Fault::Table(_) | Fault::FaultyTable | Fault::Names(_) => 2,
            Fault::CannotOpen(_)
            | Fault::IsFolder(_)
            | Fault::NoFile(..)
            | Fault::Run(_)
            | Fault::CutShort(_)
            | Fault::SomeFiles => 3,
        }
    }

    /// Writes the fault's line and answers its status, whether or not the line could be written.
    pub(crate) fn report<E: Output>(self, err: &mut E) -> u8
        ensures status { result ≡ status_of self.entry }
        ensures reported { E.failed err.new ≡ false → Reports self.entry result (E.written err.old) (E.written err.new) }
        ensures sound { E.failed err.new ≡ false → E.failed err.old ≡ false }
    {
        let _ = write_line(self, err);
        self.status()
    }
}

fn write_line<E: Output>(fault: Fault<'_>, err: &mut E) -> Result<(), DeviceFault>
    ensures prints { Prints result (fault_line fault.entry) (E.written err.old) (E.written err.new) (E.failed err.new) }
    ensures sound { E.failed err.new ≡ false → E.failed err.old ≡ false }
{
    write_text(fault, err)?;
    put(err, line_end(fault))
}

fn line_end(fault: Fault<'_>) -> &'static str
    ensures { result.now ≡ line_end fault.entry }
{
    match fault {
        Fault::SomeFiles | Fault::FaultyTable => "",
        Fault::NotText
        | Fault::SummaryOfOne
        | Fault::CannotOpen(_)
        | Fault::IsFolder(_)
        | Fault::NoFile(..)
        | Fault::Table(_)
        | Fault::NotInTable
        | Fault::Run(_)
        | Fault::CutShort(_)
        | Fault::Names(_) => "\n",
    }
}

fn write_text<E: Output>(fault: Fault<'_>, err: &mut E) -> Result<(), DeviceFault>
    ensures prints { Prints result (fault_text fault.entry) (E.written err.old) (E.written err.new) (E.failed err.new) }
    ensures sound { E.failed err.new ≡ false → E.failed err.old ≡ false }
{
    match fault {
        Fault::NotText => put(
            err,
            "error: invalid UTF-8 was detected in one or more arguments",
        ),
        Fault::CannotOpen(name) => {
            put(err, "cannot open ")?;
            put(err, name)
        }
        Fault::IsFolder(name) => {
            put(err, name)?;
            put(err, ": is a folder")
        }
        Fault::NoFile(folder, name) => {
            put(err, "cannot open ")?;
            put_path(err, folder, name)
        }
        Fault::Table(error) => {
            write_site(site_of(error), err)?;
            write_code(code_of(error), err)
        }
        Fault::SummaryOfOne => put(
            err,
            "error: the argument '--summary' cannot be used with '--only <PUID>'",
        ),
        Fault::NotInTable => put(err, "only: not in the table"),
        Fault::Run(error) => put(err, error.text()),
        Fault::CutShort(error) => put(err, error.text()),
        Fault::SomeFiles | Fault::FaultyTable => Ok(()),
        Fault::Names(error) => write_names(error, err),
    }
}

// Why there are no names of formats.
fn write_names<E: Output>(error: NamesError, err: &mut E) -> Result<(), DeviceFault>
    ensures prints { Prints result (names_text error) (E.written err.old) (E.written err.new) (E.failed err.new) }
    ensures sound { E.failed err.new ≡ false → E.failed err.old ≡ false }
{
    match error {
        NamesError::Read => put(err, "read failed"),
        NamesError::OutOfMemory => put(err, "out of memory"),
        NamesError::Header => put(err, "names: header"),
        NamesError::Fields { row } => write_row(row, ": fields", err),
        NamesError::Puid { row } => write_row(row, ": puid", err),
        NamesError::Twice { row } => write_row(row, ": pair twice", err),
    }
}

fn write_row<E: Output>(row: usize, words: &str, err: &mut E) -> Result<(), DeviceFault>
    ensures prints { Prints result (names_row row ++ words.now) (E.written err.old) (E.written err.new) (E.failed err.new) }
    ensures sound { E.failed err.new ≡ false → E.failed err.old ≡ false }
{
    put(err, "names row ")?;
    put_number(err, row)?;
    put(err, words)
}

fn write_site<E: Output>(site: Site, err: &mut E) -> Result<(), DeviceFault>
    ensures prints { Prints result (site_text site) (E.written err.old) (E.written err.new) (E.failed err.new) }
    ensures sound { E.failed err.new ≡ false → E.failed err.old ≡ false }
{
    match site {
        Site::Nowhere => Ok(()),
        Site::File(file) => {
            put(err, file_name(file))?;
            put(err, ": ")
        }
        Site::Row(file, row_number) => {
            put(err, file_name(file))?;
            put(err, " row ")?;
            put_number(err, row_number)?;
            put(err, ": ")
        }
    }
}

// What is wrong with a table, by the number of its rule.
fn write_code<E: Output>(code: Code, err: &mut E) -> Result<(), DeviceFault>
    ensures prints { Prints result (code_words code) (E.written err.old) (E.written err.new) (E.failed err.new) }
    ensures sound { E.failed err.new ≡ false → E.failed err.old ≡ false }
{
    put(err, code.words)?;
    match code.place {
        Some(place) => put_number(err, place),
        None => Ok(()),
    }
}
