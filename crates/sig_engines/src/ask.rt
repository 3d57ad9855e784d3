//! What `match` of many files, `find`, `conflicts` and `dead` are asked for.
//!
//! `conflicts --class --only fmt/1` is a `ConflictsAsk` in which `class` is true and `only` has the
//! place of `fmt/1` in the table. The words themselves are read by `sig_command`. `show`, `lint`,
//! `check` and `witness` have no such type, since they have no options of their own.

ghost use Rattle.std.specs.Prelude.{◌≡◌};
ghost use Rattle.sig_engines.specs.Asks.{IsFormatNamed, is_asked, needs_class, shows_class};

use crate::format_names::FormatNames;
use sig_table::{FormatId, Puid, Table};
use std::alloc::Global;

/// What `match` is asked for of each of many files.
#[derive(Clone, Copy)]
pub struct MatchAsk<'n> {
    /// Each format that a file hits, before priorities.
    pub all: bool,
    /// Records of CSV, behind the names of their fields, in place of lines.
    pub csv: bool,
    /// The names of formats, which stand behind each line, or in the last field of a record.
    pub names: Option<&'n FormatNames>,
    /// The files in each folder, and in those below it, in place of a fault.
    pub recursive: bool,
    /// Reports on the error output of how many files are done.
    pub progress: bool,
    /// A last line on the error output that counts the files.
    pub summary: bool,
}

/// What many files are matched with.
#[derive(Drop)]
pub struct MatchRun<'r, S, K> {
    pub alloc: Global,
    /// Where the files are.
    pub store: &'r S,
    pub core: &'r K,
    pub ask: MatchAsk<'r>,
}

/// What `find` is asked for.
#[derive(Clone, Copy, Debug, PartialEq, Eq)]
pub struct FindAsk<'a> {
    /// The greatest number of rows of one product.
    pub budget: u32,
    /// The name of the file that is made of what is found.
    pub out: &'a str,
    /// A second line has the bytes of that file.
    pub hex: bool,
    /// Reports on the error output of how many products are done.
    pub progress: bool,
}

/// What `dead` is asked for.
#[derive(Clone, Copy, Debug, PartialEq, Eq)]
pub struct DeadAsk {
    /// The greatest number of rows of one search.
    pub budget: u32,
    /// The lines have the bytes of their files.
    pub hex: bool,
    /// Reports on the error output of how many formats are done.
    pub progress: bool,
}

/// What `conflicts` is asked for.
#[derive(Clone, Copy, Debug, PartialEq, Eq)]
pub struct ConflictsAsk<'a> {
    /// The greatest number of rows of one search.
    pub budget: u32,
    /// The lines have the bytes of their files.
    pub hex: bool,
    /// The lines have the class of their pair, and the last line counts the classes.
    pub class: bool,
    /// A line for each format, with the classes of its pairs, in place of the lines of the pairs.
    /// The last line counts the classes here, too.
    pub summary: bool,
    /// The pairs of this format alone.
    pub only: Option<FormatId>,
    /// The name of a priority file that is made: the priorities of the table and the forced pairs.
    pub priorities: Option<&'a str>,
    /// The name of a folder in which the file of each ambiguous pair is made.
    pub files: Option<&'a str>,
}

/// What `conflicts` searches, and where it makes files.
#[derive(Drop)]
pub struct ConflictsRun<'r, 'a, S> {
    pub alloc: Global,
    /// Where files are made.
    pub store: &'r S,
    pub table: &'r Table,
    pub ask: ConflictsAsk<'a>,
}

impl ConflictsAsk<'_> {
    /// Whether the classes are printed.
    pub(crate) fn shows_class(self) -> bool
        ensures { result ≡ shows_class self.entry }
    {
        self.class || self.summary
    }

    /// Whether the class of each ambiguous pair is to be found.
    pub(crate) fn needs_class(self) -> bool
        ensures { result ≡ needs_class self.entry }
    {
        self.shows_class() || self.priorities.is_some()
    }

    /// Whether the pair of these two formats is asked for.
    pub(crate) fn has_pair(self, a: FormatId, b: FormatId) -> bool
        ensures { result ≡ is_asked self.entry.only (a.0, b.0) }
    {
        match self.only {
            None => true,
            Some(format) => a.0 == format.0 || b.0 == format.0,
        }
    }
}

/// The format of this name, if the table has it.
pub fn format_named(table: &Table, puid: &Puid) -> Option<FormatId>
    ensures { IsFormatNamed table.now puid.now result }
{
    for index in 0..table.format_count() as u16 {
        if table.puid(FormatId(index)) == *puid {
            return Some(FormatId(index));
        }
    }
    None
}
