//! The formats that files name, by the PUIDs of their rows.
//!
//! A priority row of `fmt/2` has a known format as soon as any row of the signature file names
//! `fmt/2` in the right form, whatever else that row says. Where that file has no header, each PUID
//! that the priority file names is known. The first thousand names are the formats by which
//! priorities are judged: a table has no more, so a pair of a later one is read and passed over.

ghost use Rattle.std.specs.Prelude.{◌≡◌, ◌≤◌, [], IfOk, IfSome, Some, fold, is_some, length};
ghost use Rattle.csv.specs.Records.{fields_of};
ghost use Rattle.sig_table.specs.Loading.{records_of};
ghost use Rattle.sig_table.specs.Puids.{puid_of};
ghost use Rattle.sig_lint.specs.Names.{formats_among, has_signature_header, is_beyond, is_named, names_beyond, names_of, rows_of_file, with_pair_names, with_puid, with_row_name};

use crate::reading::{read_next, text_at};
use csv::ByteRecord;
use indexmap::IndexSet;
use sig_table::{Puid, Records, is_signature_header};
use std::alloc::{AllocError, Global};
use std::marker::Model;

// How many formats a table has at most.
const MOST_FORMATS: usize = 1000;

// Different PUIDs: the first thousand, and those behind them.
#[derive(Drop)]
pub(crate) struct Names {
    known: IndexSet<Puid>,
    beyond: IndexSet<Puid>,
}

impl Model for Names {
    ghost use Rattle.std.specs.Prelude.{List, ◌++◌};
    ghost use Rattle.sig_table.specs.declared.puid.Puid.{Puid};
    ghost use Rattle.sig_lint.specs.NameSets.{AreNames};

    ghost Value = { List Puid };

    ghost view = { λ n. n.known.keys ++ n.beyond.keys };

    ghost invariant = { AreNames };
}

impl Names {
    // No name yet.
    fn new(alloc: Global) -> Names
        ensures { result ≡ [] }
    {
        Names {
            known: IndexSet::new(alloc),
            beyond: IndexSet::new(alloc),
        }
    }

    // The names with that of the text, if it is of a PUID.
    fn with_text(self, text: &[u8]) -> Result<Names, AllocError>
        ensures { IfOk result (λ names. names ≡ with_puid self (puid_of text.now)) }
    {
        match Puid::parse(text) {
            Some(puid) => self.with(puid),
            None => Ok(self),
        }
    }

    fn with(self, puid: Puid) -> Result<Names, AllocError>
        ensures { IfOk result (λ names. names ≡ with_puid self (Some puid)) }
    {
        let Names {
            mut known,
            mut beyond,
        } = self;
        if known.contains(&puid) {
            return Ok(Names { known, beyond });
        }
        if known.len() < MOST_FORMATS {
            known.insert(puid)?;
            return Ok(Names { known, beyond });
        }
        beyond.insert(puid)?;
        Ok(Names { known, beyond })
    }

    // The formats by which priorities are judged.
    pub(crate) fn formats(&self) -> &IndexSet<Puid>
        ensures formats { result.now.keys ≡ formats_among self.now }
        ensures few { length result.now.keys ≤ 1000 }
    {
        &self.known
    }

    // Whether the record is of a pair of names, one of them behind the first thousand.
    #[tactic(auto, unfolding(crate::specs::Names::is_beyond))]
    pub(crate) fn is_beyond(&self, record: &ByteRecord) -> bool
        ensures { result ≡ is_beyond self.now (fields_of «record».now) }
    {
        let higher = text_at(record, 0);
        let lower = text_at(record, 1);
        record.len() == 2
            && self.has(higher)
            && self.has(lower)
            && (is_named(self.beyond(), higher) || is_named(self.beyond(), lower))
    }

    // Whether the text is of one of the names.
    pub(crate) fn has(&self, text: &[u8]) -> bool
        ensures { result ≡ is_named self.now text.now }
    {
        match Puid::parse(text) {
            Some(puid) => self.known.contains(&puid) || self.beyond.contains(&puid),
            None => false,
        }
    }

    // The names behind the first thousand.
    fn beyond(&self) -> &IndexSet<Puid>
        ensures { result.now.keys ≡ names_beyond self.now }
    {
        &self.beyond
    }
}

// Whether the text is of one of the names.
fn is_named(names: &IndexSet<Puid>, text: &[u8]) -> bool
    ensures { result ≡ is_named names.now.keys text.now }
{
    match Puid::parse(text) {
        Some(puid) => names.contains(&puid),
        None => false,
    }
}

// The formats that two files name.
#[tactic(auto, unfolding(crate::specs::Names::names_of))]
pub(crate) fn names_of(
    alloc: Global,
    signatures: &[u8],
    priorities: &[u8],
) -> Result<Names, AllocError>
    ensures { IfOk result (λ names. names ≡ names_of (records_of signatures.now) (records_of priorities.now)) }
{
    match names_of_rows(alloc, signatures)? {
        Some(names) => Ok(names),
        None => names_of_priorities(alloc, priorities),
    }
}

// Those of a signature file, if it has a header. As the files are judged, each is read in a frame
// of its own.
#[inline(never)]
fn names_of_rows(alloc: Global, text: &[u8]) -> Result<Option<Names>, AllocError>
    ensures header { IfOk result (λ found. is_some found ≡ has_signature_header (records_of text.now)) }
    ensures names { IfOk result (λ found. IfSome found (λ names. names ≡ fold with_row_name [] (rows_of_file (records_of text.now)))) }
{
    let mut records = Records::new(alloc, text);
    let mut header = ByteRecord::new(alloc);
    let found = read_next(&mut records, &mut header)?;
    if found && is_signature_header(&header) {
        let names = row_names(alloc, &mut records)?;
        return Ok(Some(names));
    }
    Ok(None)
}

// Those of the rows of a signature file.
fn row_names(alloc: Global, records: &mut Records) -> Result<Names, AllocError>
    ensures { IfOk result (λ names. names ≡ fold with_row_name [] records.old) }
{
    let mut names = Names::new(alloc);
    let mut record = ByteRecord::new(alloc);
    'rows: loop {
        let found = read_next(records, &mut record)?;
        if !found {
            return Ok(names);
        }
        names = names.with_text(text_at(&record, 0))?;
    }
}

// Those of a priority file.
#[inline(never)]
fn names_of_priorities(alloc: Global, text: &[u8]) -> Result<Names, AllocError>
    ensures { IfOk result (λ names. names ≡ fold with_pair_names [] (rows_of_file (records_of text.now))) }
{
    let mut records = Records::new(alloc, text);
    let mut header = ByteRecord::new(alloc);
    let found = read_next(&mut records, &mut header)?;
    if found {
        return pair_names(alloc, &mut records);
    }
    Ok(Names::new(alloc))
}

// Those of the rows of a priority file.
fn pair_names(alloc: Global, records: &mut Records) -> Result<Names, AllocError>
    ensures { IfOk result (λ names. names ≡ fold with_pair_names [] records.old) }
{
    let mut names = Names::new(alloc);
    let mut record = ByteRecord::new(alloc);
    'rows: loop {
        let found = read_next(records, &mut record)?;
        if !found {
            return Ok(names);
        }
        names = names.with_text(text_at(&record, 0))?;
        names = names.with_text(text_at(&record, 1))?;
    }
}
