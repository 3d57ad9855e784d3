//! The names of formats, out of a CSV file with the fields `puid` and `name`.
//!
//! A PUID need not be that of a format of the table. The file is read whole before a row is judged,
//! and a row is judged behind those before it.

ghost use Rattle.std.specs.Prelude.{◌≡◌, ◌≤◌, ◌⊎◌, ◌^◌, ◌++◌, ◌∷◌, [], Err, IfErr, IfOk, IsErrOf, List, None, Ok, Some, false, length, true, ℕ};
ghost use Rattle.std.specs.Bool.{MatchBool};
ghost use Rattle.csv.specs.Records.{fields_of};
ghost use Rattle.sig_table.specs.Loading.{records_of};
ghost use Rattle.sig_table.specs.Rows.{text_at};
ghost use Rattle.sig_engines.specs.FormatNames.{has_name, is_judged, is_names_header, name_in, names_from, names_of, with_name};

use csv::ByteRecord;
use indexmap::IndexMap;
use sig_bits::{Input, ReadWholeError, read_whole};
use sig_table::{Puid, Records};
use std::alloc::{AllocError, Global};
use std::marker::Model;

/// Why there are no names. Rows are counted from 1, behind the header.
#[derive(Clone, Copy, Debug, PartialEq, Eq)]
pub enum NamesError {
    /// A read failed.
    Read,
    /// A growth was refused.
    OutOfMemory,
    /// The first record is not `puid,name`.
    Header,
    /// The row has not two fields.
    Fields { row: usize },
    /// The first field of the row is no PUID.
    Puid { row: usize },
    /// A row before has this PUID.
    Twice { row: usize },
}

/// The names of formats, by their PUIDs.
#[derive(Drop)]
pub struct FormatNames {
    names: IndexMap<Puid, Vec<u8>>,
}

impl Model for FormatNames {
    ghost use Rattle.std.specs.Prelude.{ℕ, List, map};
    ghost use Rattle.sig_table.specs.declared.puid.Puid.{Puid};

    ghost Value = { List (Puid × List ℕ) };

    ghost view = { λ n. map (λ e. (e.0, e.1.items)) n.names.entries };
}

impl FormatNames {
    /// Reads the file whole, and then judges it row by row.
    pub fn load<R: Input>(alloc: Global, file: &mut R) -> Result<FormatNames, NamesError>
        ensures names { IfOk result (λ names. (bytes : List ℕ) → R.to_come file.old ≡ Some bytes → names_of (records_of bytes) ≡ Ok names) }
        ensures fault { IfErr result (λ e. (bytes : List ℕ) → R.to_come file.old ≡ Some bytes → is_judged e ≡ true → names_of (records_of bytes) ≡ Err e) }
        ensures read { IsErrOf result NamesError.Read → R.failed file.new ≡ true }
    {
        match read_whole(alloc, file) {
            Ok(text) => read_names(alloc, &text),
            Err(ReadWholeError::Read) => Err(NamesError::Read),
            Err(ReadWholeError::OutOfMemory) => Err(NamesError::OutOfMemory),
        }
    }

    /// The name of the format with this PUID; none where it has none.
    pub fn name_of(&self, puid: &Puid) -> &[u8]
        ensures { result.now ≡ name_in self.now puid.now }
    {
        match self.names.get(puid) {
            Some(name) => name,
            None => &[],
        }
    }

    // No name yet.
    fn new(alloc: Global) -> FormatNames
        ensures { result ≡ [] }
    {
        FormatNames {
            names: IndexMap::new(alloc),
        }
    }

    // The names with that of a row.
    fn with_row(
        self,
        alloc: Global,
        row: usize,
        fields: &ByteRecord,
    ) -> Result<FormatNames, NamesError>
        ensures names { IfOk result (λ names. with_name row self (fields_of fields.now) ≡ Ok names) }
        ensures fault { IfErr result (λ e. (e ≡ NamesError.OutOfMemory) ⊎ (with_name row self (fields_of fields.now) ≡ Err e)) }
        ensures never_read { ¬ IsErrOf result NamesError.Read }
    {
        if fields.len() != 2 {
            return Err(NamesError::Fields { row });
        }
        let Some(puid) = Puid::parse(text_at(fields, 0)) else {
            return Err(NamesError::Puid { row });
        };
        if self.has(&puid) {
            return Err(NamesError::Twice { row });
        }
        self.with(alloc, puid, text_at(fields, 1))
            .map_err(|_| NamesError::OutOfMemory)
    }

    fn has(&self, puid: &Puid) -> bool
        ensures { result ≡ has_name self.now puid.now }
    {
        self.names.get(puid).is_some()
    }

    fn with(self, alloc: Global, puid: Puid, name: &[u8]) -> Result<FormatNames, AllocError>
        requires { has_name self puid ≡ false }
        ensures { IfOk result (λ names. names ≡ self ++ (puid, name.now) ∷ []) }
    {
        let FormatNames { mut names } = self;
        names.insert(puid, Vec::from_slice(alloc, name)?)?;
        Ok(FormatNames { names })
    }
}

// The names in the text of a file.
fn read_names(alloc: Global, text: &[u8]) -> Result<FormatNames, NamesError>
    ensures names { IfOk result (λ names. names_of (records_of text.now) ≡ Ok names) }
    ensures fault { IfErr result (λ e. (e ≡ NamesError.OutOfMemory) ⊎ (names_of (records_of text.now) ≡ Err e)) }
    ensures never_read { ¬ IsErrOf result NamesError.Read }
{
    let mut records = Records::new(alloc, text);
    let mut header = ByteRecord::new(alloc);
    if !read_next(&mut records, &mut header)? {
        return Err(NamesError::Header);
    }
    if !is_names_header(&header) {
        return Err(NamesError::Header);
    }
    read_rows(alloc, &mut records)
}

// Those in its rows. Each read takes a record off, so their number stays below that of bytes.
fn read_rows(alloc: Global, records: &mut Records) -> Result<FormatNames, NamesError>
    requires { length records.old ≤ 2 ^ 63 }
    ensures names { IfOk result (λ names. names_from 1 [] records.old ≡ Ok names) }
    ensures fault { IfErr result (λ e. (e ≡ NamesError.OutOfMemory) ⊎ (names_from 1 [] records.old ≡ Err e)) }
    ensures never_read { ¬ IsErrOf result NamesError.Read }
{
    let mut names = FormatNames::new(alloc);
    let mut record = ByteRecord::new(alloc);
    let mut row = 1;
    'rows: loop {
        if !read_next(records, &mut record)? {
            return Ok(names);
        }
        match names.with_row(alloc, row, &record) {
            Ok(more) => names = more,
            Err(error) => return Err(error),
        }
        row += 1;
    }
}

// Reads the next record, and says whether there was one.
fn read_next(records: &mut Records, record: &mut ByteRecord) -> Result<bool, NamesError>
    ensures next { IfOk result (λ found. MatchBool found (records.old ≡ fields_of «record».new ∷ records.new) (records.old ≡ [])) }
    ensures memory { IfErr result (λ e. e ≡ NamesError.OutOfMemory) }
{
    match records.read(record) {
        Ok(found) => Ok(found),
        Err(_) => Err(NamesError::OutOfMemory),
    }
}

fn is_names_header(record: &ByteRecord) -> bool
    ensures { result ≡ is_names_header (fields_of «record».now) }
{
    record.len() == 2
        && text_at(record, 0) == b"puid".as_slice()
        && text_at(record, 1) == b"name".as_slice()
}

// The field at a place, which is empty where there is none.
fn text_at(record: &ByteRecord, place: usize) -> &[u8]
    ensures { result.now ≡ text_at (fields_of «record».now) place }
{
    match record.get(place) {
        Some(text) => text,
        None => &[],
    }
}
