//! A table as it grows, row by row.
//!
//! Formats and numbers are kept in sets that know their places, so no list is searched for a row.

ghost use Rattle.std.specs.Prelude.{◌≡◌, ◌<◌, ◌≤◌, ◌∷◌, ◌++◌, ℕ, [], false, length, nat_eq, not, OnOk, MatchResult, None, Some, Ok, IfOk, IfErr, IfSome};
ghost use Rattle.std.specs.List.{list_any, position_or_len};
ghost use Rattle.sig_table.specs.Judging.{passed, unless};
ghost use Rattle.sig_table.specs.Loading.{empty_table, fault_at, fault_in, grown, with_number, with_row};
ghost use Rattle.sig_table.specs.Judging.{IsFault, is_read};
ghost use Rattle.sig_table.specs.Rows.{IsRow};
ghost use Rattle.sig_table.specs.Tables.{ArePriorities, HasAllSignatures, IsTable};

use crate::links::Links;
use crate::priority::Priority;
use crate::row::Row;
use crate::slots::has_too_many_slots;
use crate::table::Signature;
use crate::{FormatId, Puid, Sequence, Table, TableError};
use indexmap::IndexSet;
use std::alloc::{AllocError, Global};
use std::marker::Model;

// How many formats a table has at most.
const MOST_FORMATS: usize = 1000;

// How many signatures a table has at most.
const MOST_SIGNATURES: usize = 4000;

// How many sequences a signature has at most.
const MOST_SEQUENCES: usize = 8;

/// The formats and the signatures of the rows so far.
#[derive(Debug, Drop)]
pub struct Draft {
    puids: IndexSet<Puid>,
    numbers: IndexSet<u32>,
    signatures: Vec<Signature>,
}

impl Model for Draft {
    ghost use Rattle.std.specs.Prelude.{[]};
    ghost use Rattle.sig_table.specs.Views.{TableView};

    ghost Value = { TableView };

    ghost use Rattle.sig_table.specs.Drafts.{IsDraft};

    ghost view = { λ d. record { formats = d.puids.keys; signatures = d.signatures.items; priorities = [] } };

    ghost invariant = { IsDraft };
}

impl Draft {
    /// No row yet.
    pub fn new(alloc: Global) -> Draft
        ensures { result ≡ empty_table }
    {
        Draft {
            puids: IndexSet::new(alloc),
            numbers: IndexSet::new(alloc),
            signatures: Vec::new(alloc),
        }
    }

    // Judges the row after those so far, and adds it.
    pub(crate) fn add(self, alloc: Global, row: Row, row_number: usize) -> Result<Draft, TableError>
        requires { IsRow row }
        ensures { MatchResult result
            (λ draft. (fault_in self row_number row ≡ None) × (draft ≡ with_row self row))
            (λ e. IsFault (unless (fault_in self row_number row) (Ok self)) e) }
    {
        if let Some(fault) = self.fault(&row, row_number) {
            return Err(fault);
        }
        self.insert(alloc, row)
    }

    // Judges the row after those so far. It is added where it has no fault, and else left out.
    pub(crate) fn take(
        self,
        alloc: Global,
        row: Row,
        row_number: usize,
    ) -> Result<(Draft, Option<TableError>), AllocError>
        requires { IsRow row }
        ensures { IfOk result (λ r. r ≡ passed self (unless (fault_in self row_number row) (Ok (with_row self row)))) }
    {
        if let Some(fault) = self.fault(&row, row_number) {
            return Ok((self, Some(fault)));
        }
        match self.insert(alloc, row) {
            Ok(draft) => Ok((draft, None)),
            Err(_) => Err(AllocError),
        }
    }

    // The first fault of the row.
    fn fault(&self, row: &Row, row_number: usize) -> Option<TableError>
        ensures fault { result ≡ fault_in self.now row_number row.now }
        ensures no_read { IfSome result (λ e. is_read e ≡ false) }
    {
        match self.numbers.get_index_of(&row.number) {
            Some(place) => self.fault_of_more(&self.signatures[place], row, row_number),
            None => self.fault_of_new(row, row_number),
        }
    }

    // The first fault of the row, which adds to the signature.
    fn fault_of_more(
        &self,
        signature: &Signature,
        row: &Row,
        row_number: usize,
    ) -> Option<TableError>
        requires { signature.now.format < length self.now.formats }
        ensures fault { result ≡ fault_at (Some signature.now) self.now row_number row.now }
        ensures no_read { IfSome result (λ e. is_read e ≡ false) }
    {
        let format = signature.format().0 as usize;
        if self.puids.get_index_of(&row.puid) != Some(format) {
            return Some(TableError::SignatureOfTwo { row: row_number });
        }
        if signature.sequence_count() >= MOST_SEQUENCES {
            return Some(TableError::TooManySequences { row: row_number });
        }
        if has_too_many_slots(&row.sequence) {
            return Some(TableError::TooManySlots { row: row_number });
        }
        None
    }

    // The first fault of the row, where its signature is not there.
    fn fault_of_new(&self, row: &Row, row_number: usize) -> Option<TableError>
        ensures fault { result ≡ fault_at None self.now row_number row.now }
        ensures no_read { IfSome result (λ e. is_read e ≡ false) }
    {
        if has_too_many_slots(&row.sequence) {
            return Some(TableError::TooManySlots { row: row_number });
        }
        if self.puids.len() >= MOST_FORMATS && !self.puids.contains(&row.puid) {
            return Some(TableError::TooManyFormats { row: row_number });
        }
        if self.signatures.len() >= MOST_SIGNATURES {
            return Some(TableError::TooManyFormats { row: row_number });
        }
        None
    }

    // Adds a row that has no fault.
    fn insert(self, alloc: Global, row: Row) -> Result<Draft, TableError>
        requires read { IsRow row }
        requires judged { (row_number : ℕ) × (fault_in self row_number row ≡ None) }
        ensures row { IfOk result (λ draft. draft ≡ with_row self row) }
        ensures memory { IfErr result (λ e. e ≡ TableError.OutOfMemory) }
    {
        let Draft {
            mut puids,
            mut numbers,
            mut signatures,
        } = self;
        let Ok((format, _)) = puids.insert_full(row.puid) else {
            return Err(TableError::OutOfMemory);
        };
        let Ok((place, is_new)) = numbers.insert_full(row.number) else {
            return Err(TableError::OutOfMemory);
        };
        let format = FormatId(format as u16);
        if push_new_signature(alloc, &mut signatures, is_new, format, row.number).is_err() {
            return Err(TableError::OutOfMemory);
        }
        let sequence = Sequence::new(row.sequence);
        if push_sequence(&mut signatures, place, row.number, sequence).is_err() {
            return Err(TableError::OutOfMemory);
        }
        Ok(Draft {
            puids,
            numbers,
            signatures,
        })
    }

    // The formats, each with its index.
    pub(crate) fn formats(&self) -> &IndexSet<Puid>
        ensures formats { result.now.keys ≡ self.now.formats }
        ensures few { length result.now.keys ≤ 1000 }
    {
        &self.puids
    }

    // The table, with these priorities.
    pub(crate) fn into_table(
        self,
        alloc: Global,
        priorities: IndexSet<Priority>,
    ) -> Result<Table, TableError>
        requires { ArePriorities (length self.formats) priorities.keys }
        ensures table { IfOk result (λ table. table ≡ record self { priorities = priorities.keys }) }
        ensures limits { IfOk result (λ table. IsTable table) }
        ensures whole { IfOk result (λ table. HasAllSignatures table) }
        ensures memory { IfErr result (λ e. e ≡ TableError.OutOfMemory) }
    {
        let Draft {
            puids,
            numbers: _,
            signatures,
        } = self;
        let Ok(formats) = puids.iter().copied().collect(alloc) else {
            return Err(TableError::OutOfMemory);
        };
        let Ok(links) = Links::new(alloc, puids.len(), signatures.len()) else {
            return Err(TableError::OutOfMemory);
        };
        Ok(Table::new(formats, signatures, priorities, links))
    }
}

// Adds a signature of the number, where it is new.
fn push_new_signature(
    alloc: Global,
    signatures: &mut Vec<Signature>,
    is_new: bool,
    format: FormatId,
    number: u32,
) -> Result<(), AllocError>
    requires { is_new ≡ not (list_any (λ s. nat_eq number s.number) signatures.old.items) }
    ensures { OnOk result (signatures.new.items ≡ with_number signatures.old.items number format.0) }
{
    if is_new {
        signatures.push(Signature::new(alloc, format, number)?)?;
    }
    Ok(())
}

// Adds the sequence to the signature of the number, which is at the place.
fn push_sequence(
    signatures: &mut Vec<Signature>,
    place: usize,
    number: u32,
    sequence: Sequence,
) -> Result<(), AllocError>
    requires at { position_or_len (λ s. nat_eq number s.number) signatures.old.items ≡ place }
    requires within { place < length signatures.old.items }
    ensures { OnOk result (signatures.new.items ≡ grown number sequence signatures.old.items) }
{
    let signature = &mut signatures[place];
    signature.push(sequence)
}
