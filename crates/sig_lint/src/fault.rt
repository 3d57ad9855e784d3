//! A fault of a row, with the record that has it.
//!
//! `fmt/1;1;BOF;0;;4142` in the third line of a file is told as the fault `Fields` of row 2, line
//! 3, with the one field that the record has.

ghost use Rattle.std.specs.Prelude.{◌≡◌, ◌++◌, ◌∷◌, [], IfOk};
ghost use Rattle.csv.specs.Records.{fields_of};
ghost use Rattle.sig_lint.specs.Cures.{cure_of, text_of};

use crate::cures::cure_for;
use crate::fields::field_place;
use crate::reading::text_at;
use crate::{Cure, Field};
use csv::ByteRecord;
use sig_table::TableError;
use std::alloc::AllocError;
use std::marker::Model;

/// A fault of a record. To a contract it is the record's fields and what the loader says of it: no
/// contract speaks of the line.
#[derive(Drop)]
pub struct Fault {
    record: ByteRecord,
    line: u64,
    error: TableError,
    field: Field,
}

impl Model for Fault {
    ghost use Rattle.csv.specs.Records.{fields_of};
    ghost use Rattle.sig_lint.specs.FaultViews.{FaultView};

    ghost Value = { FaultView };

    ghost view = { λ f. record { fields = fields_of f.record; error = f.error; field = f.field } };
}

impl Fault {
    /// What the loader says of the record, with the number of its row.
    pub fn error(&self) -> TableError
        ensures { result ≡ self.now.error }
    {
        self.error
    }

    /// The field that is at fault.
    pub fn field(&self) -> Field
        ensures { result ≡ self.now.field }
    {
        self.field
    }

    /// The text of that field; where no field alone is at fault, that of the first.
    pub fn text(&self) -> &[u8]
        ensures { result.now ≡ text_of self.now }
    {
        text_at(&self.record, field_place(self.field))
    }

    /// What is likely to mend the fault.
    #[tactic(auto, unfolding(crate::specs::Cures::cure_of))]
    pub fn cure(&self) -> Option<Cure>
        ensures { result ≡ cure_of self.now }
    {
        cure_for(&self.record, self.text(), self.error)
    }

    /// The line of the file on which the record begins, the first being 1.
    pub fn line(&self) -> u64 {
        self.line
    }

    /// The record that has the fault, which has no field where there is none.
    pub fn record(&self) -> &ByteRecord
        ensures { fields_of result.now ≡ self.now.fields }
    {
        &self.record
    }
}

// The faults with one of the record of these fields.
pub(crate) fn with_fault(
    faults: Vec<Fault>,
    fields: &ByteRecord,
    line: u64,
    error: TableError,
    field: Field,
) -> Result<Vec<Fault>, AllocError>
    ensures { IfOk result (λ more. more.items ≡ faults.items ++ record { fields = fields_of fields.now; error = error; field = field } ∷ []) }
{
    let mut faults = faults;
    faults.push(Fault {
        record: fields.clone()?,
        line,
        error,
        field,
    })?;
    Ok(faults)
}
