//! The records of a text, one after the other: the library's reader over a file in memory.
//!
//! Its value is the list of records still to come, as `csv` defines them at its defaults, and one
//! of them is in memory at a time. Records may have any number of fields, and none is taken for a
//! header: both is the loader's to judge.

ghost use Rattle.std.specs.Prelude.{◌≡◌, ◌+◌, ◌≤◌, ◌∷◌, [], length, true, IfOk, IfErr};
ghost use Rattle.std.specs.Bool.{MatchBool};
ghost use Rattle.csv.specs.Reading.{error_kind, stops_reader};
ghost use Rattle.csv.specs.Records.{fields_of};
ghost use Rattle.sig_table.specs.Loading.{records_of};
ghost use Rattle.sig_table.specs.declared.error.TableError.{TableError};

use crate::TableError;
use csv::{ByteRecord, Error, Reader, ReaderBuilder};
use std::alloc::Global;
use std::marker::Model;

/// The records of a text that are still to come. One is in memory at a time.
#[derive(Drop)]
pub struct Records<'a> {
    reader: Reader<&'a [u8]>,
}

impl<'a> Model for Records<'a> {
    ghost use Rattle.std.specs.Prelude.{ℕ, List};
    ghost use Rattle.sig_table.specs.Records.{IsReader, records_left};

    ghost Value = { List (List (List ℕ)) };

    ghost view = { λ r. records_left r.reader };

    ghost invariant = { λ r. IsReader r.reader };
}

impl<'a> Records<'a> {
    /// All records of the text.
    pub fn new(alloc: Global, text: &'a [u8]) -> Records<'a>
        ensures records { result ≡ records_of text.now }
        ensures few { length result ≤ length text.now + 1 }
    {
        let reader = ReaderBuilder::new()
            .has_headers(false)
            .flexible(true)
            .from_reader(alloc, text);
        Records { reader }
    }

    /// Reads the next record into `fields`, and says whether there was one.
    pub fn read(&mut self, fields: &mut ByteRecord) -> Result<bool, TableError>
        ensures next { IfOk result (λ found. MatchBool found (self.old ≡ fields_of fields.new ∷ self.new) (self.old ≡ [])) }
        ensures memory { IfErr result (λ e. e ≡ TableError.OutOfMemory) }
        ensures stops { IfErr result (λ e. self.new ≡ []) }
    {
        match self.reader.read_byte_record(fields) {
            Ok(found) => Ok(found),
            Err(error) => Err(want_of_memory(error)),
        }
    }
}

// Records may be of any length and hold any bytes, and a text in memory does not fail: what stops
// a reader is a growth.
fn want_of_memory(error: Error) -> TableError
    requires { stops_reader (error_kind error) ≡ true }
    ensures { result ≡ TableError.OutOfMemory }
{
    TableError::OutOfMemory
}
