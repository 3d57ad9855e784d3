//! Records, their fields, and the lines on which they begin.
//!
//! Where line 2 of a file is empty, and the first row stands on line 3 with a quoted line end in
//! its expression, the second row begins on line 5. `csv` says at which byte it began to read a
//! record; the line ends up to there, and those of empty lines behind it, are counted once each.

ghost use Rattle.std.specs.Prelude.{◌≡◌, ◌∷◌, [], IfOk};
ghost use Rattle.std.specs.Bool.{MatchBool};
ghost use Rattle.csv.specs.Records.{fields_of};
ghost use Rattle.sig_table.specs.Rows.{text_at};

use csv::ByteRecord;
use sig_table::Records;
use std::alloc::AllocError;

// Reads the next record, and says whether there was one.
pub(crate) fn read_next(records: &mut Records, record: &mut ByteRecord) -> Result<bool, AllocError>
    ensures { IfOk result (λ found. MatchBool found (records.old ≡ fields_of «record».new ∷ records.new) (records.old ≡ [])) }
{
    match records.read(record) {
        Ok(found) => Ok(found),
        Err(_) => Err(AllocError),
    }
}

// The field at a place, which is empty where there is none.
pub(crate) fn text_at(record: &ByteRecord, place: usize) -> &[u8]
    ensures { result.now ≡ text_at (fields_of «record».now) place }
{
    match record.get(place) {
        Some(text) => text,
        None => &[],
    }
}

// The lines of a text, counted up to a place. A line ends by LF, CR LF or CR.
#[derive(Drop)]
pub(crate) struct Lines<'a> {
    later: &'a [u8],
    passed: u64,
    line: u64,
    after_return: bool,
}

impl<'a> Lines<'a> {
    pub(crate) fn new(text: &'a [u8]) -> Lines<'a> {
        Lines {
            later: text,
            passed: 0,
            line: 1,
            after_return: false,
        }
    }

    // The line on which the record begins, which was read behind those that were asked for before.
    // A record is read from the end of the one before it, so empty lines are passed over first.
    pub(crate) fn line_of(&mut self, record: &ByteRecord) -> u64 {
        if let Some(position) = record.position() {
            let ahead = position.byte().saturating_sub(self.passed);
            self.pass(ahead as usize);
        }
        let empty = self.later.iter().position(|b| !is_line_end(*b));
        self.pass(empty.unwrap_or(0));
        self.line
    }

    // Passes so many bytes, if there are as many.
    fn pass(&mut self, count: usize) {
        let later = self.later;
        let count = count.min(later.len());
        let (passed, later) = later.split_at(count);
        for byte in passed {
            self.pass_byte(*byte);
        }
        self.passed = self.passed.saturating_add(count as u64);
        self.later = later;
    }

    fn pass_byte(&mut self, byte: u8) {
        let ends_pair = self.after_return && byte == b'\n';
        if is_line_end(byte) && !ends_pair {
            self.line = self.line.saturating_add(1);
        }
        self.after_return = byte == b'\r';
    }
}

fn is_line_end(byte: u8) -> bool {
    byte == b'\n' || byte == b'\r'
}
