//! From the two files to the table: the signature file whole, and then the priority file.
//!
//! A file is judged after it was read to its end, so a failed read comes before a fault of the
//! bytes that came. Its rows are judged in turn (`reading`), by one fold (`judged`) whose laws hold
//! for rows and pairs. A reader of `csv` drops a UTF-8 byte order mark.

ghost use Rattle.std.specs.Prelude.{◌≡◌, ◌<◌, ◌≤◌, ◌⊎◌, [], List, ℕ, length, true, false, None, Some, Ok, Err, OnOk, IfOk, IfErr, IfSome, IsErrOf, MatchResult};
ghost use Rattle.csv.specs.Records.{fields_of};
ghost use Rattle.sig_bits.specs.Device.{IsAtEnd};
ghost use Rattle.sig_table.specs.Loading.{is_of_signatures, pair_of, pairs_of, index_in, records_of, signatures_of, table_of};
ghost use Rattle.sig_table.specs.Judging.{IsFault, Exact, is_read};
ghost use Rattle.sig_table.specs.Reads.{ReadsToEnd, TellsFailedReads, run_of};
ghost use Rattle.sig_table.specs.Tables.{ArePriorities, HasAllSignatures, IsTable};
ghost use Rattle.sig_table.specs.declared.error.TableError.{TableError};

use crate::draft::Draft;
use crate::priority::Priority;
use crate::ranking::Ranking;
use crate::reading::{FromRows, read_file};
use crate::row::{field, read_puid, read_row};
use crate::{FormatId, Puid, Table, TableError, TableFile};
use csv::ByteRecord;
use indexmap::IndexSet;
use sig_bits::{Input, ReadWholeError, read_whole};
use std::alloc::Global;
use std::marker::Model;

impl Table {
    /// Reads the signature file whole and judges it, then the priority file.
    ///
    /// Equal rows are kept. A read that fails ends the load.
    pub fn load<A: Input, B: Input>(
        alloc: Global,
        signatures: &mut A,
        priorities: &mut B,
    ) -> Result<Table, TableError>
        // The table of the records, or their first fault.
        ensures exact { (s p : List ℕ) → A.to_come signatures.old ≡ Some s → B.to_come priorities.old ≡ Some p
            → Exact result (table_of (records_of s) (records_of p)) }

        // A table is within its limits, and each format has a signature.
        ensures limits { IfOk result (λ table. IsTable table × HasAllSignatures table) }

        // A fault of the signature file is found in that file alone, and leaves the other as it
        // was.
        ensures first { (s : List ℕ) (fault : TableError) → A.to_come signatures.old ≡ Some s → signatures_of (records_of s) ≡ Err fault
            → Exact result (Err fault) × (IsErrOf result (TableError.Read TableFile.Priorities) → ⊥) × (priorities.new ≡ priorities.old) }
        ensures untouched { IfErr result (λ e. is_of_signatures e ≡ true → priorities.new ≡ priorities.old) }

        // A file is judged once it was read to its end, and a failed read is told.
        ensures reads { ReadsToEnd result (run_of A.failed A.to_come signatures.old signatures.new) (run_of B.failed B.to_come priorities.old priorities.new) }
        ensures failed { TellsFailedReads result (run_of A.failed A.to_come signatures.old signatures.new) (run_of B.failed B.to_come priorities.old priorities.new) }
    {
        let text = read_text(alloc, signatures, TableFile::Signatures)?;
        let draft = read_signatures(alloc, &text)?;
        let text = read_text(alloc, priorities, TableFile::Priorities)?;
        let pairs = read_priorities(alloc, &draft, &text)?;
        draft.into_table(alloc, pairs)
    }
}

// All bytes of a file.
fn read_text<R: Input>(alloc: Global, input: &mut R, file: TableFile) -> Result<Vec<u8>, TableError>
    ensures text { IfOk result (λ t. IfSome (R.to_come input.old) (λ all. t.items ≡ all)) }
    ensures at_end { OnOk result (IsAtEnd (R.to_come input.new)) }
    ensures sound { OnOk result (R.failed input.new ≡ false) }
    ensures was_sound { OnOk result (R.failed input.old ≡ false) }
    ensures fault { IfErr result (λ e. ((e ≡ TableError.OutOfMemory) × (R.failed input.new ≡ R.failed input.old))
        ⊎ ((e ≡ TableError.Read file) × (R.failed input.new ≡ true))) }
{
    match read_whole(alloc, input) {
        Ok(text) => Ok(text),
        Err(ReadWholeError::Read) => Err(TableError::Read { file }),
        Err(ReadWholeError::OutOfMemory) => Err(TableError::OutOfMemory),
    }
}

// The formats and signatures of the signature file.
fn read_signatures(alloc: Global, text: &[u8]) -> Result<Draft, TableError>
    ensures { MatchResult result
        (λ draft. signatures_of (records_of text.now) ≡ Ok draft)
        (λ e. IsFault (signatures_of (records_of text.now)) e) }
{
    read_file(alloc, TableFile::Signatures, text, Draft::new(alloc))
}

impl FromRows for Draft {
    ghost use Rattle.sig_table.specs.Loading.{with_record};

    ghost judge = { with_record };

    fn with_row(
        self,
        alloc: Global,
        fields: &ByteRecord,
        row_number: usize,
    ) -> Result<Draft, TableError> {
        let row = read_row(alloc, fields, row_number)?;
        self.add(alloc, row, row_number)
    }
}

// The pairs of the priority file, of the formats of the draft.
fn read_priorities(
    alloc: Global,
    draft: &Draft,
    text: &[u8],
) -> Result<IndexSet<Priority>, TableError>
    ensures pairs { MatchResult result
        (λ pairs. pairs_of draft.now.formats (records_of text.now) ≡ Ok pairs.keys)
        (λ e. (is_of_signatures e ≡ false) × IsFault (pairs_of draft.now.formats (records_of text.now)) e) }
    ensures limits { IfOk result (λ pairs. ArePriorities (length draft.now.formats) pairs.keys) }
{
    let start = PairRows::new(alloc, draft.formats())?;
    let rows = read_file(alloc, TableFile::Priorities, text, start)?;
    Ok(rows.into_pairs())
}

// The pairs of the rows so far, and the formats that they are of.
#[derive(Drop)]
struct PairRows<'a> {
    formats: &'a IndexSet<Puid>,
    ranking: Ranking,
}

impl<'a> Model for PairRows<'a> {
    ghost use Rattle.std.specs.Prelude.{◌≡◌, ◌≤◌, length};
    ghost use Rattle.sig_table.specs.Files.{PairRowsView};

    ghost Value = { PairRowsView };

    ghost view = { λ r. record { formats = r.formats.now.keys; pairs = r.ranking.pairs } };

    ghost invariant = { λ r. (length r.formats.now.keys ≤ 1000) × (r.ranking.format_count ≡ length r.formats.now.keys) };
}

impl<'a> PairRows<'a> {
    // No row yet.
    fn new(alloc: Global, formats: &'a IndexSet<Puid>) -> Result<PairRows<'a>, TableError>
        requires { length formats.now.keys ≤ 1000 }
        ensures start { IfOk result (λ rows. rows ≡ record { formats = formats.now.keys; pairs = [] }) }
        ensures memory { IfErr result (λ e. e ≡ TableError.OutOfMemory) }
    {
        match Ranking::new(alloc, formats.len()) {
            Ok(ranking) => Ok(PairRows { formats, ranking }),
            Err(_) => Err(TableError::OutOfMemory),
        }
    }

    fn into_pairs(self) -> IndexSet<Priority>
        ensures pairs { result.keys ≡ self.entry.pairs }
        ensures limits { ArePriorities (length self.entry.formats) result.keys }
    {
        self.ranking.into_pairs()
    }
}

impl FromRows for PairRows<'_> {
    ghost use Rattle.sig_table.specs.Files.{with_pair_row};

    ghost judge = { with_pair_row };

    fn with_row(
        self,
        _: Global,
        fields: &ByteRecord,
        row_number: usize,
    ) -> Result<Self, TableError> {
        let PairRows { formats, ranking } = self;
        let pair = read_pair(formats, fields, row_number)?;
        let ranking = ranking.add(pair, row_number)?;
        Ok(PairRows { formats, ranking })
    }
}

// The pair that the record writes, of these formats. Both PUIDs are read before either is looked
// for: in a row with an unknown format and a text that is no PUID, that text is the fault.
#[tactic(auto, unfolding(crate::specs::Loading::pair_of))]
pub(crate) fn read_pair(
    formats: &IndexSet<Puid>,
    line: &ByteRecord,
    row_number: usize,
) -> Result<Priority, TableError>
    requires { length formats.now.keys ≤ 1000 }
    ensures pair { result ≡ pair_of formats.now.keys row_number (fields_of line.now) }
    ensures no_read { IfErr result (λ e. is_read e ≡ false) }
    ensures higher { IfOk result (λ pair. pair.0 < length formats.now.keys) }
    ensures lower { IfOk result (λ pair. pair.1 < length formats.now.keys) }
    ensures other { IfOk result (λ pair. ¬ (pair.0 ≡ pair.1)) }
{
    let file = TableFile::Priorities;
    if line.len() != 2 {
        return Err(TableError::Fields {
            file,
            row: row_number,
        });
    }
    let higher = read_puid(field(line, 0), file, row_number)?;
    let lower = read_puid(field(line, 1), file, row_number)?;
    let higher = read_format(formats, &higher, row_number)?;
    let lower = read_format(formats, &lower, row_number)?;
    if higher == lower {
        return Err(TableError::PrioritySelf { row: row_number });
    }
    Ok(Priority::new(higher, lower))
}

// The index of the format of this name.
fn read_format(
    formats: &IndexSet<Puid>,
    puid: &Puid,
    row_number: usize,
) -> Result<FormatId, TableError>
    requires { length formats.now.keys ≤ 1000 }
    ensures format { IfOk result (λ format. index_in formats.now.keys puid.now ≡ Some format.0) }
    ensures unknown { IfErr result (λ e. (index_in formats.now.keys puid.now ≡ None) × (e ≡ TableError.PriorityUnknown row_number)) }
    ensures within { IfOk result (λ format. format.0 < length formats.now.keys) }
{
    match formats.get_index_of(puid) {
        Some(index) => Ok(FormatId(index as u16)),
        None => Err(TableError::PriorityUnknown { row: row_number }),
    }
}
