//! Laws of tables and their texts: what the fold over the rows of a file comes to, said without it.
//!
//! `rows_are_gathered` has the table of each file that loads, `first_fault_is_told` the fault of
//! each other one. By `written_is_loaded` the canonical files load as the table that they are of.

ghost use Rattle.std.specs.Prelude.{◌≡◌, ◌↔◌, ℕ, ◌<◌, List, [], All, Contains, length, Err, Ok, Some};
ghost use Rattle.sig_table.specs.Judging.{Records};
ghost use Rattle.sig_table.specs.declared.error.TableError.{TableError};
ghost use Rattle.sig_table.specs.declared.puid.Puid.{Puid};
ghost use Rattle.sig_table.specs.declared.row.Row.{Row};
ghost use Rattle.sig_table.specs.Rows.{row_of};
ghost use Rattle.sig_table.specs.RowTexts.{IsPriorityTextFault, IsRowTextFault, PriorityText, RowText};
ghost use Rattle.sig_table.specs.Canonical.{priority_csv, signature_csv};
ghost use Rattle.sig_table.specs.Gathered.{IsFaultOf, IsTableOf};
ghost use Rattle.sig_table.specs.Views.{TableView};
ghost use Rattle.sig_table.specs.Loading.{pair_of, pairs_of, records_of, signatures_of, table_of};
ghost use Rattle.sig_table.specs.Puids.{puid_of, puid_text};
ghost use Rattle.sig_table.specs.PriorityRows.{ArePairsOf, IsPriorityFaultOf};
ghost use Rattle.sig_table.specs.Ranked.{ranked};
ghost use Rattle.sig_table.specs.Ranking.{NoCycle, Outranks};
ghost use Rattle.sig_table.specs.Tables.{AllDifferent, HasAllSignatures, IsNumber, IsTable};

/// What a PUID prints is read as that PUID.
pub fn printed_is_read()
    ensures { (puid : Puid) → IsNumber puid.number → puid_of (puid_text puid) ≡ Some puid }
{}

/// The table of a signature file is that of its rows: the different PUIDs and numbers in order of
/// first row, and for each number its rows' sequences in row order. No row has a fault. And each
/// table of rows without a fault is given.
pub fn rows_are_gathered()
    ensures { (file : Records) (table : TableView) → signatures_of file ≡ Ok table ↔ IsTableOf file table }
{}

/// A refused signature file has no header, or a first faulty row: those before it make a table, and
/// the fault is the first that the row has. And each such fault is given.
pub fn first_fault_is_told()
    ensures { (file : Records) (fault : TableError) → signatures_of file ≡ Err fault ↔ IsFaultOf file fault }
{}

/// A record gives a row exactly where its fields are the texts of the row's parts.
pub fn rows_are_spelled()
    ensures { (row_number : ℕ) (fields : List (List ℕ)) (row : Row) → row_of row_number fields ≡ Ok row ↔ RowText fields row }
{}

/// A record gives no row exactly where it has a fault of the signature file's fields, and the first
/// is told: not six, no PUID, no signature number, no word of a position, no offsets of that word,
/// no expression.
pub fn rows_are_refused()
    ensures { (row_number : ℕ) (fields : List (List ℕ)) (fault : TableError) → row_of row_number fields ≡ Err fault ↔ IsRowTextFault row_number fields fault }
{}

/// A record of the priority file gives a pair exactly where its fields are the PUIDs of the pair's
/// two formats, in a table's formats.
pub fn pairs_are_spelled()
    ensures { (formats : List Puid) → All (λ p. IsNumber p.number) formats → AllDifferent formats
        → (row : ℕ) (fields : List (List ℕ)) (pair : ℕ × ℕ) → pair_of formats row fields ≡ Ok pair ↔ PriorityText formats fields pair }
{}

/// A record gives no pair exactly where it has a fault of the priority file's fields, and the first
/// is told: not two, one that is no PUID, one that is no format's, both the same.
pub fn pairs_are_refused()
    ensures { (formats : List Puid) (row : ℕ) (fields : List (List ℕ)) (fault : TableError) → pair_of formats row fields ≡ Err fault ↔ IsPriorityTextFault formats row fields fault }
{}

/// The pairs of a priority file are those of its rows, in their order: none stands twice, and they
/// make no cycle. And all such pairs are given.
pub fn pairs_are_listed()
    ensures { (formats : List Puid) (file : Records) (pairs : List (ℕ × ℕ)) → pairs_of formats file ≡ Ok pairs ↔ ArePairsOf formats file pairs }
{}

/// A refused priority file has no header, or a first faulty row: those before it give priorities,
/// and it writes no pair, or one of theirs, or else one that makes a cycle with them. And each such
/// fault is given.
pub fn first_priority_fault_is_told()
    ensures { (formats : List Puid) (file : Records) (fault : TableError) → pairs_of formats file ≡ Err fault ↔ IsPriorityFaultOf formats file fault }
{}

/// Loading what was written gives the same table, where each format has a signature.
///
/// A format without one has no row, so the signature file does not name it.
pub fn written_is_loaded()
    // The signature file gives the formats and the signatures.
    ensures signatures { (t : TableView) → IsTable t → HasAllSignatures t → signatures_of (records_of (signature_csv t)) ≡ Ok (record t { priorities = [] }) }

    // Both files give the table.
    ensures table { (t : TableView) → IsTable t → HasAllSignatures t → table_of (records_of (signature_csv t)) (records_of (priority_csv t)) ≡ Ok t }
{}

/// Other priorities, as they are written, load beside the signature file that gave a table.
pub fn written_priorities_are_loaded()
    ensures { (signatures priorities : Records) (t : TableView) (pairs : List (ℕ × ℕ)) → IsTable (ranked t pairs) → table_of signatures priorities ≡ Ok t
        → table_of signatures (records_of (priority_csv (ranked t pairs))) ≡ Ok (ranked t pairs) }
{}

/// Where pairs make no cycle, every nonempty list of formats has a member that no member outranks.
pub fn some_is_not_outranked()
    ensures { (pairs : List (ℕ × ℕ)) (formats : List ℕ) → NoCycle pairs → 0 < length formats
        → (f : ℕ) × Contains formats f × ((g : ℕ) → Contains formats g → ¬ Outranks pairs g f) }
{}
