//! Laws of faults, said of whole files: against which rows a row is judged.
//!
//! Where the second of three rows is told, the first and the third load in a file of their own, and
//! what is said of the third is what the loader says of it behind the first.

ghost use Rattle.std.specs.Prelude.{◌≡◌, ◌++◌, ◌∷◌, ℕ, ◌+◌, ◌≤◌, [], true, false, All, List, Ok, length};
ghost use Rattle.sig_table.specs.declared.puid.Puid.{Puid};
ghost use Rattle.sig_table.specs.Judging.{Records, passed};
ghost use Rattle.sig_table.specs.Loading.{empty_table, is_priority_header, is_signature_header, pairs_of, signatures_of, with_record};
ghost use Rattle.sig_table.specs.Views.{TableView};
ghost use Rattle.sig_lint.specs.Names.{has_signature_header, names_of};
ghost use Rattle.sig_lint.specs.Faults.{done_by, faultless, faults_from, is_unknown, pair_row_fault, priority_faults, row_fault, told, with_named_pair};

use sig_table::rows_are_spelled;

/// The rows of a signature file that have no fault load, in a file of their own. The table that
/// they give is the one against which a later row is judged.
pub fn faultless_rows_load()
    ensures { (header : List (List ℕ)) (rows : Records) → is_signature_header header ≡ true
        → signatures_of (header ∷ faultless with_record 1 empty_table rows) ≡ Ok (done_by with_record 1 empty_table rows) }
{
    rows_are_spelled();
}

/// The rows of a priority file that have no fault load, in a file of their own, among at most 1,000
/// formats. Their pairs are those against which a later row is judged.
pub fn faultless_pairs_load()
    ensures { (names : List Puid) (header : List (List ℕ)) (rows : Records) → length names ≤ 1000 → is_priority_header header ≡ true
        → pairs_of names (header ∷ faultless (with_named_pair names) 1 [] rows) ≡ Ok (done_by (with_named_pair names) 1 [] rows) }
{}

/// Where the signature file has no header, no format of the priority file is told as unknown.
pub fn every_name_is_known()
    ensures { (signatures priorities : Records) → has_signature_header signatures ≡ false
        → All (λ fault. is_unknown fault.error ≡ false) (priority_faults (names_of signatures priorities) priorities) }
{}

/// What is told of a row is what the loader says of it behind the rows before it that have no
/// fault. Behind it, the others are judged in the same way.
pub fn rows_are_judged_behind_faultless_ones()
    ensures rows { (n : ℕ) (t : TableView) (earlier later : Records) (fields : List (List ℕ))
        → let here = passed (done_by with_record n t earlier) (with_record (n + length earlier) (done_by with_record n t earlier) fields)
        in faults_from row_fault with_record n t (earlier ++ fields ∷ later) ≡ faults_from row_fault with_record n t earlier ++ (told row_fault fields here.1 ++ faults_from row_fault with_record (n + length earlier + 1) here.0 later) }

    ensures pairs { (names : List Puid) (n : ℕ) (pairs : List (ℕ × ℕ)) (earlier later : Records) (fields : List (List ℕ))
        → let here = passed (done_by (with_named_pair names) n pairs earlier) (with_named_pair names (n + length earlier) (done_by (with_named_pair names) n pairs earlier) fields)
        in faults_from (pair_row_fault names) (with_named_pair names) n pairs (earlier ++ fields ∷ later)
        ≡ faults_from (pair_row_fault names) (with_named_pair names) n pairs earlier ++ (told (pair_row_fault names) fields here.1 ++ faults_from (pair_row_fault names) (with_named_pair names) (n + length earlier + 1) here.0 later) }
{}
