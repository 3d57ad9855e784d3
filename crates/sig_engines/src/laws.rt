//! Laws of what the engines write.
//!
//! Of a decided table `match` writes `fmt/1 7` of a file, say, or nothing, and never a second line.
//! Each law is of definitions alone: it says that of an engine only together with the clauses of
//! its call. What the lines of an answer are stands in `specs/`.

ghost use Rattle.std.specs.Prelude.{◌≡◌, ◌≤◌, ◌++◌, ◌∷◌, ℕ, [], false, flat_map, List, None, Option, Some, length, true};
ghost use Rattle.std.specs.Borrow.{Bor};
ghost use Rattle.csv.specs.Reading.{AreRecords, default_config, strip_bom};
ghost use Rattle.csv.specs.declared.parser.State.TheVariants as st;
ghost use Rattle.sig_bits.specs.Device.{Adds};
ghost use Rattle.sig_cert.specs.Deciding.{Decided};
ghost use Rattle.sig_engines.specs.FileTexts.{file_text, head_record, head_text, records_of_file};
ghost use Rattle.sig_engines.specs.FormatNames.{NameList};
ghost use Rattle.sig_engines.specs.Lines.{AddsLinesOfSome, AreLinesOfSome, file_lines, lines_of};
ghost use Rattle.sig_engines.specs.Stores.{Files, IsTableOf};
ghost use Rattle.sig_engines.specs.declared.store.TablePaths.{TablePaths};
ghost use Rattle.sig_core.specs.declared.results.Hit.{Hit};
ghost use Rattle.sig_table.specs.Views.{TableView};

/// Of a decided table `match` without `--all` never writes two lines of a file, also where nothing
/// is known of the file's bytes.
pub fn two_lines_are_never_added()
    ensures alone { (table : TableView) (to_come before after : Option (List ℕ)) → Decided table → AddsLinesOfSome false table to_come before after
        → (hits : List Hit) × (length hits ≤ 1) × Adds before (lines_of table hits) after }
    ensures named { (table : TableView) (name to_come : Option (List ℕ)) (lines : List ℕ) → Decided table → AreLinesOfSome false table name to_come lines
        → (hits : List Hit) × (length hits ≤ 1) × (lines ≡ file_lines name table hits) }
{}

/// What is written of files with `--csv`, read by `csv`, is the names of the fields and then the
/// records of each file, whatever bytes the names have.
pub fn records_are_read_back()
    ensures { (names : Option (Bor NameList)) (table : TableView) (files : List (List ℕ × List Hit))
        → AreRecords default_config st.StartRecord (strip_bom (head_text true ++ flat_map (λ f. file_text true names f.0 table f.1) files))
        (head_record ∷ flat_map (λ f. records_of_file names f.0 table f.1) files) }
{}

/// Files of which none is of priorities have a table without priorities.
pub fn no_priorities_are_read()
    ensures { (files : Files) (paths : TablePaths) (table : TableView) → paths.priorities ≡ None
        → IsTableOf (Some files) paths table → table.priorities ≡ [] }
{}
