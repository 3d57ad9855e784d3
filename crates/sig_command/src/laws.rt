//! Laws of the command line.
//!
//! `accepted_tables_match_once` and `accepted_tables_match_each_once` are what a certificate is
//! for: if `check` accepts one of a table, `match` without `--all` names at most one format for a
//! file. `words_are_taken` and `words_name_files` say on examples of each subcommand which words
//! are taken, and which of them names which file, and `words_leave_out_priorities` says it of words
//! with `--no-priorities`. The examples are lines of words, in `specs/Examples.antt`.

ghost use Rattle.std.specs.Borrow.{Bor};
ghost use Rattle.std.specs.Prelude.{◌≡◌, ◌≤◌, ℕ, Bool, List, None, Option, Some, false, true, [], ◌∷◌, codes, flat_map, length, map};
ghost use Rattle.std.specs.List.{list_all};
ghost use Rattle.sig_bits.specs.Device.{Adds};
ghost use Rattle.sig_command.specs.Examples.{all_in, fault_of_line, file_examples, first_in, lone_file_examples, lone_lines, lone_value_examples, one_in, read_examples, table_in, table_lines, taken_lines, takes_line, value_examples, value_of};
ghost use Rattle.sig_command.specs.Requests.{Answers, AsksEach};
ghost use Rattle.sig_command.specs.Several.{AddsOneLineOfEach, AreVisitsOf};
ghost use Rattle.sig_command.specs.declared.args.FileNames.{FileNames};
ghost use Rattle.sig_command.specs.declared.args.MatchOptions.{MatchOptions};
ghost use Rattle.sig_command.specs.declared.args.Request.TheVariants.{Check, Match, MatchMany};
ghost use Rattle.sig_engines.specs.Stores.{Files};
ghost use Rattle.sig_engines.specs.declared.ask.MatchAsk.{MatchAsk};
ghost use Rattle.sig_engines.specs.Lines.{lines_of};
ghost use Rattle.sig_engines.specs.declared.store.TablePaths.{TablePaths};
ghost use Rattle.sig_core.specs.declared.results.Hit.{Hit};
ghost use Rattle.sig_table.specs.Views.{TableView};

use clap::error::ErrorKind;

/// If a certificate of a table is accepted, `match` of one file without `--all` never writes two
/// lines: of whatever store that tells what its files hold, of whatever file there, and whoever
/// made the certificate.
pub fn accepted_tables_match_once()
    ensures { (files : Files) (table : TablePaths) (certificate name : Bor (List ℕ)) (is_yes : Bool)
        (checked_before checked_after before after : Option (List ℕ))
        → Answers (Some files) (Check table certificate) true checked_before checked_after
        → Answers (Some files) (Match false table name) is_yes before after
        → (t : TableView) × (hits : List Hit) × (length hits ≤ 1) × Adds before (lines_of t hits) after }
{}

/// The same of each of many files, whether words or a list name them: each has one line or record,
/// of a format or of none.
pub fn accepted_tables_match_each_once()
    ensures { (files : Files) (table : TablePaths) (certificate : Bor (List ℕ)) (options : MatchOptions) (names : FileNames) (is_yes : Bool)
        (checked_before checked_after before after : Option (List ℕ)) → options.all ≡ false
        → Answers (Some files) (Check table certificate) true checked_before checked_after
        → Answers (Some files) (MatchMany options table names) is_yes before after
        → (t : TableView) × (ask : MatchAsk) × AsksEach (Some files) options ask
        × AddsOneLineOfEach ask t (AreVisitsOf ask (Some files) names) before after }
{}

/// Words that name all files are taken, also where `match` has several, and no fault is found in
/// them, so they ask for no help. A budget of zero is refused. `--help` alone asks for help, and
/// `--version` for the version.
pub fn words_are_taken()
    ensures taken { list_all takes_line taken_lines ≡ true }
    ensures no_fault { flat_map fault_of_line taken_lines ≡ [] }
    ensures refused { takes_line (codes "find --budget 0 --out a b c") ≡ false }
    ensures help { fault_of_line (codes "--help") ≡ ErrorKind.DisplayHelp ∷ [] }
    ensures version { fault_of_line (codes "--version") ≡ ErrorKind.DisplayVersion ∷ [] }
{}

/// The words behind a subcommand are the signatures, the priorities and then what else it takes,
/// and the word behind an option is its value. A flag is read as `true` where it is among the
/// words. Behind `--` a flag is a file.
pub fn words_name_files()
    ensures tables { map table_in table_lines ≡ map (λ line. (Some (codes "a"), Some (codes "b"))) table_lines }
    ensures files { map all_in file_examples ≡ map value_of file_examples }
    ensures values { map first_in value_examples ≡ map value_of value_examples }
    ensures read { map one_in read_examples ≡ map value_of read_examples }
{}

/// With `--no-priorities` among the words none of them names a priority file: the one behind the
/// signatures is what else the subcommand takes. No option takes the flag for its value.
pub fn words_leave_out_priorities()
    ensures taken { list_all takes_line lone_lines ≡ true }
    ensures tables { map table_in lone_lines ≡ map (λ line. (Some (codes "a"), None)) lone_lines }
    ensures files { map all_in lone_file_examples ≡ map value_of lone_file_examples }
    ensures values { map first_in lone_value_examples ≡ map value_of lone_value_examples }
    ensures no_second { takes_line (codes "show --no-priorities a b") ≡ false }
    ensures no_value { takes_line (codes "find a b --out --no-priorities") ≡ false }
{}
