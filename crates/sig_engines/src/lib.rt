//! The engines: what each subcommand reads and writes, over any input, any output and any store of
//! files. They read no arguments and print no help, so another program can call them.
//!
//! `run_match`, `run_match_many`, `run_show`, `run_lint`, `run_find`, `run_check` and `run_witness`
//! are subcommands; `run_match_listed` is `run_match_many` of names in a list, `settle` is
//! `conflicts` and `find_dead` is `dead`, and `run_conflicts` and `run_dead` are the same without
//! reports. But for those of many files and these four, each has its whole answer before it writes:
//! after a failed read, and where memory runs out, the output is as it was. A fault says that a
//! read or a write failed only where one did.
//!
//! What each adds to an output stands in `specs/`: `Lines`, `FormatNames`, `FileTexts`, `Listed`,
//! `ManyFiles`, `Shown`, `Linted`, `Finding`, `Judged`, `Witnessed`, `Conflicts`, `Fates` and
//! `Progress`. `Asks` says which pairs `conflicts` is asked for, and `ClassTexts` how their classes
//! are written and counted. `Stores` says what a store of files holds and makes, and
//! `PriorityInputs` where the priorities of a table come from.
#![tactic(auto)]

mod ask;
mod check_engine;
mod conflicts_engine;
mod counted;
mod counts;
mod dead_engine;
mod error;
mod fate_lines;
mod file_progress;
mod file_text;
mod find_engine;
mod folder_engine;
mod forced;
mod format_names;
mod laws;
mod lines;
mod lint_engine;
mod many_engine;
mod match_engine;
mod name_piece;
mod name_reader;
mod named_file;
mod note;
mod pair_lines;
mod priority_input;
mod progress;
mod settling;
mod show_engine;
mod store;
mod summary;
mod tally;
mod witness_engine;
mod witness_name;
mod writing;

pub use ask::{ConflictsAsk, ConflictsRun, DeadAsk, FindAsk, MatchAsk, MatchRun, format_named};
pub use check_engine::run_check;
pub use conflicts_engine::{PairsAnswer, run_conflicts};
pub use dead_engine::{find_dead, run_dead};
pub use error::{CutShort, FileFault, NameFault, PairsFault, RunError};
pub use find_engine::run_find;
pub use format_names::{FormatNames, NamesError};
pub use laws::{no_priorities_are_read, records_are_read_back, two_lines_are_never_added};
pub use lint_engine::run_lint;
pub use many_engine::{run_match_listed, run_match_many};
pub use match_engine::run_match;
pub use name_reader::NameReader;
pub use priority_input::PriorityInput;
pub use progress::Things;
pub use settling::settle;
pub use show_engine::run_show;
pub use store::{Entry, EntryKind, Store, SystemFiles, TablePaths};
pub use witness_engine::run_witness;
pub use witness_name::{FormatName, WitnessName, put_path};
pub use writing::{put, put_number};
