//! The command line of `pronom_sig`: what its arguments ask for, and the status, the lines and the
//! fault that come of it. What each subcommand reads and writes is `sig_engines`.
//!
//! `run` answers the arguments that the program was started with. `command` answers arguments that
//! are given, over the files of the system, and `command_over` over any store of files: its clauses
//! say most, since they can name what the files hold.
//!
//! `specs/CommandLine.antt` says what arguments ask for, `Requests` and `Several` what answers a
//! request and which faults it has, `Faults` and `Statuses` the line and the status of a fault, and
//! `Endings` what each status says of both outputs. `laws.rt` has what follows for arguments and
//! tables.
#![tactic(auto)]

mod args;
mod fault;
mod help;
mod laws;
mod requests;

pub use laws::{
    accepted_tables_match_each_once, accepted_tables_match_once, words_are_taken,
    words_leave_out_priorities, words_name_files,
};
pub use requests::{command, command_over, run};
