//! The program: matches files against a table of signatures, shows tables, finds and judges
//! certificates, and tells which pairs of formats of a table one file can leave.
//!
//! All that it does is `run` of `sig_command`, over the words that it was started with.
#![tactic(auto)]

use sig_bits::FromWrite;
use sig_command::run;
use std::io;
use std::process::ExitCode;

fn main(rt: HostRuntime) -> ExitCode {
    let mut out = FromWrite::new(io::writer(&rt));
    let mut err = FromWrite::new(rt.stderr());
    ExitCode::from(run(&rt, rt.stdin(), &mut out, &mut err))
}
