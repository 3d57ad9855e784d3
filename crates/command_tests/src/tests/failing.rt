//! The program where its outputs fail.

use crate::tests::{F, P, S, make_with, put, remove, words_in};
use fixtures::{Broken, NONE, Rows};
use sig_bits::FromWrite;
use sig_command::command;
use std::test::Fail;

// Whether the program, run with a broken output, reports just that.
fn is_unwritten(rt: &HostRuntime, folder: &str, words: &[&str]) -> Result<bool, Fail> {
    let words = words_in(rt, folder, words)?;
    let mut out = Broken::new();
    let mut err = FromWrite::new(Vec::new(rt.alloc()));
    let status = command(rt, rt.stdin(), words.as_slice(), &mut out, &mut err);
    let faults = err.into_inner();
    Ok(status == 3 && faults.as_slice() == b"write failed\n".as_slice())
}

// Runs the program where nothing can be reported, and gives the status.
fn run_unreported(rt: &HostRuntime, folder: &str, words: &[&str]) -> Result<u8, Fail> {
    let words = words_in(rt, folder, words)?;
    let mut out = FromWrite::new(Vec::new(rt.alloc()));
    let mut err = Broken::new();
    Ok(command(rt, rt.stdin(), words.as_slice(), &mut out, &mut err))
}

const ONE_WORD: Rows = Rows("fmt/1,1,BOF,0,,4142\n", "");

// Words for which something is written.
const WRITTEN: &[&[&str]] = &[
    &["match", S, P, F],
    &["show", S, P],
    &["lint", S, P],
    &["lint", S, F],
    &["--help"],
];

#[test]
fn reports_an_answer_that_is_not_written(rt: HostRuntime) -> Result<(), Fail> {
    let folder = "unwritten";
    make_with(&rt, folder, ONE_WORD)?;
    put(&rt, folder, "file.bin", b"AB")?;
    for words in WRITTEN {
        assert!(rt; is_unwritten(&rt, folder, words)?, "{words:?}");
    }
    remove(&rt, folder)
}

// Words with a fault, and the status of that fault.
const UNREPORTED: &[(&[&str], u8)] = &[
    (&["look"], 2),
    (&["show", "@/refused.csv", P], 2),
    (&["show", "none.csv", P], 3),
    (&["lint", "@/refused.csv", P], 2),
];

#[test]
fn keeps_the_status_of_a_fault_that_is_not_reported(rt: HostRuntime) -> Result<(), Fail> {
    let folder = "unreported";
    make_with(&rt, folder, NONE)?;
    put(&rt, folder, "refused.csv", b"puid\n")?;
    for (words, status) in UNREPORTED {
        assert!(rt; run_unreported(&rt, folder, words)? == *status, "{words:?}");
    }
    remove(&rt, folder)
}
