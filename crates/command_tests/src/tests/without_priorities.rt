//! `--no-priorities` through the program: every subcommand without a priority file. The one that
//! lies beside the table is refused where it is read, so an answer shows that it is not.

use crate::tests::{F, Fault, O, P, S, first_untold, make_with, path_in, put, remove, run_in};
use fixtures::Rows;
use std::fs;
use std::test::Fail;

// Each file of the second format is one of the first. The priority file names a format that is not
// in the table.
const NESTED: Rows = Rows(
    "fmt/1,1,BOF,0,0,41\nfmt/2,2,BOF,0,0,4142\n",
    "fmt/9,fmt/9\n",
);

// A file, the words, the status, and what is answered.
struct Answered(&'static [u8], &'static [&'static str], u8, &'static str);

const SHOWN: &str = "puid,signature,position,offset,max_offset,expression\n\
    fmt/1,1,BOF,0,0,41\nfmt/2,2,BOF,0,0,4142\n\nhigher,lower\n";

const ANSWERED: &[Answered] = &[
    Answered(b"", &["show", "--no-priorities", S], 0, SHOWN),
    Answered(b"", &["show", S, "--no-priorities"], 0, SHOWN),
    Answered(b"", &["show", "--no-priorities", "--", S], 0, SHOWN),
    Answered(b"", &["lint", "--no-priorities", S], 0, "no fault\n"),
    Answered(
        b"AB",
        &["match", "--no-priorities", S, F],
        0,
        "fmt/1 1\nfmt/2 2\n",
    ),
    Answered(b"A", &["match", S, "--no-priorities", F], 0, "fmt/1 1\n"),
    Answered(
        b"AB",
        &["match", "--all", "--no-priorities", S, F],
        0,
        "fmt/1 1\nfmt/2 2\n",
    ),
    Answered(
        b"",
        &["find", "--no-priorities", "--hex", "--out", O, S],
        0,
        "witness fmt/1 fmt/2\n4142\n",
    ),
    Answered(
        b"",
        &["conflicts", "--no-priorities", "--hex", S],
        1,
        "ambiguous fmt/1 fmt/2 1 2 2 4142\npairs 1 decided 0 ambiguous 1 unknown 0\n",
    ),
    Answered(
        b"",
        &["dead", "--no-priorities", "--hex", S],
        0,
        "alive fmt/1 1 1 41\nalive fmt/2 2 2 4142\n\
         formats 2 alive 2 dead 0 unknown 0 signatures 2 alive 2 dead 0 unknown 0\n",
    ),
    // A pair of which one outranks the other would have the kind 0, and no more.
    Answered(
        b"PSAC\x01\x00\x00\x00\x01\x00",
        &["check", "--no-priorities", S, F],
        1,
        "refused C4 kind pair 0\n",
    ),
    Answered(
        b"AB",
        &["witness", "--no-priorities", S, F],
        0,
        "ambiguous fmt/1 fmt/2\n",
    ),
];

// Whether the program answers so of this file.
fn is_answered(rt: &HostRuntime, folder: &str, row: &Answered) -> Result<bool, Fail> {
    let Answered(file, words, status, out) = *row;
    put(rt, folder, "file.bin", file)?;
    Ok(run_in(rt, folder, words)?.is(status, out, ""))
}

#[test]
fn each_subcommand_answers_without_a_priority_file(rt: HostRuntime) -> Result<(), Fail> {
    let folder = "without";
    make_with(&rt, folder, NESTED)?;
    for row in ANSWERED {
        assert!(rt; is_answered(&rt, folder, row)?, "{:?}", row.1);
    }
    remove(&rt, folder)
}

// Files that are not there, a text that is no table, and words behind `--`.
const FAULTS: &[Fault] = &[
    Fault(
        &["match", "--no-priorities", "none.csv", "none"],
        3,
        "cannot open none.csv\n",
    ),
    Fault(
        &["match", "--no-priorities", S, "none"],
        3,
        "cannot open none\n",
    ),
    Fault(
        &["match", "--no-priorities", P, "none"],
        2,
        "signatures: L2 header\n",
    ),
    Fault(&["lint", "--no-priorities", "@"], 3, "read failed\n"),
    Fault(
        &["show", S, "--", "--no-priorities"],
        3,
        "cannot open --no-priorities\n",
    ),
    Fault(&["show", S, P], 2, "priorities row 1: L13 unknown format\n"),
];

#[test]
fn the_flag_leaves_other_faults_as_they_are(rt: HostRuntime) -> Result<(), Fail> {
    let folder = "without_faults";
    make_with(&rt, folder, NESTED)?;
    let untold = first_untold(&rt, folder, FAULTS)?;
    assert!(rt; untold.is_none(), "{untold:?}");
    remove(&rt, folder)
}

#[test]
fn forced_pairs_stand_behind_a_header_alone(rt: HostRuntime) -> Result<(), Fail> {
    let folder = "without_forced";
    make_with(&rt, folder, NESTED)?;
    let words = [
        "conflicts",
        "--no-priorities",
        "--priorities",
        "@/made.csv",
        S,
    ];
    let lines = "ambiguous fmt/1 fmt/2 1 2 2\npairs 1 decided 0 ambiguous 1 unknown 0\n";
    assert!(rt; run_in(&rt, folder, &words)?.is(1, lines, ""));
    let path = path_in(&rt, folder, "made.csv")?;
    let made = fs::read(&rt, path.as_str())?;
    assert!(rt; made.as_slice() == b"higher,lower\nfmt/2,fmt/1\n".as_slice());
    remove(&rt, folder)
}

// Words with the flag that are refused, and how the text that says so begins.
const WRONG: &[(&[&str], &str)] = &[
    (
        &["show", "--no-priorities"],
        "error: the following required arguments were not provided:\n  <SIGS>\n",
    ),
    (
        &["show", "--no-priorities", "a", "b"],
        "error: unexpected argument 'b' found",
    ),
    (
        &["lint", "--no-priorities", "a", "b"],
        "error: unexpected argument 'b' found",
    ),
    (
        &["match", "--no-priorities", "a"],
        "error: the following required arguments were not provided:\n  <FILE>...\n",
    ),
    (
        &["find", "--no-priorities", "--out", "o", "a", "b"],
        "error: unexpected argument 'b' found",
    ),
    (
        &["find", "--out", "--no-priorities", "a"],
        "error: a value is required for '--out <OUT>' but none was supplied",
    ),
    (
        &["conflicts", "--no-priorities", "a", "b"],
        "error: unexpected argument 'b' found",
    ),
    (
        &["dead", "--no-priorities", "a", "b"],
        "error: unexpected argument 'b' found",
    ),
    (
        &["check", "--no-priorities", "a"],
        "error: the following required arguments were not provided:\n  <CERT>\n",
    ),
    (
        &["witness", "--no-priorities", "a", "b", "c"],
        "error: unexpected argument 'c' found",
    ),
    (
        &["show", "--no-priorities", "--no-priorities", "a"],
        "error: the argument '--no-priorities' cannot be used multiple times\n",
    ),
    (
        &["show", "--no-priorities=b", "a"],
        "error: unexpected value 'b' for '--no-priorities' found; no more were expected\n",
    ),
    (
        &["--no-priorities", "show", "a"],
        "error: unexpected argument '--no-priorities' found",
    ),
];

#[test]
fn wants_one_word_less(rt: HostRuntime) -> Result<(), Fail> {
    for (words, begin) in WRONG {
        assert!(rt; run_in(&rt, "", words)?.refuses(begin), "{words:?}");
    }
    Ok(())
}

// The subcommands, and what stands behind their names.
const USAGES: &[(&str, &str)] = &[
    ("show", "[OPTIONS] <SIGS>\n"),
    ("lint", "[OPTIONS] <SIGS>\n"),
    ("match", "[OPTIONS] <SIGS> [FILE]...\n"),
    ("find", "[OPTIONS] --out <OUT> <SIGS>\n"),
    ("conflicts", "[OPTIONS] <SIGS>\n"),
    ("dead", "[OPTIONS] <SIGS>\n"),
    ("check", "[OPTIONS] <SIGS> <CERT>\n"),
    ("witness", "[OPTIONS] <SIGS> <FILE>\n"),
];

#[test]
fn help_names_no_priority_file_with_the_flag(rt: HostRuntime) -> Result<(), Fail> {
    for (name, usage) in USAGES {
        let line = format!(in rt.alloc(); "Usage: pronom_sig {name} {usage}")?;
        let shown = run_in(&rt, "", &[*name, "--no-priorities", "--help"])?;
        assert!(rt; shown.answer().contains(line.as_str()), "{name}");
        let shown = run_in(&rt, "", &[*name, "--help"])?;
        assert!(rt; shown.answer().contains("  --no-priorities  "), "{name}");
    }
    Ok(())
}
