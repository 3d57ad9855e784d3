//! The program over stores: which of its files it reads for which answer, and a file whose reads
//! fail.

use crate::tests::{Shown, words_in};
use fixtures::{Failing, Memory, NO_FOLDER, Named};
use sig_bits::FromWrite;
use sig_command::command_over;
use sig_engines::Store;
use std::test::Fail;

// A format whose files begin with `A`, below one whose files have a byte more.
const SIGNATURES: Named = Named {
    name: "s",
    bytes: b"puid,signature,position,offset,max_offset,expression\nfmt/1,1,BOF,0,,41\nfmt/2,2,BOF,0,,41??\n",
};

const PRIORITIES: Named = Named {
    name: "p",
    bytes: b"higher,lower\nfmt/2,fmt/1\n",
};

const FILE: Named = Named {
    name: "f",
    bytes: b"AB",
};

// A file, the words, the status, and what is written to both outputs.
#[derive(Clone, Copy)]
struct Answered(
    &'static [u8],
    &'static [&'static str],
    u8,
    &'static str,
    &'static str,
);

const SHOWN: &str = "puid,signature,position,offset,max_offset,expression\n\
    fmt/1,1,BOF,0,0,41\nfmt/2,2,BOF,0,0,41??\n\nhigher,lower\nfmt/2,fmt/1\n";

// The one pair of formats is related, and has no more than its kind.
const CERTIFICATE: &[u8] = b"PSAC\x01\x00\x00\x00\x01\x00";

const ANSWERED: &[Answered] = &[
    Answered(b"AB", &["match", "s", "p", "f"], 0, "fmt/2 2\n", ""),
    Answered(b"A", &["match", "s", "p", "f"], 0, "fmt/1 1\n", ""),
    Answered(b"B", &["match", "s", "p", "f"], 0, "", ""),
    Answered(
        b"AB",
        &["match", "--all", "s", "p", "f"],
        0,
        "fmt/1 1\nfmt/2 2\n",
        "",
    ),
    Answered(
        b"AB",
        &["match", "--with-names", "s", "p", "f"],
        0,
        "f\tfmt/2 2\n",
        "",
    ),
    Answered(
        b"AB",
        &["match", "s", "p", "f", "p", "f"],
        0,
        "f\tfmt/2 2\np\t-\nf\tfmt/2 2\n",
        "",
    ),
    Answered(
        b"AB",
        &["match", "--all", "s", "p", "s", "f"],
        0,
        "s\t-\nf\tfmt/1 1\nf\tfmt/2 2\n",
        "",
    ),
    Answered(
        b"A",
        &["match", "s", "p", "z", "f", "y"],
        3,
        "f\tfmt/1 1\n",
        "cannot open z\ncannot open y\n",
    ),
    Answered(
        b"A",
        &["match", "p", "s", "z", "f"],
        2,
        "",
        "signatures: L2 header\n",
    ),
    Answered(b"", &["show", "s", "p"], 0, SHOWN, ""),
    Answered(CERTIFICATE, &["check", "s", "p", "f"], 0, "accepted\n", ""),
    Answered(
        b"",
        &["check", "s", "p", "f"],
        1,
        "refused C12 truncated\n",
        "",
    ),
    Answered(b"AB", &["witness", "s", "p", "f"], 1, "not ambiguous\n", ""),
    Answered(
        b"AB",
        &["match", "p", "s", "f"],
        2,
        "",
        "signatures: L2 header\n",
    ),
    Answered(b"AB", &["match", "x", "y", "z"], 3, "", "cannot open x\n"),
    Answered(b"AB", &["match", "s", "y", "z"], 3, "", "cannot open y\n"),
    Answered(b"AB", &["match", "s", "p", "z"], 3, "", "cannot open z\n"),
    Answered(
        b"AB",
        &["match", "--no-priorities", "s", "f"],
        0,
        "fmt/1 1\nfmt/2 2\n",
        "",
    ),
    Answered(
        b"AB",
        &["match", "--no-priorities", "s", "f", "p"],
        0,
        "f\tfmt/1 1\nf\tfmt/2 2\np\t-\n",
        "",
    ),
    Answered(
        b"f\n",
        &["match", "--no-priorities", "--files-from", "f", "s"],
        0,
        "f\t-\n",
        "",
    ),
    Answered(
        b"f\nz",
        &["match", "--no-priorities", "--files-from", "-", "s"],
        3,
        "f\t-\n",
        "cannot open z\n",
    ),
    Answered(
        b"AB",
        &["match", "--summary", "s", "p", "f"],
        0,
        "f\tfmt/2 2\n",
        "files 1 identified 1 several 0 none 0 failed 0 bytes 2\n",
    ),
    Answered(
        b"f\0z\0",
        &[
            "match",
            "--progress",
            "--summary",
            "-0",
            "--no-priorities",
            "--files-from",
            "-",
            "s",
        ],
        3,
        "f\t-\n",
        "\r0 files\r1 files\ncannot open z\n\r2 files\n\
        files 2 identified 0 several 0 none 1 failed 1 bytes 4\n",
    ),
    Answered(
        b"AB",
        &["match", "--progress", "--summary", "s", "y", "f"],
        3,
        "",
        "cannot open y\n",
    ),
    Answered(
        b"AB",
        &["match", "s", "p", "--", "--no-priorities"],
        3,
        "",
        "cannot open --no-priorities\n",
    ),
    Answered(
        b"AB",
        &["find", "--no-priorities", "--out", "o", "s"],
        0,
        "witness fmt/1 fmt/2\n",
        "",
    ),
];

const OF_A_FILE: &[&[&str]] = &[
    &["match", "s", "p", "f"],
    &["check", "s", "p", "f"],
    &["witness", "s", "p", "f"],
];

const OF_A_TABLE: &[&[&str]] = &[
    &["show", "s", "p"],
    &["match", "s", "p", "f"],
    &["conflicts", "--budget", "1", "s", "p"],
];

// Runs the program on words over a store.
fn run_over<S: Store>(rt: &HostRuntime, store: &S, words: &[&str]) -> Result<Shown, Fail> {
    let words = words_in(rt, "", words)?;
    let mut out = FromWrite::new(Vec::new(rt.alloc()));
    let mut err = FromWrite::new(Vec::new(rt.alloc()));
    let status = command_over(store, rt.alloc(), words.as_slice(), &mut out, &mut err);
    Shown::of(status, out.into_inner(), err.into_inner())
}

// Whether the program answers so.
fn is_answered(rt: &HostRuntime, row: &Answered) -> Result<bool, Fail> {
    let Answered(file, words, status, out, err) = *row;
    let store = Memory {
        alloc: rt.alloc(),
        first: SIGNATURES,
        second: PRIORITIES,
        third: Named {
            bytes: file,
            ..FILE
        },
        upper: NO_FOLDER,
        lower: NO_FOLDER,
    };
    Ok(run_over(rt, &store, words)?.is(status, out, err))
}

#[test]
fn answers_for_the_files_that_the_words_name(rt: HostRuntime) -> Result<(), Fail> {
    for row in ANSWERED {
        assert!(rt; is_answered(&rt, row)?, "{:?}", row.1);
    }
    Ok(())
}

// Whether it reports this of each of these words with this status, and answers nothing.
fn all_report(
    rt: &HostRuntime,
    store: &Failing,
    words: &[&[&str]],
    status: u8,
    err: &str,
) -> Result<bool, Fail> {
    for words in words {
        if !run_over(rt, store, words)?.is(status, "", err) {
            return Ok(false);
        }
    }
    Ok(true)
}

const FILE_FAILS: &Failing = &Failing {
    first: SIGNATURES,
    second: PRIORITIES,
    third: FILE,
};

const PRIORITIES_FAIL: &Failing = &Failing {
    first: SIGNATURES,
    second: FILE,
    third: PRIORITIES,
};

#[test]
fn says_nothing_of_a_file_whose_reads_fail(rt: HostRuntime) -> Result<(), Fail> {
    assert!(rt; all_report(&rt, FILE_FAILS, OF_A_FILE, 3, "read failed\n")?);
    Ok(())
}

#[test]
fn says_nothing_of_a_table_whose_reads_fail(rt: HostRuntime) -> Result<(), Fail> {
    assert!(rt; all_report(&rt, PRIORITIES_FAIL, OF_A_TABLE, 3, "read failed\n")?);
    Ok(())
}

// Without a priority file nothing is read that can fail.
#[test]
fn reads_no_priority_file_where_it_is_left_out(rt: HostRuntime) -> Result<(), Fail> {
    let shown = run_over(
        &rt,
        PRIORITIES_FAIL,
        &["match", "--no-priorities", "s", "f"],
    )?;
    assert!(rt; shown.is(0, "fmt/1 1\nfmt/2 2\n", ""));
    Ok(())
}

// Two formats that give their signatures the same number.
const OF_TWO: Named = Named {
    name: "s",
    bytes: b"puid,signature,position,offset,max_offset,expression\nfmt/1,1,BOF,0,,4142\nfmt/2,1,BOF,0,,4143\n",
};

const OF_TWO_FAILS: &Failing = &Failing {
    first: OF_TWO,
    second: FILE,
    third: PRIORITIES,
};

#[test]
fn a_fault_of_the_signatures_comes_before_a_failed_read_of_the_priorities(
    rt: HostRuntime,
) -> Result<(), Fail> {
    let line = "signatures row 2: L9 signature of two formats\n";
    assert!(rt; all_report(&rt, OF_TWO_FAILS, OF_A_TABLE, 2, line)?);
    Ok(())
}

#[test]
fn says_of_the_only_file_that_the_reads_fail_by_its_name(rt: HostRuntime) -> Result<(), Fail> {
    let shown = run_over(&rt, FILE_FAILS, &["match", "--with-names", "s", "p", "f"])?;
    assert!(rt; shown.is(3, "", "f: read failed\n"));
    Ok(())
}

#[test]
fn says_of_which_of_several_files_the_reads_fail(rt: HostRuntime) -> Result<(), Fail> {
    let shown = run_over(&rt, FILE_FAILS, &["match", "s", "p", "s", "f", "p"])?;
    assert!(rt; shown.is(3, "s\t-\np\t-\n", "f: read failed\n"));
    Ok(())
}
