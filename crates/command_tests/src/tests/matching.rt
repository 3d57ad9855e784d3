//! `match` through the program: its words, its files and the order in which they are opened.

use crate::tests::{
    F, Fault, P, S, first_untold, is_answer, make, make_with, put, put_table, remove,
};
use fixtures::{OVER_BOTH, Rows};
use std::test::Fail;

// Signature rows, priority rows, a file, and the lines of what is left.
const LEFT: &[(&str, &str, &[u8], &str)] = &[
    ("fmt/1,1,BOF,0,,4142\n", "", b"AB", "fmt/1 1\n"),
    ("fmt/1,1,BOF,1,,41??\n", "", b"\x00A\xff\x00", "fmt/1 1\n"),
    ("fmt/1,1,BOF,1,,41??\n", "", b"\x00A", ""),
    (
        "fmt/1,1,BOF,0,,41\nfmt/2,2,BOF,0,,41\n",
        "fmt/2,fmt/1\n",
        b"A",
        "fmt/2 2\n",
    ),
    (
        "fmt/1,9,BOF,0,,41\nfmt/1,2,BOF,0,,41\n",
        "",
        b"A",
        "fmt/1 9\n",
    ),
    (
        "fmt/1,1,BOF,0,,41??\nfmt/2,2,BOF,0,,??42\nfmt/3,3,BOF,0,,4142\n",
        "fmt/3,fmt/1\nfmt/3,fmt/2\n",
        b"AB",
        "fmt/3 3\n",
    ),
    (
        "fmt/1,1,BOF,0,,41??\nfmt/2,2,BOF,0,,??42\nfmt/3,3,BOF,0,,4142\n",
        "fmt/3,fmt/1\nfmt/3,fmt/2\n",
        b"A\x00",
        "fmt/1 1\n",
    ),
    (
        "fmt/1,1,BOF,0,,41\nfmt/2,2,BOF,0,,41\nfmt/3,3,BOF,0,,41\n",
        "fmt/1,fmt/2\nfmt/2,fmt/3\n",
        b"A",
        "fmt/1 1\n",
    ),
];

// Whether `match` answers so of these rows, pairs and file.
fn is_left(
    rt: &HostRuntime,
    folder: &str,
    rows: &str,
    pairs: &str,
    file: &[u8],
    out: &str,
) -> Result<bool, Fail> {
    put_table(rt, folder, rows, pairs)?;
    put(rt, folder, "file.bin", file)?;
    is_answer(rt, folder, &["match", S, P, F], out)
}

#[test]
fn prints_a_line_for_each_format_left(rt: HostRuntime) -> Result<(), Fail> {
    let folder = "left";
    make(&rt, folder)?;
    for (rows, pairs, file, out) in LEFT {
        assert!(rt;
            is_left(&rt, folder, rows, pairs, file, out)?,
            "{rows}{out}"
        );
    }
    remove(&rt, folder)
}

// The lines of three formats that are hit.
const ALL_THREE: &str = "fmt/1 1\nfmt/2 2\nfmt/3 3\n";

#[test]
fn prints_a_line_for_each_hit_with_all(rt: HostRuntime) -> Result<(), Fail> {
    let folder = "all";
    make_with(&rt, folder, OVER_BOTH)?;
    put(&rt, folder, "file.bin", b"AB")?;
    assert!(rt; is_answer(&rt, folder, &["match", "--all", S, P, F], ALL_THREE)?);
    assert!(rt; is_answer(&rt, folder, &["match", S, P, F, "--all"], ALL_THREE)?);
    remove(&rt, folder)
}

const ONE_WORD: Rows = Rows("fmt/1,1,BOF,0,,4142\n", "");

// Files that are not there, texts that are no table, and folders.
const OPENED: &[Fault] = &[
    Fault(
        &["match", "none.csv", "other.csv", "none"],
        3,
        "cannot open none.csv\n",
    ),
    Fault(
        &["match", S, "other.csv", "none"],
        3,
        "cannot open other.csv\n",
    ),
    Fault(&["match", S, P, "none"], 3, "cannot open none\n"),
    Fault(&["match", P, P, "none"], 2, "signatures: L2 header\n"),
    Fault(&["match", "@", P, F], 3, "read failed\n"),
    Fault(&["match", S, "@", F], 3, "read failed\n"),
];

#[test]
fn opens_the_table_first_and_the_file_after_the_load(rt: HostRuntime) -> Result<(), Fail> {
    let folder = "opens";
    make_with(&rt, folder, ONE_WORD)?;
    put(&rt, folder, "file.bin", b"AB")?;
    let untold = first_untold(&rt, folder, OPENED)?;
    assert!(rt; untold.is_none(), "{untold:?}");
    remove(&rt, folder)
}
