//! `witness` through the program: files of tables worked out by hand, and the words and files that
//! it takes.

use crate::tests::{F, Fault, P, S, first_untold, make, make_with, put, put_table, remove, run_in};
use fixtures::{BOTH_ENDS, EVERY_FILE, ONE, OVER_BOTH, OVER_FIRST, Rows};
use std::test::Fail;

// A table, a file, and the line that is printed.
#[derive(Clone, Copy)]
struct Witnessed(Rows, &'static [u8], &'static str);

const WITNESSED: &[Witnessed] = &[
    Witnessed(EVERY_FILE, b"", "ambiguous fmt/1 fmt/2\n"),
    Witnessed(BOTH_ENDS, b"A", "ambiguous fmt/1 fmt/2\n"),
    Witnessed(BOTH_ENDS, b"AB", "not ambiguous\n"),
    Witnessed(BOTH_ENDS, b"ABA", "ambiguous fmt/1 fmt/2\n"),
    Witnessed(OVER_FIRST, b"AB", "ambiguous fmt/2 fmt/3\n"),
    Witnessed(OVER_BOTH, b"AB", "not ambiguous\n"),
    Witnessed(OVER_BOTH, b"A\x00", "not ambiguous\n"),
    Witnessed(OVER_BOTH, b"", "not ambiguous\n"),
    Witnessed(ONE, b"A", "not ambiguous\n"),
];

// Whether this is printed of the file.
fn is_told(rt: &HostRuntime, folder: &str, row: &Witnessed) -> Result<bool, Fail> {
    let Witnessed(Rows(rows, pairs), file, line) = *row;
    put_table(rt, folder, rows, pairs)?;
    put(rt, folder, "file.bin", file)?;
    let status = if line == "not ambiguous\n" { 1 } else { 0 };
    Ok(run_in(rt, folder, &["witness", S, P, F])?.is(status, line, ""))
}

#[test]
fn names_the_first_two_formats_left(rt: HostRuntime) -> Result<(), Fail> {
    let folder = "witnessed";
    make(&rt, folder)?;
    for row in WITNESSED {
        assert!(rt; is_told(&rt, folder, row)?, "{:?} {:?}", row.0, row.1);
    }
    remove(&rt, folder)
}

// A file that is not there, a text that is no table, and a folder.
const OPENED: &[Fault] = &[
    Fault(&["witness", S, P, "none"], 3, "cannot open none\n"),
    Fault(&["witness", P, P, "none"], 2, "signatures: L2 header\n"),
    Fault(&["witness", S, P, "@"], 3, "read failed\n"),
];

#[test]
fn opens_the_file_after_the_load(rt: HostRuntime) -> Result<(), Fail> {
    let folder = "witness";
    make_with(&rt, folder, BOTH_ENDS)?;
    let untold = first_untold(&rt, folder, OPENED)?;
    assert!(rt; untold.is_none(), "{untold:?}");
    remove(&rt, folder)
}
