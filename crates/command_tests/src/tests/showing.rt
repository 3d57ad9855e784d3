//! `show` through the program.

use crate::tests::{Fault, P, S, first_untold, is_answer, make, make_with, put_table, remove};
use fixtures::{NONE, PRIORITIES, SIGNATURES};
use std::test::Fail;

const THREE: &str = "fmt/1,1,BOF,0,0,41\nfmt/2,2,BOF,0,0,41\nfmt/3,3,BOF,0,0,41\n";

const PAIRS: &str = "fmt/3,fmt/1\nfmt/2,fmt/1\nfmt/3,fmt/2\n";

// Signature rows, priority rows, and the canonical signature rows.
const SHOWN: &[(&str, &str, &str)] = &[
    ("", "", ""),
    (
        "fmt/1,7,BOF,3,,4a{3-3}{0-*}\n",
        "",
        "fmt/1,7,BOF,3,3,4A{3}*\n",
    ),
    (
        "x-fmt/2,5,EOF,0,2,4142\nfmt/1,1,Variable,,,41*42\nx-fmt/2,5,BOF,1,,[!0a]\n",
        "",
        "x-fmt/2,5,EOF,0,2,4142\nx-fmt/2,5,BOF,1,1,[!0A]\nfmt/1,1,Variable,,,41*42\n",
    ),
    (THREE, PAIRS, THREE),
];

// Whether `show` prints this of the table in the folder.
fn is_shown(rt: &HostRuntime, folder: &str, pairs: &str, lines: &str) -> Result<bool, Fail> {
    let out = format!(in rt.alloc(); "{SIGNATURES}{lines}\n{PRIORITIES}{pairs}")?;
    is_answer(rt, folder, &["show", S, P], &out)
}

// Whether it prints this of the table of these rows and pairs.
fn is_shown_of(
    rt: &HostRuntime,
    folder: &str,
    rows: &str,
    pairs: &str,
    lines: &str,
) -> Result<bool, Fail> {
    put_table(rt, folder, rows, pairs)?;
    is_shown(rt, folder, pairs, lines)
}

#[test]
fn shows_both_canonical_files(rt: HostRuntime) -> Result<(), Fail> {
    let folder = "show";
    make(&rt, folder)?;
    for (rows, pairs, lines) in SHOWN {
        assert!(rt;
            is_shown_of(&rt, folder, rows, pairs, lines)?,
            "{rows}{pairs}"
        );
    }
    remove(&rt, folder)
}

// Files that are not there, and a folder.
const OPENED: &[Fault] = &[
    Fault(
        &["show", "none.csv", "other.csv"],
        3,
        "cannot open none.csv\n",
    ),
    Fault(&["show", S, "other.csv"], 3, "cannot open other.csv\n"),
    Fault(&["show", "@", S], 3, "read failed\n"),
];

#[test]
fn opens_no_third_file_to_show(rt: HostRuntime) -> Result<(), Fail> {
    let folder = "unshown";
    make_with(&rt, folder, NONE)?;
    let untold = first_untold(&rt, folder, OPENED)?;
    assert!(rt; untold.is_none(), "{untold:?}");
    remove(&rt, folder)
}
