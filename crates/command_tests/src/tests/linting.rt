//! `lint` through the program.

use crate::tests::{
    Fault, P, S, first_untold, is_answer, make, make_with, put, put_table, remove, run_in,
};
use fixtures::{NONE, SIGNATURES};
use std::test::Fail;

// Signature rows, priority rows, and a line for each fault.
struct Case(&'static str, &'static str, &'static str);

const TWO: &str = "fmt/1,1,BOF,0,,41\nfmt/2,2,BOF,0,,42\n";

const CASES: &[Case] = &[
    Case(
        "fmt/1,1,BOF,0,\n",
        "",
        "signatures line 2 row 1: L3 fields: record \"fmt/1,1\": expected six fields\n",
    ),
    Case(
        "fmt/01,1,BOF,0,,41\n",
        "",
        "signatures line 2 row 1: L4 puid: puid \"fmt/01\": expected fmt/ or x-fmt/ and a number from 1 to 999999999\n",
    ),
    Case(
        ",,,,,\n",
        "",
        "signatures line 2 row 1: L4 puid: puid \"\": expected fmt/ or x-fmt/ and a number from 1 to 999999999; remove the row\n",
    ),
    Case(
        "fmt/1,0,BOF,0,,41\n",
        "",
        "signatures line 2 row 1: L5 signature number: signature \"0\": expected a number from 1 to 999999999\n",
    ),
    Case(
        "fmt/1,1,Absolute from BOF,0,,41\n",
        "",
        "signatures line 2 row 1: L6 position: position \"Absolute from BOF\": expected BOF, EOF or Variable; write the word alone, as it is given\n",
    ),
    Case(
        "fmt/1,1,BOF,0,4.00E+05,41\n",
        "",
        "signatures line 2 row 1: L7 offset: max_offset \"4.00E+05\": expected a number from 0 to 65535, the greatest offset not below the offset or left out; none at Variable; write the number in digits alone\n",
    ),
    Case(
        "fmt/1,1,BOF,0,,41 42\n",
        "",
        "signatures line 2 row 1: L8 expression E2 at 2: expression \"41 42\" at 2: expected an expression that goes on from the bytes before it; remove blanks and tabs\n",
    ),
    Case(
        "fmt/1,1,BOF,0,,41{4-}\n",
        "",
        "signatures line 2 row 1: L8 expression E2 at 5: expression \"41{4-}\" at 5: expected an expression that goes on from the bytes before it; write an open gap as {4-*}\n",
    ),
    Case(
        "fmt/1,1,BOF,0,,41[42:41]\n",
        "",
        "signatures line 2 row 1: L8 expression E6 at 2: expression \"41[42:41]\" at 2: expected the lower end before the higher\n",
    ),
    Case(
        "fmt/1,1,BOF,0,,4142\nfmt/2,1,BOF,0,,4143\n",
        "",
        "signatures line 3 row 2: L9 signature of two formats: signature \"1\": expected a number that no other format has\n",
    ),
    Case(
        "fmt/1,1,BOF,0,,41\nfmt/1,1,BOF,0,,42\nfmt/1,1,BOF,0,,43\nfmt/1,1,BOF,0,,44\nfmt/1,1,BOF,0,,45\nfmt/1,1,BOF,0,,46\nfmt/1,1,BOF,0,,47\nfmt/1,1,BOF,0,,48\nfmt/1,1,BOF,0,,49\n",
        "",
        "signatures line 10 row 9: L10 too many sequences: signature \"1\": expected at most 8 sequences of a signature\n",
    ),
    Case(
        "fmt/1,1,BOF,65535,,41\n",
        "",
        "signatures line 2 row 1: L11 too many slots: expression \"41\": expected at most 65535 slots, those of the offset among them; lower the offset\n",
    ),
    Case(
        TWO,
        "fmt/1,fmt/9\n",
        "priorities line 2 row 1: L13 unknown format: lower \"fmt/9\": expected a PUID that the signature file names\n",
    ),
    Case(
        TWO,
        "fmt/1,fmt/1\n",
        "priorities line 2 row 1: L14 format over itself: record \"fmt/1,fmt/1\": expected two formats\n",
    ),
    Case(
        TWO,
        "fmt/1,fmt/2\nfmt/1,fmt/2\n",
        "priorities line 3 row 2: L15 pair twice: record \"fmt/1,fmt/2\": expected a pair that no earlier row has\n",
    ),
    Case(
        TWO,
        "fmt/1,fmt/2\nfmt/2,fmt/1\n",
        "priorities line 3 row 2: L17 cycle of priorities: record \"fmt/2,fmt/1\": expected no way by earlier rows from the second format down to the first\n",
    ),
    // Two faults in one row, an empty line, and a fault in each file.
    Case(
        "fmt/1,0,Bof,x,,4 1\n\nfmt/1,1,BOF,0,,41\nfmt/2,2,bof,0,,42\n",
        "fmt/2\nfmt/2,fmt/1\nfmt/3,fmt/1\n",
        "signatures line 2 row 1: L5 signature number: signature \"0\": expected a number from 1 to 999999999\nsignatures line 5 row 3: L6 position: position \"bof\": expected BOF, EOF or Variable; write the word alone, as it is given\npriorities line 2 row 1: L3 fields: record \"fmt/2\": expected two fields\npriorities line 4 row 3: L13 unknown format: higher \"fmt/3\": expected a PUID that the signature file names\n",
    ),
];

// Whether `lint` answers this of the table in the folder, with the status of a refused one.
fn is_listed(rt: &HostRuntime, folder: &str, lines: &str) -> Result<bool, Fail> {
    Ok(run_in(rt, folder, &["lint", S, P])?.is(2, lines, ""))
}

// Whether it does of the table of these rows.
fn are_listed(rt: &HostRuntime, folder: &str, case: &Case) -> Result<bool, Fail> {
    put_table(rt, folder, case.0, case.1)?;
    is_listed(rt, folder, case.2)
}

#[test]
fn lists_all_faults(rt: HostRuntime) -> Result<(), Fail> {
    let folder = "lint";
    make(&rt, folder)?;
    for case in CASES {
        let lines = case.2;
        assert!(rt; are_listed(&rt, folder, case)?, "{lines}");
    }
    remove(&rt, folder)
}

// A signature file that is none, and its line.
const NO_TABLES: &[(&[u8], &str)] = &[
    (
        b"puid;signature;position;offset;max_offset;expression\nfmt/1;1;BOF;0;;41\n",
        "signatures line 1: L2 header: record \"puid;signature;position;offset;max_offset;expression\": expected the header puid,signature,position,offset,max_offset,expression; separate the fields by commas\n",
    ),
    (
        b"\x89PNG\r\n\x1a\n",
        "signatures line 1: L2 header: record \"\\x89PNG\": expected the header puid,signature,position,offset,max_offset,expression\n",
    ),
    (
        b"",
        "signatures line 1: L2 header: record \"\": expected the header puid,signature,position,offset,max_offset,expression\n",
    ),
];

#[test]
fn lists_the_header_alone_of_a_file_that_is_no_table(rt: HostRuntime) -> Result<(), Fail> {
    let folder = "lint_none";
    make_with(&rt, folder, NONE)?;
    for (signatures, line) in NO_TABLES {
        put(&rt, folder, "signatures.csv", signatures)?;
        assert!(rt; is_listed(&rt, folder, line)?, "{line}");
    }
    remove(&rt, folder)
}

// Puts a signature file of so many formats, each of one row.
fn put_formats(rt: &HostRuntime, folder: &str, count: u32) -> Result<(), Fail> {
    let mut rows = String::from_str(rt.alloc(), SIGNATURES)?;
    for i in 1..=count {
        let row = format!(in rt.alloc(); "fmt/{i},{i},BOF,0,,41\n")?;
        rows.push_str(row.as_str())?;
    }
    put(rt, folder, "signatures.csv", rows.as_bytes())
}

#[test]
fn lists_a_format_behind_the_thousandth(rt: HostRuntime) -> Result<(), Fail> {
    let folder = "lint_formats";
    make_with(&rt, folder, NONE)?;
    put_formats(&rt, folder, 1001)?;
    let line =
        "signatures line 1002 row 1001: L12 too many formats: record \"fmt/1001,1001\": expected at most 1000 formats and 4000 signatures\n";
    assert!(rt; is_listed(&rt, folder, line)?);
    remove(&rt, folder)
}

// Signature rows without a fault, and the warnings.
const WARNINGS: &[(&str, &str)] = &[
    ("", ""),
    (TWO, ""),
    (
        "fmt/1,1,BOF,0,,{4}\nfmt/1,2,BOF,0,,4142{3}\nfmt/2,3,EOF,0,,41\nfmt/2,3,BOF,0,0,4142{3-3}\nfmt/1,4,BOF,0,,4142{3}\n",
        "warning: signature 1 of fmt/1 has gaps alone\nwarning: signature 3 of fmt/2 has a row of signature 2 of fmt/1\n",
    ),
];

#[test]
fn warns_behind_no_fault(rt: HostRuntime) -> Result<(), Fail> {
    let folder = "lint_warnings";
    make(&rt, folder)?;
    for (rows, warnings) in WARNINGS {
        put_table(&rt, folder, rows, "")?;
        let out = format!(in rt.alloc(); "no fault\n{warnings}")?;
        assert!(rt;
            is_answer(&rt, folder, &["lint", S, P], &out)?,
            "{warnings}"
        );
    }
    remove(&rt, folder)
}

// Files that are not there, and a folder.
const UNREAD: &[Fault] = &[
    Fault(&["lint", "none.csv", P], 3, "cannot open none.csv\n"),
    Fault(&["lint", S, "none.csv"], 3, "cannot open none.csv\n"),
    Fault(&["lint", "@", P], 3, "read failed\n"),
    Fault(&["lint", S, "@"], 3, "read failed\n"),
];

#[test]
fn lists_nothing_where_a_file_is_not_read(rt: HostRuntime) -> Result<(), Fail> {
    let folder = "lint_unread";
    make_with(&rt, folder, NONE)?;
    put(&rt, folder, "signatures.csv", b"no table")?;
    let untold = first_untold(&rt, folder, UNREAD)?;
    assert!(rt; untold.is_none(), "{untold:?}");
    remove(&rt, folder)
}
