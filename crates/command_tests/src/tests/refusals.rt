//! Tables that are refused: the line of the first fault, for `show` and `match` alike.

use crate::tests::{F, P, S, is_answer, is_fault, make, make_with, put, put_table, remove};
use fixtures::{NONE, PRIORITIES, SIGNATURES};
use std::test::Fail;

// Whether both subcommands refuse the table in the folder with this line.
fn is_refused(rt: &HostRuntime, folder: &str, line: &str) -> Result<bool, Fail> {
    Ok(
        is_fault(rt, folder, &["show", S, P], 2, line)?
            && is_fault(rt, folder, &["match", S, P, "none"], 2, line)?,
    )
}

// Whether they refuse the table of these texts.
fn are_refused(
    rt: &HostRuntime,
    folder: &str,
    signatures: &str,
    priorities: &str,
    line: &str,
) -> Result<bool, Fail> {
    put(rt, folder, "signatures.csv", signatures.as_bytes())?;
    put(rt, folder, "priorities.csv", priorities.as_bytes())?;
    is_refused(rt, folder, line)
}

// Whether they refuse the table of these rows, below their headers.
fn rows_are_refused(
    rt: &HostRuntime,
    folder: &str,
    rows: &str,
    pairs: &str,
    line: &str,
) -> Result<bool, Fail> {
    put_table(rt, folder, rows, pairs)?;
    is_refused(rt, folder, line)
}

// Signature rows, and the line of their first fault.
const SIGNATURE_FAULTS: &[(&str, &str)] = &[
    ("fmt/1,1,BOF,0,\n", "signatures row 1: L3 fields\n"),
    ("fmt/01,1,BOF,0,,41\n", "signatures row 1: L4 puid\n"),
    (
        "fmt/1,0,BOF,0,,41\n",
        "signatures row 1: L5 signature number\n",
    ),
    ("fmt/1,1,Bof,0,,41\n", "signatures row 1: L6 position\n"),
    ("fmt/1,1,BOF,,,41\n", "signatures row 1: L7 offset\n"),
    (
        "fmt/1,1,BOF,0,,41 42\n",
        "signatures row 1: L8 expression E2 at 2\n",
    ),
    (
        "fmt/1,1,BOF,0,,{65536}\n",
        "signatures row 1: L8 expression E3 at 0\n",
    ),
    (
        "fmt/1,1,BOF,0,,{0}\n",
        "signatures row 1: L8 expression E4 at 0\n",
    ),
    (
        "fmt/1,1,BOF,0,,{5-2}\n",
        "signatures row 1: L8 expression E5 at 0\n",
    ),
    (
        "fmt/1,1,BOF,0,,41[42:41]\n",
        "signatures row 1: L8 expression E6 at 2\n",
    ),
    (
        "fmt/1,1,BOF,0,,[!00:FF]\n",
        "signatures row 1: L8 expression E7 at 0\n",
    ),
    (
        "fmt/1,1,BOF,0,,[41:4142]\n",
        "signatures row 1: L8 expression E9 at 0\n",
    ),
    (
        "fmt/1,1,BOF,0,,41[!010203040506070809]\n",
        "signatures row 1: L8 expression E10 at 2\n",
    ),
    (
        "fmt/1,1,BOF,0,,4142\nfmt/2,1,BOF,0,,4143\n",
        "signatures row 2: L9 signature of two formats\n",
    ),
    (
        "fmt/1,1,Variable,,,{65534}\n",
        "signatures row 1: L11 too many slots\n",
    ),
    (
        "fmt/1,1,BOF,0,,{65535}\n",
        "signatures row 1: L11 too many slots\n",
    ),
];

#[test]
fn names_the_first_fault_of_the_signatures(rt: HostRuntime) -> Result<(), Fail> {
    let folder = "signatures";
    make(&rt, folder)?;
    for (rows, line) in SIGNATURE_FAULTS {
        assert!(rt; rows_are_refused(&rt, folder, rows, "", line)?, "{line}");
    }
    remove(&rt, folder)
}

// Priority rows, and the line of their first fault.
const PRIORITY_FAULTS: &[(&str, &str)] = &[
    ("fmt/1\n", "priorities row 1: L3 fields\n"),
    ("fmt/1,fmt\n", "priorities row 1: L4 puid\n"),
    ("fmt/1,fmt/9\n", "priorities row 1: L13 unknown format\n"),
    (
        "fmt/1,fmt/1\n",
        "priorities row 1: L14 format over itself\n",
    ),
    (
        "fmt/1,fmt/2\nfmt/1,fmt/2\n",
        "priorities row 2: L15 pair twice\n",
    ),
    (
        "fmt/1,fmt/2\nfmt/2,fmt/1\n",
        "priorities row 2: L17 cycle of priorities\n",
    ),
];

#[test]
fn names_the_first_fault_of_the_priorities(rt: HostRuntime) -> Result<(), Fail> {
    let folder = "priorities";
    make(&rt, folder)?;
    let rows = "fmt/1,1,BOF,0,,41\nfmt/2,2,BOF,0,,41\n";
    for (pairs, line) in PRIORITY_FAULTS {
        assert!(rt; rows_are_refused(&rt, folder, rows, pairs, line)?, "{line}");
    }
    remove(&rt, folder)
}

// Puts the row of this number behind the others: the text, with the number in the place of each
// `#`.
fn push_row(rt: &HostRuntime, rows: &mut String, number: u64, text: &str) -> Result<(), Fail> {
    let number = number.to_string(rt.alloc())?;
    let row = text.replace(rt.alloc(), "#", &number)?;
    rows.push_str(&row)?;
    Ok(())
}

// The text once for each number from 1 to `count`, with `#` for the number.
fn repeated(rt: &HostRuntime, count: u32, text: &str) -> Result<String, Fail> {
    let mut rows = String::new(rt.alloc());
    for i in 0..count {
        push_row(rt, &mut rows, u64::from(i) + 1, text)?;
    }
    Ok(rows)
}

// Whether they refuse so many rows.
fn many_are_refused(
    rt: &HostRuntime,
    folder: &str,
    count: u32,
    text: &str,
    line: &str,
) -> Result<bool, Fail> {
    let rows = repeated(rt, count, text)?;
    rows_are_refused(rt, folder, &rows, "", line)
}

// Whether they refuse an expression of so many bytes 41.
fn long_is_refused(rt: &HostRuntime, folder: &str, count: usize, line: &str) -> Result<bool, Fail> {
    let pairs = "41".repeat(rt.alloc(), count)?;
    let row = format!(in rt.alloc(); "fmt/1,1,BOF,0,,{pairs}\n")?;
    rows_are_refused(rt, folder, &row, "", line)
}

// Texts of the two files, and the line of their fault.
const HEADER_FAULTS: &[(&str, &str, &str)] = &[
    ("no header\n", PRIORITIES, "signatures: L2 header\n"),
    (SIGNATURES, "lower,higher\n", "priorities: L2 header\n"),
    (SIGNATURES, "", "priorities: L2 header\n"),
];

// Rows, how many of them there are, and the line of their fault.
const TOO_MANY: &[(&str, u32, &str)] = &[
    (
        "fmt/1,1,BOF,0,,41\n",
        9,
        "signatures row 9: L10 too many sequences\n",
    ),
    (
        "fmt/#,#,BOF,0,,41\n",
        1001,
        "signatures row 1001: L12 too many formats\n",
    ),
];

#[test]
fn names_a_header_and_a_limit(rt: HostRuntime) -> Result<(), Fail> {
    let folder = "limits";
    make(&rt, folder)?;
    for (signatures, priorities, line) in HEADER_FAULTS {
        assert!(rt;
            are_refused(&rt, folder, signatures, priorities, line)?,
            "{line}"
        );
    }
    let line = "signatures row 1: L8 expression E1\n";
    assert!(rt; long_is_refused(&rt, folder, 4097, line)?);
    for (text, count, line) in TOO_MANY {
        assert!(rt;
            many_are_refused(&rt, folder, *count, text, line)?,
            "{line}"
        );
    }
    remove(&rt, folder)
}

// Rows of expressions with as many slots as the limit, and with one more.
const SLOTS: &[(&str, &str)] = &[
    (
        "fmt/1,1,Variable,,,{65525}[4142:4241]\n",
        "fmt/1,1,Variable,,,{65526}[4142:4241]\n",
    ),
    (
        "fmt/1,1,Variable,,,{65525}[!4142]\n",
        "fmt/1,1,Variable,,,{65526}[!4142]\n",
    ),
    (
        "fmt/1,1,Variable,,,{65531}[!0000:FFFE]\n",
        "fmt/1,1,Variable,,,{65532}[!0000:FFFE]\n",
    ),
];

// Whether the file in the folder is matched against this row, and hits nothing.
fn is_taken(rt: &HostRuntime, folder: &str, row: &str) -> Result<bool, Fail> {
    put_table(rt, folder, row, "")?;
    is_answer(rt, folder, &["match", S, P, F], "")
}

// Whether `match` refuses this row.
fn has_too_many(rt: &HostRuntime, folder: &str, row: &str) -> Result<bool, Fail> {
    put_table(rt, folder, row, "")?;
    let line = "signatures row 1: L11 too many slots\n";
    is_fault(rt, folder, &["match", S, P, F], 2, line)
}

#[test]
fn takes_as_many_slots_as_the_limit(rt: HostRuntime) -> Result<(), Fail> {
    let folder = "slots";
    make_with(&rt, folder, NONE)?;
    put(&rt, folder, "file.bin", b"A")?;
    for (most, over) in SLOTS {
        assert!(rt; is_taken(&rt, folder, most)?, "{most}");
        assert!(rt; has_too_many(&rt, folder, over)?, "{over}");
    }
    remove(&rt, folder)
}
