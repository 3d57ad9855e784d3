//! `check` through the program: certificates of tables worked out by hand, and the words and files
//! that it takes.

use crate::tests::{F, Fault, P, S, first_untold, make, make_with, put, put_table, remove, run_in};
use fixtures::{
    ALL_BUT_ONE, COVERED, EVERY_FILE, NONE, ONE, OVER_BOTH, Rows, TWICE_HIT, TWO, TWO_SEQUENCES,
};
use std::test::Fail;

// A table, a certificate, and the line that is printed.
#[derive(Clone, Copy)]
struct Judged(Rows, &'static [u8], &'static str);

const JUDGED: &[Judged] = &[
    Judged(
        TWO,
        b"PSAC\x01\x00\x00\x00\x01\x01\x00\x00\x00\x00\x00\x02\x00\x00\x00\x00\x00\x01\x00\x01",
        "accepted\n",
    ),
    Judged(
        TWO,
        b"PSAC\x01\x00\x00\x00\x01\x01\x00\x00\x00\x00\x00\x01\x00\x00\x00\x00",
        "refused C10 not closed pair 0 table 0 row 0 byte 41\n",
    ),
    Judged(
        TWO,
        b"PSAC\x01\x00\x00\x00\x01\x01\x00\x00\x00\x00\x00\x02\x00\x01\x00\x01\x00\x00\x00\x00",
        "refused C7 row order pair 0 table 0 row 1\n",
    ),
    Judged(
        TWO,
        b"PSAC\x01\x00\x00\x00\x01\x01\x00\x00\x00\x00\x00\x00",
        "refused C8 no start pair 0 table 0\n",
    ),
    Judged(
        EVERY_FILE,
        b"PSAC\x01\x00\x00\x00\x01\x01\x00\x00\x00\x00\x00\x01\x00\x00\x00\x00",
        "refused C9 bad pair 0 table 0 row 0\n",
    ),
    Judged(
        OVER_BOTH,
        b"PSAC\x01\x00\x00\x00\x03\
          \x01\x00\x01\x00\x00\x00\x02\x00\x00\x00\x04\
          \x00\x00\x00\x00\x01\x00\x01\x00\x01\x02\x00\x02\x00\x02\x04\x00\x03\x00\x03\x08\
          \x00\x00",
        "accepted\n",
    ),
    Judged(
        OVER_BOTH,
        b"PSAC\x01\x00\x00\x00\x03\
          \x01\x00\x01\x00\x00\x00\x02\x00\x00\x00\x04\
          \x00\x00\x00\x00\x01\x00\x01\x00\x01\x06\x00\x02\x00\x02\x04\x00\x03\x00\x03\x08\
          \x00\x00",
        "refused C10 not closed pair 0 table 0 row 0 byte 41\n",
    ),
    Judged(ONE, b"PSAC\x01\x00\x00\x00\x00", "accepted\n"),
    Judged(
        ONE,
        b"PSAC\x01\x00\x00\x00\x00\x00",
        "refused C11 trailing\n",
    ),
    Judged(ONE, b"PSAC\x01\x00\x00\x00", "refused C12 truncated\n"),
    Judged(NONE, b"PSAC\x01\x00\x00\x00\x00", "accepted\n"),
    Judged(
        NONE,
        b"PSAC\x01\x00\x00\x00\x00\x00",
        "refused C11 trailing\n",
    ),
    Judged(NONE, b"PSAC\x01\x00\x00\x00", "refused C12 truncated\n"),
    Judged(
        TWO_SEQUENCES,
        b"PSAC\x01\x00\x00\x00\x01\x01\x00\x00\x00\x00\x00\x01\x00\x00\x00\x00\x00\x00",
        "accepted\n",
    ),
    Judged(
        OVER_BOTH,
        b"PSAC\x01\x00\x00\x00\x03\
          \x01\x00\x00\x00\x00\x00\x04\
          \x00\x00\x00\x00\x00\x01\x00\x01\x00\x02\x00\x02\x00\x03\x00\x03\x00\x00",
        "refused C9 bad pair 0 table 0 row 2\n",
    ),
    Judged(
        TWO,
        b"PSAC\x01\x00\x00\x00\x01\x01\x00\x00\x00\x00\x00\x02\x00\x00\x00\x00\x00\x04\x00\x00",
        "refused C6 row form pair 0 table 0 row 1\n",
    ),
    Judged(
        TWO,
        b"PSAC\x01\x00\x00\x00\x01\x00\x00\x00\x00\x00\x00\x02\x00\x00\x00\x00\x00\x01\x00\x01",
        "refused C4 kind pair 0\n",
    ),
    Judged(
        TWO,
        b"PSAC\x03\x00\x00\x00\x01\x01\x00\x00\x00\x00\x00\x02\x00\x00\x00\x00\x00\x01\x00\x01",
        "refused C2 version\n",
    ),
    Judged(
        TWO,
        b"PSAC\x01\x00\x00\x00\x02\x01\x00\x00\x00\x00\x00\x02\x00\x00\x00\x00\x00\x01\x00\x01",
        "refused C3 pair count\n",
    ),
    Judged(
        ALL_BUT_ONE,
        b"PSAC\x01\x00\x00\x00\x01\x01\x00\x00\x00\x00\x00\x01\x00\x00\x00\x00",
        "refused C10 not closed pair 0 table 0 row 0 byte 00\n",
    ),
    Judged(
        TWICE_HIT,
        b"PSAC\x01\x00\x00\x00\x03\
          \x01\x00\x01\x00\x00\x00\x02\x00\x00\x00\x05\
          \x00\x00\x00\x00\x01\x01\x00\x01\x00\x01\x02\x02\x00\x02\x00\x02\x04\x00\x00\x02\
          \x00\x02\x04\x04\x00\x02\x00\x02\x04\x08\x00\x00",
        "refused C9 bad pair 0 table 0 row 1\n",
    ),
    Judged(
        TWO,
        b"PSAD\x01\x00\x00\x00\x01\x01\x00\x00\x00\x00\x00\x02\x00\x00\x00\x00\x00\x01\x00\x01",
        "refused C1 magic\n",
    ),
    Judged(
        TWO,
        b"PSAC\x01\x00\x00\x00\x01\x01\x00\x00\xff\xff\xff\xff\x00\x00\x00\x00\x00\x01\x00\x01",
        "refused C12 truncated\n",
    ),
    Judged(
        TWO,
        b"PSAC\x01\x00\x00\x00\x01\
          \x01\x00\x00\x00\x00\x00\x03\
          \x00\x00\x00\x00\x00\x01\x00\x00\x00\x01\x00\x01",
        "accepted\n",
    ),
    Judged(
        TWO,
        b"PSAC\x01\x00\x00\x00\x01\
          \x01\x00\x00\x00\x00\x00\x03\
          \x00\x00\x00\x00\x00\x01\x00\x01\x00\x02\x00\x02",
        "refused C9 bad pair 0 table 0 row 2\n",
    ),
    Judged(
        OVER_BOTH,
        b"PSAC\x01\x00\x00\x00\x03\
          \x01\x00\x01\x00\x00\x00\x02\x00\x00\x00\x05\
          \x00\x00\x00\x00\x01\x00\x01\x00\x01\x02\x00\x01\x00\x01\x02\x00\x02\x00\x02\x04\
          \x00\x03\x00\x03\x08\x00\x00",
        "refused C7 row order pair 0 table 0 row 2\n",
    ),
    Judged(
        OVER_BOTH,
        b"PSAC\x01\x00\x00\x00\x03\
          \x01\x00\x01\x00\x00\x00\x02\x00\x00\x00\x04\
          \x00\x00\x00\x00\x01\x00\x02\x00\x02\x04\x00\x01\x00\x01\x02\x00\x03\x00\x03\x08\
          \x00\x00",
        "refused C7 row order pair 0 table 0 row 2\n",
    ),
    Judged(
        OVER_BOTH,
        b"PSAC\x01\x00\x00\x00\x03\
          \x01\x00\x01\x00\x00\x00\x02\x00\x00\x00\x03\
          \x00\x00\x00\x00\x01\x00\x02\x00\x02\x04\x00\x03\x00\x03\x08\x00\x00",
        "refused C10 not closed pair 0 table 0 row 0 byte 41\n",
    ),
    Judged(
        OVER_BOTH,
        b"PSAC\x01\x00\x00\x00\x03\
          \x01\x00\x01\x00\x00\x00\x02\x00\x00\x00\x03\
          \x00\x00\x00\x00\x01\x00\x01\x00\x01\x02\x00\x02\x00\x02\x04\x00\x00",
        "refused C10 not closed pair 0 table 0 row 2 byte 00\n",
    ),
    Judged(
        OVER_BOTH,
        b"PSAC\x01\x00\x00\x00\x03\
          \x01\x00\x01\x00\x00\x00\x02\x00\x00\x00\x04\
          \x00\x00\x00\x00\x11\x00\x01\x00\x01\x02\x00\x02\x00\x02\x04\x00\x03\x00\x03\x08\
          \x00\x00",
        "refused C6 row form pair 0 table 0 row 0\n",
    ),
    Judged(
        OVER_BOTH,
        b"PSAC\x01\x00\x00\x00\x03\
          \x01\x00\x01\x00\x00\x00\x01\x00\x00\x00\x04\
          \x00\x00\x00\x00\x01\x00\x01\x00\x01\x02\x00\x02\x00\x02\x04\x00\x03\x00\x03\x08\
          \x00\x00",
        "refused C5 blockers pair 0 table 0\n",
    ),
    Judged(
        OVER_BOTH,
        b"PSAC\x01\x00\x00\x00\x03\
          \x01\x00\x41\x00\x00\x00\x02\x00\x00\x00\x04\
          \x00\x00\x00\x00\x01\x00\x01\x00\x01\x02\x00\x02\x00\x02\x04\x00\x03\x00\x03\x08\
          \x00\x00",
        "refused C5 blockers pair 0 table 0\n",
    ),
    Judged(
        COVERED,
        b"PSAC\x02\x00\x00\x00\x03\
          \x01\x00\x01\x00\x00\x00\x02\x00\x00\x00\x03\
          \x00\x00\x00\x00\x01\x00\x01\x00\x01\x06\x00\x02\x00\x02\x0a\x00\x00",
        "accepted\n",
    ),
    Judged(
        COVERED,
        b"PSAC\x01\x00\x00\x00\x03\
          \x01\x00\x01\x00\x00\x00\x02\x00\x00\x00\x03\
          \x00\x00\x00\x00\x01\x00\x01\x00\x01\x06\x00\x02\x00\x02\x0a\x00\x00",
        "refused C10 not closed pair 0 table 0 row 1 byte 41\n",
    ),
    Judged(
        COVERED,
        b"PSAC\x01\x00\x00\x00\x03\
          \x01\x00\x01\x00\x00\x00\x02\x00\x00\x00\x04\
          \x00\x00\x00\x00\x01\x00\x01\x00\x01\x06\x00\x02\x00\x02\x0a\x00\x02\x00\x02\x0e\
          \x00\x00",
        "accepted\n",
    ),
    Judged(
        OVER_BOTH,
        b"PSAC\x02\x00\x00\x00\x03\
          \x01\x00\x01\x00\x00\x00\x02\x00\x00\x00\x04\
          \x00\x00\x00\x00\x01\x00\x01\x00\x01\x02\x00\x02\x00\x02\x04\x00\x03\x00\x03\x08\
          \x00\x00",
        "accepted\n",
    ),
    Judged(
        OVER_BOTH,
        b"PSAC\x02\x00\x00\x00\x03\
          \x01\x00\x01\x00\x00\x00\x02\x00\x00\x00\x04\
          \x00\x00\x00\x00\x01\x00\x01\x00\x01\x06\x00\x02\x00\x02\x04\x00\x03\x00\x03\x08\
          \x00\x00",
        "refused C10 not closed pair 0 table 0 row 0 byte 41\n",
    ),
    Judged(
        OVER_BOTH,
        b"PSAC\x02\x00\x00\x00\x03\
          \x01\x00\x01\x00\x00\x00\x02\x00\x00\x00\x04\
          \x00\x00\x00\x00\x01\x00\x01\x00\x01\x00\x00\x02\x00\x02\x04\x00\x03\x00\x03\x08\
          \x00\x00",
        "refused C10 not closed pair 0 table 0 row 1 byte 42\n",
    ),
];

// Whether the program judges the certificate in the folder so.
fn is_judged(rt: &HostRuntime, folder: &str, line: &str) -> Result<bool, Fail> {
    let status = if line == "accepted\n" { 0 } else { 1 };
    Ok(run_in(rt, folder, &["check", S, P, F])?.is(status, line, ""))
}

// Whether it judges the certificate of the table so.
fn is_judged_of(rt: &HostRuntime, folder: &str, row: &Judged) -> Result<bool, Fail> {
    let Judged(Rows(rows, pairs), certificate, line) = *row;
    put_table(rt, folder, rows, pairs)?;
    put(rt, folder, "file.bin", certificate)?;
    is_judged(rt, folder, line)
}

#[test]
fn judges_the_worked_certificates(rt: HostRuntime) -> Result<(), Fail> {
    let folder = "judged";
    make(&rt, folder)?;
    for row in JUDGED {
        assert!(rt; is_judged_of(&rt, folder, row)?, "{:?}", row.1);
    }
    remove(&rt, folder)
}

// Both are in the same state after each byte, up to the last one of the gaps.
const LONG_GAPS: Rows = Rows("fmt/1,1,BOF,0,,41{300}42\nfmt/2,2,BOF,0,,41{300}43\n", "");

// Puts so many rows behind the certificate, in each of which both are in the same state.
fn push_rows(bytes: &mut Vec<u8>, count: u16) -> Result<(), Fail> {
    for state in 0..count {
        bytes.extend_from_slice(&state.to_be_bytes())?;
        bytes.extend_from_slice(&state.to_be_bytes())?;
    }
    Ok(())
}

// A certificate of two such sequences, with a row for each of so many states.
fn rows_in_step(rt: &HostRuntime, count: u16) -> Result<Vec<u8>, Fail> {
    let mut bytes = b"PSAC\x01\x00\x00\x00\x01\x01\x00\x00\x00\x00".to_vec(rt.alloc())?;
    bytes.extend_from_slice(&count.to_be_bytes())?;
    push_rows(&mut bytes, count)?;
    Ok(bytes)
}

// Whether it judges so many rows so.
fn are_judged(rt: &HostRuntime, folder: &str, count: u16, line: &str) -> Result<bool, Fail> {
    let certificate = rows_in_step(rt, count)?;
    put(rt, folder, "file.bin", &certificate)?;
    is_judged(rt, folder, line)
}

#[test]
fn judges_so_many_rows_that_states_are_noted(rt: HostRuntime) -> Result<(), Fail> {
    let folder = "noted";
    make_with(&rt, folder, LONG_GAPS)?;
    assert!(rt; are_judged(&rt, folder, 302, "accepted\n")?);
    let missing = "refused C10 not closed pair 0 table 0 row 300 byte 00\n";
    assert!(rt; are_judged(&rt, folder, 301, missing)?);
    remove(&rt, folder)
}

// A certificate that is not there, a text that is no table, and a folder.
const OPENED: &[Fault] = &[
    Fault(&["check", S, P, "none"], 3, "cannot open none\n"),
    Fault(&["check", P, P, "none"], 2, "signatures: L2 header\n"),
    Fault(&["check", S, P, "@"], 3, "read failed\n"),
];

#[test]
fn opens_the_certificate_after_the_load(rt: HostRuntime) -> Result<(), Fail> {
    let folder = "certificate";
    make_with(&rt, folder, TWO)?;
    let untold = first_untold(&rt, folder, OPENED)?;
    assert!(rt; untold.is_none(), "{untold:?}");
    remove(&rt, folder)
}
