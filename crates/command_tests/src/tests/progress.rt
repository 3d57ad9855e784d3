//! How much of a search is done, as `--progress` shows it on standard error.

use crate::tests::{P, S, make, make_with, put_table, remove, run_in, words_in};
use fixtures::{ONE, Room, Rows, THREE_RELATED, TWO};
use sig_bits::FromWrite;
use sig_command::command;
use std::test::Fail;

// A table, the words, the status, and the error output.
#[derive(Clone, Copy)]
struct Watched(Rows, &'static [&'static str], u8, &'static str);

const FIND_ONE: &[&str] = &[
    "find",
    "--progress",
    "--budget",
    "1",
    "--out",
    "/dev/null",
    S,
    P,
];

const FIND_TWO: &[&str] = &[
    "find",
    "--progress",
    "--budget",
    "2",
    "--out",
    "/dev/null",
    S,
    P,
];

const FIND_UNMADE: &[&str] = &[
    "find",
    "--progress",
    "--budget",
    "2",
    "--out",
    "none/none",
    S,
    P,
];

const SETTLE: &[&str] = &["conflicts", "--progress", "--budget", "3", S, P];

const REFUSED: Rows = Rows("fmt/1,1,BOF,0,,4\n", "");

// The products are those of the signatures, the pairs those of formats of which none is over the
// other.
const WATCHED: &[Watched] = &[
    Watched(ONE, FIND_ONE, 0, "\r0 of 0 products\n"),
    Watched(TWO, FIND_TWO, 0, "\r0 of 1 products\r1 of 1 products\n"),
    Watched(TWO, FIND_ONE, 1, "\r0 of 1 products\nmore than 1 rows\n"),
    Watched(
        TWO,
        FIND_UNMADE,
        3,
        "\r0 of 1 products\r1 of 1 products\ncannot open none/none\n",
    ),
    Watched(
        REFUSED,
        FIND_ONE,
        2,
        "signatures row 1: L8 expression E2 at 1\n",
    ),
    Watched(
        THREE_RELATED,
        SETTLE,
        1,
        "\r0 of 3 pairs\r1 of 3 pairs\r2 of 3 pairs\r3 of 3 pairs\n",
    ),
    Watched(ONE, SETTLE, 0, "\r0 of 0 pairs\n"),
];

// Whether so much of the search is shown.
fn is_watched(rt: &HostRuntime, folder: &str, row: &Watched) -> Result<bool, Fail> {
    let Watched(Rows(rows, pairs), words, status, err) = *row;
    put_table(rt, folder, rows, pairs)?;
    Ok(run_in(rt, folder, words)?.reports(status, err))
}

#[test]
fn shows_how_much_is_done(rt: HostRuntime) -> Result<(), Fail> {
    let folder = "watched";
    make(&rt, folder)?;
    for row in WATCHED {
        assert!(rt; is_watched(&rt, folder, row)?, "{:?} {:?}", row.0, row.1);
    }
    remove(&rt, folder)
}

// Puts the row of this number behind the others: those of the first format begin with 41, the
// others with 42.
fn push_row(rt: &HostRuntime, rows: &mut String, number: u32) -> Result<(), Fail> {
    let (format, byte) = if number < 16 { (1, 41) } else { (2, 42) };
    let row = format!(in rt.alloc(); "fmt/{format},{number},BOF,0,,{byte}\n")?;
    rows.push_str(&row)?;
    Ok(())
}

// Two formats with 15 signatures each.
fn many_rows(rt: &HostRuntime) -> Result<String, Fail> {
    let mut rows = String::new(rt.alloc());
    for number in 1..31u32 {
        push_row(rt, &mut rows, number)?;
    }
    Ok(rows)
}

// How many reports there are.
fn count_reports(err: &str) -> usize {
    let mut count: usize = 0;
    for byte in err.as_bytes() {
        if *byte == b'\r' {
            count = count.saturating_add(1);
        }
    }
    count
}

// Whether every third product is reported.
fn are_thirds(err: &str) -> bool {
    count_reports(err) == 76
        && err.starts_with("\r0 of 225 products\r3 of 225 products\r6 of 225")
        && err.ends_with("\r222 of 225 products\r225 of 225 products\n")
}

// Whether they are when `find` decides those.
fn decides_by_thirds(rt: &HostRuntime, folder: &str) -> Result<bool, Fail> {
    let rows = many_rows(rt)?;
    put_table(rt, folder, &rows, "")?;
    let shown = run_in(rt, folder, FIND_ONE)?;
    Ok(shown.answer() == "decided\n" && are_thirds(shown.report()))
}

// Two formats with 15 signatures each have 225 products, and every third one is more than a
// percent.
#[test]
fn shows_at_most_a_report_for_a_percent(rt: HostRuntime) -> Result<(), Fail> {
    let folder = "percents";
    make(&rt, folder)?;
    assert!(rt; decides_by_thirds(&rt, folder)?);
    remove(&rt, folder)
}

// Whether the program decides where there is room for so much of its reports.
fn is_decided(rt: &HostRuntime, words: &[String], room: usize) -> bool {
    let mut out = FromWrite::new(Vec::new(rt.alloc()));
    let mut err = Room::of(room);
    let status = command(rt, rt.stdin(), words, &mut out, &mut err);
    let answer = out.into_inner();
    status == 0 && answer.as_slice() == b"decided\n".as_slice()
}

#[test]
fn a_failed_report_changes_nothing(rt: HostRuntime) -> Result<(), Fail> {
    let folder = "unheard";
    make_with(&rt, folder, TWO)?;
    let words = words_in(&rt, folder, FIND_TWO)?;
    for room in 0..37 {
        assert!(rt; is_decided(&rt, &words, room), "{room}");
    }
    remove(&rt, folder)
}
