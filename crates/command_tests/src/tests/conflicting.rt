//! `conflicts` through the program: tables worked out by hand, and what stands where it stops.

use crate::tests::finding::put_outranked;
use crate::tests::{
    Fault, P, S, first_untold, is_fault, make, make_with, put_table, remove, run_in, words_in,
};
use fixtures::{
    BOTH_ENDS, COVERED, EVERY_FILE, NONE, ONE, OVER_BOTH, OVER_FIRST, Room, Rows, THREE_RELATED,
    TWO,
};
use sig_bits::FromWrite;
use sig_command::command;
use std::test::Fail;

// The first two signatures never meet.
const LATER_MEETS: Rows = Rows(
    "fmt/1,1,BOF,0,,4142\nx-fmt/2,2,BOF,0,,4143\nx-fmt/2,3,BOF,0,,41\n",
    "",
);

// The first two signatures meet, but not within three rows; the other two do.
const LATER_MEETS_SOON: Rows = Rows(
    "fmt/1,1,BOF,0,,41\nfmt/2,2,BOF,0,,4142434445\nfmt/2,3,EOF,0,,41\n",
    "",
);

// They begin alike and differ then, which is told by no byte at one offset alone.
const TWO_SEARCHED: Rows = Rows("fmt/1,1,BOF,0,,41(42|43)\nfmt/2,2,BOF,0,,4144\n", "");

// The first of the products that need more than three rows is that of the signatures 1 and 3.
const TWO_GIVE_UP: Rows = Rows(
    "fmt/1,1,BOF,0,,41424344\nfmt/2,2,BOF,0,,42\nfmt/2,3,BOF,0,,414243[45:46]\nfmt/2,4,BOF,0,,414243[47:48]\n",
    "",
);

// Three rows are too few to see that the first two never meet. The last two meet in the file `00`.
const LATER_PAIR_MEETS: Rows = Rows(
    "fmt/1,1,BOF,0,,414243[45:46]\nfmt/2,2,BOF,0,,414243[47:48]\nfmt/3,3,BOF,0,,00\nfmt/4,4,EOF,0,,00\n",
    "fmt/4,fmt/1\nfmt/4,fmt/2\n",
);

// The second stands in front of the first in a shortest file, and behind it in a simple one. A
// search finds the former with its 16th row; each of the two alone is alive by its eighth.
const IN_FRONT: Rows = Rows("fmt/1,1,BOF,4,,43\nfmt/2,2,Variable,,,4142\n", "");

// A table, a budget, and the lines that are printed with `--hex`.
#[derive(Clone, Copy)]
struct Settled(Rows, &'static str, &'static str);

const SETTLED: &[Settled] = &[
    Settled(NONE, "1", "pairs 0 decided 0 ambiguous 0 unknown 0\n"),
    Settled(ONE, "1", "pairs 0 decided 0 ambiguous 0 unknown 0\n"),
    // Different bytes at one offset need no search, others do.
    Settled(TWO, "1", "pairs 1 decided 1 ambiguous 0 unknown 0\n"),
    Settled(
        TWO_SEARCHED,
        "1",
        "unknown fmt/1 fmt/2 1 2\npairs 1 decided 0 ambiguous 0 unknown 1\n",
    ),
    Settled(
        TWO_SEARCHED,
        "2",
        "pairs 1 decided 1 ambiguous 0 unknown 0\n",
    ),
    Settled(
        EVERY_FILE,
        "100",
        "ambiguous fmt/1 fmt/2 1 2 0\npairs 1 decided 0 ambiguous 1 unknown 0\n",
    ),
    Settled(
        BOTH_ENDS,
        "5",
        "ambiguous fmt/1 fmt/2 1 2 1 41\npairs 1 decided 0 ambiguous 1 unknown 0\n",
    ),
    Settled(
        BOTH_ENDS,
        "100",
        "ambiguous fmt/1 fmt/2 1 2 1 41\npairs 1 decided 0 ambiguous 1 unknown 0\n",
    ),
    Settled(
        OVER_BOTH,
        "3",
        "unknown fmt/1 fmt/2 1 2\npairs 1 decided 0 ambiguous 0 unknown 1\n",
    ),
    Settled(OVER_BOTH, "4", "pairs 1 decided 1 ambiguous 0 unknown 0\n"),
    Settled(COVERED, "4", "pairs 1 decided 1 ambiguous 0 unknown 0\n"),
    Settled(
        OVER_FIRST,
        "100",
        "ambiguous fmt/2 fmt/3 2 3 2 4142\npairs 2 decided 1 ambiguous 1 unknown 0\n",
    ),
    // The file of five bytes is too long for a search within three rows, and is tried.
    Settled(
        THREE_RELATED,
        "3",
        "ambiguous fmt/1 fmt/3 10 30 1 41\nambiguous fmt/1 fmt/4 10 40 5 tried 4142434445\n\
         pairs 3 decided 1 ambiguous 2 unknown 0\n",
    ),
    Settled(
        THREE_RELATED,
        "100",
        "ambiguous fmt/1 fmt/3 10 30 1 41\nambiguous fmt/1 fmt/4 10 40 5 4142434445\n\
         pairs 3 decided 1 ambiguous 2 unknown 0\n",
    ),
    Settled(
        LATER_MEETS,
        "100",
        "ambiguous fmt/1 x-fmt/2 1 3 2 4142\npairs 1 decided 0 ambiguous 1 unknown 0\n",
    ),
    Settled(
        LATER_MEETS_SOON,
        "3",
        "ambiguous fmt/1 fmt/2 1 3 1 41\npairs 1 decided 0 ambiguous 1 unknown 0\n",
    ),
    Settled(
        TWO_GIVE_UP,
        "3",
        "unknown fmt/1 fmt/2 1 3\npairs 1 decided 0 ambiguous 0 unknown 1\n",
    ),
    Settled(
        TWO_GIVE_UP,
        "100",
        "pairs 1 decided 1 ambiguous 0 unknown 0\n",
    ),
    Settled(
        LATER_PAIR_MEETS,
        "3",
        "unknown fmt/1 fmt/2 1 2\nambiguous fmt/3 fmt/4 3 4 1 00\n\
         pairs 4 decided 2 ambiguous 1 unknown 1\n",
    ),
    Settled(
        IN_FRONT,
        "1",
        "ambiguous fmt/1 fmt/2 1 2 7 tried 00000000434142\n\
         pairs 1 decided 0 ambiguous 1 unknown 0\n",
    ),
    Settled(
        IN_FRONT,
        "100",
        "ambiguous fmt/1 fmt/2 1 2 5 0000414243\npairs 1 decided 0 ambiguous 1 unknown 0\n",
    ),
];

// The words for `conflicts` with `--hex` and this budget on the table in the folder.
fn words_for(budget: &str) -> [&str; 6] {
    ["conflicts", "--budget", budget, "--hex", S, P]
}

// Whether `conflicts` settles the table in the folder so.
fn is_settled(
    rt: &HostRuntime,
    folder: &str,
    budget: &str,
    status: u8,
    lines: &str,
) -> Result<bool, Fail> {
    Ok(run_in(rt, folder, &words_for(budget))?.is(status, lines, ""))
}

// Whether it settles the table of the row so.
fn is_settled_of(rt: &HostRuntime, folder: &str, row: &Settled) -> Result<bool, Fail> {
    let Settled(Rows(rows, pairs), budget, lines) = *row;
    let status = if lines.ends_with("ambiguous 0 unknown 0\n") {
        0
    } else {
        1
    };
    put_table(rt, folder, rows, pairs)?;
    is_settled(rt, folder, budget, status, lines)
}

#[test]
fn settles_what_the_rows_say(rt: HostRuntime) -> Result<(), Fail> {
    let folder = "settled";
    make(&rt, folder)?;
    for row in SETTLED {
        assert!(rt; is_settled_of(&rt, folder, row)?, "{:?} {}", row.0, row.1);
    }
    remove(&rt, folder)
}

#[test]
fn prints_no_bytes_unless_asked(rt: HostRuntime) -> Result<(), Fail> {
    let folder = "bare";
    make_with(&rt, folder, THREE_RELATED)?;
    let shown = run_in(&rt, folder, &["conflicts", "--budget", "100", S, P])?;
    let lines = "ambiguous fmt/1 fmt/3 10 30 1\nambiguous fmt/1 fmt/4 10 40 5\n\
        pairs 3 decided 1 ambiguous 2 unknown 0\n";
    assert!(rt; shown.says(1, lines));
    remove(&rt, folder)
}

// A table, flags of `conflicts`, the status and the lines.
#[derive(Clone, Copy)]
struct Flagged(Rows, &'static [&'static str], u8, &'static str);

// Each file that begins with 41 42 begins with 41.
const CONTAINED: Rows = Rows("fmt/1,1,BOF,0,,4142\nfmt/2,2,BOF,0,,41\n", "");

const FLAGGED: &[Flagged] = &[
    Flagged(
        EVERY_FILE,
        &["--class"],
        1,
        "ambiguous fmt/1 fmt/2 1 2 0 same\n\
         pairs 1 decided 0 ambiguous 1 unknown 0 over 0 under 0 same 1 apart 0 open 0\n",
    ),
    Flagged(
        CONTAINED,
        &["--class"],
        1,
        "ambiguous fmt/1 fmt/2 1 2 2 over\n\
         pairs 1 decided 0 ambiguous 1 unknown 0 over 1 under 0 same 0 apart 0 open 0\n",
    ),
    Flagged(
        BOTH_ENDS,
        &["--class", "--hex"],
        1,
        "ambiguous fmt/1 fmt/2 1 2 1 apart 41\n\
         pairs 1 decided 0 ambiguous 1 unknown 0 over 0 under 0 same 0 apart 1 open 0\n",
    ),
    Flagged(
        IN_FRONT,
        &["--class", "--hex", "--budget", "10"],
        1,
        "ambiguous fmt/1 fmt/2 1 2 7 tried apart 00000000434142\n\
         pairs 1 decided 0 ambiguous 1 unknown 0 over 0 under 0 same 0 apart 1 open 0\n",
    ),
    Flagged(
        IN_FRONT,
        &["--budget", "10"],
        1,
        "ambiguous fmt/1 fmt/2 1 2 7 tried\npairs 1 decided 0 ambiguous 1 unknown 0\n",
    ),
    Flagged(
        THREE_RELATED,
        &["--class"],
        1,
        "ambiguous fmt/1 fmt/3 10 30 1 apart\nambiguous fmt/1 fmt/4 10 40 5 under\n\
         pairs 3 decided 1 ambiguous 2 unknown 0 over 0 under 1 same 0 apart 1 open 0\n",
    ),
    Flagged(
        THREE_RELATED,
        &["--only", "fmt/3"],
        1,
        "ambiguous fmt/1 fmt/3 10 30 1\npairs 1 decided 0 ambiguous 1 unknown 0\n",
    ),
    Flagged(
        THREE_RELATED,
        &["--only", "fmt/2"],
        0,
        "pairs 1 decided 1 ambiguous 0 unknown 0\n",
    ),
    Flagged(
        THREE_RELATED,
        &["--only", "fmt/4", "--class", "--hex"],
        1,
        "ambiguous fmt/1 fmt/4 10 40 5 under 4142434445\n\
         pairs 1 decided 0 ambiguous 1 unknown 0 over 0 under 1 same 0 apart 0 open 0\n",
    ),
];

// Whether `conflicts` with the flags of the row prints so of its table.
fn is_flagged(rt: &HostRuntime, folder: &str, row: &Flagged) -> Result<bool, Fail> {
    let Flagged(Rows(rows, pairs), flags, status, lines) = *row;
    put_table(rt, folder, rows, pairs)?;
    let mut words = Vec::new(rt.alloc());
    words.push("conflicts")?;
    words.extend_from_slice(flags)?;
    words.extend_from_slice(&[S, P])?;
    Ok(run_in(rt, folder, &words)?.is(status, lines, ""))
}

#[test]
fn prints_what_the_flags_ask_for(rt: HostRuntime) -> Result<(), Fail> {
    let folder = "flagged";
    make(&rt, folder)?;
    for row in FLAGGED {
        assert!(rt; is_flagged(&rt, folder, row)?, "{:?} {:?}", row.0, row.1);
    }
    remove(&rt, folder)
}

// Words of `--only` that name no format of the table, also where there is no PUID in them.
const UNNAMED: &[Fault] = &[
    Fault(
        &["conflicts", "--only", "fmt/5", S, P],
        2,
        "only: not in the table\n",
    ),
    Fault(
        &["conflicts", "--only", "fmt/01", "--progress", S, P],
        2,
        "only: not in the table\n",
    ),
    Fault(
        &["conflicts", "--only", "", "--class", S, P],
        2,
        "only: not in the table\n",
    ),
    Fault(
        &["conflicts", "--only", "fmt/5", P, P],
        2,
        "signatures: L2 header\n",
    ),
    Fault(
        &["conflicts", "--only", "fmt/5", S, "none"],
        3,
        "cannot open none\n",
    ),
];

#[test]
fn wants_a_format_of_the_table(rt: HostRuntime) -> Result<(), Fail> {
    let folder = "unnamed";
    make_with(&rt, folder, THREE_RELATED)?;
    let untold = first_untold(&rt, folder, UNNAMED)?;
    assert!(rt; untold.is_none(), "{untold:?}");
    remove(&rt, folder)
}

// Whether a witness of the table in the folder is told.
fn is_ambiguous(rt: &HostRuntime, folder: &str) -> Result<bool, Fail> {
    let lines = "ambiguous fmt/1 fmt/2 1 2 1 41\npairs 1 decided 0 ambiguous 1 unknown 0\n";
    Ok(run_in(rt, folder, &words_for("100"))?.says(1, lines))
}

#[test]
fn a_witness_is_told_where_many_signatures_outrank(rt: HostRuntime) -> Result<(), Fail> {
    let folder = "outranked";
    make(&rt, folder)?;
    put_outranked(&rt, folder)?;
    assert!(rt; is_ambiguous(&rt, folder)?);
    remove(&rt, folder)
}

const NO_TABLE: Rows = Rows("fmt/1,1,BOF,0,,4\n", "");

#[test]
fn settles_nothing_of_a_table_that_is_not_loaded(rt: HostRuntime) -> Result<(), Fail> {
    let folder = "unsettled";
    make_with(&rt, folder, NO_TABLE)?;
    let line = "signatures row 1: L8 expression E2 at 1\n";
    assert!(rt; is_fault(&rt, folder, &words_for("100"), 2, line)?);
    let words = &["conflicts", "--budget", "100", "none", "none"];
    assert!(rt; is_fault(&rt, folder, words, 3, "cannot open none\n")?);
    remove(&rt, folder)
}

// Words that are refused, and how the text that says so begins.
const WRONG: &[(&[&str], &str)] = &[
    (
        &["conflicts", "a"],
        "error: the following required arguments were not provided:\n  <PRIOS>\n",
    ),
    (
        &["conflicts", "--budget", "0", "a", "b"],
        "error: invalid value '0' for '--budget <N>': 0 is not in 1..=4294967295\n",
    ),
    (
        &["conflicts", "--budget", "100", "a"],
        "error: the following required arguments were not provided:\n  <PRIOS>\n",
    ),
    (
        &["conflicts", "--only", "--class", "a", "b"],
        "error: a value is required for '--only <PUID>' but none was supplied\n",
    ),
    (
        &["conflicts", "--only", "fmt/1", "--only", "fmt/2", "a", "b"],
        "error: the argument '--only <PUID>' cannot be used multiple times\n",
    ),
    (
        &["conflicts", "--budget", "100", "--out", "o", "a", "b"],
        "error: unexpected argument '--out' found",
    ),
    (
        &["conflicts", "--budget", "100", "a", "b", "c"],
        "error: unexpected argument 'c' found",
    ),
];

#[test]
fn wants_a_table_and_takes_no_other_flag(rt: HostRuntime) -> Result<(), Fail> {
    for (words, begin) in WRONG {
        assert!(rt; run_in(&rt, "", words)?.refuses(begin), "{words:?}");
    }
    Ok(())
}

// Whether the program fails to write where its output has this room, and leaves so much of it.
fn is_left(rt: &HostRuntime, words: &[String], room: usize, left: usize) -> bool {
    let mut out = Room::of(room);
    let mut err = FromWrite::new(Vec::new(rt.alloc()));
    let status = command(rt, rt.stdin(), words, &mut out, &mut err);
    let line = err.into_inner();
    status == 3 && out.left() == left && line.as_slice() == b"write failed\n".as_slice()
}

// Whether it writes all where its output has just this room.
fn fills(rt: &HostRuntime, words: &[String], room: usize) -> bool {
    let mut out = Room::of(room);
    let mut err = FromWrite::new(Vec::new(rt.alloc()));
    let status = command(rt, rt.stdin(), words, &mut out, &mut err);
    status == 1 && out.left() == 0
}

// The room for an output, and what is left of it: the lines have 30, 36 and 40 bytes.
const ROOMS: &[(usize, usize)] = &[(29, 29), (30, 0), (65, 35), (66, 0), (105, 39)];

#[test]
fn lines_before_a_failed_write_stand(rt: HostRuntime) -> Result<(), Fail> {
    let folder = "room";
    make_with(&rt, folder, THREE_RELATED)?;
    let words = words_in(&rt, folder, &["conflicts", "--budget", "3", S, P])?;
    for (room, left) in ROOMS {
        assert!(rt; is_left(&rt, &words, *room, *left), "{room}");
    }
    assert!(rt; fills(&rt, &words, 106));
    remove(&rt, folder)
}
