//! `dead` through the program: tables worked out by hand, and what stands where it stops.

use crate::tests::{P, S, is_fault, make, make_with, put_table, remove, run_in, words_in};
use fixtures::{EVERY_FILE, NONE, ONE, Room, Rows};
use sig_bits::FromWrite;
use sig_command::command;
use std::test::Fail;

// Each file that begins with 41 42 begins with 41.
const COVERED_BY_OVER: Rows = Rows("fmt/1,1,BOF,0,,4142\nfmt/2,2,BOF,0,,41\n", "fmt/2,fmt/1\n");

const COVERED_BY_UNDER: Rows = Rows("fmt/1,1,BOF,0,,4142\nfmt/2,2,BOF,0,,41\n", "fmt/1,fmt/2\n");

// The second signature of the first format meets no other format.
const ONE_SIGNATURE_DEAD: Rows = Rows(
    "fmt/1,1,BOF,0,,4142\nfmt/2,2,BOF,0,,41\nfmt/1,3,BOF,0,,43\n",
    "fmt/2,fmt/1\n",
);

// A first byte is 41 or another one, so with both pairs nothing is left for the second format.
const DEAD_BY_TWO: Rows = Rows(
    "fmt/1,1,BOF,0,,41\nfmt/2,2,BOF,0,,??\nfmt/3,3,BOF,0,,[!41]\n",
    "fmt/1,fmt/2\nfmt/3,fmt/2\n",
);

// A file that the first format is left for begins with another byte than 41.
const ALIVE_FURTHER_ON: Rows = Rows(
    "fmt/1,1,Variable,,,4142\nfmt/2,2,BOF,0,,41\n",
    "fmt/2,fmt/1\n",
);

// One end of a file of 41 is not within two rows.
const UNKNOWN_SIGNATURE: Rows = Rows("fmt/1,1,BOF,0,,414243\nfmt/1,2,BOF,0,,41\n", "");

// A table, a budget, the status, and the lines that are printed with `--hex`.
#[derive(Clone, Copy)]
struct Judged(Rows, &'static str, u8, &'static str);

const JUDGED: &[Judged] = &[
    Judged(
        NONE,
        "1",
        0,
        "formats 0 alive 0 dead 0 unknown 0 signatures 0 alive 0 dead 0 unknown 0\n",
    ),
    Judged(
        COVERED_BY_OVER,
        "100",
        1,
        "dead fmt/1\nalive fmt/2 2 1 41\n\
         formats 2 alive 1 dead 1 unknown 0 signatures 2 alive 1 dead 1 unknown 0\n",
    ),
    Judged(
        COVERED_BY_UNDER,
        "100",
        0,
        "alive fmt/1 1 2 4142\nalive fmt/2 2 1 41\n\
         formats 2 alive 2 dead 0 unknown 0 signatures 2 alive 2 dead 0 unknown 0\n",
    ),
    Judged(
        ONE_SIGNATURE_DEAD,
        "100",
        1,
        "dead fmt/1 1\nalive fmt/1 3 1 43\nalive fmt/2 2 1 41\n\
         formats 2 alive 2 dead 0 unknown 0 signatures 3 alive 2 dead 1 unknown 0\n",
    ),
    Judged(
        DEAD_BY_TWO,
        "100",
        1,
        "alive fmt/1 1 1 41\ndead fmt/2\nalive fmt/3 3 1 00\n\
         formats 3 alive 2 dead 1 unknown 0 signatures 3 alive 2 dead 1 unknown 0\n",
    ),
    Judged(
        ALIVE_FURTHER_ON,
        "100",
        0,
        "alive fmt/1 1 3 004142\nalive fmt/2 2 1 41\n\
         formats 2 alive 2 dead 0 unknown 0 signatures 2 alive 2 dead 0 unknown 0\n",
    ),
    Judged(
        EVERY_FILE,
        "100",
        0,
        "alive fmt/1 1 0\nalive fmt/2 2 0\n\
         formats 2 alive 2 dead 0 unknown 0 signatures 2 alive 2 dead 0 unknown 0\n",
    ),
    Judged(
        COVERED_BY_OVER,
        "1",
        1,
        "unknown fmt/1\nunknown fmt/2\n\
         formats 2 alive 0 dead 0 unknown 2 signatures 2 alive 0 dead 0 unknown 2\n",
    ),
    Judged(
        UNKNOWN_SIGNATURE,
        "2",
        1,
        "unknown fmt/1 1\nalive fmt/1 2 1 41\n\
         formats 1 alive 1 dead 0 unknown 0 signatures 2 alive 1 dead 0 unknown 1\n",
    ),
];

// Whether `dead` judges the table of the row so.
fn is_judged(rt: &HostRuntime, folder: &str, row: &Judged) -> Result<bool, Fail> {
    let Judged(Rows(rows, pairs), budget, status, lines) = *row;
    put_table(rt, folder, rows, pairs)?;
    Ok(run_in(rt, folder, &["dead", "--budget", budget, "--hex", S, P])?.is(status, lines, ""))
}

#[test]
fn judges_what_the_rows_say(rt: HostRuntime) -> Result<(), Fail> {
    let folder = "dying";
    make(&rt, folder)?;
    for row in JUDGED {
        assert!(rt; is_judged(&rt, folder, row)?, "{:?} {}", row.0, row.1);
    }
    remove(&rt, folder)
}

#[test]
fn prints_no_files_unless_asked(rt: HostRuntime) -> Result<(), Fail> {
    let folder = "dying_bare";
    make_with(&rt, folder, ONE_SIGNATURE_DEAD)?;
    let shown = run_in(&rt, folder, &["dead", "--budget", "100", S, P])?;
    let lines = "dead fmt/1 1\n\
        formats 2 alive 2 dead 0 unknown 0 signatures 3 alive 2 dead 1 unknown 0\n";
    assert!(rt; shown.says(1, lines));
    remove(&rt, folder)
}

#[test]
fn tells_how_many_formats_are_done(rt: HostRuntime) -> Result<(), Fail> {
    let folder = "dying_watched";
    make_with(&rt, folder, ONE)?;
    let shown = run_in(
        &rt,
        folder,
        &["dead", "--progress", "--budget", "100", S, P],
    )?;
    assert!(rt; shown.reports(0, "\r0 of 1 formats\r1 of 1 formats\n"));
    remove(&rt, folder)
}

const NO_TABLE: Rows = Rows("fmt/1,1,BOF,0,,4\n", "");

#[test]
fn judges_nothing_of_a_table_that_is_not_loaded(rt: HostRuntime) -> Result<(), Fail> {
    let folder = "dying_unloaded";
    make_with(&rt, folder, NO_TABLE)?;
    let line = "signatures row 1: L8 expression E2 at 1\n";
    assert!(rt; is_fault(&rt, folder, &["dead", "--budget", "100", S, P], 2, line)?);
    let words = &["dead", "--budget", "100", "none", "none"];
    assert!(rt; is_fault(&rt, folder, words, 3, "cannot open none\n")?);
    remove(&rt, folder)
}

// Whether the program fails to write where its output has this room, and leaves so much of it.
fn is_left(rt: &HostRuntime, words: &[String], room: usize, left: usize) -> bool {
    let mut out = Room::of(room);
    let mut err = FromWrite::new(Vec::new(rt.alloc()));
    let status = command(rt, rt.stdin(), words, &mut out, &mut err);
    let line = err.into_inner();
    status == 3 && out.left() == left && line.as_slice() == b"write failed\n".as_slice()
}

// The room for an output, and what is left of it: the first line has 11 bytes.
const ROOMS: &[(usize, usize)] = &[(10, 10), (11, 0), (30, 19)];

#[test]
fn lines_of_formats_before_a_failed_write_stand(rt: HostRuntime) -> Result<(), Fail> {
    let folder = "dying_room";
    make_with(&rt, folder, COVERED_BY_OVER)?;
    let words = words_in(&rt, folder, &["dead", "--budget", "100", S, P])?;
    for (room, left) in ROOMS {
        assert!(rt; is_left(&rt, &words, *room, *left), "{room}");
    }
    remove(&rt, folder)
}
