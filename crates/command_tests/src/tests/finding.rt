//! `find` through the program: tables worked out by hand, and what the other subcommands say of
//! OUT.

use crate::tests::{
    Fault, O, P, S, Shown, first_untold, make, make_with, path_in, put_table, remove, run_in,
};
use fixtures::{BOTH_ENDS, COVERED, EVERY_FILE, ONE, OVER_BOTH, OVER_FIRST, Rows, TWO};
use std::fs;
use std::test::Fail;

// A table, a budget, the lines that are printed with the bytes of OUT, and the line that is then
// printed of OUT: where the search gives up OUT is not there, and the line is why.
#[derive(Clone, Copy)]
struct Sought(Rows, &'static str, &'static str, &'static str);

const SOUGHT: &[Sought] = &[
    Sought(ONE, "1", "decided\n505341430200000000\n", "accepted\n"),
    Sought(TWO, "1", "gave up 1 2\n", "more than 1 rows\n"),
    Sought(
        TWO,
        "2",
        "decided\n505341430200000001010000000000020000000000010001\n",
        "accepted\n",
    ),
    Sought(
        EVERY_FILE,
        "100",
        "witness fmt/1 fmt/2\n\n",
        "ambiguous fmt/1 fmt/2\n",
    ),
    Sought(
        BOTH_ENDS,
        "5",
        "witness fmt/1 fmt/2\n41\n",
        "ambiguous fmt/1 fmt/2\n",
    ),
    Sought(
        BOTH_ENDS,
        "100",
        "witness fmt/1 fmt/2\n41\n",
        "ambiguous fmt/1 fmt/2\n",
    ),
    Sought(OVER_BOTH, "3", "gave up 1 2\n", "more than 3 rows\n"),
    Sought(
        OVER_BOTH,
        "4",
        "decided\n5053414302000000030100010000000200000004000000000100010001020002\
          00020400030003080000\n",
        "accepted\n",
    ),
    Sought(
        COVERED,
        "4",
        "decided\n5053414302000000030100010000000200000003000000000100010001060002\
          00020a0000\n",
        "accepted\n",
    ),
    Sought(
        OVER_FIRST,
        "100",
        "witness fmt/2 fmt/3\n4142\n",
        "ambiguous fmt/2 fmt/3\n",
    ),
];

// Runs `find` with `--hex` on the table in the folder, for an OUT of this name.
fn find(rt: &HostRuntime, folder: &str, budget: &str, out: &str) -> Result<Shown, Fail> {
    run_in(
        rt,
        folder,
        &["find", "--budget", budget, "--out", out, "--hex", S, P],
    )
}

// Whether `find` prints this of the table in the folder.
fn is_found(rt: &HostRuntime, folder: &str, row: &Sought) -> Result<bool, Fail> {
    let Sought(_, budget, lines, line) = *row;
    let shown = find(rt, folder, budget, O)?;
    if lines.starts_with("gave up") {
        return Ok(shown.is(1, lines, line));
    }
    Ok(shown.is(0, lines, ""))
}

// Whether this is then printed of OUT.
fn is_judged(rt: &HostRuntime, folder: &str, row: &Sought) -> Result<bool, Fail> {
    let Sought(_, _, lines, line) = *row;
    if lines.starts_with("gave up") {
        return Ok(run_in(rt, folder, &["witness", S, P, O])?.says(3, ""));
    }
    let word = if line == "accepted\n" {
        "check"
    } else {
        "witness"
    };
    Ok(run_in(rt, folder, &[word, S, P, O])?.says(0, line))
}

// Whether both are so, in a folder of the row's own.
fn is_sought(rt: &HostRuntime, row: &Sought) -> Result<bool, Fail> {
    let folder = "sought";
    make_with(rt, folder, row.0)?;
    let is_so = is_found(rt, folder, row)? && is_judged(rt, folder, row)?;
    remove(rt, folder)?;
    Ok(is_so)
}

#[test]
fn finds_what_the_rows_say(rt: HostRuntime) -> Result<(), Fail> {
    for row in SOUGHT {
        assert!(rt; is_sought(&rt, row)?, "{:?}", row.0);
    }
    Ok(())
}

// Puts the row of this number behind the others, all of one format.
fn push_row(rt: &HostRuntime, rows: &mut String, number: u32) -> Result<(), Fail> {
    let row = format!(in rt.alloc(); "fmt/3,{number},BOF,0,,42\n")?;
    rows.push_str(&row)?;
    Ok(())
}

// Two formats that are both hit, and one over them with 65 signatures.
fn outranked_rows(rt: &HostRuntime) -> Result<String, Fail> {
    let mut rows = "fmt/1,1,BOF,0,,41\nfmt/2,2,BOF,0,,41\n".to_string(rt.alloc())?;
    for number in 3..68 {
        push_row(rt, &mut rows, number)?;
    }
    Ok(rows)
}

// Puts that table into the folder.
pub(crate) fn put_outranked(rt: &HostRuntime, folder: &str) -> Result<(), Fail> {
    let rows = outranked_rows(rt)?;
    put_table(rt, folder, &rows, "fmt/3,fmt/1\nfmt/3,fmt/2\n")
}

#[test]
fn gives_up_on_a_sixty_fifth_blocker(rt: HostRuntime) -> Result<(), Fail> {
    let folder = "blockers";
    make(&rt, folder)?;
    put_outranked(&rt, folder)?;
    let found = find(&rt, folder, "100", "none/none")?;
    let reason = "over 64 signatures outrank 1 or 2: see conflicts\n";
    assert!(rt; found.is(1, "gave up 1 2\n", reason));
    remove(&rt, folder)
}

const TWO_ANYWHERE: Rows = Rows("fmt/1,1,Variable,,,41\nfmt/2,2,Variable,,,42\n", "");

// Whether `find` finds a witness of the table in the folder.
fn has_witness(rt: &HostRuntime, folder: &str) -> Result<bool, Fail> {
    Ok(find(rt, folder, "100", O)?.begins("witness fmt/1 fmt/2\n"))
}

// How many bytes OUT has.
fn out_len(rt: &HostRuntime, folder: &str) -> Result<usize, Fail> {
    let out = path_in(rt, folder, "out.bin")?;
    Ok(fs::read(rt, out.as_str())?.len())
}

#[test]
fn a_witness_is_as_short_as_can_be(rt: HostRuntime) -> Result<(), Fail> {
    let folder = "shortest";
    make_with(&rt, folder, TWO_ANYWHERE)?;
    assert!(rt; has_witness(&rt, folder)?);
    assert!(rt; out_len(&rt, folder)? == 2);
    remove(&rt, folder)
}

// An OUT that cannot be made, a text that is no table, and one that is not there.
const OPENED: &[Fault] = &[
    Fault(
        &["find", "--budget", "2", "--out", "none/none", "--hex", S, P],
        3,
        "cannot open none/none\n",
    ),
    Fault(
        &["find", "--budget", "2", "--out", "none/none", "--hex", P, P],
        2,
        "signatures: L2 header\n",
    ),
    Fault(
        &[
            "find",
            "--budget",
            "2",
            "--out",
            "none/none",
            "--hex",
            "none",
            P,
        ],
        3,
        "cannot open none\n",
    ),
];

#[test]
fn opens_out_after_the_search(rt: HostRuntime) -> Result<(), Fail> {
    let folder = "out";
    make_with(&rt, folder, TWO)?;
    let untold = first_untold(&rt, folder, OPENED)?;
    assert!(rt; untold.is_none(), "{untold:?}");
    remove(&rt, folder)
}
