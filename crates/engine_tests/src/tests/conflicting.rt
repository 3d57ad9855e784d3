//! `conflicts` with classes, by formats, and of one format alone: tables and their lines, worked
//! out by hand.

use crate::tests::table_of;
use fixtures::{EVERY_FILE, Memory, NO_FOLDER, Named, OVER_FIRST, Rows, THREE_RELATED, TWO};
use sig_bits::FromWrite;
use sig_engines::{ConflictsAsk, ConflictsRun, format_named, settle};
use sig_table::{FormatId, Puid};
use std::test::Fail;

// The two never meet, and only a search tells it.
const APART: Rows = Rows("fmt/1,1,BOF,0,,41(42|43)\nfmt/2,2,BOF,0,,4144\n", "");

// A table, a budget, and the lines with classes and bytes.
#[derive(Clone, Copy)]
struct Classed(Rows, u32, &'static str);

const CLASSED: &[Classed] = &[
    // Each file of fmt/1 begins with 41, so fmt/2 hits it; 41 alone leaves fmt/2.
    Classed(
        Rows("fmt/1,1,BOF,0,,4142\nfmt/2,2,BOF,0,,41\n", ""),
        100,
        "ambiguous fmt/1 fmt/2 1 2 2 over 4142\n\
         pairs 1 decided 0 ambiguous 1 unknown 0 over 1 under 0 same 0 apart 0 open 0\n",
    ),
    // The same, the other way round.
    Classed(
        Rows("fmt/1,1,BOF,0,,41\nfmt/2,2,BOF,0,,4142\n", ""),
        100,
        "ambiguous fmt/1 fmt/2 1 2 2 under 4142\n\
         pairs 1 decided 0 ambiguous 1 unknown 0 over 0 under 1 same 0 apart 0 open 0\n",
    ),
    // Both hit each file.
    Classed(
        EVERY_FILE,
        100,
        "ambiguous fmt/1 fmt/2 1 2 0 same\n\
         pairs 1 decided 0 ambiguous 1 unknown 0 over 0 under 0 same 1 apart 0 open 0\n",
    ),
    // 41 leaves fmt/1 alone, and 42 fmt/2 alone.
    Classed(
        Rows("fmt/1,1,BOF,0,,41\nfmt/2,2,EOF,0,,42\n", ""),
        100,
        "ambiguous fmt/1 fmt/2 1 2 2 apart 4142\n\
         pairs 1 decided 0 ambiguous 1 unknown 0 over 0 under 0 same 0 apart 1 open 0\n",
    ),
    // Each file of fmt/1 has 41 and 42 five bytes apart, so fmt/2 hits it. But the bytes between
    // may be 41 too or not, each for itself, and the search has a row for each case: more than 40.
    Classed(
        Rows("fmt/1,1,BOF,0,,41{5}42\nfmt/2,2,Variable,,,41{5}42\n", ""),
        40,
        "ambiguous fmt/1 fmt/2 1 2 7 open 41000000000042\n\
         pairs 1 decided 0 ambiguous 1 unknown 0 over 0 under 0 same 0 apart 0 open 1\n",
    ),
    // A file of fmt/2 alone and one of fmt/1 alone are found within 10 rows. One of both is not,
    // and a simple one is tried, with 41 42 behind 43.
    Classed(
        Rows("fmt/1,1,BOF,4,,43\nfmt/2,2,Variable,,,4142\n", ""),
        10,
        "ambiguous fmt/1 fmt/2 1 2 7 tried apart 00000000434142\n\
         pairs 1 decided 0 ambiguous 1 unknown 0 over 0 under 0 same 0 apart 1 open 0\n",
    ),
    // A pair that is decided has no class, nor has one that is unknown.
    Classed(
        TWO,
        2,
        "pairs 1 decided 1 ambiguous 0 unknown 0 over 0 under 0 same 0 apart 0 open 0\n",
    ),
    Classed(
        APART,
        1,
        "unknown fmt/1 fmt/2 1 2\n\
         pairs 1 decided 0 ambiguous 0 unknown 1 over 0 under 0 same 0 apart 0 open 0\n",
    ),
];

// What is asked for with this budget: the bytes, and no more.
fn asked(budget: u32) -> ConflictsAsk<'static> {
    ConflictsAsk {
        budget,
        hex: true,
        class: false,
        summary: false,
        only: None,
        priorities: None,
        files: None,
    }
}

// A store for what asks for no file.
fn nowhere(rt: &HostRuntime) -> Memory {
    let nothing = Named {
        name: "",
        bytes: b"",
    };
    Memory {
        alloc: rt.alloc(),
        first: nothing,
        second: nothing,
        third: nothing,
        upper: NO_FOLDER,
        lower: NO_FOLDER,
    }
}

// Whether `conflicts` writes these lines of the table, and nothing on the error output.
fn writes(rt: &HostRuntime, rows: Rows, ask: ConflictsAsk<'_>, lines: &str) -> Result<bool, Fail> {
    let store = nowhere(rt);
    writes_over(rt, &store, rows, ask, lines)
}

fn writes_over<'a>(
    rt: &HostRuntime,
    store: &Memory,
    rows: Rows,
    ask: ConflictsAsk<'a>,
    lines: &str,
) -> Result<bool, Fail> {
    let table = table_of(rt, rows.0, rows.1)?;
    let mut out = FromWrite::new(Vec::new(rt.alloc()));
    let mut err = FromWrite::new(Vec::new(rt.alloc()));
    let run = ConflictsRun {
        alloc: rt.alloc(),
        store,
        table: &table,
        ask,
    };
    let is_yes = match settle(&run, false, &mut out, &mut err) {
        Ok(is_yes) => is_yes,
        Err(_) => return Ok(false),
    };
    let wants_yes = lines.contains("ambiguous 0 unknown 0");
    let written = out.into_inner();
    Ok(is_yes == wants_yes && written.as_slice() == lines.as_bytes() && err.into_inner().is_empty())
}

// Whether it does with classes.
fn is_classed(rt: &HostRuntime, row: &Classed) -> Result<bool, Fail> {
    let Classed(rows, budget, lines) = *row;
    let mut ask = asked(budget);
    ask.class = true;
    writes(rt, rows, ask, lines)
}

#[test]
fn a_line_has_the_class_of_its_pair(rt: HostRuntime) -> Result<(), Fail> {
    for row in CLASSED {
        assert!(rt; is_classed(&rt, row)?, "{} {}", row.0.0, row.1);
    }
    Ok(())
}

// A table, and the lines of its formats.
#[derive(Clone, Copy)]
struct Summed(Rows, &'static str);

const SUMMED: &[Summed] = &[
    // The third format is apart from the other two, which never meet, so it is in most lines.
    Summed(
        Rows(
            "fmt/1,1,BOF,0,,41\nfmt/2,2,BOF,0,,42\nfmt/3,3,EOF,0,,43\n",
            "",
        ),
        "fmt/3 2 over 0 under 0 same 0 apart 2 open 0 unknown 0\n\
         fmt/1 1 over 0 under 0 same 0 apart 1 open 0 unknown 0\n\
         fmt/2 1 over 0 under 0 same 0 apart 1 open 0 unknown 0\n\
         pairs 3 decided 1 ambiguous 2 unknown 0 over 0 under 0 same 0 apart 2 open 0\n",
    ),
    // All are in two lines. Each file of the second hits the first, so the second must be over it.
    Summed(
        Rows(
            "fmt/1,1,BOF,0,,41\nfmt/2,2,BOF,0,,4142\nfmt/3,3,EOF,0,,42\n",
            "",
        ),
        "fmt/1 2 over 0 under 1 same 0 apart 1 open 0 unknown 0\n\
         fmt/2 2 over 1 under 0 same 0 apart 1 open 0 unknown 0\n\
         fmt/3 2 over 0 under 0 same 0 apart 2 open 0 unknown 0\n\
         pairs 3 decided 0 ambiguous 3 unknown 0 over 0 under 1 same 0 apart 2 open 0\n",
    ),
    // A format that is in no line has a line, too.
    Summed(
        TWO,
        "fmt/1 0 over 0 under 0 same 0 apart 0 open 0 unknown 0\n\
         fmt/2 0 over 0 under 0 same 0 apart 0 open 0 unknown 0\n\
         pairs 1 decided 1 ambiguous 0 unknown 0 over 0 under 0 same 0 apart 0 open 0\n",
    ),
];

// Whether `conflicts` writes these lines of the formats.
fn is_summed(rt: &HostRuntime, row: &Summed) -> Result<bool, Fail> {
    let Summed(rows, lines) = *row;
    let mut ask = asked(100);
    ask.summary = true;
    writes(rt, rows, ask, lines)
}

#[test]
fn each_format_has_a_line(rt: HostRuntime) -> Result<(), Fail> {
    for row in SUMMED {
        assert!(rt; is_summed(&rt, row)?, "{}", row.0.0);
    }
    Ok(())
}

// A budget of one row: the two have no class, since it is not known whether they meet.
#[test]
fn unknown_pairs_are_counted_for_both_formats(rt: HostRuntime) -> Result<(), Fail> {
    let mut ask = asked(1);
    ask.summary = true;
    let lines = "fmt/1 1 over 0 under 0 same 0 apart 0 open 0 unknown 1\n\
                 fmt/2 1 over 0 under 0 same 0 apart 0 open 0 unknown 1\n\
                 pairs 1 decided 0 ambiguous 0 unknown 1 over 0 under 0 same 0 apart 0 open 0\n";
    assert!(rt; writes(&rt, APART, ask, lines)?);
    Ok(())
}

// A table, a format of it, and the lines of its pairs alone.
#[derive(Clone, Copy)]
struct Alone(Rows, u16, &'static str);

const ALONE: &[Alone] = &[
    Alone(OVER_FIRST, 0, "pairs 1 decided 1 ambiguous 0 unknown 0\n"),
    Alone(
        OVER_FIRST,
        1,
        "ambiguous fmt/2 fmt/3 2 3 2 4142\npairs 2 decided 1 ambiguous 1 unknown 0\n",
    ),
    Alone(
        THREE_RELATED,
        3,
        "ambiguous fmt/1 fmt/4 10 40 5 4142434445\npairs 1 decided 0 ambiguous 1 unknown 0\n",
    ),
];

// Whether `conflicts` writes these lines of the pairs of the format.
fn writes_alone(rt: &HostRuntime, row: &Alone) -> Result<bool, Fail> {
    let Alone(rows, format, lines) = *row;
    let mut ask = asked(100);
    ask.only = Some(FormatId(format));
    writes(rt, rows, ask, lines)
}

#[test]
fn the_pairs_of_one_format_are_settled_alone(rt: HostRuntime) -> Result<(), Fail> {
    for row in ALONE {
        assert!(rt; writes_alone(&rt, row)?, "{} {}", row.0.0, row.1);
    }
    Ok(())
}

// The format of this name in a table of `fmt/1` and `fmt/2`.
fn named(rt: &HostRuntime, name: &[u8]) -> Result<Option<FormatId>, Fail> {
    let table = table_of(rt, TWO.0, TWO.1)?;
    match Puid::parse(name) {
        Some(puid) => Ok(format_named(&table, &puid)),
        None => Ok(None),
    }
}

#[test]
fn a_format_is_found_by_its_name(rt: HostRuntime) -> Result<(), Fail> {
    assert!(rt; named(&rt, b"fmt/1")? == Some(FormatId(0)));
    assert!(rt; named(&rt, b"fmt/2")? == Some(FormatId(1)));
    assert!(rt; named(&rt, b"fmt/3")?.is_none());
    assert!(rt; named(&rt, b"x-fmt/1")?.is_none());
    Ok(())
}
