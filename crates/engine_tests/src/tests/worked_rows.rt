//! The worked rows: tables and files with their answers, worked out by hand. Every core answers
//! each of them, however the file is cut into pieces.

use crate::tests::table_of;
use fixtures::Pieces;
use sig_bits::FromWrite;
use sig_core::{DroidCore, Hit, Results};
use sig_engines::run_match;
use sig_match::{Scan, StreamCore, WholeCore};
use sig_scan::BlockCore;
use sig_table::{FormatId, SigId, Table};
use std::test::Fail;

// Signature rows, priority rows, a file, the lines of all hits, and those of what is left.
#[derive(Clone, Copy)]
struct WorkedRow(
    &'static str,
    &'static str,
    &'static [u8],
    &'static str,
    &'static str,
);

// The rows of the one signature 1 of `fmt/1`, a file, and whether it hits.
const ONE_SIGNATURE: &[(&str, &[u8], bool)] = &[
    ("BOF,0,,4142\n", b"AB", true),
    ("BOF,1,,41??\n", b"\x00A\xff\x00", true),
    ("BOF,1,,41??\n", b"\x00A", false),
    ("Variable,,,41*42\n", b"BA", false),
    ("Variable,,,41*42\n", b"\x00AB", true),
    ("Variable,,,4142\n", b"\x00AB\x00", true),
    ("BOF,0,,41{1-2}42\n", b"ABB", true),
    ("BOF,0,,41{1-2}42\n", b"AB", false),
    ("BOF,0,,41{0-1}42{1}43\n", b"ABB\x00C", true),
    ("EOF,0,2,4142\n", b"AB\x00\x00", true),
    ("EOF,0,2,4142\n", b"AB\x00\x00\x00", false),
    ("EOF,2,,41\n", b"A\x00\x00", true),
    ("EOF,2,,41\n", b"A\x00", false),
    ("Variable,,,*\n", b"", true),
    ("BOF,0,,(41|4142)43\n", b"ABC", true),
    ("BOF,0,,[!41]\n", b"", false),
    ("BOF,0,,[!41]\n", b"A", false),
    ("BOF,0,,[!41]\n", b"B", true),
    ("BOF,0,,41\nfmt/1,1,EOF,0,,41\n", b"A", true),
    ("BOF,0,,41\nfmt/1,1,EOF,0,,41\n", b"AB", false),
    ("BOF,1,3,41\n", b"\x00A", true),
    ("BOF,1,3,41\n", b"\x00\x00\x00A", true),
    ("BOF,1,3,41\n", b"A", false),
    ("BOF,1,3,41\n", b"\x00\x00\x00\x00A", false),
    ("EOF,0,,41*\n", b"\x00A\x00", true),
    ("EOF,0,,41*\n", b"\x00", false),
    ("BOF,0,,*41\n", b"\x00\x00A\x00", true),
    ("BOF,0,,*41\n", b"", false),
    ("BOF,0,,[4142:4241]\n", b"AB", true),
    ("BOF,0,,[4142:4241]\n", b"B\x00", true),
    ("BOF,0,,[4142:4241]\n", b"BA", true),
    ("BOF,0,,[4142:4241]\n", b"B\x00\xff", true),
    ("BOF,0,,[4142:4241]\n", b"AA", false),
    ("BOF,0,,[4142:4241]\n", b"BB", false),
    ("BOF,0,,[4142:4241]\n", b"A", false),
    ("BOF,0,,[!4142]\n", b"AC", true),
    ("BOF,0,,[!4142]\n", b"\x00\x00", true),
    ("BOF,0,,[!4142]\n", b"AB", false),
    ("BOF,0,,[!4142]\n", b"\x00", false),
    ("BOF,0,,[!0000:FFFE]\n", b"\xff\xff", true),
    ("BOF,0,,[!0000:FFFE]\n", b"\xff\xfe", false),
    ("BOF,0,,{65534}\n", b"", false),
    ("Variable,,,{65533}\n", b"", false),
    ("BOF,0,,4a{3-3}{0-*}(0d0a|[!0a])\n", b"Jxyz\r\n", true),
    ("BOF,0,,4a{3-3}{0-*}(0d0a|[!0a])\n", b"Jxyz\n\n", false),
    ("BOF,0,,4a{3-3}{0-*}(0d0a|[!0a])\n", b"Jxyz\n", false),
];

// Tables of several signatures.
const TABLES: &[WorkedRow] = &[
    WorkedRow(
        "fmt/1,9,BOF,0,,41\nfmt/1,2,BOF,0,,41\n",
        "",
        b"A",
        "fmt/1 9\n",
        "fmt/1 9\n",
    ),
    WorkedRow(
        "fmt/1,1,BOF,0,,41\nx-fmt/20,2,BOF,0,,41\n",
        "",
        b"A",
        "fmt/1 1\nx-fmt/20 2\n",
        "fmt/1 1\nx-fmt/20 2\n",
    ),
    WorkedRow("", "", b"A", "", ""),
    WorkedRow(
        "fmt/1,1,BOF,0,,41??\nfmt/2,2,BOF,0,,??42\nfmt/3,3,BOF,0,,4142\n",
        "fmt/3,fmt/1\nfmt/3,fmt/2\n",
        b"AB",
        "fmt/1 1\nfmt/2 2\nfmt/3 3\n",
        "fmt/3 3\n",
    ),
    WorkedRow(
        "fmt/1,1,BOF,0,,41??\nfmt/2,2,BOF,0,,??42\nfmt/3,3,BOF,0,,4142\n",
        "fmt/3,fmt/1\nfmt/3,fmt/2\n",
        b"A\0",
        "fmt/1 1\n",
        "fmt/1 1\n",
    ),
    WorkedRow(
        "fmt/1,1,BOF,0,,41??\nfmt/2,2,BOF,0,,??42\nfmt/3,3,BOF,0,,4142\n",
        "fmt/3,fmt/1\nfmt/3,fmt/2\n",
        b"",
        "",
        "",
    ),
    WorkedRow(
        "fmt/1,1,BOF,0,,41??\nfmt/2,2,BOF,0,,??42\nfmt/3,3,BOF,0,,4142\n",
        "fmt/3,fmt/1\n",
        b"AB",
        "fmt/1 1\nfmt/2 2\nfmt/3 3\n",
        "fmt/2 2\nfmt/3 3\n",
    ),
    WorkedRow(
        "fmt/1,1,BOF,0,,41\nfmt/2,2,BOF,0,,41\nfmt/3,3,BOF,0,,41\n",
        "fmt/1,fmt/2\nfmt/2,fmt/3\n",
        b"A",
        "fmt/1 1\nfmt/2 2\nfmt/3 3\n",
        "fmt/1 1\n",
    ),
    WorkedRow(
        "fmt/1,1,BOF,0,,4142\nfmt/2,2,EOF,0,,42\n",
        "",
        b"AB",
        "fmt/1 1\nfmt/2 2\n",
        "fmt/1 1\nfmt/2 2\n",
    ),
    WorkedRow(
        "fmt/1,1,BOF,0,,41\nfmt/2,2,BOF,0,,41\nfmt/3,3,BOF,0,,41\nfmt/3,3,BOF,1,,42\n",
        "fmt/3,fmt/1\nfmt/3,fmt/2\n",
        b"A",
        "fmt/1 1\nfmt/2 2\n",
        "fmt/1 1\nfmt/2 2\n",
    ),
];

// How many bytes a read gives at most.
const CUTS: &[usize] = &[1, 2, 3, 7, usize::MAX];

// Whether `match` writes these lines of a file that comes in pieces of at most so many bytes.
fn is_matched<K: DroidCore>(
    rt: &HostRuntime,
    core: &K,
    all: bool,
    file: &[u8],
    most: usize,
    lines: &str,
) -> bool {
    let mut file = Pieces::cut(file, most);
    let mut out = FromWrite::new(Vec::new(rt.alloc()));
    let answer = run_match(rt.alloc(), core, all, &mut file, &mut out);
    let written = out.into_inner();
    answer == Ok(()) && written.as_slice() == lines.as_bytes()
}

// Whether the core answers the file with these lines, of all hits and of what is left.
fn answers<K: DroidCore>(rt: &HostRuntime, core: &K, file: &[u8], all: &str, left: &str) -> bool {
    for most in CUTS {
        if !is_matched(rt, core, true, file, *most, all)
            || !is_matched(rt, core, false, file, *most, left)
        {
            return false;
        }
    }
    true
}

// The cores: one that scans by blocks has blocks of so many bytes, or is made ready for many files.
#[derive(Clone, Copy, Debug)]
enum By {
    Whole,
    Stream,
    Blocks(u32),
    Prepared,
}

const BY_BLOCKS: &[By] = &[
    By::Blocks(1),
    By::Blocks(2),
    By::Blocks(3),
    By::Blocks(1 << 18),
    By::Prepared,
];

// Whether a core with such blocks does.
fn answers_by_blocks(
    rt: &HostRuntime,
    block: u32,
    table: Table,
    file: &[u8],
    all: &str,
    left: &str,
) -> bool {
    let core = BlockCore::with_block(rt.alloc(), table, block.max(1));
    answers(rt, &core, file, all, left)
}

// Whether this core of the table answers so.
fn answers_by(rt: &HostRuntime, by: By, table: Table, file: &[u8], all: &str, left: &str) -> bool {
    match by {
        By::Whole => answers(rt, &WholeCore::new(rt.alloc(), table), file, all, left),
        By::Stream => answers(rt, &StreamCore::new(rt.alloc(), table), file, all, left),
        By::Blocks(block) => answers_by_blocks(rt, block, table, file, all, left),
        By::Prepared => answers(rt, &BlockCore::prepared(rt.alloc(), table), file, all, left),
    }
}

// The table of the rows of signature 1 of `fmt/1`.
fn table_of_one(rt: &HostRuntime, sequences: &str) -> Result<Table, Fail> {
    let rows = format!(in rt.alloc(); "fmt/1,1,{sequences}")?;
    table_of(rt, rows.as_str(), "")
}

// Whether this core says so of the one signature.
fn answers_one(
    rt: &HostRuntime,
    by: By,
    sequences: &str,
    file: &[u8],
    hits: bool,
) -> Result<bool, Fail> {
    let lines = if hits { "fmt/1 1\n" } else { "" };
    let table = table_of_one(rt, sequences)?;
    Ok(answers_by(rt, by, table, file, lines, lines))
}

// Whether it does of the several signatures of the row.
fn answers_row(rt: &HostRuntime, by: By, row: &WorkedRow) -> Result<bool, Fail> {
    let WorkedRow(rows, pairs, file, all, left) = *row;
    let table = table_of(rt, rows, pairs)?;
    Ok(answers_by(rt, by, table, file, all, left))
}

#[test]
fn the_whole_core_answers_the_worked_rows(rt: HostRuntime) -> Result<(), Fail> {
    for (sequences, file, hits) in ONE_SIGNATURE {
        let answers = answers_one(&rt, By::Whole, sequences, file, *hits)?;
        assert!(rt; answers, "{sequences}{file:?}");
    }
    for row in TABLES {
        assert!(rt; answers_row(&rt, By::Whole, row)?, "{}{:?}", row.0, row.2);
    }
    Ok(())
}

#[test]
fn the_stream_core_answers_the_worked_rows(rt: HostRuntime) -> Result<(), Fail> {
    for (sequences, file, hits) in ONE_SIGNATURE {
        let answers = answers_one(&rt, By::Stream, sequences, file, *hits)?;
        assert!(rt; answers, "{sequences}{file:?}");
    }
    for row in TABLES {
        assert!(rt; answers_row(&rt, By::Stream, row)?, "{}{:?}", row.0, row.2);
    }
    Ok(())
}

// Whether this core says so of each one signature.
fn answers_each(rt: &HostRuntime, by: By) -> Result<bool, Fail> {
    for (sequences, file, hits) in ONE_SIGNATURE {
        if !answers_one(rt, by, sequences, file, *hits)? {
            return Ok(false);
        }
    }
    Ok(true)
}

// Whether it does of each table.
fn answers_tables(rt: &HostRuntime, by: By) -> Result<bool, Fail> {
    for row in TABLES {
        if !answers_row(rt, by, row)? {
            return Ok(false);
        }
    }
    Ok(true)
}

#[test]
fn the_block_core_answers_the_worked_rows(rt: HostRuntime) -> Result<(), Fail> {
    for by in BY_BLOCKS {
        assert!(rt; answers_each(&rt, *by)?, "{by:?}");
        assert!(rt; answers_tables(&rt, *by)?, "{by:?}");
    }
    Ok(())
}

// What a scan finds in a file that is fed in pieces of so many bytes.
fn scanned(rt: &HostRuntime, table: &Table, file: &[u8], most: usize) -> Result<Results, Fail> {
    let mut scan = Scan::new(rt.alloc(), table)?;
    for piece in file.chunks(most.max(1)) {
        scan.feed(piece);
    }
    Ok(scan.finish())
}

// Whether it finds these hits, however the file is cut.
fn all_find(rt: &HostRuntime, table: &Table, file: &[u8], hits: &[Hit]) -> Result<bool, Fail> {
    for most in CUTS {
        let found = scanned(rt, table, file, *most)?;
        if found.hits() != hits {
            return Ok(false);
        }
    }
    Ok(true)
}

// The hit of the one signature.
const ONE_HIT: &[Hit] = &[Hit {
    format: FormatId(0),
    signature: SigId(0),
}];

// Whether it finds that hit, or none.
fn find_one(rt: &HostRuntime, sequences: &str, file: &[u8], hits: bool) -> Result<bool, Fail> {
    let wants: &[Hit] = if hits { ONE_HIT } else { &[] };
    let table = table_of_one(rt, sequences)?;
    all_find(rt, &table, file, wants)
}

// Whether it finds what the whole core finds.
fn find_whole(rt: &HostRuntime, core: &WholeCore, file: &[u8]) -> Result<bool, Fail> {
    let whole = core.match_bytes(file)?;
    all_find(rt, core.table(), file, whole.hits())
}

// Whether it does of the several signatures of the row.
fn find_row(rt: &HostRuntime, row: &WorkedRow) -> Result<bool, Fail> {
    let core = WholeCore::new(rt.alloc(), table_of(rt, row.0, row.1)?);
    find_whole(rt, &core, row.2)
}

// The rows, fed to a scan in pieces.
#[test]
fn a_scan_answers_the_worked_rows(rt: HostRuntime) -> Result<(), Fail> {
    for (sequences, file, hits) in ONE_SIGNATURE {
        assert!(rt;
            find_one(&rt, sequences, file, *hits)?,
            "{sequences}{file:?}"
        );
    }
    for row in TABLES {
        assert!(rt; find_row(&rt, row)?, "{}{:?}", row.0, row.2);
    }
    Ok(())
}

// Puts so many zeros behind the file.
fn push_zeros(file: &mut Vec<u8>, zeros: usize) -> Result<(), Fail> {
    for _ in 0..zeros {
        file.push(0)?;
    }
    Ok(())
}

// A byte 41, so many zeros and a byte 42.
fn between_zeros(rt: &HostRuntime, zeros: usize) -> Result<Vec<u8>, Fail> {
    let mut file = b"A".to_vec(rt.alloc())?;
    push_zeros(&mut file, zeros)?;
    file.push(b'B')?;
    Ok(file)
}

const ALL: &[By] = &[By::Whole, By::Stream, By::Blocks(1000), By::Prepared];

// Whether all cores answer `41{65530}42` with these lines where there are so many zeros.
fn all_answer(rt: &HostRuntime, zeros: usize, lines: &str) -> Result<bool, Fail> {
    let file = between_zeros(rt, zeros)?;
    let rows = "BOF,0,,41{65530}42\n";
    for by in ALL {
        let table = table_of_one(rt, rows)?;
        if !answers_by(rt, *by, table, &file, lines, lines) {
            return Ok(false);
        }
    }
    Ok(true)
}

#[test]
fn a_long_gap_is_passed_and_not_left_early(rt: HostRuntime) -> Result<(), Fail> {
    assert!(rt; all_answer(&rt, 65_530, "fmt/1 1\n")?);
    assert!(rt; all_answer(&rt, 65_529, "")?);
    Ok(())
}
