//! Sequences with a long gap.

use crate::tests::{are_searched, loaded, scanned};
use std::alloc::{AllocError, Global};
use std::test::Fail;

// How long each file is, and where it is cut in two.
const LEN: usize = 12_000;

const CUT: usize = 4_500;

// A file of one byte over and over, but for these places.
fn file_of(alloc: Global, fill: u8, others: &[(usize, u8)]) -> Result<Vec<u8>, AllocError> {
    let mut file = vec![in alloc; fill; LEN]?;
    for (place, byte) in others {
        if let Some(spot) = file.get_mut(*place) {
            *spot = *byte;
        }
    }
    Ok(file)
}

// The row of a table, the byte of a file, what stands at other places, and whether the sequence
// stands in it.
const FILES: &[(&str, u8, &[(usize, u8)], bool)] = &[
    // The gap has 4,000 bytes at most, whatever they are.
    (
        "fmt/1,1,Variable,,,41{0-4000}42\n",
        0x00,
        &[(100, 0x41), (4_101, 0x42)],
        true,
    ),
    (
        "fmt/1,1,Variable,,,41{0-4000}42\n",
        0x00,
        &[(100, 0x41), (4_102, 0x42)],
        false,
    ),
    (
        "fmt/1,1,Variable,,,41{0-4000}42\n",
        0x00,
        &[(100, 0x41), (101, 0x42)],
        true,
    ),
    (
        "fmt/1,1,Variable,,,41{0-4000}42\n",
        0x00,
        &[(100, 0x42), (101, 0x41)],
        false,
    ),
    // It is entered once more before its end.
    (
        "fmt/1,1,Variable,,,41{0-4000}42\n",
        0x00,
        &[(100, 0x41), (2_000, 0x41), (6_001, 0x42)],
        true,
    ),
    (
        "fmt/1,1,Variable,,,41{0-4000}42\n",
        0x00,
        &[(100, 0x41), (2_000, 0x41), (6_002, 0x42)],
        false,
    ),
    (
        "fmt/1,1,Variable,,,41{0-4000}42\n",
        0x00,
        &[(100, 0x41), (4_095, 0x41), (8_096, 0x42)],
        true,
    ),
    // And at each byte.
    (
        "fmt/1,1,Variable,,,41{0-4000}4243\n",
        0x41,
        &[(9_000, 0x42), (9_001, 0x43)],
        true,
    ),
    (
        "fmt/1,1,Variable,,,41{0-4000}4243\n",
        0x41,
        &[(9_000, 0x42), (9_002, 0x43)],
        false,
    ),
    (
        "fmt/1,1,Variable,,,4144{0-4000}4243\n",
        0x41,
        &[(9_000, 0x42), (9_001, 0x43)],
        false,
    ),
    (
        "fmt/1,1,Variable,,,4144{0-4000}4243\n",
        0x41,
        &[(5_000, 0x44), (9_001, 0x42), (9_002, 0x43)],
        true,
    ),
    (
        "fmt/1,1,Variable,,,4144{0-4000}4243\n",
        0x41,
        &[(5_000, 0x44), (9_002, 0x42), (9_003, 0x43)],
        false,
    ),
    // It is left behind 40 bytes or more.
    (
        "fmt/1,1,Variable,,,41{40-4000}42\n",
        0x00,
        &[(100, 0x41), (140, 0x42)],
        false,
    ),
    (
        "fmt/1,1,Variable,,,41{40-4000}42\n",
        0x00,
        &[(100, 0x41), (141, 0x42)],
        true,
    ),
    (
        "fmt/1,1,Variable,,,41{40-4000}42\n",
        0x00,
        &[(100, 0x41), (4_130, 0x41), (4_170, 0x42)],
        false,
    ),
    (
        "fmt/1,1,Variable,,,41{40-4000}42\n",
        0x00,
        &[(100, 0x41), (4_130, 0x41), (4_171, 0x42)],
        true,
    ),
    (
        "fmt/1,1,Variable,,,41{40-4000}42\n",
        0x00,
        &[(100, 0x41), (3_000, 0x41), (7_001, 0x42)],
        true,
    ),
    (
        "fmt/1,1,Variable,,,41{40-4000}42\n",
        0x00,
        &[(100, 0x41), (3_000, 0x41), (7_002, 0x42)],
        false,
    ),
    // Of a sequence at the end of the file the bytes behind it are a gap.
    ("fmt/1,1,EOF,0,4000,4142\n", 0x41, &[(7_999, 0x42)], true),
    ("fmt/1,1,EOF,0,4000,4142\n", 0x41, &[(7_998, 0x42)], false),
    ("fmt/1,1,EOF,0,4000,4142\n", 0x41, &[(11_999, 0x42)], true),
];

// Whether the scan says so of the file, cut in two, and the search does.
fn is_told(
    alloc: Global,
    row: &str,
    fill: u8,
    others: &[(usize, u8)],
    stands: bool,
) -> Result<bool, Fail> {
    let table = loaded(alloc, row)?;
    let file = file_of(alloc, fill, others)?;
    let (front, back) = file.split_at(CUT.min(file.len()));
    let results = scanned(alloc, &table, &[front, back])?;
    let wanted = if stands { 1 } else { 0 };
    Ok(results.hits().len() == wanted && are_searched(alloc, &table, &file, &results)?)
}

#[test]
fn long_gaps_are_entered_and_left(rt: HostRuntime) -> Result<(), Fail> {
    for (row, fill, others, stands) in FILES {
        assert!(rt;
            is_told(rt.alloc(), row, *fill, others, *stands)?,
            "{row} {fill} {others:?}"
        );
    }
    Ok(())
}
