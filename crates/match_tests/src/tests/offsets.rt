//! Sequences that may begin at many offsets from the start of a file.

use crate::tests::{agrees_by, are_searched, letters, loaded, repeated, scanned};
use sig_table::Table;
use std::alloc::{AllocError, Global};
use std::test::Fail;

// How long each file is, and where it is cut in two.
const LEN: usize = 12_000;

const CUT: usize = 4_500;

// A file of these bytes over and over, but for what stands at other places.
fn file_of(
    alloc: Global,
    pattern: &[u8],
    others: &[(usize, &[u8])],
) -> Result<Vec<u8>, AllocError> {
    let mut file = Vec::new(alloc);
    if !pattern.is_empty() {
        file = repeated(alloc, pattern, LEN)?;
    }
    for (place, bytes) in others {
        put(&mut file, *place, bytes);
    }
    Ok(file)
}

// Puts the bytes at the place of the file, as far as it goes.
fn put(file: &mut [u8], place: usize, bytes: &[u8]) {
    let mut at = place;
    for byte in bytes {
        if let Some(spot) = file.get_mut(at) {
            *spot = *byte;
        }
        at = at.saturating_add(1);
    }
}

// The row of a table, the bytes of a file, what stands at other places, and whether the sequence
// stands in it.
const FILES: &[(&str, &[u8], &[(usize, &[u8])], bool)] = &[
    // At the first offset, at the last one, and behind it.
    ("BOF,0,9000,41424344", b"\x00", &[(0, b"ABCD")], true),
    ("BOF,0,9000,41424344", b"\x00", &[(9_000, b"ABCD")], true),
    ("BOF,0,9000,41424344", b"\x00", &[(9_001, b"ABCD")], false),
    ("BOF,0,9000,41424344", b"\x00", &[], false),
    // Over the cut, on either side of it, and twice.
    ("BOF,0,9000,41424344", b"\x00", &[(4_496, b"ABCD")], true),
    ("BOF,0,9000,41424344", b"\x00", &[(4_497, b"ABCD")], true),
    ("BOF,0,9000,41424344", b"\x00", &[(4_499, b"ABCD")], true),
    ("BOF,0,9000,41424344", b"\x00", &[(4_500, b"ABCD")], true),
    (
        "BOF,0,9000,41424344",
        b"\x00",
        &[(100, b"ABCD"), (9_001, b"ABCD")],
        true,
    ),
    // Before the first offset.
    (
        "BOF,5000,9000,41424344",
        b"\x00",
        &[(4_999, b"ABCD")],
        false,
    ),
    ("BOF,5000,9000,41424344", b"\x00", &[(5_000, b"ABCD")], true),
    (
        "BOF,5000,9000,41424344",
        b"\x00",
        &[(4_996, b"ABCD"), (9_001, b"ABCD")],
        false,
    ),
    // At one offset alone.
    ("BOF,9000,,41424344", b"\x00", &[(9_000, b"ABCD")], true),
    ("BOF,9000,,41424344", b"\x00", &[(8_999, b"ABCD")], false),
    ("BOF,9000,,41424344", b"\x00", &[(9_001, b"ABCD")], false),
    ("BOF,9000,,41424344", b"ABCD", &[], true),
    ("BOF,9001,,41424344", b"ABCD", &[], false),
    // Where it nearly begins at each byte, or at each fourth one.
    ("BOF,0,9000,41424344", b"A", &[(9_001, b"BCD")], true),
    ("BOF,0,9000,41424344", b"A", &[(9_002, b"BCD")], false),
    ("BOF,0,9000,4142434445", b"ABCD", &[(9_004, b"E")], true),
    ("BOF,0,9000,4142434445", b"ABCD", &[(9_008, b"E")], false),
    ("BOF,0,9000,4142434445", b"ABCD", &[(9_003, b"E")], false),
    // Where it nearly begins now and then.
    (
        "BOF,0,9000,414243444546",
        b"\x00",
        &[(10, b"ABCDE"), (6_000, b"ABCD"), (8_990, b"ABABCDEF")],
        true,
    ),
    (
        "BOF,0,9000,414243444546",
        b"\x00",
        &[(10, b"ABCDE"), (6_000, b"ABCD"), (8_999, b"ABABCDEF")],
        false,
    ),
    // What follows may be far behind.
    (
        "BOF,0,9000,41424344*4546",
        b"\x00",
        &[(9_000, b"ABCD"), (11_998, b"EF")],
        true,
    ),
    (
        "BOF,0,9000,41424344*4546",
        b"\x00",
        &[(9_001, b"ABCD"), (11_998, b"EF")],
        false,
    ),
    (
        "BOF,0,9000,41424344*4546",
        b"\x00",
        &[(3_000, b"EF"), (9_000, b"ABCD")],
        false,
    ),
    (
        "BOF,0,9000,41424344{10-20}45",
        b"\x00",
        &[(70, b"ABCD"), (84, b"E")],
        true,
    ),
    (
        "BOF,0,9000,41424344{10-20}45",
        b"\x00",
        &[(70, b"ABCD"), (83, b"E"), (95, b"E")],
        false,
    ),
    // It begins with a byte of a class, with any byte, with a gap, or with a list.
    ("BOF,0,9000,[41:43]4243", b"\x00", &[(9_000, b"CBC")], true),
    ("BOF,0,9000,[41:43]4243", b"\x00", &[(9_001, b"CBC")], false),
    ("BOF,0,9000,[41:43]4243", b"\x00", &[(9_000, b"DBC")], false),
    ("BOF,0,9000,??4243", b"\x00", &[(9_001, b"BC")], true),
    ("BOF,0,9000,??4243", b"\x00", &[(9_002, b"BC")], false),
    ("BOF,0,9000,{0-3}4243", b"\x00", &[(9_003, b"BC")], true),
    ("BOF,0,9000,{0-3}4243", b"\x00", &[(9_004, b"BC")], false),
    (
        "BOF,0,9000,(41|5152)4243",
        b"\x00",
        &[(9_000, b"QRBC")],
        true,
    ),
    (
        "BOF,0,9000,(41|5152)4243",
        b"\x00",
        &[(9_001, b"ABC")],
        false,
    ),
    (
        "BOF,0,9000,(41|5152)4243",
        b"\x00",
        &[(9_000, b"ABC")],
        true,
    ),
    // The file ends within it.
    ("BOF,0,20000,41424344", b"\x00", &[(11_996, b"ABCD")], true),
    ("BOF,0,20000,41424344", b"\x00", &[(11_997, b"ABC")], false),
    ("BOF,0,20000,41424344", b"", &[], false),
];

// Whether the scan says so of the file, cut in two, and the search does.
fn is_told(alloc: Global, table: &Table, file: &[u8], stands: bool) -> Result<bool, Fail> {
    let wanted = if stands { 1 } else { 0 };
    let (front, back) = file.split_at(CUT.min(file.len()));
    let results = scanned(alloc, table, &[front, back])?;
    Ok(results.hits().len() == wanted && are_searched(alloc, table, file, &results)?)
}

#[test]
fn a_sequence_begins_at_one_of_many_offsets(rt: HostRuntime) -> Result<(), Fail> {
    for (sequence, pattern, others, stands) in FILES {
        let row = format!(in rt.alloc(); "fmt/1,1,{sequence}\n")?;
        let table = loaded(rt.alloc(), &row)?;
        let file = file_of(rt.alloc(), pattern, others)?;
        assert!(rt;
            is_told(rt.alloc(), &table, &file, *stands)?,
            "{sequence} {others:?}"
        );
    }
    Ok(())
}

// Sequences that are met often in letters, or nearly.
const LETTERS: &str = "fmt/1,1,BOF,0,5000,4142414241424142\n\
    fmt/2,2,BOF,0,5000,414241424100\n\
    fmt/3,3,BOF,4090,5000,41410042\n\
    fmt/4,4,BOF,4800,,41\n\
    fmt/5,5,BOF,4800,,42\n\
    fmt/6,6,BOF,4800,,00\n\
    fmt/7,7,BOF,0,5000,414242*000000000000\n\
    fmt/8,8,BOF,0,5000,4142[41:42]{0-2}00004242004141\n\
    fmt/9,9,BOF,0,5000,42414100\n\
    fmt/9,9,BOF,3,5003,00424242414100\n\
    fmt/10,10,BOF,4900,4999,(4142|0041)00\n";

#[test]
fn many_offsets_agree_with_the_search(rt: HostRuntime) -> Result<(), Fail> {
    let table = loaded(rt.alloc(), LETTERS)?;
    for seed in 0..6 {
        let file = letters(rt.alloc(), seed, 5_100)?;
        assert!(rt; agrees_by(rt.alloc(), &table, &file, 1_024)?, "{seed}");
    }
    Ok(())
}
