//! Where a file is cut, which makes no difference.

use crate::tests::{hit, scanned, table_of};
use sig_match::Scan;
use sig_table::Table;
use std::alloc::Global;
use std::test::Fail;

// A sequence, the pieces that are fed, and whether it then stands.
const CUTS: &[(&str, &[&[u8]], bool)] = &[
    // A word is found across a cut.
    ("Variable,,,4142", &[b"\x00A", b"B\x00"], true),
    ("Variable,,,4142", &[b"", b"A", b"", b"B"], true),
    ("Variable,,,4142", &[b"A\x00", b"B\x00"], false),
    ("Variable,,,4142", &[], false),
    ("BOF,0,,(41|4142)43", &[b"A", b"", b"BC"], true),
    // A word is cut anywhere.
    (
        "Variable,,,414243444546",
        &[b"\x00\x00\x00\x00ABC", b"DEF\x00"],
        true,
    ),
    (
        "Variable,,,414243444546",
        &[b"\x00\x00\x00\x00ABCABC", b"DEF"],
        true,
    ),
    (
        "Variable,,,414243444546",
        &[b"\x00\x00\x00\x00A", b"B", b"C", b"D", b"E", b"F"],
        true,
    ),
    (
        "Variable,,,414243444546",
        &[b"\x00\x00\x00\x00ABC", b"DE"],
        false,
    ),
    (
        "Variable,,,414243444546",
        &[b"\x00\x00\x00\x00ABC", b"ABDEF"],
        false,
    ),
    // A word begins again within itself.
    ("Variable,,,414142", &[b"\x00\x00\x00AA", b"AB"], true),
    ("Variable,,,414142", &[b"\x00\x00\x00AAAAB"], true),
    ("Variable,,,414142", &[b"\x00\x00\x00AA\x00AB"], false),
    // A word has several first bytes.
    ("Variable,,,[41:42]43", &[b"\x00\x00\x00B", b"C"], true),
    (
        "Variable,,,[41:42]43",
        &[b"\x00\x00\x00\x00BAC\x00\x00\x00"],
        true,
    ),
    ("Variable,,,[41:42]43", &[b"\x00\x00\x00D", b"C"], false),
    // All of them lead to the same state, and several bytes have to follow.
    (
        "Variable,,,[41:5A]42434445",
        &[b"\x00\x00\x00\x00Q", b"BCDE"],
        true,
    ),
    (
        "Variable,,,[41:5A]42434445",
        &[b"\x00\x00\x00\x00", b"QBCDE\x00"],
        true,
    ),
    (
        "Variable,,,[41:5A]42434445",
        &[b"\x00\x00\x00\x00BCBBCDE\x00"],
        true,
    ),
    (
        "Variable,,,[41:5A]42434445",
        &[b"\x00\x00\x00\x00QBCD", b"E"],
        true,
    ),
    (
        "Variable,,,[41:5A]42434445",
        &[b"\x00\x00\x00\x00\x00", b"BCDE\x00"],
        false,
    ),
    (
        "Variable,,,[41:5A]42434445",
        &[b"BCDE\x00\x00\x00\x00Q\x00BCDE"],
        false,
    ),
    // What has hit goes on to hit.
    ("BOF,0,,4142", &[b"AB", b"\x00\x00\x00\x00", b"A"], true),
    (
        "Variable,,,4142",
        &[b"AB\x00\x00\x00\x00", b"\x00\x00"],
        true,
    ),
    ("BOF,0,,4142", &[b"AC", b"\x00\x00\x00\x00", b"AB"], false),
    // The end decides at the end of the file.
    ("EOF,0,1,4142", &[b"\x00\x00\x00\x00A", b"B"], true),
    ("EOF,0,1,4142", &[b"\x00\x00\x00\x00AB", b"\x00"], true),
    ("EOF,0,1,4142", &[b"AB\x00\x00\x00\x00AB\x00"], true),
    ("EOF,0,1,4142", &[b"\x00\x00\x00\x00AB\x00", b"\x00"], false),
    // An open gap is waited in.
    ("BOF,0,,41*4243", &[b"A\x00\x00\x00\x00B", b"C"], true),
    (
        "BOF,0,,41*4243",
        &[b"A", b"\x00\x00", b"\x00\x00BBC", b"\x00\x00"],
        true,
    ),
    ("BOF,0,,41*4243", &[b"A\x00\x00\x00\x00B", b"\x00C"], false),
    ("BOF,0,,41*4243", &[b"\x00A\x00\x00\x00B", b"C"], false),
];

// Whether the one sequence stands in what these pieces make up, or does not.
fn is_told(alloc: Global, sequence: &str, pieces: &[&[u8]], stands: bool) -> Result<bool, Fail> {
    let table = table_of(alloc, sequence)?;
    let results = scanned(alloc, &table, pieces)?;
    Ok((results.hits() == [hit(0, 0)].as_slice()) == stands)
}

#[test]
fn a_cut_makes_no_difference(rt: HostRuntime) -> Result<(), Fail> {
    for (sequence, pieces, stands) in CUTS {
        assert!(rt;
            is_told(rt.alloc(), sequence, pieces, *stands)?,
            "{sequence} {pieces:?}"
        );
    }
    Ok(())
}

// Whether `41{65530}42` hits a byte 41, so many zeros and a byte 42, fed one by one.
fn hits_behind_zeros(alloc: Global, zeros: usize) -> Result<bool, Fail> {
    let table = table_of(alloc, "BOF,0,,41{65530}42")?;
    let mut scan = Scan::new(alloc, &table)?;
    scan.feed(b"A");
    for _ in 0..zeros {
        scan.feed(b"\x00");
    }
    scan.feed(b"B");
    Ok(scan.finish().hits().len() == 1)
}

#[test]
fn a_long_gap_is_passed(rt: HostRuntime) -> Result<(), Fail> {
    assert!(rt; hits_behind_zeros(rt.alloc(), 65_530)?);
    Ok(())
}

#[test]
fn a_long_gap_is_not_left_a_byte_early(rt: HostRuntime) -> Result<(), Fail> {
    assert!(rt; !hits_behind_zeros(rt.alloc(), 65_529)?);
    Ok(())
}

// Whether the one signature hits the file.
fn is_hit(alloc: Global, table: &Table, file: &[u8]) -> Result<bool, Fail> {
    Ok(scanned(alloc, table, &[file])?.hits().len() == 1)
}

// Where `AABBABAAB` may end so that `41{1-2}42` stands at its end, or a byte before it.
const ENDS: &[usize] = &[3, 4, 5, 9];

#[test]
fn a_scan_may_end_anywhere(rt: HostRuntime) -> Result<(), Fail> {
    let table = table_of(rt.alloc(), "EOF,0,1,41{1-2}42")?;
    let file = b"AABBABAAB";
    for len in 0..file.len() + 1 {
        let stands = is_hit(rt.alloc(), &table, &file[..len])?;
        assert!(rt; stands == ENDS.contains(&len), "{len}");
    }
    Ok(())
}
