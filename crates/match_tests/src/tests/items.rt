//! At which places a word of one item ends, worked out by hand, and asked of two cores and of a
//! scan.

use crate::tests::{loaded, scanned_by};
use sig_match::{StreamCore, WholeCore};
use std::alloc::Global;
use std::test::Fail;

const FILE: &[u8] = &[0x40, 0x41, 0x42, 0x43];

// An item, and after how many bytes of the file a word of it ends.
const ENDS: &[(&str, &[usize])] = &[
    ("42", &[3]),
    ("44", &[]),
    ("??", &[1, 2, 3, 4]),
    ("{2-3}", &[2, 3, 4]),
    ("{3-*}", &[3, 4]),
    ("{5-*}", &[]),
    ("[41:42]", &[2, 3]),
    ("[!41]", &[1, 3, 4]),
    ("[!41:42]", &[1, 4]),
    ("[4142:4243]", &[3, 4]),
    ("[!4142]", &[2, 4]),
    ("(4041|42)", &[2, 3]),
];

// How many hits of the file each core and a scan answer.
fn whole_count(alloc: Global, rows: &str, file: &[u8]) -> Result<usize, Fail> {
    let core = WholeCore::new(alloc, loaded(alloc, rows)?);
    Ok(core.match_bytes(file)?.hits().len())
}

fn stream_count(alloc: Global, rows: &str, file: &[u8]) -> Result<usize, Fail> {
    let core = StreamCore::new(alloc, loaded(alloc, rows)?);
    Ok(core.match_bytes(file)?.hits().len())
}

fn scan_count(alloc: Global, rows: &str, file: &[u8]) -> Result<usize, Fail> {
    let table = loaded(alloc, rows)?;
    Ok(scanned_by(alloc, &table, file, 1)?.hits().len())
}

// Whether all three say that the one signature hits the file, or that it does not.
fn all_say(alloc: Global, rows: &str, file: &[u8], hits: bool) -> Result<bool, Fail> {
    let count = hits as usize;
    Ok(
        whole_count(alloc, rows, file)? == count
            && stream_count(alloc, rows, file)? == count
            && scan_count(alloc, rows, file)? == count,
    )
}

// Whether they do of the item at this place from the end of `FILE`.
fn all_say_behind(alloc: Global, item: &str, behind: usize, hits: bool) -> Result<bool, Fail> {
    let rows = format!(in alloc; "fmt/1,1,EOF,{behind},,{item}\n")?;
    all_say(alloc, &rows, FILE, hits)
}

#[test]
fn an_item_ends_at_each_place_that_it_allows(rt: HostRuntime) -> Result<(), Fail> {
    for (item, ends) in ENDS {
        for behind in 0..5usize {
            let hits = ends.contains(&(4 - behind));
            assert!(rt;
                all_say_behind(rt.alloc(), item, behind, hits)?,
                "{item} {behind}"
            );
        }
    }
    Ok(())
}

// A sequence, a file, and whether it stands: runs that overlap themselves, and a bracket that is
// compared from its first byte.
const OVERLAPPING: &[(&str, &[u8], bool)] = &[
    ("BOF,0,1,4141", b"AA", true),
    ("BOF,1,,4141", b"AAA", true),
    ("BOF,2,,4141", b"AAA", false),
    ("EOF,0,,4141", b"AAA", true),
    ("EOF,1,,4141", b"AAA", true),
    ("EOF,2,,4141", b"AAA", false),
    ("BOF,0,1,4141", b"BBAA", false),
    ("BOF,0,2,4141", b"BBAA", true),
    ("BOF,0,,[4142:4243]", b"A\xff", true),
];

// Whether all three say so of the sequence.
fn all_say_of(alloc: Global, sequence: &str, file: &[u8], hits: bool) -> Result<bool, Fail> {
    let rows = format!(in alloc; "fmt/1,1,{sequence}\n")?;
    all_say(alloc, &rows, file, hits)
}

#[test]
fn a_run_is_found_where_it_overlaps_itself(rt: HostRuntime) -> Result<(), Fail> {
    for (sequence, file, hits) in OVERLAPPING {
        assert!(rt;
            all_say_of(rt.alloc(), sequence, file, *hits)?,
            "{sequence} {file:?}"
        );
    }
    Ok(())
}
