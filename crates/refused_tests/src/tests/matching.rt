//! The cores, a scan, and what is left of a file.

use crate::tests::cases::{CASES, Case, NINE_WORDS, are_answers, are_hits, is_match, table_of};
use crate::tests::{begin, end};
use fixtures::OVER_BOTH;
use sig_bits::FromRead;
use sig_core::{DroidCore, Results};
use sig_match::{Scan, StreamCore, WholeCore, left_in};
use sig_scan::BlockCore;
use sig_table::{Puid, Table};
use std::alloc::AllocError;
use std::test::Fail;

// Whether a core that reads the file wants memory or is right, and then is right.
fn reads_or_lacks<K: DroidCore>(rt: &HostRuntime, core: &K, file: &[u8], hits: &[u16]) -> bool {
    let mut input = FromRead::new(file);
    begin(rt);
    let first = core.match_binary_signatures(&mut input);
    end(rt);
    let again = core.match_binary_signatures(&mut FromRead::new(file));
    are_answers(&first, &again, hits)
}

fn whole_core_reads(rt: &HostRuntime, case: &Case) -> Result<bool, Fail> {
    let core = WholeCore::new(rt.alloc(), table_of(rt, case.rows)?);
    Ok(reads_or_lacks(rt, &core, case.file, case.hits))
}

#[test]
fn whole_core_match_binary_signatures_lacks_memory_or_is_right(
    rt: HostRuntime,
) -> Result<(), Fail> {
    for case in CASES {
        assert!(rt; whole_core_reads(&rt, case)?);
    }
    Ok(())
}

fn stream_core_reads(rt: &HostRuntime, case: &Case) -> Result<bool, Fail> {
    let core = StreamCore::new(rt.alloc(), table_of(rt, case.rows)?);
    Ok(reads_or_lacks(rt, &core, case.file, case.hits))
}

#[test]
fn stream_core_match_binary_signatures_lacks_memory_or_is_right(
    rt: HostRuntime,
) -> Result<(), Fail> {
    for case in CASES {
        assert!(rt; stream_core_reads(&rt, case)?);
    }
    Ok(())
}

fn block_core_reads(rt: &HostRuntime, case: &Case) -> Result<bool, Fail> {
    let core = BlockCore::new(rt.alloc(), table_of(rt, case.rows)?);
    Ok(reads_or_lacks(rt, &core, case.file, case.hits))
}

#[test]
fn block_core_match_binary_signatures_lacks_memory_or_is_right(
    rt: HostRuntime,
) -> Result<(), Fail> {
    for case in CASES {
        assert!(rt; block_core_reads(&rt, case)?);
    }
    Ok(())
}

// A core that could not compile the table compiles it for each file.
fn prepared_block_core_reads(rt: &HostRuntime, case: &Case) -> Result<bool, Fail> {
    let table = table_of(rt, case.rows)?;
    begin(rt);
    let core = BlockCore::prepared(rt.alloc(), table);
    end(rt);
    Ok(reads_or_lacks(rt, &core, case.file, case.hits))
}

#[test]
fn prepared_block_core_match_binary_signatures_lacks_memory_or_is_right(
    rt: HostRuntime,
) -> Result<(), Fail> {
    for case in CASES {
        assert!(rt; prepared_block_core_reads(&rt, case)?);
    }
    Ok(())
}

#[test]
fn a_long_file_of_blocks_lacks_memory_or_is_right(rt: HostRuntime) -> Result<(), Fail> {
    let file = long_file(&rt)?;
    let core = BlockCore::new(rt.alloc(), table_of(&rt, NINE_WORDS)?);
    assert!(rt; reads_or_lacks(&rt, &core, &file, &[3, 8]));
    Ok(())
}

// A file of more than a piece and more than a block: a word stands across the cut.
fn long_file(rt: &HostRuntime) -> Result<Vec<u8>, Fail> {
    let mut file = vec![in rt.alloc(); 0u8; 262_142]?;
    file.extend_from_slice(b"ABCDE\0\0\0".as_slice())?;
    Ok(file)
}

#[test]
fn a_long_file_lacks_memory_or_is_right(rt: HostRuntime) -> Result<(), Fail> {
    let file = long_file(&rt)?;
    let core = StreamCore::new(rt.alloc(), table_of(&rt, NINE_WORDS)?);
    assert!(rt; reads_or_lacks(&rt, &core, &file, &[3, 8]));
    Ok(())
}

#[test]
fn a_long_file_of_many_lacks_memory_or_is_right(rt: HostRuntime) -> Result<(), Fail> {
    let file = long_file(&rt)?;
    let core = BlockCore::prepared(rt.alloc(), table_of(&rt, NINE_WORDS)?);
    assert!(rt; reads_or_lacks(&rt, &core, &file, &[3, 8]));
    Ok(())
}

fn whole_core_is_lent(rt: &HostRuntime, case: &Case) -> Result<bool, Fail> {
    let core = WholeCore::new(rt.alloc(), table_of(rt, case.rows)?);
    begin(rt);
    let first = core.match_bytes(case.file);
    end(rt);
    Ok(are_answers(&first, &core.match_bytes(case.file), case.hits))
}

#[test]
fn whole_core_match_bytes_lacks_memory_or_is_right(rt: HostRuntime) -> Result<(), Fail> {
    for case in CASES {
        assert!(rt; whole_core_is_lent(&rt, case)?);
    }
    Ok(())
}

fn stream_core_is_lent(rt: &HostRuntime, case: &Case) -> Result<bool, Fail> {
    let core = StreamCore::new(rt.alloc(), table_of(rt, case.rows)?);
    begin(rt);
    let first = core.match_bytes(case.file);
    end(rt);
    Ok(are_answers(&first, &core.match_bytes(case.file), case.hits))
}

#[test]
fn stream_core_match_bytes_lacks_memory_or_is_right(rt: HostRuntime) -> Result<(), Fail> {
    for case in CASES {
        assert!(rt; stream_core_is_lent(&rt, case)?);
    }
    Ok(())
}

fn is_left(rt: &HostRuntime, case: &Case) -> Result<bool, Fail> {
    let table = table_of(rt, case.rows)?;
    begin(rt);
    let first = left_in(rt.alloc(), &table, case.file);
    end(rt);
    let again = left_in(rt.alloc(), &table, case.file);
    Ok(are_answers(&first, &again, case.left))
}

#[test]
fn left_in_lacks_memory_or_is_right(rt: HostRuntime) -> Result<(), Fail> {
    for case in CASES {
        assert!(rt; is_left(&rt, case)?);
    }
    Ok(())
}

// Whether the scan finds these in the file.
fn finds(mut scan: Scan<'_>, case: &Case) -> bool {
    scan.feed(case.file);
    are_hits(&scan.finish(), case.hits)
}

// Whether it does, where there was memory to make it.
fn finds_if_made(scan: Result<Scan<'_>, AllocError>, case: &Case) -> bool {
    match scan {
        Ok(scan) => finds(scan, case),
        Err(_) => true,
    }
}

fn is_scanned(rt: &HostRuntime, case: &Case) -> Result<bool, Fail> {
    let table = table_of(rt, case.rows)?;
    begin(rt);
    let first = Scan::new(rt.alloc(), &table);
    end(rt);
    Ok(finds_if_made(first, case) && finds(Scan::new(rt.alloc(), &table)?, case))
}

#[test]
fn scan_new_lacks_memory_or_is_right(rt: HostRuntime) -> Result<(), Fail> {
    for case in CASES {
        assert!(rt; is_scanned(&rt, case)?);
    }
    Ok(())
}

// What a scan of two bytes at a time finds.
fn scanned<'t>(mut scan: Scan<'t>, file: &[u8]) -> Results {
    for piece in file.chunks(2) {
        scan.feed(piece);
    }
    scan.finish()
}

fn is_scanned_without_memory(rt: &HostRuntime, case: &Case) -> Result<bool, Fail> {
    let table = table_of(rt, case.rows)?;
    let core = WholeCore::new(rt.alloc(), table_of(rt, case.rows)?);
    let scan = Scan::new(rt.alloc(), &table)?;
    begin(rt);
    let mut results = scanned(scan, case.file);
    let are_right = are_hits(&results, case.hits);
    core.remove_lower_priority_hits(&mut results);
    end(rt);
    Ok(are_right && are_hits(&results, case.left))
}

#[test]
fn a_scan_that_is_made_takes_no_memory(rt: HostRuntime) -> Result<(), Fail> {
    for case in CASES {
        assert!(rt; is_scanned_without_memory(&rt, case)?);
    }
    Ok(())
}

// Whether the third format is taken out, and then both others are left.
fn removes_the_third(rt: &HostRuntime, table: &mut Table, third: &Puid) -> bool {
    begin(rt);
    let is_removed = table.remove_signature_for_puid(third);
    end(rt);
    is_removed && is_match(&left_in(rt.alloc(), table, b"AB"), &[0, 1])
}

#[test]
fn a_removal_takes_no_memory(rt: HostRuntime) -> Result<(), Fail> {
    let mut table = table_of(&rt, OVER_BOTH)?;
    let third = Puid::parse(b"fmt/3").ok_or("the text is a PUID")?;
    assert!(rt; removes_the_third(&rt, &mut table, &third));
    Ok(())
}
