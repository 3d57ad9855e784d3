//! The engines and the cores with readers and writers that fail midway.

use crate::tests::table_of;
use fixtures::{Broken, OVER_BOTH, Pieces, Room};
use sig_bits::{FromRead, FromWrite};
use sig_core::{CoreError, DroidCore, Hit};
use sig_engines::{RunError, run_match, run_show};
use sig_match::{StreamCore, WholeCore};
use sig_scan::BlockCore;
use sig_table::{FormatId, Puid, SigId, Table};
use std::test::Fail;

// The table of the one row `fmt/1,1,BOF,0,,4142`.
fn table_of_one(rt: &HostRuntime) -> Result<Table, Fail> {
    table_of(rt, "fmt/1,1,BOF,0,,4142\n", "")
}

// The cores of that table.
fn core_of_one(rt: &HostRuntime) -> Result<WholeCore, Fail> {
    Ok(WholeCore::new(rt.alloc(), table_of_one(rt)?))
}

fn stream_core_of_one(rt: &HostRuntime) -> Result<StreamCore, Fail> {
    Ok(StreamCore::new(rt.alloc(), table_of_one(rt)?))
}

// Blocks of one byte have a border in every file.
fn block_core_of_one(rt: &HostRuntime) -> Result<BlockCore, Fail> {
    Ok(BlockCore::with_block(rt.alloc(), table_of_one(rt)?, 1))
}

// What is read of a file of two bytes, one a read, before a read fails.
const FRONTS: &[&[u8]] = &[b"", b"A", b"AB"];

// Whether `match` reports the read that fails behind this front, and writes nothing.
fn is_unread<K: DroidCore>(rt: &HostRuntime, core: &K, front: &[u8]) -> bool {
    let mut out = FromWrite::new(Vec::new(rt.alloc()));
    let mut file = Pieces::failing(front);
    let answer = run_match(rt.alloc(), core, false, &mut file, &mut out);
    let written = out.into_inner();
    answer == Err(RunError::Read) && written.is_empty()
}

// Whether it does so behind each front.
fn all_unread<K: DroidCore>(rt: &HostRuntime, core: &K) -> bool {
    for front in FRONTS {
        if !is_unread(rt, core, front) {
            return false;
        }
    }
    true
}

fn whole_is_unread(rt: &HostRuntime) -> Result<bool, Fail> {
    let core = core_of_one(rt)?;
    Ok(all_unread(rt, &core))
}

fn stream_is_unread(rt: &HostRuntime) -> Result<bool, Fail> {
    let core = stream_core_of_one(rt)?;
    Ok(all_unread(rt, &core))
}

fn block_is_unread(rt: &HostRuntime) -> Result<bool, Fail> {
    let core = block_core_of_one(rt)?;
    Ok(all_unread(rt, &core))
}

#[test]
fn writes_nothing_before_the_last_read(rt: HostRuntime) -> Result<(), Fail> {
    assert!(rt; whole_is_unread(&rt)?);
    assert!(rt; stream_is_unread(&rt)?);
    assert!(rt; block_is_unread(&rt)?);
    Ok(())
}

// What `match` answers where the output has room for so many bytes.
fn crowded_answer<K: DroidCore>(rt: &HostRuntime, core: &K, room: usize) -> Result<(), RunError> {
    let mut file = FromRead::new(b"AB".as_slice());
    let mut out = Room::of(room);
    run_match(rt.alloc(), core, false, &mut file, &mut out)
}

// Whether a write fails where there is room for less than the line, `fmt/1 1` and its end, of eight
// bytes, and none where there is just that room.
fn needs_eight_bytes<K: DroidCore>(rt: &HostRuntime, core: &K) -> bool {
    for room in 0..8 {
        if crowded_answer(rt, core, room) != Err(RunError::Write) {
            return false;
        }
    }
    crowded_answer(rt, core, 8) == Ok(())
}

fn whole_needs_eight(rt: &HostRuntime) -> Result<bool, Fail> {
    let core = core_of_one(rt)?;
    Ok(needs_eight_bytes(rt, &core))
}

fn stream_needs_eight(rt: &HostRuntime) -> Result<bool, Fail> {
    let core = stream_core_of_one(rt)?;
    Ok(needs_eight_bytes(rt, &core))
}

fn block_needs_eight(rt: &HostRuntime) -> Result<bool, Fail> {
    let core = block_core_of_one(rt)?;
    Ok(needs_eight_bytes(rt, &core))
}

// Whether `show` reports its first write as a failed one.
fn is_unshown(rt: &HostRuntime) -> Result<bool, Fail> {
    let table = table_of_one(rt)?;
    let mut out = Broken::new();
    Ok(run_show(rt.alloc(), &table, &mut out) == Err(RunError::Write))
}

#[test]
fn reports_a_failed_write(rt: HostRuntime) -> Result<(), Fail> {
    assert!(rt; whole_needs_eight(&rt)?);
    assert!(rt; stream_needs_eight(&rt)?);
    assert!(rt; block_needs_eight(&rt)?);
    assert!(rt; is_unshown(&rt)?);
    Ok(())
}

// Whether the core calls a failed read behind this front one.
fn calls_it_failed<K: DroidCore>(core: &K, front: &[u8]) -> bool {
    match core.match_binary_signatures(&mut Pieces::failing(front)) {
        Ok(_) => false,
        Err(error) => matches!(&error, CoreError::Read),
    }
}

// Whether it finds its hit in a file that can be read.
fn finds_its_hit<K: DroidCore>(core: &K) -> Result<bool, Fail> {
    let results = core.match_binary_signatures(&mut Pieces::of(b"AB"))?;
    let hit = Hit {
        format: FormatId(0),
        signature: SigId(0),
    };
    Ok(results.hits() == [hit].as_slice())
}

// Whether it does both, one after the other.
fn matches_on<K: DroidCore>(core: &K, front: &[u8]) -> Result<bool, Fail> {
    Ok(calls_it_failed(core, front) && finds_its_hit(core)?)
}

#[test]
fn a_core_matches_on_after_a_failed_read(rt: HostRuntime) -> Result<(), Fail> {
    let whole = core_of_one(&rt)?;
    let stream = stream_core_of_one(&rt)?;
    for front in FRONTS {
        assert!(rt;
            matches_on(&whole, front)? && matches_on(&stream, front)?,
            "{front:?}"
        );
    }
    Ok(())
}

#[test]
fn a_core_that_scans_by_blocks_matches_on_after_a_failed_read(rt: HostRuntime) -> Result<(), Fail> {
    let block = block_core_of_one(&rt)?;
    for front in FRONTS {
        assert!(rt; matches_on(&block, front)?, "{front:?}");
    }
    Ok(())
}

// How many hits the core finds.
fn hit_count<K: DroidCore>(core: &K) -> Result<usize, Fail> {
    let results = core.match_binary_signatures(&mut Pieces::of(b"AB"))?;
    Ok(results.hits().len())
}

// Whether a removal of the format finds it.
fn finds<K: DroidCore>(core: &mut K, puid: &[u8]) -> Option<bool> {
    let puid = Puid::parse(puid)?;
    Some(core.remove_signature_for_puid(&puid))
}

// Whether the core of so many formats, each of which is hit, hits this one no more once it is
// removed, and still all others, and no other removal counts.
fn removes<K: DroidCore>(core: &mut K, puid: &[u8], count: usize) -> Result<bool, Fail> {
    Ok(
        finds(core, b"fmt/9") == Some(false)
            && hit_count(core)? == count
            && finds(core, puid) == Some(true)
            && hit_count(core)?.saturating_add(1) == count
            && core.table().format_count() == count,
    )
}

fn block_removes_one(rt: &HostRuntime) -> Result<bool, Fail> {
    let mut core = block_core_of_one(rt)?;
    removes(&mut core, b"fmt/1", 1)
}

#[test]
fn a_removed_format_is_hit_no_more(rt: HostRuntime) -> Result<(), Fail> {
    assert!(rt; removes(&mut core_of_one(&rt)?, b"fmt/1", 1)?);
    assert!(rt; removes(&mut stream_core_of_one(&rt)?, b"fmt/1", 1)?);
    assert!(rt; block_removes_one(&rt)?);
    Ok(())
}

// Whether the core of three formats, each of which is hit, hits the third no more.
fn whole_removes_third(rt: &HostRuntime) -> Result<bool, Fail> {
    let table = table_of(rt, OVER_BOTH.0, OVER_BOTH.1)?;
    removes(&mut WholeCore::new(rt.alloc(), table), b"fmt/3", 3)
}

fn stream_removes_third(rt: &HostRuntime) -> Result<bool, Fail> {
    let table = table_of(rt, OVER_BOTH.0, OVER_BOTH.1)?;
    removes(&mut StreamCore::new(rt.alloc(), table), b"fmt/3", 3)
}

fn prepared_removes_third(rt: &HostRuntime) -> Result<bool, Fail> {
    let table = table_of(rt, OVER_BOTH.0, OVER_BOTH.1)?;
    removes(&mut BlockCore::prepared(rt.alloc(), table), b"fmt/3", 3)
}

#[test]
fn the_others_are_hit_when_one_is_removed(rt: HostRuntime) -> Result<(), Fail> {
    assert!(rt; whole_removes_third(&rt)?);
    assert!(rt; stream_removes_third(&rt)?);
    assert!(rt; prepared_removes_third(&rt)?);
    Ok(())
}

// How many hits each core finds in a file that is lent.
fn whole_count(core: &WholeCore, file: &[u8]) -> Result<usize, Fail> {
    Ok(core.match_bytes(file)?.hits().len())
}

fn stream_count(core: &StreamCore, file: &[u8]) -> Result<usize, Fail> {
    Ok(core.match_bytes(file)?.hits().len())
}

#[test]
fn a_lent_file_is_matched_as_one_that_is_read(rt: HostRuntime) -> Result<(), Fail> {
    let whole = core_of_one(&rt)?;
    assert!(rt; whole_count(&whole, b"AB")? == 1);
    assert!(rt; whole_count(&whole, b"BA")? == 0);
    let stream = stream_core_of_one(&rt)?;
    assert!(rt; stream_count(&stream, b"AB")? == 1);
    assert!(rt; stream_count(&stream, b"BA")? == 0);
    Ok(())
}
