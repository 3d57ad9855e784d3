//! How often files are read: each once behind its last byte, no more after a read that fails, and
//! by reads that have room for 4 KiB at least.

ghost use Rattle.std.specs.Prelude.{None, length};

use crate::tests::table_of;
use fixtures::{BOTH_ENDS, PRIORITIES, SIGNATURES, TWO};
use sig_bits::{DeviceFault, FromWrite, Input};
use sig_core::{CoreError, DroidCore};
use sig_engines::{RunError, run_check, run_witness};
use sig_match::{StreamCore, WholeCore};
use sig_scan::BlockCore;
use sig_table::{Table, TableError, TableFile};
use std::test::Fail;

// Gives all of a file that there is room for, and at its end may fail. It counts its reads, and
// those behind the last byte.
#[derive(Drop)]
struct Counted<'a> {
    rest: &'a [u8],
    fails: bool,
    failed: bool,
    reads: u32,
    ends: u32,
}

impl<'a> Counted<'a> {
    fn new(file: &'a [u8], fails: bool) -> Counted<'a> {
        Counted {
            rest: file,
            fails,
            failed: false,
            reads: 0,
            ends: 0,
        }
    }

    // Whether its file, of so many bytes, was read to its end, and not behind it.
    fn is_read_once(&self, len: usize) -> bool {
        self.rest.is_empty() && self.ends == 1 && self.reads as usize <= len / 4096 + 2
    }
}

impl Input for Counted<'_> {
    ghost failed = { λ s. s.failed };

    ghost limit = { λ s. length s.rest.now };

    ghost to_come = { λ _. None };

    fn read(&mut self, buf: &mut [u8]) -> Result<usize, DeviceFault> {
        self.reads = self.reads.saturating_add(1);
        let count = self.rest.len().min(buf.len());
        if count > 0 && !self.failed {
            buf[..count].copy_from_slice(&self.rest[..count]);
            self.rest = &self.rest[count..];
            return Ok(count);
        }
        self.ends = self.ends.saturating_add(1);
        if self.fails || self.failed {
            self.failed = true;
            return Err(DeviceFault);
        }
        Ok(0)
    }
}

// Lengths of files, around those for which a core makes more room.
const LENGTHS: [usize; 8] = [0, 1, 4096, 32_767, 32_768, 32_769, 262_144, 300_001];

// Whether the core reads a file of these bytes once.
fn matches_by_one_way<K: DroidCore>(core: &K, file: &[u8]) -> bool {
    let mut input = Counted::new(file, false);
    core.match_binary_signatures(&mut input).is_ok() && input.is_read_once(file.len())
}

// Whether it does where the read behind the last byte fails.
fn fails_by_one_way<K: DroidCore>(core: &K, file: &[u8]) -> bool {
    let mut input = Counted::new(file, true);
    let error = core.match_binary_signatures(&mut input).err();
    matches!(&error, Some(CoreError::Read)) && input.is_read_once(file.len())
}

// Whether it does both with files of all lengths.
fn reads_files_once<K: DroidCore>(rt: &HostRuntime, core: &K) -> Result<bool, Fail> {
    for len in LENGTHS {
        let file = vec![in rt.alloc(); 0x42; len]?;
        if !matches_by_one_way(core, &file) || !fails_by_one_way(core, &file) {
            return Ok(false);
        }
    }
    Ok(true)
}

fn whole_reads_once(rt: &HostRuntime) -> Result<bool, Fail> {
    let core = WholeCore::new(rt.alloc(), table_of(rt, BOTH_ENDS.0, BOTH_ENDS.1)?);
    reads_files_once(rt, &core)
}

fn stream_reads_once(rt: &HostRuntime) -> Result<bool, Fail> {
    let core = StreamCore::new(rt.alloc(), table_of(rt, BOTH_ENDS.0, BOTH_ENDS.1)?);
    reads_files_once(rt, &core)
}

fn block_reads_once(rt: &HostRuntime) -> Result<bool, Fail> {
    let core = BlockCore::new(rt.alloc(), table_of(rt, BOTH_ENDS.0, BOTH_ENDS.1)?);
    reads_files_once(rt, &core)
}

fn prepared_reads_once(rt: &HostRuntime) -> Result<bool, Fail> {
    let core = BlockCore::prepared(rt.alloc(), table_of(rt, BOTH_ENDS.0, BOTH_ENDS.1)?);
    reads_files_once(rt, &core)
}

#[test]
fn a_core_reads_a_file_once(rt: HostRuntime) -> Result<(), Fail> {
    assert!(rt; whole_reads_once(&rt)?);
    assert!(rt; stream_reads_once(&rt)?);
    assert!(rt; block_reads_once(&rt)?);
    assert!(rt; prepared_reads_once(&rt)?);
    Ok(())
}

// Whether `check` reads these bytes once, which are no certificate.
fn check_reads_once(rt: &HostRuntime, table: &Table, file: &[u8], fails: bool) -> bool {
    let mut certificate = Counted::new(file, fails);
    let mut out = FromWrite::new(Vec::new(rt.alloc()));
    let answer = run_check(rt.alloc(), table, &mut certificate, &mut out);
    let wanted = if fails {
        Err(RunError::Read)
    } else {
        Ok(false)
    };
    answer == wanted && certificate.is_read_once(file.len())
}

// Whether `witness` does, of which no two formats are left.
fn witness_reads_once(rt: &HostRuntime, table: &Table, file: &[u8], fails: bool) -> bool {
    let mut input = Counted::new(file, fails);
    let mut out = FromWrite::new(Vec::new(rt.alloc()));
    let answer = run_witness(rt.alloc(), table, &mut input, &mut out);
    let wanted = if fails {
        Err(RunError::Read)
    } else {
        Ok(false)
    };
    answer == wanted && input.is_read_once(file.len())
}

// Whether both do.
fn engines_read_once(rt: &HostRuntime, table: &Table, file: &[u8]) -> bool {
    check_reads_once(rt, table, file, false)
        && check_reads_once(rt, table, file, true)
        && witness_reads_once(rt, table, file, false)
        && witness_reads_once(rt, table, file, true)
}

#[test]
fn an_engine_reads_a_file_once(rt: HostRuntime) -> Result<(), Fail> {
    let table = table_of(&rt, TWO.0, TWO.1)?;
    for len in LENGTHS {
        let file = vec![in rt.alloc(); 0x42; len]?;
        assert!(rt; engines_read_once(&rt, &table, &file), "{len}");
    }
    Ok(())
}

// A file with this header and so many empty lines, which are no rows.
fn with_lines(rt: &HostRuntime, header: &str, lines: usize) -> Result<Vec<u8>, Fail> {
    let mut text = Vec::from_slice(rt.alloc(), header.as_bytes())?;
    let empty = vec![in rt.alloc(); b'\n'; lines]?;
    text.extend_from_slice(&empty)?;
    Ok(text)
}

// Whether a table is loaded of two files that are read once.
fn is_loaded_once(rt: &HostRuntime, first: &[u8], second: &[u8]) -> bool {
    let mut signatures = Counted::new(first, false);
    let mut priorities = Counted::new(second, false);
    let is_loaded = Table::load(rt.alloc(), &mut signatures, &mut priorities).is_ok();
    is_loaded && signatures.is_read_once(first.len()) && priorities.is_read_once(second.len())
}

// The same of files with so many empty lines.
fn lines_are_loaded_once(rt: &HostRuntime, lines: usize) -> Result<bool, Fail> {
    let first = with_lines(rt, SIGNATURES, lines)?;
    let second = with_lines(rt, PRIORITIES, lines)?;
    Ok(is_loaded_once(rt, &first, &second))
}

#[test]
fn a_table_is_loaded_from_files_that_are_read_once(rt: HostRuntime) -> Result<(), Fail> {
    for lines in LENGTHS {
        assert!(rt; lines_are_loaded_once(&rt, lines)?, "{lines}");
    }
    Ok(())
}

// Whether the file is read once whose read fails behind its last byte, and none after it.
fn fails_once(rt: &HostRuntime, is_first: bool) -> bool {
    let mut signatures = Counted::new(SIGNATURES.as_bytes(), is_first);
    let mut priorities = Counted::new(PRIORITIES.as_bytes(), !is_first);
    let refused = Table::load(rt.alloc(), &mut signatures, &mut priorities).err();
    let file = if is_first {
        TableFile::Signatures
    } else {
        TableFile::Priorities
    };
    let is_untouched = is_first && priorities.reads == 0;
    refused == Some(TableError::Read { file })
        && signatures.is_read_once(SIGNATURES.len())
        && (is_untouched || priorities.is_read_once(PRIORITIES.len()))
}

#[test]
fn a_table_is_not_loaded_by_a_second_try(rt: HostRuntime) {
    assert!(rt; fails_once(&rt, true));
    assert!(rt; fails_once(&rt, false));
}
