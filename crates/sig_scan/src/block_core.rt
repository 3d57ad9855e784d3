//! The matcher that scans a file by blocks while it reads it.
//!
//! The table is compiled (`program`), once for many files or for each of them. A file is read
//! straight into the buffer over which the sequences go, which has room for its first 32 KiB at
//! first. A file that fits in there is scanned where it stands: to clear a block of 256 KiB would
//! take longer than to scan it. For a longer one the buffer grows, once, to a block and what is
//! kept of the one before it.
//!
//! The first bytes exclude signatures (`head`). None of their sequences is looked for, nor even
//! compiled where the table is compiled for one file. The heads are asked once, of the first 32 KiB
//! at most: a head behind them excludes nothing.
//!
//! The memory is that of a program and of one scan, however long the file is.

ghost use Rattle.std.specs.Prelude.{◌≡◌, ◌<◌, ◌≤◌, ℕ, Bool, List, Option, false, true, IfOk, IfSome, length};
ghost use Rattle.sig_bits.specs.Bytes.{IsBytes};
ghost use Rattle.sig_bits.specs.Device.{Gives};
ghost use Rattle.sig_core.specs.Hits.{HitFormats, HitFormatsOfSome};
ghost use Rattle.sig_scan.specs.Courses.{IsProgramOf, IsWholeProgramOf};
ghost use Rattle.sig_scan.specs.Heads.{AreAsked, AreHeadsOf, IsPrepared};
ghost use Rattle.sig_scan.specs.Scans.{AreExcluded, IsBegun, IsScanOf, ReadsToEnd};

use crate::buffer::Buffer;
use crate::head::{Head, exclude, heads_of};
use crate::program::Program;
use crate::scan::Scan;
use sig_bits::Input;
use sig_core::{CoreError, DroidCore, Results};
use sig_table::{Puid, Table};
use std::alloc::{AllocError, Global};
use std::marker::Model;

// So many bytes are read before the sequences go on over them.
const BLOCK: u32 = 1 << 18;

// So many bytes of a file are read before there is room for a block.
const FIRST_ROOM: usize = 1 << 15;

/// A matcher that scans a file by blocks while it reads it.
#[derive(Debug, Drop)]
pub struct BlockCore {
    table: Table,
    alloc: Global,
    prepared: Option<Prepared>,
    // How many bytes are read before the sequences go on over them.
    block: u32,
}

// What of a table serves for many files: the heads of its signatures, and all of it compiled.
#[derive(Debug, Drop)]
struct Prepared {
    heads: Vec<Head>,
    program: Program,
}

impl Model for BlockCore {
    ghost use Rattle.std.specs.Prelude.{◌<◌, IfSome};
    ghost use Rattle.sig_scan.specs.Heads.{IsPrepared};
    ghost use Rattle.sig_table.specs.Views.{TableView};

    ghost Value = { TableView };

    ghost view = { λ c. c.table };

    ghost invariant = { λ c. IfSome c.prepared (IsPrepared c.table) × (0 < c.block) };
}

impl BlockCore {
    /// A matcher against this table, which is compiled for each file.
    pub fn new(alloc: Global, table: Table) -> BlockCore
        ensures { result ≡ table }
    {
        BlockCore::with_block(alloc, table, BLOCK)
    }

    /// The same, with blocks of so many bytes: with few, a short file has many borders.
    pub fn with_block(alloc: Global, table: Table, block: u32) -> BlockCore
        requires { 0 < block }
        ensures { result ≡ table }
    {
        BlockCore {
            table,
            alloc,
            prepared: None,
            block,
        }
    }

    /// The same, with the table compiled once for many files. Where there is no memory for it, it
    /// is compiled for each of them.
    pub fn prepared(alloc: Global, table: Table) -> BlockCore
        ensures { result ≡ table }
    {
        let prepared = prepared_for(alloc, &table).ok();
        BlockCore {
            table,
            alloc,
            prepared,
            block: BLOCK,
        }
    }
}

impl DroidCore for BlockCore {
    ghost lists = { λ core. core };

    fn table(&self) -> &Table {
        &self.table
    }

    fn match_binary_signatures<R: Input>(&self, input: &mut R) -> Result<Results, CoreError> {
        scan_input(self.alloc, &self.table, &self.prepared, self.block, input)
    }

    fn remove_lower_priority_hits(&self, results: &mut Results) {
        results.remove_outranked(&self.table);
    }

    fn remove_signature_for_puid(&mut self, puid: &Puid) -> bool {
        self.prepared = None;
        self.table.remove_signature_for_puid(puid)
    }
}

// A table, for any file.
fn prepared_for(alloc: Global, table: &Table) -> Result<Prepared, AllocError>
    ensures { IfOk result (IsPrepared table.now) }
{
    Ok(Prepared {
        heads: heads_of(alloc, table)?,
        program: compiled(alloc, table)?,
    })
}

// All of a table, compiled.
fn compiled(alloc: Global, table: &Table) -> Result<Program, AllocError>
    ensures { IfOk result (IsWholeProgramOf table.now) }
{
    let all = vec![in alloc; true; table.signature_count()]?;
    Program::of(alloc, table, &all)
}

// The formats that the input hits, which is read to its end. A table that is not prepared is
// compiled for this file, as far as its first bytes leave signatures that it may hit.
fn scan_input<R: Input>(
    alloc: Global,
    table: &Table,
    prepared: &Option<Prepared>,
    block: u32,
    input: &mut R,
) -> Result<Results, CoreError>
    requires prepared { IfSome prepared.now (IsPrepared table.now) }
    requires block { 0 < block }
    ensures hits { IfOk result (HitFormatsOfSome table.now (R.to_come input.old)) }
    ensures reads { ReadsToEnd result (R.failed input.old) (R.failed input.new) (R.to_come input.new) }
{
    let mut buffer = Buffer::new(alloc, FIRST_ROOM.min(block as usize))?;
    buffer.fill(input)?;
    match prepared {
        Some(Prepared { heads, program }) => {
            let may_hit = may_hit_of(alloc, table, heads, buffer.as_bytes())?;
            scan_on(alloc, table, program, may_hit, block, buffer, input)
        }
        None => {
            let heads = heads_of(alloc, table)?;
            let may_hit = may_hit_of(alloc, table, &heads, buffer.as_bytes())?;
            let program = Program::of(alloc, table, &may_hit)?;
            scan_on(alloc, table, &program, may_hit, block, buffer, input)
        }
    }
}

// Of each signature, whether a file that begins with these bytes may hit it, as far as the heads
// tell.
fn may_hit_of(
    alloc: Global,
    table: &Table,
    heads: &[Head],
    bytes: &[u8],
) -> Result<Vec<bool>, AllocError>
    requires { AreHeadsOf table.now heads.now }
    ensures len { IfOk result (λ may_hit. length may_hit.items ≡ length table.now.signatures) }
    ensures excluded { IfOk result (λ may_hit. AreExcluded table.now may_hit.items bytes.now) }
    ensures asked { IfOk result (λ may_hit. AreAsked bytes.now may_hit.items heads.now) }
{
    let mut may_hit = vec![in alloc; true; table.signature_count()]?;
    exclude(heads, bytes, &mut may_hit);
    Ok(may_hit)
}

// The formats that a file hits of which the buffer has the first bytes, and the input the others.
fn scan_on<R: Input>(
    alloc: Global,
    table: &Table,
    program: &Program,
    may_hit: Vec<bool>,
    block: u32,
    buffer: Buffer,
    input: &mut R,
) -> Result<Results, CoreError>
    requires begun { IsBegun table.now may_hit.items program.now block buffer (R.to_come input.old) (R.failed input.old) }
    requires excluded { AreExcluded table.now may_hit.items buffer.bytes }
    ensures hits { (before : Option (List ℕ)) → Gives before buffer.bytes (R.to_come input.old) → IfOk result (HitFormatsOfSome table.now before) }
    ensures reads { ReadsToEnd result false (R.failed input.new) (R.to_come input.new) }
{
    let keep = program.keep();
    if !buffer.is_full() {
        let mut scan = Scan::new(alloc, program, may_hit, keep, buffer.trimmed())?;
        return Ok(results_of(alloc, table, &mut scan)?);
    }
    let buffer = buffer.grown(keep + block as usize)?;
    let mut scan = Scan::new(alloc, program, may_hit, keep, buffer)?;
    'reads: loop {
        if !scan.read_on(input)? {
            return Ok(results_of(alloc, table, &mut scan)?);
        }
    }
}

// The formats that the file of a scan hits.
fn results_of(alloc: Global, table: &Table, scan: &mut Scan) -> Result<Results, AllocError>
    requires { length scan.old.may_hit ≡ length table.now.signatures }
    ensures { (file : List ℕ) → IsScanOf table.now file scan.old → IfOk result (λ hits. HitFormats table.now file hits) }
{
    let mut marks = vec![in alloc; false; table.signature_count()]?;
    scan.finish(&mut marks);
    Results::of_marks(alloc, table, &marks)
}
