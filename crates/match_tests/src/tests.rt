//! What no contract says of the matchers, and the tables, files and cuts that the modules share.
//!
//! `table_of` of `BOF,0,,41` is the table of one signature. `fronts_agree` feeds a scan each front
//! of a file, in pieces of several lengths, and compares its hits with those of the search of the
//! whole front. Failing reads are tested in `engine_tests`, and want of memory in `refused_tests`.

mod agreeing;
mod blocks;
mod cuts;
mod hits;
mod items;
mod limits;
mod long_gaps;
mod offsets;
mod random;
mod worked;

ghost use Rattle.std.specs.Prelude.{◌<◌, length};

use sig_bits::FromRead;
use sig_core::{Hit, Results};
use sig_match::{Scan, left_in};
use sig_table::{FormatId, SigId, Table};
use std::alloc::{AllocError, Global};
use std::test::Fail;

const HEADER: &str = "puid,signature,position,offset,max_offset,expression\n";

// The rows below their header.
fn text_of(alloc: Global, header: &str, rows: &str) -> Result<String, Fail> {
    Ok(format!(in alloc; "{header}{rows}")?)
}

// The table of these two texts.
fn loaded_texts(alloc: Global, signatures: &[u8], priorities: &[u8]) -> Result<Table, Fail> {
    let mut signatures = FromRead::new(signatures);
    let mut priorities = FromRead::new(priorities);
    Ok(Table::load(alloc, &mut signatures, &mut priorities)?)
}

// The table of these signature rows and priority rows.
fn loaded_with(alloc: Global, rows: &str, pairs: &str) -> Result<Table, Fail> {
    let signatures = text_of(alloc, HEADER, rows)?;
    let priorities = text_of(alloc, "higher,lower\n", pairs)?;
    loaded_texts(alloc, signatures.as_bytes(), priorities.as_bytes())
}

// The table of these signature rows, with no priority.
fn loaded(alloc: Global, rows: &str) -> Result<Table, Fail> {
    loaded_with(alloc, rows, "")
}

// The table of the one signature `fmt/1`, 1 with this position and expression.
fn table_of(alloc: Global, sequence: &str) -> Result<Table, Fail> {
    let rows = format!(in alloc; "fmt/1,1,{sequence}\n")?;
    loaded(alloc, &rows)
}

fn hit(format: u16, signature: u16) -> Hit {
    Hit {
        format: FormatId(format),
        signature: SigId(signature),
    }
}

// Puts so many bytes behind the file, each 41, 42 or 00, the same for the same seed.
fn push_letters(file: &mut Vec<u8>, seed: u32, len: usize) -> Result<(), AllocError> {
    let mut state = seed;
    for _ in 0..len {
        state = next_state(state);
        file.push(letter_of(state))?;
    }
    Ok(())
}

fn letter_of(state: u32) -> u8 {
    match (state >> 24) % 3 {
        0 => b'A',
        1 => b'B',
        _ => 0,
    }
}

// So many such bytes.
fn letters(alloc: Global, seed: u32, len: usize) -> Result<Vec<u8>, AllocError> {
    let mut bytes = Vec::new(alloc);
    push_letters(&mut bytes, seed, len)?;
    Ok(bytes)
}

// The next number of a sequence that looks random.
fn next_state(state: u32) -> u32 {
    state.wrapping_mul(1_664_525).wrapping_add(1_013_904_223)
}

// Puts so many bytes behind the file, the pattern over and over.
fn push_repeated(file: &mut Vec<u8>, pattern: &[u8], len: usize) -> Result<(), AllocError>
    requires { 0 < length pattern.now }
{
    for at in 0..len {
        file.push(pattern[at % pattern.len()])?;
    }
    Ok(())
}

// So many such bytes.
fn repeated(alloc: Global, pattern: &[u8], len: usize) -> Result<Vec<u8>, AllocError>
    requires { 0 < length pattern.now }
{
    let mut bytes = Vec::new(alloc);
    push_repeated(&mut bytes, pattern, len)?;
    Ok(bytes)
}

// What a scan answers that is fed these pieces.
fn scanned(alloc: Global, table: &Table, pieces: &[&[u8]]) -> Result<Results, AllocError> {
    let mut scan = Scan::new(alloc, table)?;
    for piece in pieces {
        scan.feed(piece);
    }
    Ok(scan.finish())
}

// The same of a file that is fed in pieces of this length.
fn scanned_by(
    alloc: Global,
    table: &Table,
    file: &[u8],
    piece: usize,
) -> Result<Results, AllocError> {
    let mut scan = Scan::new(alloc, table)?;
    for bytes in file.chunks(piece.max(1)) {
        scan.feed(bytes);
    }
    Ok(scan.finish())
}

// Whether the search of the whole file answers these results, where no format outranks another.
fn are_searched(
    alloc: Global,
    table: &Table,
    file: &[u8],
    results: &Results,
) -> Result<bool, Fail> {
    Ok(left_in(alloc, table, file)?.hits() == results.hits())
}

// Whether a scan of the file in pieces of this length answers what the search of it does.
fn agrees_by(alloc: Global, table: &Table, file: &[u8], piece: usize) -> Result<bool, Fail> {
    let results = scanned_by(alloc, table, file, piece)?;
    are_searched(alloc, table, file, &results)
}

// Whether it does behind each front of the file.
fn fronts_agree_by(alloc: Global, table: &Table, file: &[u8], piece: usize) -> Result<bool, Fail> {
    for len in 0..file.len() + 1 {
        if !agrees_by(alloc, table, &file[..len], piece)? {
            return Ok(false);
        }
    }
    Ok(true)
}

// The lengths of pieces that whole files are fed in.
const PIECES: &[usize] = &[1, 2, 3, 7, 1024];

// Whether it does in pieces of several lengths.
fn fronts_agree(alloc: Global, table: &Table, file: &[u8]) -> Result<bool, Fail> {
    for piece in PIECES {
        if !fronts_agree_by(alloc, table, file, *piece)? {
            return Ok(false);
        }
    }
    Ok(true)
}
