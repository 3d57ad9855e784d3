//! Random tables over random files, cut anywhere: a scan, the scan by blocks and the search of the
//! whole file agree.

use crate::tests::{agrees_by, are_searched, letters, loaded, next_state, scanned_by};
use sig_bits::FromRead;
use sig_core::{DroidCore, Results};
use sig_match::Scan;
use sig_scan::BlockCore;
use sig_table::Table;
use std::alloc::{AllocError, Global};
use std::test::Fail;

// Where a sequence may stand: those of words mostly anywhere.
fn position_of(state: u32, has_words: bool) -> &'static str {
    if has_words && (state >> 24) % 8 < 5 {
        return "Variable,,";
    }
    match (state >> 24) % 7 {
        0 => "BOF,0,",
        1 => "BOF,1,4",
        2 => "BOF,0,20",
        3 => "EOF,0,",
        4 => "EOF,0,3",
        5 => "EOF,2,20",
        _ => "Variable,,",
    }
}

// One of its items, among them brackets of two bytes inside alternatives, alternatives of other
// lengths, and gaps of all kinds.
fn item_of(state: u32) -> &'static str {
    match (state >> 24) % 16 {
        0 => "41",
        1 => "4142",
        2 => "00",
        3 => "??",
        4 => "*",
        5 => "{1-2}",
        6 => "{0-3}",
        7 => "[!41]",
        8 => "[!4142]",
        9 => "(41|4200)",
        10 => "{3-*}",
        11 => "{0-20}",
        12 => "[41:42]",
        13 => "[4142:4241]",
        14 => "(41424200|42)",
        _ => "(4142|[4100:4142]00)",
    }
}

// The same with words of four bytes.
fn word_or_item_of(state: u32) -> &'static str {
    match (state >> 24) % 9 {
        0 => "41420041",
        1 => "42004241",
        2 => "41414100",
        3 => "0042414142",
        4 => "*",
        5 => "??",
        6 => "{0-3}",
        7 => "[41:42]",
        _ => "(4142|0041)",
    }
}

// Three items, the same for the same number.
fn push_items(rows: &mut String, seed: u32, has_words: bool) -> Result<(), Fail> {
    let mut state = seed;
    for _ in 0..3u32 {
        state = next_state(state);
        let item = if has_words {
            word_or_item_of(state)
        } else {
            item_of(state)
        };
        rows.push_str(item)?;
    }
    Ok(())
}

// Puts a row of three items behind the others, of a signature and a format of its own.
fn push_row(
    alloc: Global,
    rows: &mut String,
    number: u32,
    state: u32,
    has_words: bool,
) -> Result<(), Fail> {
    push_place(alloc, rows, number, position_of(state, has_words))?;
    push_items(rows, state, has_words)?;
    rows.push_str("\n")?;
    Ok(())
}

fn push_place(alloc: Global, rows: &mut String, number: u32, position: &str) -> Result<(), Fail> {
    let place = format!(in alloc; "fmt/{number},{number},{position},")?;
    rows.push_str(&place)?;
    Ok(())
}

// Eight such rows.
fn random_rows(alloc: Global, seed: u32, has_words: bool) -> Result<String, Fail> {
    let mut state = seed;
    let mut rows = String::new(alloc);
    for number in 1..9u32 {
        state = next_state(state);
        push_row(alloc, &mut rows, number, state, has_words)?;
    }
    Ok(rows)
}

// The table of them.
fn random_table(alloc: Global, seed: u32, has_words: bool) -> Result<Table, Fail> {
    let rows = random_rows(alloc, seed, has_words)?;
    loaded(alloc, &rows)
}

// What a scan answers where the lengths of the pieces come of the number: one to nine bytes each,
// and none once the file has come to its end.
fn scanned_in_random_pieces(
    alloc: Global,
    table: &Table,
    file: &[u8],
    seed: u32,
) -> Result<Results, AllocError> {
    let mut scan = Scan::new(alloc, table)?;
    let mut state = seed;
    let mut left = file;
    for _ in 0..file.len() {
        state = next_state(state);
        let len = 1 + (state >> 24) as usize % 9;
        let (piece, later) = left.split_at(len.min(left.len()));
        scan.feed(piece);
        left = later;
    }
    Ok(scan.finish())
}

// Whether they agree where the pieces have random lengths.
fn agree_in_random_pieces(
    alloc: Global,
    table: &Table,
    file: &[u8],
    seed: u32,
) -> Result<bool, Fail> {
    let results = scanned_in_random_pieces(alloc, table, file, seed)?;
    are_searched(alloc, table, file, &results)
}

// The lengths of pieces that fronts are fed in, beside random ones.
const PIECES: &[usize] = &[1, 2, 3, 7, 64];

// Whether they do in pieces of each of these lengths, and of random ones.
fn agree_however_cut(alloc: Global, table: &Table, file: &[u8], seed: u32) -> Result<bool, Fail> {
    for piece in PIECES {
        if !agrees_by(alloc, table, file, *piece)? {
            return Ok(false);
        }
    }
    agree_in_random_pieces(alloc, table, file, seed)
}

// Whether they do on each front of the file whose length is a multiple of this one, with a new scan
// for each.
fn agree_on_fronts(
    alloc: Global,
    table: &Table,
    file: &[u8],
    seed: u32,
    step: usize,
) -> Result<bool, Fail> {
    for len in 0..file.len() + 1 {
        if len % step.max(1) == 0 && !agree_however_cut(alloc, table, &file[..len], seed)? {
            return Ok(false);
        }
    }
    Ok(true)
}

// Whether they do on the random table and the random file of this number.
fn agree_on(alloc: Global, seed: u32) -> Result<bool, Fail> {
    let table = random_table(alloc, seed, false)?;
    let file = letters(alloc, seed, 32)?;
    agree_on_fronts(alloc, &table, &file, seed, 1)
}

#[test]
fn fronts_of_random_files_are_told_alike(rt: HostRuntime) -> Result<(), Fail> {
    for seed in 0..40 {
        assert!(rt; agree_on(rt.alloc(), seed)?, "{seed}");
    }
    Ok(())
}

// The same of a table of words, and of a longer file.
fn agree_on_words(alloc: Global, seed: u32) -> Result<bool, Fail> {
    let table = random_table(alloc, seed, true)?;
    let file = letters(alloc, seed, 400)?;
    agree_on_fronts(alloc, &table, &file, seed, 40)
}

#[test]
fn random_words_in_long_files_are_told_alike(rt: HostRuntime) -> Result<(), Fail> {
    for seed in 0..40 {
        assert!(rt; agree_on_words(rt.alloc(), seed)?, "{seed}");
    }
    Ok(())
}

// The lengths of blocks: with few bytes, words lie across many borders.
const BLOCKS: &[u32] = &[1, 2, 3, 5, 8, 17, 64];

// Whether a core that scans by blocks answers what the search of the whole file does, and what a
// scan does.
fn core_agrees(alloc: Global, core: &BlockCore, file: &[u8]) -> Result<bool, Fail> {
    let results = core.match_binary_signatures(&mut FromRead::new(file))?;
    let scanned = scanned_by(alloc, core.table(), file, 64)?;
    Ok(scanned.hits() == results.hits() && are_searched(alloc, core.table(), file, &results)?)
}

// Whether it does on each front of the file whose length is a multiple of this one.
fn core_agrees_on_fronts(
    alloc: Global,
    core: &BlockCore,
    file: &[u8],
    step: usize,
) -> Result<bool, Fail> {
    for len in 0..file.len() + 1 {
        if len % step.max(1) == 0 && !core_agrees(alloc, core, &file[..len])? {
            return Ok(false);
        }
    }
    Ok(true)
}

// Whether the core of the random table of this number does, with blocks of so many bytes.
fn blocks_agree(
    alloc: Global,
    seed: u32,
    has_words: bool,
    block: u32,
    file: &[u8],
    step: usize,
) -> Result<bool, Fail> {
    let table = random_table(alloc, seed, has_words)?;
    let core = BlockCore::with_block(alloc, table, block.max(1));
    core_agrees_on_fronts(alloc, &core, file, step)
}

// Whether it does with blocks of each of these lengths, on a random file of so many letters.
fn all_blocks_agree(
    alloc: Global,
    seed: u32,
    has_words: bool,
    len: usize,
    step: usize,
) -> Result<bool, Fail> {
    let file = letters(alloc, seed, len)?;
    for block in BLOCKS {
        if !blocks_agree(alloc, seed, has_words, *block, &file, step)? {
            return Ok(false);
        }
    }
    Ok(true)
}

#[test]
fn blocks_of_random_files_are_told_alike(rt: HostRuntime) -> Result<(), Fail> {
    for seed in 0..40 {
        assert!(rt; all_blocks_agree(rt.alloc(), seed, false, 32, 1)?, "{seed}");
    }
    Ok(())
}

#[test]
fn blocks_of_random_words_are_told_alike(rt: HostRuntime) -> Result<(), Fail> {
    for seed in 0..40 {
        assert!(rt;
            all_blocks_agree(rt.alloc(), seed, true, 400, 40)?,
            "{seed}"
        );
    }
    Ok(())
}
