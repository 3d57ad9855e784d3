//! Whether a format, and each of its signatures, is reported for some file, and the shortest one.
//! Up to the greatest number of signatures above one.

use crate::tests::finding::table;
use sig_find::{Fate, Life, SignatureLife, decide_format};
use sig_table::{FormatId, Table};
use std::alloc::{AllocError, Global};
use std::test::Fail;

// A table's rows and listed pairs, a budget, and what is found of its first format and of each of
// that format's signatures: a shortest file, or that there is none.
struct Row {
    rows: &'static str,
    pairs: &'static str,
    budget: u32,
    fate: Fate,
    lives: &'static [Found],
}

#[derive(Clone, Copy, Debug)]
enum Found {
    Alive(&'static [u8]),
    Dead,
    Unknown,
}

const ROWS: &[Row] = &[
    // Each file that begins with `41 42` begins with `41`.
    Row {
        rows: "fmt/1,1,BOF,0,,4142\nfmt/2,2,BOF,0,,41\n",
        pairs: "fmt/2,fmt/1\n",
        budget: 100,
        fate: Fate::Dead,
        lives: &[Found::Dead],
    },
    // Without a priority nothing is removed, nor with one the other way round.
    Row {
        rows: "fmt/1,1,BOF,0,,4142\nfmt/2,2,BOF,0,,41\n",
        pairs: "",
        budget: 100,
        fate: Fate::Alive,
        lives: &[Found::Alive(b"AB")],
    },
    Row {
        rows: "fmt/1,1,BOF,0,,4142\nfmt/2,2,BOF,0,,41\n",
        pairs: "fmt/1,fmt/2\n",
        budget: 100,
        fate: Fate::Alive,
        lives: &[Found::Alive(b"AB")],
    },
    // The second signature leaves the format where the first is dead.
    Row {
        rows: "fmt/1,1,BOF,0,,4142\nfmt/2,2,BOF,0,,41\nfmt/1,3,EOF,0,,42\n",
        pairs: "fmt/2,fmt/1\n",
        budget: 100,
        fate: Fate::Alive,
        lives: &[Found::Dead, Found::Alive(b"B")],
    },
    // What is over the format is itself removed by fmt/3, and still removes.
    Row {
        rows: "fmt/1,1,BOF,0,,4142\nfmt/2,2,BOF,0,,41\nfmt/3,3,BOF,0,,??\n",
        pairs: "fmt/2,fmt/1\nfmt/3,fmt/2\n",
        budget: 100,
        fate: Fate::Dead,
        lives: &[Found::Dead],
    },
    // No priority is implied: fmt/3 over fmt/2 over fmt/1 leaves fmt/1 where fmt/2 does not hit.
    Row {
        rows: "fmt/1,1,BOF,0,,41\nfmt/2,2,BOF,0,,4142\nfmt/3,3,BOF,0,,??\n",
        pairs: "fmt/2,fmt/1\nfmt/3,fmt/2\n",
        budget: 100,
        fate: Fate::Alive,
        lives: &[Found::Alive(b"A")],
    },
    // The start, `41`, `41 42`: three rows, and the third is bad.
    Row {
        rows: "fmt/1,1,BOF,0,,4142\n",
        pairs: "",
        budget: 3,
        fate: Fate::Alive,
        lives: &[Found::Alive(b"AB")],
    },
    Row {
        rows: "fmt/1,1,BOF,0,,4142\n",
        pairs: "",
        budget: 2,
        fate: Fate::Unknown,
        lives: &[Found::Unknown],
    },
    // One that is alive settles the format, whatever is unknown of the other.
    Row {
        rows: "fmt/1,1,BOF,0,,4142\nfmt/1,2,BOF,0,,43\n",
        pairs: "",
        budget: 2,
        fate: Fate::Alive,
        lives: &[Found::Unknown, Found::Alive(b"C")],
    },
];

// Whether a life is what is wanted.
fn is_found(life: &Life, wanted: Found) -> bool {
    match (life, wanted) {
        (Life::Alive(file), Found::Alive(bytes)) => file.as_slice() == bytes,
        (Life::Dead, Found::Dead) => true,
        (Life::Unknown, Found::Unknown) => true,
        _ => false,
    }
}

// Whether the signatures have the lives that are wanted, one by one.
fn are_found(lives: &[SignatureLife], wanted: &[Found]) -> bool {
    lives.len() == wanted.len()
        && lives
            .iter()
            .zip(wanted)
            .all(|(found, wanted)| is_found(&found.life, *wanted))
}

fn is_decided(alloc: Global, table: &Table, row: &Row) -> Result<bool, AllocError> {
    let (fate, lives) = decide_format(alloc, table, FormatId(0), row.budget)?;
    Ok(fate == row.fate && are_found(&lives, row.lives))
}

fn is_right(alloc: Global, row: &Row) -> Result<bool, AllocError> {
    match table(alloc, row.rows, row.pairs) {
        Some(table) => is_decided(alloc, &table, row),
        None => Ok(false),
    }
}

#[test]
fn the_lives_of_a_format_are_those_of_its_signatures(rt: HostRuntime) -> Result<(), Fail> {
    for row in ROWS {
        assert!(rt;
            is_right(rt.alloc(), row)?,
            "{} {} {}",
            row.rows,
            row.pairs,
            row.budget
        );
    }
    Ok(())
}

// Adds a row of `fmt/2`, of one byte at the start.
fn push_above(rows: &mut String, number: u32, byte: u32) -> Result<(), AllocError> {
    write!(rows, "fmt/2,{number},BOF,0,,{byte:02X}\n")?;
    Ok(())
}

// `fmt/1` of any byte, and `fmt/2` over it with so many signatures: of 00, 01 and so on.
fn rows_under(alloc: Global, count: u32) -> Result<String, AllocError> {
    let mut rows = String::new(alloc);
    rows.push_str("fmt/1,1,BOF,0,,??\n")?;
    for byte in 0..count {
        push_above(&mut rows, byte.saturating_add(2), byte)?;
    }
    Ok(rows)
}

// Whether the signature of `fmt/1` has this life under so many.
fn is_life_under(alloc: Global, count: u32, wanted: Found) -> Result<bool, AllocError> {
    let rows = rows_under(alloc, count)?;
    let Some(table) = table(alloc, rows.as_str(), "fmt/2,fmt/1\n") else {
        return Ok(false);
    };
    let (_, lives) = decide_format(alloc, &table, FormatId(0), 1000)?;
    Ok(are_found(&lives, &[wanted]))
}

// Each blocker takes the lowest byte that is left, so a file of byte 40 is found with 64 of them,
// and a 65th is one too many.
#[test]
fn sixty_four_blockers_are_taken_and_no_more(rt: HostRuntime) -> Result<(), Fail> {
    assert!(rt; is_life_under(rt.alloc(), 63, Found::Alive(b"\x3F"))?);
    assert!(rt; is_life_under(rt.alloc(), 64, Found::Alive(b"\x40"))?);
    assert!(rt; is_life_under(rt.alloc(), 65, Found::Unknown)?);
    Ok(())
}
