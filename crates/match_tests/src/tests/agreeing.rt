//! Sequences of many kinds over files of few letters: a scan agrees with the search of the whole
//! file.

use crate::tests::{
    fronts_agree, letters, loaded, push_letters, push_repeated, repeated, table_of,
};
use sig_table::Table;
use std::alloc::Global;
use std::test::Fail;

// Sequences on which the two agree.
const MIXED: &[&str] = &[
    "Variable,,,41424142",
    "Variable,,,414142",
    "Variable,,,[!00]00",
    "EOF,0,2,4142",
    "EOF,1,1,4142{1-2}00",
    "Variable,,,(4142|[4100:4142]00)41",
    "Variable,,,{1-2}4142*0041",
    "BOF,0,9,41{0-3}42*4100",
    "BOF,0,60,414200",
    "EOF,0,0,4142*",
];

// Whether they agree on the sequence behind each front of the file.
fn agrees(alloc: Global, sequence: &str, file: &[u8]) -> Result<bool, Fail> {
    let table = table_of(alloc, sequence)?;
    fronts_agree(alloc, &table, file)
}

// Whether they do on each of these sequences.
fn all_agree(alloc: Global, sequences: &[&str], file: &[u8]) -> Result<bool, Fail> {
    for sequence in sequences {
        if !agrees(alloc, sequence, file)? {
            return Ok(false);
        }
    }
    Ok(true)
}

// Whether they do on a file of so many letters.
fn agree_on_letters(
    alloc: Global,
    sequences: &[&str],
    seed: u32,
    len: usize,
) -> Result<bool, Fail> {
    let file = letters(alloc, seed, len)?;
    all_agree(alloc, sequences, &file)
}

#[test]
fn the_search_agrees_on_files_of_few_letters(rt: HostRuntime) -> Result<(), Fail> {
    for seed in 1..3 {
        assert!(rt; agree_on_letters(rt.alloc(), MIXED, seed, 120)?, "{seed}");
    }
    Ok(())
}

// Sequences at the end of the file.
const AT_END: &[&str] = &[
    "EOF,0,4,41{0-3}42",
    "EOF,0,0,4141424142",
    "EOF,1,3,41??42",
    "EOF,0,20,41??",
];

#[test]
fn the_search_agrees_at_the_end_of_a_file(rt: HostRuntime) -> Result<(), Fail> {
    for seed in 0..6 {
        assert!(rt; agree_on_letters(rt.alloc(), AT_END, seed, 100)?, "{seed}");
    }
    Ok(())
}

// Bytes 41, and a few others behind them.
fn with_end(alloc: Global) -> Result<Vec<u8>, Fail> {
    let mut file = repeated(alloc, b"A", 90)?;
    file.extend_from_slice(b"BABA\x00\x00")?;
    Ok(file)
}

#[test]
fn the_search_agrees_where_a_word_may_always_have_begun(rt: HostRuntime) -> Result<(), Fail> {
    let file = with_end(rt.alloc())?;
    assert!(rt; all_agree(rt.alloc(), AT_END, &file)?);
    Ok(())
}

// Sequences whose words may end far from the end of the file.
const FAR_FROM_END: &[&str] = &[
    "EOF,0,300,4142",
    "EOF,5,290,41??4200",
    "EOF,0,280,(41|4200)4100",
];

// Letters, so many zeros, letters, and as many bytes 41 as the longest of these sequences is far
// from the end.
fn with_zeros(alloc: Global, seed: u32) -> Result<Vec<u8>, Fail> {
    let mut file = letters(alloc, seed, 90)?;
    push_repeated(&mut file, b"\x00", 230)?;
    push_letters(&mut file, seed, 40)?;
    push_repeated(&mut file, b"A", 190)?;
    Ok(file)
}

// Whether they agree on those.
fn agree_far_from_end(alloc: Global, seed: u32) -> Result<bool, Fail> {
    let file = with_zeros(alloc, seed)?;
    all_agree(alloc, FAR_FROM_END, &file)
}

#[test]
fn the_search_agrees_where_words_move_away_from_the_end(rt: HostRuntime) -> Result<(), Fail> {
    for seed in 0..3 {
        assert!(rt; agree_far_from_end(rt.alloc(), seed)?, "{seed}");
    }
    Ok(())
}

// Signatures that begin alike, with words of several lengths.
const MANY_WORDS: &str = "fmt/1,1,Variable,,,4142\n\
    fmt/2,2,Variable,,,41420000\n\
    fmt/3,3,Variable,,,4142420041414242\n\
    fmt/4,4,EOF,0,1,4241\n\
    fmt/5,5,Variable,,,424142{1-2}4242\n\
    fmt/6,6,EOF,0,0,000041\n\
    fmt/7,7,BOF,0,,41*424100\n\
    fmt/8,8,Variable,,,4241424200004241\n\
    fmt/9,9,Variable,,,00004142\n\
    fmt/10,10,Variable,,,41414141*00\n\
    fmt/11,11,Variable,,,4242424242\n\
    fmt/12,12,Variable,,,4141420000\n\
    fmt/13,13,Variable,,,00410042[!00]\n\
    fmt/14,14,Variable,,,42410000\n";

// Whether they agree on so many letters, with all of those at once.
fn words_of_letters_agree(alloc: Global, table: &Table, seed: u32) -> Result<bool, Fail> {
    let file = letters(alloc, seed, 90)?;
    fronts_agree(alloc, table, &file)
}

#[test]
fn many_words_are_told_apart(rt: HostRuntime) -> Result<(), Fail> {
    let table = loaded(rt.alloc(), MANY_WORDS)?;
    for seed in 0..6 {
        assert!(rt; words_of_letters_agree(rt.alloc(), &table, seed)?, "{seed}");
    }
    Ok(())
}
