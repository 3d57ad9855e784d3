//! Expressions of 8,192 bytes, and files that no core reads at once, through every core.

use crate::tests::{hit, loaded};
use sig_bits::FromRead;
use sig_core::{DroidCore, Hit};
use sig_match::{StreamCore, WholeCore};
use sig_scan::BlockCore;
use sig_table::Table;
use std::alloc::{AllocError, Global};
use std::test::Fail;

// How long a file is, but for one byte: longer than what any core reads at once.
const LEN: usize = (1 << 18) + 10;

// The greatest length of an expression's text.
const LONGEST: usize = 8192;

// The most items `*` behind which there is room for a byte.
fn of_gaps(alloc: Global) -> Result<String, AllocError> {
    let mut text = String::new(alloc);
    for _ in 0..LONGEST - 2 {
        text.push('*')?;
    }
    text.push_str("42")?;
    Ok(text)
}

// The most alternatives of one byte, of which the last is another.
fn of_alternatives(alloc: Global) -> Result<String, AllocError> {
    let mut text = String::from_str(alloc, "(")?;
    for _ in 0..(LONGEST - 2) / 3 - 1 {
        text.push_str("41|")?;
    }
    text.push_str("42)")?;
    Ok(text)
}

// The table of one expression, at the beginning of a file, anywhere, and at its end.
fn everywhere(alloc: Global, expression: &str) -> Result<Table, Fail> {
    let rows = format!(in alloc;
        "fmt/1,1,BOF,0,,{expression}\nfmt/2,2,Variable,,,{expression}\nfmt/3,3,EOF,0,,{expression}\n"
    )?;
    loaded(alloc, &rows)
}

// Zeros, with this byte first and that one last.
fn file_of(alloc: Global, first: u8, last: u8) -> Result<Vec<u8>, AllocError> {
    let mut file = vec![in alloc; 0; LEN]?;
    file[0] = first;
    file.push(last)?;
    Ok(file)
}

// Whether these are hits of these formats, each by its one signature.
fn are_of(hits: &[Hit], formats: &[u16]) -> bool {
    for (i, format) in formats.iter().enumerate() {
        if hits.get(i) != Some(&hit(*format, *format)) {
            return false;
        }
    }
    hits.len() == formats.len()
}

// Whether the core answers hits of these formats.
fn hits_as<K: DroidCore>(core: &K, file: &[u8], formats: &[u16]) -> Result<bool, Fail> {
    let results = core.match_binary_signatures(&mut FromRead::new(file))?;
    Ok(are_of(results.hits(), formats))
}

// Whether the cores do that search a file for each sequence.
fn most_hit_as(
    alloc: Global,
    expression: &str,
    file: &[u8],
    formats: &[u16],
) -> Result<bool, Fail> {
    let whole = WholeCore::new(alloc, everywhere(alloc, expression)?);
    let block = BlockCore::new(alloc, everywhere(alloc, expression)?);
    Ok(hits_as(&whole, file, formats)? && hits_as(&block, file, formats)?)
}

// Whether each core does.
fn all_hit_as(alloc: Global, expression: &str, file: &[u8], formats: &[u16]) -> Result<bool, Fail> {
    let stream = StreamCore::new(alloc, everywhere(alloc, expression)?);
    Ok(hits_as(&stream, file, formats)? && most_hit_as(alloc, expression, file, formats)?)
}

// The first byte of a file and its last one, and the formats that a text of gaps hits.
const OF_GAPS: &[(u8, u8, &[u16])] = &[(0, 0x42, &[0, 1, 2]), (0x42, 0, &[0, 1]), (0, 0x43, &[])];

// A core that steps at each byte takes a step at each gap, so long files are not for it.
#[test]
fn a_text_of_gaps_is_matched_by_each_core(rt: HostRuntime) -> Result<(), Fail> {
    let text = of_gaps(rt.alloc())?;
    assert_eq!(rt; text.len(), LONGEST);
    for (first, last, formats) in OF_GAPS {
        let long = file_of(rt.alloc(), *first, *last)?;
        assert!(rt; most_hit_as(rt.alloc(), &text, &long, formats)?);
        assert!(rt; all_hit_as(rt.alloc(), &text, &[*first, 0, *last], formats)?);
    }
    Ok(())
}

// The same of a text of alternatives.
const OF_ALTERNATIVES: &[(u8, u8, &[u16])] = &[
    (0, 0x42, &[1, 2]),
    (0x42, 0, &[0, 1]),
    (0, 0x43, &[]),
];

// Each alternative is looked for by itself, so the files are short.
#[test]
fn a_text_of_alternatives_is_matched_by_each_core(rt: HostRuntime) -> Result<(), Fail> {
    let text = of_alternatives(rt.alloc())?;
    assert_eq!(rt; text.len(), LONGEST - 1, "no longer one has this form");
    for (first, last, formats) in OF_ALTERNATIVES {
        assert!(rt; all_hit_as(rt.alloc(), &text, &[*first, 0, *last], formats)?);
    }
    Ok(())
}

#[test]
fn each_core_matches_a_word_across_what_it_reads_at_once(rt: HostRuntime) -> Result<(), Fail> {
    let mut file = vec![in rt.alloc(); 0; (1 << 18) - 1]?;
    file.extend_from_slice(b"BCD")?;
    assert!(rt; all_hit_as(rt.alloc(), "424344", &file, &[1, 2])?);
    file.push(0x45)?;
    assert!(rt; all_hit_as(rt.alloc(), "424344", &file, &[1])?);
    Ok(())
}
