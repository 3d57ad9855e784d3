//! What is left of a file, and what one signature hits.

use crate::tests::{hit, loaded, loaded_with};
use sig_bits::FromRead;
use sig_core::{DroidCore, Hit};
use sig_match::{StreamCore, left_in, signature_hits};
use sig_table::{SigId, Table};
use std::alloc::{AllocError, Global};
use std::test::Fail;

const SIGNATURES: &str =
    "fmt/1,1,BOF,0,,41\nfmt/2,2,BOF,0,,4142\nfmt/1,3,EOF,0,,43\nfmt/2,4,EOF,0,,44\n";

// Whether just these hits are left.
fn are_left(alloc: Global, table: &Table, file: &[u8], wants: &[Hit]) -> Result<bool, Fail> {
    Ok(left_in(alloc, table, file)?.hits() == wants)
}

#[test]
fn an_outranked_format_is_not_left(rt: HostRuntime) -> Result<(), Fail> {
    let table = loaded_with(rt.alloc(), SIGNATURES, "fmt/2,fmt/1\n")?;
    assert!(rt; are_left(rt.alloc(), &table, b"AB", &[hit(1, 1)])?);
    assert!(rt; are_left(rt.alloc(), &table, b"AC", &[hit(0, 0)])?);
    assert!(rt; are_left(rt.alloc(), &table, b"", &[])?);
    Ok(())
}

// Whether the signature hits the file, if there is one.
fn is_hit(alloc: Global, table: &Table, index: u16, file: &[u8]) -> Option<bool> {
    if table.signature_count() <= index as usize {
        return None;
    }
    signature_hits(alloc, table, SigId(index), file).ok()
}

#[test]
fn each_signature_is_asked_for_by_itself(rt: HostRuntime) -> Result<(), Fail> {
    let table = loaded(rt.alloc(), SIGNATURES)?;
    assert!(rt; is_hit(rt.alloc(), &table, 0, b"AC") == Some(true));
    assert!(rt; is_hit(rt.alloc(), &table, 1, b"AC") == Some(false));
    assert!(rt; is_hit(rt.alloc(), &table, 2, b"AC") == Some(true));
    assert!(rt; is_hit(rt.alloc(), &table, 3, b"AC") == Some(false));
    Ok(())
}

// A byte 01 at the end, 4,095 zeros and a 01 anywhere, and `00??02`.
fn rows_of_zeros(alloc: Global) -> Result<String, AllocError> {
    let mut rows = String::new(alloc);
    rows.push_str("fmt/1,1,EOF,0,,01\nfmt/2,2,Variable,,,")?;
    push_zeros(&mut rows)?;
    rows.push_str("01\nfmt/3,3,Variable,,,00??02\n")?;
    Ok(rows)
}

fn push_zeros(rows: &mut String) -> Result<(), AllocError> {
    for _ in 0..4095 {
        rows.push_str("00")?;
    }
    Ok(())
}

// The table of those.
fn table_of_zeros(alloc: Global) -> Result<Table, Fail> {
    let rows = rows_of_zeros(alloc)?;
    loaded(alloc, &rows)
}

// So many zeros, and a 01.
fn zeros_and_one(alloc: Global) -> Result<Vec<u8>, AllocError> {
    let mut file = vec![in alloc; 0u8; 4 << 20]?;
    file.push(1)?;
    Ok(file)
}

#[test]
fn a_file_of_several_mib_is_searched(rt: HostRuntime) -> Result<(), Fail> {
    let table = table_of_zeros(rt.alloc())?;
    let file = zeros_and_one(rt.alloc())?;
    assert!(rt; are_left(rt.alloc(), &table, &file, &[hit(0, 0), hit(1, 1)])?);
    Ok(())
}

// Sequences that begin alike, and may begin at several offsets.
const RANGES: &str = "fmt/1,1,BOF,0,2,41424344\n\
    fmt/2,2,BOF,1,3,41424344\n\
    fmt/3,3,EOF,0,1,41424344\n\
    fmt/4,4,EOF,2,,41424344\n\
    fmt/5,5,BOF,0,2,4142434445\n\
    fmt/6,6,EOF,0,9,4142434446\n\
    fmt/7,7,Variable,,,41424344\n\
    fmt/8,8,Variable,,,42434445\n\
    fmt/9,9,BOF,2,9,41424344*4546\n";

// Files, and the signatures of `RANGES` that hit them.
const RANGED: &[(&[u8], &[u16])] = &[
    (b"ABC", &[]),
    (b"ABCD", &[0, 2, 6]),
    (b"\0\0ABCDEF", &[0, 1, 3, 4, 6, 7, 8]),
    (b"\0\0\0\0ABCDF", &[2, 5, 6]),
    (b"\0\0\0ABCD\0EF", &[1, 6, 8]),
];

// Whether these are hits of these signatures, each of the format in the same place.
fn are_hits_of(hits: &[Hit], indexes: &[u16]) -> bool {
    for (it, index) in hits.iter().zip(indexes) {
        if *it != hit(*index, *index) {
            return false;
        }
    }
    hits.len() == indexes.len()
}

// Whether just those are left of the file.
fn are_left_of(alloc: Global, table: &Table, file: &[u8], indexes: &[u16]) -> Result<bool, Fail> {
    Ok(are_hits_of(left_in(alloc, table, file)?.hits(), indexes))
}

#[test]
fn a_word_that_is_there_is_asked_for_its_offset(rt: HostRuntime) -> Result<(), Fail> {
    let table = loaded(rt.alloc(), RANGES)?;
    for (file, indexes) in RANGED {
        assert!(rt; are_left_of(rt.alloc(), &table, file, indexes)?, "{file:?}");
    }
    Ok(())
}

// Whether the core finds just those in the file.
fn core_finds(core: &StreamCore, file: &[u8], indexes: &[u16]) -> Result<bool, Fail> {
    let results = core.match_binary_signatures(&mut FromRead::new(file))?;
    Ok(are_hits_of(results.hits(), indexes))
}

#[test]
fn a_core_that_streams_asks_for_it_too(rt: HostRuntime) -> Result<(), Fail> {
    let core = StreamCore::new(rt.alloc(), loaded(rt.alloc(), RANGES)?);
    for (file, indexes) in RANGED {
        assert!(rt; core_finds(&core, file, indexes)?, "{file:?}");
    }
    Ok(())
}
