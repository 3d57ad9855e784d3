//! Tables: `load` and what writes one.

use crate::tests::cases::{CASES, Case, TWO_BLOCKERS, is_match, table_of};
use crate::tests::{begin, end};
use fixtures::{PRIORITIES, SIGNATURES};
use sig_bits::{FromRead, FromWrite};
use sig_match::left_in;
use sig_table::{OutError, Table, TableError};
use std::test::Fail;

// Whether the table that was loaded leaves what it has to, or memory was wanted.
fn leaves_or_lacks(rt: &HostRuntime, loaded: &Result<Table, TableError>, case: &Case) -> bool {
    match loaded {
        Ok(table) => is_match(&left_in(rt.alloc(), table, case.file), case.left),
        Err(error) => *error == TableError::OutOfMemory,
    }
}

fn is_loaded(rt: &HostRuntime, case: &Case) -> Result<bool, Fail> {
    let signatures = format!(in rt.alloc(); "{SIGNATURES}{}", case.rows.0)?;
    let priorities = format!(in rt.alloc(); "{PRIORITIES}{}", case.rows.1)?;
    let mut signatures = FromRead::new(signatures.as_bytes());
    let mut priorities = FromRead::new(priorities.as_bytes());
    begin(rt);
    let first = Table::load(rt.alloc(), &mut signatures, &mut priorities);
    end(rt);
    let again = table_of(rt, case.rows)?;
    Ok(
        leaves_or_lacks(rt, &first, case)
            && is_match(&left_in(rt.alloc(), &again, case.file), case.left),
    )
}

#[test]
fn load_lacks_memory_or_is_right(rt: HostRuntime) -> Result<(), Fail> {
    for case in CASES {
        assert!(rt; is_loaded(&rt, case)?);
    }
    Ok(())
}

// The canonical signature file of `TWO_BLOCKERS`, and its priority file.
pub(crate) const ITS_SIGNATURES: &str = "puid,signature,position,offset,max_offset,expression\n\
    fmt/1,1,BOF,0,0,[4142:4241]{0-1}43\n\
    fmt/2,2,BOF,0,0,[4142:4241](43|44)*\n\
    fmt/3,3,BOF,0,0,????43\n\
    fmt/4,4,BOF,0,0,????44\n";

pub(crate) const ITS_PRIORITIES: &str =
    "higher,lower\nfmt/3,fmt/1\nfmt/3,fmt/2\nfmt/4,fmt/1\nfmt/4,fmt/2\n";

// Whether all of the text was written, or memory was wanted and nothing was.
fn is_text_or_nothing(answer: &Result<(), OutError>, written: &[u8], text: &str) -> bool {
    match answer {
        Ok(()) => written == text.as_bytes(),
        Err(error) => *error == OutError::OutOfMemory && written.is_empty(),
    }
}

#[test]
fn write_signatures_lacks_memory_or_is_right(rt: HostRuntime) -> Result<(), Fail> {
    let table = table_of(&rt, TWO_BLOCKERS)?;
    let mut out = FromWrite::new(Vec::with_capacity(rt.alloc(), 1000)?);
    begin(&rt);
    let first = table.write_signatures(rt.alloc(), &mut out);
    end(&rt);
    assert!(rt; is_text_or_nothing(&first, &out.into_inner(), ITS_SIGNATURES));
    let mut out = FromWrite::new(Vec::new(rt.alloc()));
    table.write_signatures(rt.alloc(), &mut out)?;
    assert_eq!(rt; out.into_inner().as_slice(), ITS_SIGNATURES.as_bytes());
    Ok(())
}

#[test]
fn write_priorities_lacks_memory_or_is_right(rt: HostRuntime) -> Result<(), Fail> {
    let table = table_of(&rt, TWO_BLOCKERS)?;
    let mut out = FromWrite::new(Vec::with_capacity(rt.alloc(), 1000)?);
    begin(&rt);
    let first = table.write_priorities(rt.alloc(), &mut out);
    end(&rt);
    assert!(rt; is_text_or_nothing(&first, &out.into_inner(), ITS_PRIORITIES));
    let mut out = FromWrite::new(Vec::new(rt.alloc()));
    table.write_priorities(rt.alloc(), &mut out)?;
    assert_eq!(rt; out.into_inner().as_slice(), ITS_PRIORITIES.as_bytes());
    Ok(())
}
