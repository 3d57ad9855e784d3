//! What loads, and is hardly meant.

use sig_bits::FromRead;
use sig_lint::{rows_of_two_formats, signatures_of_gaps};
use sig_table::{SigId, Table};
use std::alloc::Global;
use std::test::Fail;

fn load(alloc: Global, signatures: &str) -> Result<Table, Fail> {
    let table = Table::load(
        alloc,
        &mut FromRead::new(signatures.as_bytes()),
        &mut FromRead::new(b"higher,lower\n".as_slice()),
    )?;
    Ok(table)
}

// Signature 1 is of two sequences, of which one asks for a byte.
const OF_GAPS: &str =
    "puid,signature,position,offset,max_offset,expression\nfmt/1,1,BOF,0,,{4}\nfmt/1,1,EOF,0,,41\nfmt/1,2,BOF,0,,{4}\nfmt/2,3,Variable,,,??*\nfmt/2,4,BOF,0,,4142\n";

#[test]
fn a_signature_of_gaps_alone_is_found(rt: HostRuntime) -> Result<(), Fail> {
    let table = load(rt.alloc(), OF_GAPS)?;
    let found = signatures_of_gaps(rt.alloc(), &table)?;
    assert_eq!(rt; found.as_slice(), [SigId(1), SigId(2)].as_slice());
    Ok(())
}

// The signatures 1 and 3 of fmt/1 have a row alike, which signature 4 of fmt/2 has in other words.
// Signature 2 has the expression elsewhere. A row of signature 4 is that of signature 5 of fmt/3.
const EQUAL_ROWS: &str =
    "puid,signature,position,offset,max_offset,expression\nfmt/1,1,BOF,0,,4a{3}\nfmt/2,2,EOF,0,,4A{3}\nfmt/2,2,BOF,0,1,4A{3}\nfmt/1,3,BOF,0,,4A{3-3}\nfmt/2,4,Variable,,,42\nfmt/2,4,BOF,0,0,4A{3-3}\nfmt/2,4,BOF,0,,4a{3}\nfmt/3,5,Variable,,,42\n";

#[test]
fn equal_rows_of_two_formats_are_found(rt: HostRuntime) -> Result<(), Fail> {
    let table = load(rt.alloc(), EQUAL_ROWS)?;
    let found = rows_of_two_formats(rt.alloc(), &table)?;
    assert_eq!(rt; found.as_slice(), [(3, 0), (4, 3)].as_slice());
    Ok(())
}
