//! Rankings: which pairs can be added to the priorities of a table, and what is written then.

use sig_bits::{FromRead, FromWrite};
use sig_table::{FormatId, Ranking, Table, TableError};
use std::alloc::Global;
use std::test::Fail;

const SIGNATURES: &[u8] = b"puid,signature,position,offset,max_offset,expression\n\
    fmt/1,1,BOF,0,,41\nfmt/2,2,BOF,0,,42\nfmt/3,3,BOF,0,,43\n";

// `fmt/2` is over `fmt/1`.
const PRIORITIES: &[u8] = b"higher,lower\nfmt/2,fmt/1\n";

fn table(alloc: Global) -> Result<Table, TableError> {
    Table::load(
        alloc,
        &mut FromRead::new(SIGNATURES),
        &mut FromRead::new(PRIORITIES),
    )
}

#[test]
fn a_pair_is_taken_that_closes_no_cycle(rt: HostRuntime) -> Result<(), Fail> {
    let table = table(rt.alloc())?;
    assert!(rt; table.format_count() == 3);
    let ranking = Ranking::of(rt.alloc(), &table)?;
    assert!(rt; ranking.outranks(FormatId(1), FormatId(0)));
    assert!(rt; ranking.takes(FormatId(2), FormatId(1)));
    let ranking = ranking.with(FormatId(2), FormatId(1))?;
    assert!(rt; ranking.outranks(FormatId(2), FormatId(1)));
    // From fmt/3 over fmt/2 over fmt/1 does not follow fmt/3 over fmt/1, which can be added.
    assert!(rt; !ranking.outranks(FormatId(2), FormatId(0)));
    assert!(rt; ranking.takes(FormatId(2), FormatId(0)));
    for (higher, lower) in [(0, 0), (0, 1), (0, 2), (1, 0), (1, 2), (2, 1)] {
        assert!(rt;
            !ranking.takes(FormatId(higher), FormatId(lower)),
            "{higher} over {lower}"
        );
    }
    Ok(())
}

#[test]
fn added_pairs_stand_behind_those_of_the_table(rt: HostRuntime) -> Result<(), Fail> {
    let table = table(rt.alloc())?;
    assert!(rt; table.format_count() == 3);
    let ranking = Ranking::of(rt.alloc(), &table)?;
    assert!(rt; ranking.takes(FormatId(2), FormatId(1)));
    let ranking = ranking.with(FormatId(2), FormatId(1))?;
    let mut out = FromWrite::new(Vec::new(rt.alloc()));
    ranking.write(rt.alloc(), &table, &mut out)?;
    assert!(rt;
        out.into_inner().as_slice() == b"higher,lower\nfmt/2,fmt/1\nfmt/3,fmt/2\n".as_slice()
    );
    Ok(())
}
