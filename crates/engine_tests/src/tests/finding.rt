//! What `find` says where it gives up: tables and their lines, worked out by hand.

use crate::tests::table_of;
use fixtures::{Memory, NO_FOLDER, Named, TWO};
use sig_bits::FromWrite;
use sig_engines::{FindAsk, run_find};
use std::test::Fail;

// A file that nobody asks for.
const NO_FILE: Named = Named {
    name: "",
    bytes: b"",
};

// Whether `find` gives up on the signatures 1 and 2 of the table, and says why by this line.
fn gives_up(
    rt: &HostRuntime,
    rows: &str,
    pairs: &str,
    budget: u32,
    progress: bool,
    line: &str,
) -> Result<bool, Fail> {
    let table = table_of(rt, rows, pairs)?;
    let store = Memory {
        alloc: rt.alloc(),
        first: NO_FILE,
        second: NO_FILE,
        third: NO_FILE,
        upper: NO_FOLDER,
        lower: NO_FOLDER,
    };
    let mut out = FromWrite::new(Vec::new(rt.alloc()));
    let mut err = FromWrite::new(Vec::new(rt.alloc()));
    let ask = FindAsk {
        budget,
        out: "out",
        hex: true,
        progress,
    };
    let answer = run_find(rt.alloc(), &store, &table, ask, &mut out, &mut err);
    Ok(
        answer == Ok(false)
            && out.into_inner().as_slice() == b"gave up 1 2\n".as_slice()
            && err.into_inner().as_slice() == line.as_bytes(),
    )
}

// Two formats that are both hit, and one over them with 65 signatures.
fn outranked_rows(rt: &HostRuntime) -> Result<String, Fail> {
    let mut rows = "fmt/1,1,BOF,0,,41\nfmt/2,2,BOF,0,,41\n".to_string(rt.alloc())?;
    for number in 3..68 {
        let row = format!(in rt.alloc(); "fmt/3,{number},BOF,0,,42\n")?;
        rows.push_str(&row)?;
    }
    Ok(rows)
}

#[test]
fn find_says_why_it_gave_up(rt: HostRuntime) -> Result<(), Fail> {
    let pairs = "fmt/3,fmt/1\nfmt/3,fmt/2\n";
    let rows = outranked_rows(&rt)?;
    let outranked = "over 64 signatures outrank 1 or 2: see conflicts\n";
    assert!(rt; gives_up(&rt, TWO.0, TWO.1, 1, false, "more than 1 rows\n")?);
    assert!(rt; gives_up(&rt, &rows, pairs, 100, false, outranked)?);
    // Both hold with a budget of no row, and the first is named.
    assert!(rt; gives_up(&rt, &rows, pairs, 0, false, outranked)?);
    // The reason stands behind the progress.
    let shown = "\r0 of 1 products\nmore than 1 rows\n";
    assert!(rt; gives_up(&rt, TWO.0, TWO.1, 1, true, shown)?);
    Ok(())
}
