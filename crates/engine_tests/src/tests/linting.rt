//! `lint` with readers that give a byte at a time, and with readers and writers that fail.

use fixtures::{Broken, PRIORITIES, Pieces, SIGNATURES};
use sig_bits::FromWrite;
use sig_engines::{RunError, run_lint};
use std::test::Fail;

fn pieces_of(text: &str, fails: bool) -> Pieces<'_> {
    if fails {
        Pieces::failing(text.as_bytes())
    } else {
        Pieces::of(text.as_bytes())
    }
}

// What `lint` answers of two files, each of which may fail behind its bytes, and whether it writes
// just this.
fn answer(
    rt: &HostRuntime,
    signatures: (&str, bool),
    priorities: (&str, bool),
    lines: &str,
) -> (Result<bool, RunError>, bool) {
    let mut first = pieces_of(signatures.0, signatures.1);
    let mut second = pieces_of(priorities.0, priorities.1);
    let mut out = FromWrite::new(Vec::new(rt.alloc()));
    let answer = run_lint(rt.alloc(), &mut first, &mut second, &mut out);
    let written = out.into_inner();
    (answer, written.as_slice() == lines.as_bytes())
}

#[test]
fn lint_reads_both_files_byte_by_byte(rt: HostRuntime) -> Result<(), Fail> {
    let whole = answer(&rt, (SIGNATURES, false), (PRIORITIES, false), "no fault\n");
    assert!(rt; whole == (Ok(true), true));
    let line =
        "priorities line 1: L2 header: record \"higher;lower\": expected the header higher,lower; separate the fields by commas\n";
    let faulty = answer(&rt, (SIGNATURES, false), ("higher;lower\n", false), line);
    assert!(rt; faulty == (Ok(false), true));
    Ok(())
}

#[test]
fn lint_writes_nothing_where_a_read_fails(rt: HostRuntime) -> Result<(), Fail> {
    let first = answer(&rt, ("no table", true), (PRIORITIES, false), "");
    assert!(rt; first == (Err(RunError::Read), true));
    let second = answer(&rt, ("no table", false), (PRIORITIES, true), "");
    assert!(rt; second == (Err(RunError::Read), true));
    Ok(())
}

#[test]
fn lint_reports_a_failed_write(rt: HostRuntime) -> Result<(), Fail> {
    let mut first = pieces_of("no table", false);
    let mut second = pieces_of(PRIORITIES, false);
    let answer = run_lint(rt.alloc(), &mut first, &mut second, &mut Broken::new());
    assert!(rt; answer == Err(RunError::Write));
    Ok(())
}
