//! Certificates and files that the engines judge, from readers that give one byte a read and may
//! fail.

ghost use Rattle.std.specs.Prelude.{◌<◌};

use crate::tests::table_of;
use fixtures::{BOTH_ENDS, Broken, OVER_BOTH, Pieces, Rows, TWO};
use sig_bits::{FromRead, FromWrite};
use sig_cert::{CheckError, check};
use sig_engines::{RunError, run_check, run_witness};
use sig_table::{Puid, Table};
use std::test::Fail;

// The certificate of `TWO`.
const OF_TWO: &[u8; 24] =
    b"PSAC\x01\x00\x00\x00\x01\x01\x00\x00\x00\x00\x00\x02\x00\x00\x00\x00\x00\x01\x00\x01";

// The certificate of `OVER_BOTH`.
const OF_OVER_BOTH: &[u8] = b"PSAC\x01\x00\x00\x00\x03\
      \x01\x00\x01\x00\x00\x00\x02\x00\x00\x00\x04\
      \x00\x00\x00\x00\x01\x00\x01\x00\x01\x02\x00\x02\x00\x02\x04\x00\x03\x00\x03\x08\
      \x00\x00";

// Whether the engine judges a certificate so, from an input that gives one byte a read, and writes
// this line.
fn is_judged(
    rt: &HostRuntime,
    table: &Table,
    certificate: &[u8],
    is_accepted: bool,
    line: &[u8],
) -> bool {
    let mut certificate = Pieces::of(certificate);
    let mut out = FromWrite::new(Vec::new(rt.alloc()));
    let answer = run_check(rt.alloc(), table, &mut certificate, &mut out);
    let written = out.into_inner();
    answer == Ok(is_accepted) && written.as_slice() == line
}

// Whether it refuses each front of the certificate of these rows as cut.
fn fronts_are_cut(rt: &HostRuntime, rows: Rows, whole: &[u8]) -> Result<bool, Fail> {
    let table = table_of(rt, rows.0, rows.1)?;
    for cut in 0..whole.len() {
        if !is_judged(rt, &table, &whole[..cut], false, b"refused C12 truncated\n") {
            return Ok(false);
        }
    }
    Ok(true)
}

#[test]
fn refuses_a_certificate_that_is_cut(rt: HostRuntime) -> Result<(), Fail> {
    assert!(rt; fronts_are_cut(&rt, TWO, OF_TWO)?);
    assert!(rt; fronts_are_cut(&rt, OVER_BOTH, OF_OVER_BOTH)?);
    Ok(())
}

// The certificate of `TWO` and a byte behind it.
fn longer(rt: &HostRuntime, byte: u8) -> Result<Vec<u8>, Fail> {
    let mut longer = Vec::from_slice(rt.alloc(), OF_TWO)?;
    longer.push(byte)?;
    Ok(longer)
}

// Whether the engine refuses that byte.
fn is_trailing(rt: &HostRuntime, table: &Table, byte: u8) -> Result<bool, Fail> {
    let longer = longer(rt, byte)?;
    Ok(is_judged(rt, table, &longer, false, b"refused C11 trailing\n"))
}

#[test]
fn refuses_a_certificate_with_a_byte_behind_it(rt: HostRuntime) -> Result<(), Fail> {
    let table = table_of(&rt, TWO.0, TWO.1)?;
    for byte in 0..=255_u8 {
        assert!(rt; is_trailing(&rt, &table, byte)?, "{byte}");
    }
    Ok(())
}

// Whether the certificate with this change in this place is judged, and accepted just where the
// change makes its version two.
fn is_told_apart(rt: &HostRuntime, table: &Table, place: usize, change: u8) -> bool
    requires { place < 24 }
{
    let mut changed = *OF_TWO;
    changed[place] ^= change;
    let is_version_two = place == 4 && changed[place] == 2;
    match check(rt.alloc(), table, &changed) {
        Ok(_) => is_version_two,
        Err(error) => !is_version_two && !matches!(&error, CheckError::OutOfMemory),
    }
}

#[test]
fn accepts_one_change_of_a_byte_alone(rt: HostRuntime) -> Result<(), Fail> {
    let table = table_of(&rt, TWO.0, TWO.1)?;
    for place in 0..24 {
        for change in 1..=255_u8 {
            assert!(rt;
                is_told_apart(&rt, &table, place, change),
                "{place} {change}"
            );
        }
    }
    Ok(())
}

// Whether a removal of the format finds it.
fn finds(table: &mut Table, puid: &[u8]) -> Option<bool> {
    let puid = Puid::parse(puid)?;
    Some(table.remove_signature_for_puid(&puid))
}

#[test]
fn a_removed_signature_blocks_no_more(rt: HostRuntime) -> Result<(), Fail> {
    let mut table = table_of(&rt, OVER_BOTH.0, OVER_BOTH.1)?;
    assert!(rt; finds(&mut table, b"fmt/9") == Some(false));
    assert!(rt; is_judged(&rt, &table, OF_OVER_BOTH, true, b"accepted\n"));
    assert!(rt; finds(&mut table, b"fmt/3") == Some(true));
    let line = b"refused C5 blockers pair 0 table 0\n";
    assert!(rt; is_judged(&rt, &table, OF_OVER_BOTH, false, line));
    Ok(())
}

// Whether the engine judges nothing where the read behind this front fails.
fn is_unjudged(rt: &HostRuntime, table: &Table, front: &[u8]) -> bool {
    let mut certificate = Pieces::failing(front);
    let mut out = FromWrite::new(Vec::new(rt.alloc()));
    let answer = run_check(rt.alloc(), table, &mut certificate, &mut out);
    let written = out.into_inner();
    answer == Err(RunError::Read) && written.is_empty()
}

#[test]
fn judges_nothing_after_a_failed_read(rt: HostRuntime) -> Result<(), Fail> {
    let table = table_of(&rt, TWO.0, TWO.1)?;
    for place in 0..=OF_TWO.len() {
        assert!(rt; is_unjudged(&rt, &table, &OF_TWO[..place]), "{place}");
    }
    Ok(())
}

// Whether the engine answers so of a file, from an input that gives one byte a read, and writes
// this line.
fn is_told(rt: &HostRuntime, table: &Table, file: &[u8], is_ambiguous: bool, line: &str) -> bool {
    let mut file = Pieces::of(file);
    let mut out = FromWrite::new(Vec::new(rt.alloc()));
    let answer = run_witness(rt.alloc(), table, &mut file, &mut out);
    let written = out.into_inner();
    answer == Ok(is_ambiguous) && written.as_slice() == line.as_bytes()
}

// Files, whether they leave two formats of `BOTH_ENDS`, and the line that says so.
const TOLD: &[(&[u8], bool, &str)] = &[
    (b"A", true, "ambiguous fmt/1 fmt/2\n"),
    (b"AB", false, "not ambiguous\n"),
    (b"ABA", true, "ambiguous fmt/1 fmt/2\n"),
];

#[test]
fn tells_of_a_file_that_is_read_byte_by_byte(rt: HostRuntime) -> Result<(), Fail> {
    let table = table_of(&rt, BOTH_ENDS.0, BOTH_ENDS.1)?;
    for (file, is_ambiguous, line) in TOLD {
        assert!(rt; is_told(&rt, &table, file, *is_ambiguous, line), "{file:?}");
    }
    Ok(())
}

// Whether the engine says nothing where the read behind this front fails.
fn is_untold(rt: &HostRuntime, table: &Table, front: &[u8]) -> bool {
    let mut file = Pieces::failing(front);
    let mut out = FromWrite::new(Vec::new(rt.alloc()));
    let answer = run_witness(rt.alloc(), table, &mut file, &mut out);
    let written = out.into_inner();
    answer == Err(RunError::Read) && written.is_empty()
}

#[test]
fn says_nothing_of_a_file_that_is_not_read_whole(rt: HostRuntime) -> Result<(), Fail> {
    let table = table_of(&rt, BOTH_ENDS.0, BOTH_ENDS.1)?;
    let file = b"ABA";
    for place in 0..=file.len() {
        assert!(rt; is_untold(&rt, &table, &file[..place]), "{place}");
    }
    Ok(())
}

#[test]
fn reports_a_verdict_that_is_not_written(rt: HostRuntime) -> Result<(), Fail> {
    let table = table_of(&rt, TWO.0, TWO.1)?;
    let mut certificate = FromRead::new(OF_TWO.as_slice());
    let answer = run_check(rt.alloc(), &table, &mut certificate, &mut Broken::new());
    assert!(rt; answer == Err(RunError::Write));
    Ok(())
}

// Whether the engine reports that its line is not written.
fn is_unwritten(rt: &HostRuntime, table: &Table, file: &[u8]) -> bool {
    let mut file = FromRead::new(file);
    let mut out = Broken::new();
    run_witness(rt.alloc(), table, &mut file, &mut out) == Err(RunError::Write)
}

#[test]
fn reports_a_line_that_is_not_written(rt: HostRuntime) -> Result<(), Fail> {
    let table = table_of(&rt, BOTH_ENDS.0, BOTH_ENDS.1)?;
    assert!(rt; is_unwritten(&rt, &table, b"ABA"));
    assert!(rt; is_unwritten(&rt, &table, b"AB"));
    Ok(())
}
