//! The bytes of a certificate, as the checker reads them: numbers have their highest byte first.
//!
//! `50 53 41 43 02` and the number of pairs begin it. A table is a number of blockers, these, a
//! number of rows, and these; rows are kept as bytes already. The byte of each pair is `finder`'s.

ghost use Rattle.std.specs.Prelude.{◌≡◌, ◌<◌, ◌≤◌, ◌^◌, ◌∷◌, ◌++◌, OnOk, flat_map, length, map};
ghost use Rattle.std.specs.List.{concat};
ghost use Rattle.sig_cert.specs.Layouts.{four_bytes, magic, table_bytes, two_bytes};

use sig_table::SigId;
use std::alloc::AllocError;

/// Writes what stands before the entries of so many pairs of formats.
pub(crate) fn write_header(out: &mut Vec<u8>, pairs: u32) -> Result<(), AllocError>
    ensures { OnOk result (out.new.items ≡ out.old.items ++ (magic ++ (2 ∷ four_bytes pairs))) }
{
    out.extend_from_slice(b"PSAC\x02")?;
    write_four(out, pairs)?;
    Ok(())
}

/// Writes a table: its blockers and its rows, each behind their number.
pub(crate) fn write_table(
    out: &mut Vec<u8>,
    blockers: &[SigId],
    rows: &[Vec<u8>],
) -> Result<(), AllocError>
    requires blockers { length blockers.now ≤ 64 }
    requires rows { length rows.now < 2 ^ 32 }
    ensures { OnOk result (out.new.items ≡ out.old.items ++ table_bytes (record { blockers = map (λ b. b.0) blockers.now; rows = map (λ r. r.items) rows.now })) }
{
    write_two(out, blockers.len() as u16)?;
    write_blockers(out, blockers)?;
    write_four(out, rows.len() as u32)?;
    write_rows(out, rows)?;
    Ok(())
}

fn write_two(out: &mut Vec<u8>, number: u16) -> Result<(), AllocError>
    ensures { OnOk result (out.new.items ≡ out.old.items ++ two_bytes number) }
{
    out.extend_from_slice(&number.to_be_bytes())?;
    Ok(())
}

fn write_four(out: &mut Vec<u8>, number: u32) -> Result<(), AllocError>
    ensures { OnOk result (out.new.items ≡ out.old.items ++ four_bytes number) }
{
    out.extend_from_slice(&number.to_be_bytes())?;
    Ok(())
}

fn write_blockers(out: &mut Vec<u8>, blockers: &[SigId]) -> Result<(), AllocError>
    ensures { OnOk result (out.new.items ≡ out.old.items ++ flat_map four_bytes (map (λ b. b.0) blockers.now)) }
{
    for blocker in blockers {
        write_four(out, blocker.0 as u32)?;
    }
    Ok(())
}

fn write_rows(out: &mut Vec<u8>, rows: &[Vec<u8>]) -> Result<(), AllocError>
    ensures { OnOk result (out.new.items ≡ out.old.items ++ concat (map (λ r. r.items) rows.now)) }
{
    for row in rows {
        out.extend_from_slice(row)?;
    }
    Ok(())
}
