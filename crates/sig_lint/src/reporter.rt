//! All that is told of two files, as one text.
//!
//! `signatures line 3 row 2: L5 signature number: signature "x": expected a number from 1 to
//! 999999999` is the line of a fault: where it stands, the code that `load` answers, and its text.
//! Files without a fault have the line `no fault`, and behind it the warnings of their table:
//! `warning: signature 7 of fmt/1 has gaps alone`, then
//! `warning: signature 5 of fmt/2 has a row of signature 1 of fmt/1`.

ghost use Rattle.std.specs.Prelude.{◌≡◌, ◌<◌, ◌++◌, All, IfOk, Ok, OnOk, codes, decimal, flat_map, length};
ghost use Rattle.sig_table.specs.Loading.{records_of, table_of};
ghost use Rattle.sig_table.specs.Puids.{puid_text};
ghost use Rattle.sig_table.specs.Tables.{IsTable};
ghost use Rattle.sig_lint.specs.Codes.{code_words};
ghost use Rattle.sig_lint.specs.EqualRows.{equal_rows};
ghost use Rattle.sig_lint.specs.Reports.{AreFaultLines, Tells, TellsNone, fault_line, equal_line, faultless_text, gaps_line, gaps_lines, line_site_text, signature_name, warning_lines};

use crate::codes::{Code, Site, code_of, file_name, site_of};
use crate::details::{put, put_number};
use crate::fault::Fault;
use crate::linter::lint;
use crate::row_owners::rows_of_two_formats;
use crate::warnings::signatures_of_gaps;
use sig_bits::FromRead;
use sig_table::{Puid, SigId, Table};
use std::alloc::{AllocError, Global};

/// What is told of two files.
#[derive(Drop)]
pub struct Report {
    /// A line for each fault, or `no fault` and the warnings.
    pub text: Vec<u8>,
    pub is_faultless: bool,
}

/// What is told of the texts of a signature file and of a priority file.
pub fn report_on(alloc: Global, signatures: &[u8], priorities: &[u8]) -> Result<Report, AllocError>
    ensures { IfOk result (λ r. Tells r.is_faultless (records_of signatures.now) (records_of priorities.now) r.text.items) }
{
    let faults = lint(alloc, signatures, priorities)?;
    if faults.is_empty() {
        return Ok(Report {
            text: faultless_text(alloc, signatures, priorities)?,
            is_faultless: true,
        });
    }
    Ok(Report {
        text: fault_lines(alloc, &faults)?,
        is_faultless: false,
    })
}

// A line for each fault.
fn fault_lines(alloc: Global, faults: &[Fault]) -> Result<Vec<u8>, AllocError>
    ensures { IfOk result (λ text. AreFaultLines faults.now text.items) }
{
    let mut text = Vec::new(alloc);
    for fault in faults {
        put_fault(alloc, &mut text, fault, fault.line())?;
    }
    Ok(text)
}

#[tactic(auto, unfolding(crate::specs::Reports::fault_line))]
fn put_fault(alloc: Global, out: &mut Vec<u8>, fault: &Fault, line: u64) -> Result<(), AllocError>
    ensures { OnOk result (out.new.items ≡ out.old.items ++ fault_line (record { line = line; fault = fault.now })) }
{
    put_site(alloc, out, site_of(fault.error()), line)?;
    put_code(alloc, out, code_of(fault.error()))?;
    put(out, ": ")?;
    let details = fault.details(alloc)?;
    out.extend_from_slice(&details)?;
    put(out, "\n")
}

fn put_site(alloc: Global, out: &mut Vec<u8>, site: Site, line: u64) -> Result<(), AllocError>
    ensures { OnOk result (out.new.items ≡ out.old.items ++ line_site_text line site) }
{
    match site {
        Site::Nowhere => Ok(()),
        Site::File(file) => {
            put(out, file_name(file))?;
            put(out, " line ")?;
            put_number(alloc, out, line)?;
            put(out, ": ")
        }
        Site::Row(file, row_number) => {
            put(out, file_name(file))?;
            put(out, " line ")?;
            put_number(alloc, out, line)?;
            put(out, " row ")?;
            put_number(alloc, out, row_number as u64)?;
            put(out, ": ")
        }
    }
}

fn put_code(alloc: Global, out: &mut Vec<u8>, code: Code) -> Result<(), AllocError>
    ensures { OnOk result (out.new.items ≡ out.old.items ++ code_words code) }
{
    put(out, code.words)?;
    match code.place {
        Some(place) => put_number(alloc, out, place as u64),
        None => Ok(()),
    }
}

// That there is no fault, and the warnings of the table.
fn faultless_text(
    alloc: Global,
    signatures: &[u8],
    priorities: &[u8],
) -> Result<Vec<u8>, AllocError>
    ensures { IfOk result (λ text. TellsNone (records_of signatures.now) (records_of priorities.now) text.items) }
{
    let table = load(alloc, signatures, priorities)?;
    let mut text = Vec::new(alloc);
    put(&mut text, "no fault\n")?;
    put_warnings(alloc, &mut text, &table)?;
    Ok(text)
}

// The table of files without a fault. A read from memory does not fail, so there is none only where
// memory runs out.
#[inline(never)]
fn load(alloc: Global, signatures: &[u8], priorities: &[u8]) -> Result<Table, AllocError>
    ensures loads { IfOk result (λ table. table_of (records_of signatures.now) (records_of priorities.now) ≡ Ok table) }
    ensures limits { IfOk result (λ table. IsTable table) }
{
    let mut signatures = FromRead::new(signatures);
    let mut priorities = FromRead::new(priorities);
    match Table::load(alloc, &mut signatures, &mut priorities) {
        Ok(table) => Ok(table),
        Err(_) => Err(AllocError),
    }
}

fn put_warnings(alloc: Global, out: &mut Vec<u8>, table: &Table) -> Result<(), AllocError>
    ensures { OnOk result (out.new.items ≡ out.old.items ++ warning_lines table.now) }
{
    put_gaps(alloc, out, table)?;
    put_equal_rows(alloc, out, table)
}

fn put_gaps(alloc: Global, out: &mut Vec<u8>, table: &Table) -> Result<(), AllocError>
    ensures { OnOk result (out.new.items ≡ out.old.items ++ gaps_lines table.now) }
{
    let found = signatures_of_gaps(alloc, table)?;
    for signature in &found {
        put_gaps_line(alloc, out, table, *signature)?;
    }
    Ok(())
}

fn put_equal_rows(alloc: Global, out: &mut Vec<u8>, table: &Table) -> Result<(), AllocError>
    ensures { OnOk result (out.new.items ≡ out.old.items ++ flat_map (equal_line table.now) (equal_rows table.now)) }
{
    let found = rows_of_two_formats(alloc, table)?;
    for pair in found.as_slice() {
        put_equal_line(alloc, out, table, *pair)?;
    }
    Ok(())
}

#[tactic(auto, unfolding(crate::specs::Reports::equal_line))]
fn put_equal_line(
    alloc: Global,
    out: &mut Vec<u8>,
    table: &Table,
    pair: (u16, u16),
) -> Result<(), AllocError>
    requires later { pair.0 < length table.now.signatures }
    requires first { pair.1 < length table.now.signatures }
    ensures { OnOk result (out.new.items ≡ out.old.items ++ equal_line table.now pair) }
{
    put(out, "warning: ")?;
    put_signature(alloc, out, table, SigId(pair.0))?;
    put(out, " has a row of ")?;
    put_signature(alloc, out, table, SigId(pair.1))?;
    put(out, "\n")
}

#[tactic(auto, unfolding(crate::specs::Reports::gaps_line))]
fn put_gaps_line(
    alloc: Global,
    out: &mut Vec<u8>,
    table: &Table,
    signature: SigId,
) -> Result<(), AllocError>
    requires { signature.0 < length table.now.signatures }
    ensures { OnOk result (out.new.items ≡ out.old.items ++ gaps_line table.now signature.0) }
{
    put(out, "warning: ")?;
    put_signature(alloc, out, table, signature)?;
    put(out, " has gaps alone\n")
}

// The number of a signature, and its format's PUID.
fn put_signature(
    alloc: Global,
    out: &mut Vec<u8>,
    table: &Table,
    signature: SigId,
) -> Result<(), AllocError>
    requires { signature.0 < length table.now.signatures }
    ensures { OnOk result (out.new.items ≡ out.old.items ++ signature_name table.now signature.0) }
{
    let number = table.number_of(signature);
    let puid = table.puid(table.format_of(signature));
    put_name(alloc, out, number, puid)
}

fn put_name(alloc: Global, out: &mut Vec<u8>, number: u32, puid: Puid) -> Result<(), AllocError>
    ensures { OnOk result (out.new.items ≡ out.old.items ++ (codes "signature " ++ decimal number ++ codes " of " ++ puid_text puid)) }
{
    let text = format!(in alloc; "signature {number} of {puid}")?;
    put(out, text.as_str())
}
