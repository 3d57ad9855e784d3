//! What no contract says of the engines and the cores, and the tables that the modules share.
//!
//! `table_of` of the row `fmt/1,1,BOF,0,,41` and of no pair is the table of one signature, which
//! hits each file that begins with 41. The words of the command line, and the statuses, are tested
//! in `command_tests`.

mod conflicting;
mod failing;
mod finding;
mod folders;
mod judging;
mod linting;
mod many_files;
mod reading;
mod summaries;
mod worked_rows;

ghost use Rattle.std.specs.Prelude.{IfOk};
ghost use Rattle.sig_table.specs.Tables.{IsTable};

use fixtures::{PRIORITIES, SIGNATURES};
use sig_bits::FromRead;
use sig_table::Table;
use std::test::Fail;

// The rows below their header.
fn text_of(rt: &HostRuntime, header: &str, rows: &str) -> Result<String, Fail> {
    Ok(format!(in rt.alloc(); "{header}{rows}")?)
}

// The table of these two texts.
fn loaded(rt: &HostRuntime, signatures: &[u8], priorities: &[u8]) -> Result<Table, Fail>
    ensures { IfOk result (λ table. IsTable table) }
{
    let mut signatures = FromRead::new(signatures);
    let mut priorities = FromRead::new(priorities);
    Ok(Table::load(rt.alloc(), &mut signatures, &mut priorities)?)
}

// The table of these signature rows and priority rows.
pub(crate) fn table_of(rt: &HostRuntime, rows: &str, pairs: &str) -> Result<Table, Fail>
    ensures { IfOk result (λ table. IsTable table) }
{
    let signatures = text_of(rt, SIGNATURES, rows)?;
    let priorities = text_of(rt, PRIORITIES, pairs)?;
    loaded(rt, signatures.as_bytes(), priorities.as_bytes())
}
