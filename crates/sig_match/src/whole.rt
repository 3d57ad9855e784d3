//! The matcher that keeps the file in memory.
//!
//! Each sequence is searched by itself, from a frontier of offsets to the next (`frontier`), and a
//! signature is given up at its first sequence that does not stand. A run of fixed bytes is looked
//! for whole, and any other item, or part of an alternative, costs at most the file's length,
//! whatever the table and the file. An EOF sequence whose words are bounded is looked for near the
//! end of the file alone. A frontier has at most about half as many intervals as the file has
//! bytes, of sixteen bytes each; two stand at a time, and three more within a list of alternatives.

ghost use Rattle.std.specs.Prelude.{◌≡◌, ◌<◌, ◌↔◌, IfOk, IfErr, IsTrue, length};
ghost use Rattle.sig_bits.specs.Bytes.{IsBytes};
ghost use Rattle.sig_core.specs.Hits.{HitFormats, HitsOf, Left};
ghost use Rattle.sig_table.specs.Tables.{IsTable};
ghost use Rattle.sig_table.specs.Views.{TableView};

use sig_bits::{Input, ReadWholeError, read_whole};
use sig_core::{CoreError, DroidCore, Results};
use sig_table::{Puid, SigId, Table};
use std::alloc::{AllocError, Global};
use std::marker::Model;

mod advance;
mod anchored;
mod frontier;
mod longest;
mod part;
mod run;
mod search;

use search::{is_hit, which_hit};

/// A matcher that reads a file whole before it searches it.
#[derive(Debug, Drop)]
pub struct WholeCore {
    table: Table,
    alloc: Global,
}

impl Model for WholeCore {
    ghost Value = { TableView };

    ghost view = { λ c. c.table };
}

impl WholeCore {
    /// A matcher against this table.
    pub fn new(alloc: Global, table: Table) -> WholeCore
        ensures { result ≡ table }
    {
        WholeCore { table, alloc }
    }

    /// Answers which formats the bytes of a file hit, each with its first signature that hits.
    pub fn match_bytes(&self, file: &[u8]) -> Result<Results, CoreError>
        ensures hits { IfOk result (λ hits. HitFormats self.now file.now hits) }
        ensures memory { IfErr result (λ e. e ≡ CoreError.OutOfMemory) }
    {
        hits_read(self.alloc, &self.table, file)
    }
}

impl DroidCore for WholeCore {
    ghost lists = { λ core. core };

    fn table(&self) -> &Table {
        &self.table
    }

    fn match_binary_signatures<R: Input>(&self, input: &mut R) -> Result<Results, CoreError> {
        match read_whole(self.alloc, input) {
            Ok(file) => hits_read(self.alloc, &self.table, &file),
            Err(ReadWholeError::Read) => Err(CoreError::Read),
            Err(ReadWholeError::OutOfMemory) => Err(CoreError::OutOfMemory),
        }
    }

    fn remove_lower_priority_hits(&self, results: &mut Results) {
        results.remove_outranked(&self.table);
    }

    fn remove_signature_for_puid(&mut self, puid: &Puid) -> bool {
        self.table.remove_signature_for_puid(puid)
    }
}

/// What is left of the hits of a file once priorities are applied.
pub fn left_in(alloc: Global, table: &Table, file: &[u8]) -> Result<Results, CoreError>
    ensures left { IfOk result (λ left. Left table.now file.now left) }
    ensures memory { IfErr result (λ e. e ≡ CoreError.OutOfMemory) }
    ensures table { IsTable table.now }
{
    let mut results = hits_in(alloc, table, file).map_err(|_| CoreError::OutOfMemory)?;
    results.remove_outranked(table);
    Ok(results)
}

/// Whether one signature hits the file. No other signature is looked for.
pub fn signature_hits(
    alloc: Global,
    table: &Table,
    signature: SigId,
    file: &[u8],
) -> Result<bool, CoreError>
    requires { signature.0 < length table.now.signatures }
    ensures hits { IfOk result (λ b. IsTrue b ↔ HitsOf table.now signature.0 file.now) }
    ensures memory { IfErr result (λ e. e ≡ CoreError.OutOfMemory) }
{
    let hits = is_hit(alloc, table, signature, file).map_err(|_| CoreError::OutOfMemory)?;
    Ok(hits)
}

// The formats that a file hits.
fn hits_in(alloc: Global, table: &Table, file: &[u8]) -> Result<Results, AllocError>
    ensures hits { IfOk result (λ hits. HitFormats table.now file.now hits) }
    ensures table { IsTable table.now }
{
    let marks = which_hit(alloc, table, file)?;
    Results::of_marks(alloc, table, &marks)
}

// The same of the bytes that were read.
fn hits_read(alloc: Global, table: &Table, file: &[u8]) -> Result<Results, CoreError>
    ensures bytes { IsBytes file.now }
    ensures hits { IfOk result (λ hits. HitFormats table.now file.now hits) }
    ensures memory { IfErr result (λ e. e ≡ CoreError.OutOfMemory) }
{
    hits_in(alloc, table, file).map_err(|_| CoreError::OutOfMemory)
}
