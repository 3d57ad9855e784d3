//! The matcher that reads a file once, piece by piece, and keeps no more of it than one piece.
//!
//! Each piece is fed to a scan and then forgotten. It is the plain one of the matchers: nothing is
//! looked for ahead, and no sequence is passed over.

ghost use Rattle.std.specs.Prelude.{◌≡◌, false, true, IfErr, IfOk, IsErrOf, OnOk};
ghost use Rattle.sig_bits.specs.Device.{IsAtEnd};
ghost use Rattle.sig_core.specs.Hits.{HitFormats, HitFormatsOfSome};
ghost use Rattle.sig_table.specs.Views.{TableView};

use crate::scan::Scan;
use sig_bits::Input;
use sig_core::{CoreError, DroidCore, Results};
use sig_table::{Puid, Table};
use std::alloc::Global;
use std::marker::Model;

// How many bytes a read has room for.
const PIECE: usize = 1 << 18;

/// A matcher that scans a file while it reads it.
///
/// Its memory is that of a scan and of one piece of 256 KiB, taken before the first read, however
/// long the file is. Each byte costs a step of the automaton of each sequence.
#[derive(Debug, Drop)]
pub struct StreamCore {
    table: Table,
    alloc: Global,
}

impl Model for StreamCore {
    ghost Value = { TableView };

    ghost view = { λ c. c.table };
}

impl StreamCore {
    /// A matcher against this table.
    pub fn new(alloc: Global, table: Table) -> StreamCore
        ensures { result ≡ table }
    {
        StreamCore { table, alloc }
    }

    /// Answers which formats the bytes of a file hit, each with its first signature that hits.
    pub fn match_bytes(&self, file: &[u8]) -> Result<Results, CoreError>
        ensures hits { IfOk result (λ hits. HitFormats self.now file.now hits) }
        ensures memory { IfErr result (λ e. e ≡ CoreError.OutOfMemory) }
    {
        let mut scan = Scan::new(self.alloc, &self.table)?;
        scan.feed(file);
        Ok(scan.finish())
    }
}

impl DroidCore for StreamCore {
    ghost lists = { λ core. core };

    fn table(&self) -> &Table {
        &self.table
    }

    fn match_binary_signatures<R: Input>(&self, input: &mut R) -> Result<Results, CoreError> {
        scan_input(self.alloc, &self.table, input)
    }

    fn remove_lower_priority_hits(&self, results: &mut Results) {
        results.remove_outranked(&self.table);
    }

    fn remove_signature_for_puid(&mut self, puid: &Puid) -> bool {
        self.table.remove_signature_for_puid(puid)
    }
}

// The formats that the input hits, which is read to its end.
fn scan_input<R: Input>(alloc: Global, table: &Table, input: &mut R) -> Result<Results, CoreError>
    ensures hits { IfOk result (HitFormatsOfSome table.now (R.to_come input.old)) }
    ensures at_end { OnOk result (IsAtEnd (R.to_come input.new)) }
    ensures sound { OnOk result (R.failed input.new ≡ false) }
    ensures read { IsErrOf result CoreError.Read → R.failed input.new ≡ true }
    ensures memory { IsErrOf result CoreError.OutOfMemory → R.failed input.new ≡ R.failed input.old }
{
    let mut scan = Scan::new(alloc, table)?;
    let mut piece = vec![in alloc; 0; PIECE]?;
    'pieces: loop {
        let Ok(n) = input.read(&mut piece) else {
            return Err(CoreError::Read);
        };
        if n == 0 {
            return Ok(scan.finish());
        }
        scan.feed(&piece[..n]);
    }
}
