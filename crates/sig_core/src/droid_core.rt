//! What a matcher is, whatever it searches with: one law for all of them.
//!
//! Its calls are named after the interface of DROID: match a file, remove the hits of lower
//! priority, remove the signatures of a format. `BlockCore`, `StreamCore` and `WholeCore` meet it,
//! so what is proved of an engine over this trait holds with each of them. It says nothing of time.

ghost use Rattle.std.specs.Prelude.{◌≡◌, ◌<◌, ◌↔◌, true, false, Contains, IfOk, IsTrue, OnOk, IsErrOf, length};
ghost use Rattle.sig_bits.specs.Device.{IsAtEnd};
ghost use Rattle.sig_core.specs.Hits.{HitFormatsOfSome, kept_hits};
ghost use Rattle.sig_table.specs.Views.{TableView};
ghost use Rattle.sig_table.specs.Removal.{place_of, without};

use crate::error::CoreError;
use crate::results::Results;
use sig_bits::Input;
use sig_table::{Puid, Table};

/// A matcher of files against one table, named after the interface of DROID.
pub trait DroidCore {
    /// The table.
    ghost lists: { Self → TableView };

    /// Lends the table.
    fn table(&self) -> &Table
        ensures { result.now ≡ lists self.now };

    /// Reads the input to its end and answers which formats it hits, each with its first signature
    /// that hits. Where the input does not tell its bytes, they are the hits of some file of bytes.
    fn match_binary_signatures<R: Input>(&self, input: &mut R) -> Result<Results, CoreError>
        ensures hits { IfOk result (HitFormatsOfSome (lists self.now) (R.to_come input.old)) }
        ensures at_end { OnOk result (IsAtEnd (R.to_come input.new)) }

        // A failed read is reported, and only a failed read.
        ensures sound { OnOk result (R.failed input.new ≡ false) }
        ensures read { IsErrOf result CoreError.Read → R.failed input.new ≡ true }
        ensures memory { IsErrOf result CoreError.OutOfMemory → R.failed input.new ≡ R.failed input.old };

    /// Keeps the hits whose format no format of the hits outranks. A hit that is itself outranked
    /// still outranks. Where there are hits, some are left.
    fn remove_lower_priority_hits(&self, results: &mut Results)
        ensures kept { results.new ≡ kept_hits (lists self.now) results.old }
        ensures some { 0 < length results.old → 0 < length results.new };

    /// Takes out of the table all signatures of the format of this name, and answers whether there
    /// is such a format. The format and its priorities stay.
    fn remove_signature_for_puid(&mut self, puid: &Puid) -> bool
        ensures answers { IsTrue result ↔ Contains (lists self.old).formats puid.now }
        ensures removes { IsTrue result → lists self.new ≡ without (lists self.old) (place_of (lists self.old).formats puid.now) }
        ensures stays { result ≡ false → lists self.new ≡ lists self.old };
}
