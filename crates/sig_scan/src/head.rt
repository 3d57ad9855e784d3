//! A head: the first byte of a sequence that may begin at one offset alone.
//!
//! Of `504B0304` at the beginning of a file the head is `50` at offset 0; of `(48|68)54` sixteen
//! bytes behind it, it is `48` or `68` at offset 16. Each file that the signature hits has it. So
//! one look at a byte of the first block excludes most signatures, and none of their sequences is
//! looked for, nor even compiled where the table is compiled for one file.
//!
//! It leaves out sequences that may begin at several offsets, and those that do not begin with one
//! byte or one of two.

ghost use Rattle.std.specs.Prelude.{◌≡◌, ◌↔◌, IfOk, IfSome, IsTrue, List, ℕ, length};
ghost use Rattle.sig_scan.specs.Heads.{AreAsked, AreHeadsOf, HasHead, MayHave};
ghost use Rattle.sig_scan.specs.Scans.{AreExcluded};
ghost use Rattle.sig_table.specs.Standing.{Stands};
ghost use Rattle.sig_table.specs.Views.{TableView};

use crate::literal::bytes_of;
use sig_table::{Position, Sequence, SigId, Table};
use std::alloc::{AllocError, Global};

/// The byte that stands so many bytes behind the beginning of each file that the signature hits, or
/// another one in its place.
#[derive(Clone, Copy, Debug, Drop)]
pub(crate) struct Head {
    pub(crate) signature: usize,
    pub(crate) at: usize,
    pub(crate) text: u8,
    pub(crate) other: u8,
}

impl Head {
    /// That of a sequence of the signature, if it has one.
    pub(crate) fn of(sequence: &Sequence, signature: usize) -> Option<Head>
        ensures signature { IfSome result (λ h. h.signature ≡ signature) }
        ensures has { IfSome result (λ h. (file : List ℕ) → Stands sequence.now file → HasHead h file) }
    {
        let Position::Bof { min, max } = sequence.position() else {
            return None;
        };
        if min != max {
            return None;
        }
        let first = sequence.expr().items().first()?;
        let (text, other) = bytes_of(first)?;
        Some(Head {
            signature,
            at: usize::from(min),
            text,
            other,
        })
    }

    // Whether it stands in these bytes, or may stand behind them.
    fn may_stand(self, bytes: &[u8]) -> bool
        ensures { IsTrue result ↔ MayHave bytes.now self }
    {
        if self.at >= bytes.len() {
            return true;
        }
        let byte = bytes[self.at];
        byte == self.text || byte == self.other
    }
}

/// All heads of a table.
pub(crate) fn heads_of(alloc: Global, table: &Table) -> Result<Vec<Head>, AllocError>
    ensures { IfOk result (λ heads. AreHeadsOf table.now heads.items) }
{
    let mut heads = Vec::with_capacity(alloc, table.signature_count())?;
    for index in 0..table.signature_count() {
        for sequence in table.sequences_of(SigId(index as u16)) {
            if let Some(head) = Head::of(sequence, index) {
                heads.push(head)?;
            }
        }
    }
    Ok(heads)
}

/// Excludes each signature with one of these heads that a file does not have which begins with the
/// bytes.
pub(crate) fn exclude(heads: &[Head], bytes: &[u8], may_hit: &mut [bool])
    ensures sound { (table : TableView) → AreHeadsOf table heads.now → AreExcluded table may_hit.old bytes.now → AreExcluded table may_hit.new bytes.now }
    ensures asked { AreAsked bytes.now may_hit.new heads.now }
{
    for head in heads {
        let k = head.signature;
        if k < may_hit.len() && !head.may_stand(bytes) {
            may_hit[k] = false;
        }
    }
}
