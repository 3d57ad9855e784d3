//! Where the signatures of each format stand in the table: the first one, and behind each the next.
//!
//! In a table whose four signatures are of the formats 0, 1, 0 and 2, the formats begin at 0, 1 and
//! 3, and behind the signature at 0 comes that at 2. So a format's list costs its own signatures
//! alone, also where formats take turns. Two bytes for each format and two for each signature are
//! filled when the table is made, and filled again in the same room when signatures are removed: a
//! list for each format would take memory then.

ghost use Rattle.std.specs.Prelude.{◌≡◌, ◌<◌, ◌≤◌, All, IfOk, length, slice_index};
ghost use Rattle.sig_table.specs.Links.{AreLinked};

use crate::FormatId;
use crate::table::Signature;
use std::alloc::{AllocError, Global};

// No place.
const NONE: u16 = u16::MAX;

// The first place of each format, and for each place the next one of its format.
#[derive(Debug, Drop)]
pub(crate) struct Links {
    firsts: Vec<u16>,
    nexts: Vec<u16>,
}

impl Links {
    // Room for the links of so many formats and signatures.
    pub(crate) fn new(
        alloc: Global,
        format_count: usize,
        signature_count: usize,
    ) -> Result<Links, AllocError>
        ensures formats { IfOk result (λ links. length links.firsts.items ≡ format_count) }
        ensures signatures { IfOk result (λ links. length links.nexts.items ≡ signature_count) }
    {
        Ok(Links {
            firsts: vec![in alloc; NONE; format_count]?,
            nexts: vec![in alloc; NONE; signature_count]?,
        })
    }

    // Links these signatures, of which there are no more than there were.
    pub(crate) fn mark(&mut self, signatures: &[Signature])
        requires known { All (λ s. s.format < length self.old.firsts.items) signatures.now }
        requires fewer { length signatures.now ≤ length self.old.nexts.items }
        requires few { length signatures.now ≤ 4000 }
        ensures formats { length self.new.firsts.items ≡ length self.old.firsts.items }
        ensures links { AreLinked signatures.now self.new.firsts.items self.new.nexts.items }
    {
        self.nexts.truncate(signatures.len());
        link(&mut self.firsts, &mut self.nexts, signatures);
    }

    // The format's first place.
    pub(crate) fn first_of(&self, format: FormatId) -> u16
        ensures known { format.0 < length self.now.firsts.items → result ≡ slice_index self.now.firsts.items format.0 }
        ensures unknown { length self.now.firsts.items ≤ format.0 → result ≡ 65535 }
    {
        match self.firsts.get(format.0 as usize) {
            Some(first) => *first,
            None => NONE,
        }
    }

    // For each place the next one.
    pub(crate) fn nexts(&self) -> &[u16]
        ensures { result.now ≡ self.now.nexts.items }
    {
        self.nexts.as_slice()
    }
}

// Links the signatures from the last one down: what begins a format so far comes behind the next
// one that is met.
fn link(firsts: &mut [u16], nexts: &mut [u16], signatures: &[Signature])
    requires known { All (λ s. s.format < length firsts.old) signatures.now }
    requires as_many { length nexts.old ≡ length signatures.now }
    requires few { length signatures.now ≤ 4000 }
    ensures { AreLinked signatures.now firsts.new nexts.new }
{
    firsts.fill(NONE);
    for place in (0..signatures.len()).rev() {
        let format = signatures[place].format().0 as usize;
        nexts[place] = firsts[format];
        firsts[format] = place as u16;
    }
}
