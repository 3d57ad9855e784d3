//! Groups of bytes that nothing so far tells apart.
//!
//! Each byte knows the lowest one of its group, its *lead*. A span that has some bytes of a group
//! and lacks others splits it: where all bytes are in one group, the span 41 to 42 leaves 00 the
//! lead of all but 41 and 42, which 41 leads.

ghost use Rattle.std.specs.Prelude.{◌≡◌, ◌↔◌, ◌<◌, ◌≤◌, ℕ, IsTrue, false, slice_index};
ghost use Rattle.sig_bits.specs.ByteClasses.{Holds};
ghost use Rattle.sig_bits.specs.Groups.{AreLeads, SameSide, Together};

use crate::byte_class::ByteClass;
use std::marker::Model;

/// Groups of bytes: each byte is in one. To callers it is the list of the lowest byte of the group
/// of each.
#[derive(Debug, Drop)]
pub struct Groups {
    leads: [u8; 256],
    // Bytes that are alone in their groups.
    alone: ByteClass,
}

impl Model for Groups {
    ghost use Rattle.std.specs.Prelude.{List, ℕ};
    ghost use Rattle.sig_bits.specs.Groups.{AreAlone, AreLeads};

    ghost Value = { List ℕ };

    ghost view = { λ g. g.leads };

    ghost invariant = { λ g. AreLeads g.leads × AreAlone g.leads g.alone };
}

impl Groups {
    /// All bytes in one group.
    pub fn one() -> Groups
        ensures { (a b : ℕ) → a < 256 → b < 256 → Together result a b }
    {
        Groups {
            leads: [0; 256],
            alone: ByteClass::none(),
        }
    }

    /// The lowest byte of each group.
    pub fn lowest(&self) -> ByteClass
        ensures first { (b : ℕ) → b < 256 → Holds result b → (a : ℕ) → a < b → ¬ Together self.now a b }
        ensures later { (b : ℕ) → b < 256 → ¬ Holds result b → ((a : ℕ) × (a < b) × Together self.now a b) }
    {
        let mut lowest = ByteClass::none();
        for (b, lead) in self.leads.iter().enumerate() {
            if *lead as usize == b {
                lowest.insert(*lead);
            }
        }
        lowest
    }

    /// Splits each group of which some bytes are in the span from the first byte to the last, and
    /// others are not.
    pub fn split(&mut self, first: u8, last: u8)
        ensures { (a b : ℕ) → a < 256 → b < 256 → (Together self.new a b ↔ (Together self.old a b × SameSide first last a b)) }
    {
        if first == last {
            self.split_off(first);
        } else if (first, last) != (0, 255) && splits(&self.leads, first, last) {
            self.leads = split(&self.leads, first, last);
        }
    }

    // Leaves the byte alone in its group. Most spans are of one byte, so this looks at all bytes
    // only once for each, and not at all where another leads its group.
    fn split_off(&mut self, byte: u8)
        ensures { (a b : ℕ) → a < 256 → b < 256 → (Together self.new a b ↔ (Together self.old a b × SameSide byte byte a b)) }
    {
        if self.alone.contains(byte) {
            return;
        }
        if self.leads[byte as usize] == byte {
            self.leads = split(&self.leads, byte, byte);
        } else {
            self.leads[byte as usize] = byte;
        }
        self.alone.insert(byte);
    }
}

// Whether both bytes are in the span, or neither is.
#[inline(always)]
fn same_side(first: u8, last: u8, a: u8, b: u8) -> bool
    ensures { IsTrue result ↔ SameSide first last a b }
{
    (first <= a && a <= last) == (first <= b && b <= last)
}

// Whether the span tells some byte from its lead.
fn splits(leads: &[u8; 256], first: u8, last: u8) -> bool
    ensures { result ≡ false → (b : ℕ) → b < 256 → SameSide first last b (slice_index leads.now b) }
{
    let mut found = false;
    for (b, lead) in leads.iter().enumerate() {
        found |= !same_side(first, last, b as u8, *lead);
    }
    found
}

// The leads behind the split. The bytes of a group that are not on its lead's side are led by the
// lowest of them.
fn split(leads: &[u8; 256], first: u8, last: u8) -> [u8; 256]
    requires { AreLeads leads.now }
    ensures leads { AreLeads result }
    ensures split { (a b : ℕ) → a < 256 → b < 256 → (Together result a b ↔ (Together leads.now a b × SameSide first last a b)) }
{
    let mut split = *leads;
    // For each lead the lowest byte of its group on the other side; 0, which leads its own group,
    // for none.
    let mut others = [0; 256];
    for (b, lead) in leads.iter().enumerate() {
        if same_side(first, last, b as u8, *lead) {
            continue;
        }
        let lead = *lead as usize;
        if others[lead] == 0 {
            others[lead] = b as u8;
        }
        split[b] = others[lead];
    }
    split
}
