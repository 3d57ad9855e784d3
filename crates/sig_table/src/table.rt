//! A table, and the calls that read it. To its callers it is three lists (`TableView`): formats,
//! signatures with their sequences, and pairs of a higher and a lower format.
//!
//! A format is its index: `FormatId(2)` is the third PUID of the file. `outranks` asks for listed
//! pairs alone: from A over B and B over C does not follow A over C. No PUID occurs twice, so the
//! place of a removed one is the first that the test of PUIDs finds. A removal takes no memory.

ghost use Rattle.std.specs.Prelude.{◌≡◌, ◌⊎◌, ◌<◌, ◌≤◌, ◌↔◌, [], ◌∷◌, ◌++◌, false, IsTrue, IfOk, OnOk, Some, Contains, length, option_map, position, slice_get};
ghost use Rattle.sig_table.specs.Puids.{puid_eq};

use crate::links::Links;
use crate::priority::Priority;
use crate::{FormatId, Puid, Sequence, SigId, SignaturesOf};
use indexmap::IndexSet;
use std::alloc::{AllocError, Global};
use std::marker::Model;

// A signature of a format.
#[derive(Debug, Drop)]
pub(crate) struct Signature {
    format: FormatId,
    number: u32,
    sequences: Vec<Sequence>,
}

impl Model for Signature {
    ghost use Rattle.sig_table.specs.Views.{SignatureView};

    ghost Value = { SignatureView };

    ghost view = { λ s. record { format = s.format.0; number = s.number; sequences = s.sequences.items } };
}

/// A signature table within its limits.
#[derive(Debug, Drop)]
pub struct Table {
    formats: Vec<Puid>,
    signatures: Vec<Signature>,
    priorities: IndexSet<Priority>,
    links: Links,
}

impl Model for Table {
    ghost use Rattle.std.specs.Prelude.{◌≡◌, length};
    ghost use Rattle.sig_table.specs.Links.{AreLinked};
    ghost use Rattle.sig_table.specs.Views.{TableView};
    ghost use Rattle.sig_table.specs.Tables.{IsTable};

    ghost Value = { TableView };

    ghost view = { λ t. record { formats = t.formats.items; signatures = t.signatures.items; priorities = t.priorities.keys } };

    ghost invariant = { λ t. IsTable (record { formats = t.formats.items; signatures = t.signatures.items; priorities = t.priorities.keys })
        × (length t.links.firsts.items ≡ length t.formats.items)
        × AreLinked t.signatures.items t.links.firsts.items t.links.nexts.items };
}

impl Signature {
    // A signature of the format, with room for a sequence: most have one.
    pub(crate) fn new(alloc: Global, format: FormatId, number: u32) -> Result<Signature, AllocError>
        ensures { IfOk result (λ s. s ≡ record { format = format.0; number = number; sequences = [] }) }
    {
        Ok(Signature {
            format,
            number,
            sequences: Vec::with_capacity(alloc, 1)?,
        })
    }

    pub(crate) fn format(&self) -> FormatId
        ensures { result.0 ≡ self.now.format }
    {
        self.format
    }

    // How many sequences there are.
    pub(crate) fn sequence_count(&self) -> usize
        ensures { result ≡ length self.now.sequences }
    {
        self.sequences.len()
    }

    // Adds a sequence behind the others.
    pub(crate) fn push(&mut self, sequence: Sequence) -> Result<(), AllocError>
        ensures { OnOk result (self.new ≡ record self.old { sequences = self.old.sequences ++ sequence ∷ [] }) }
    {
        self.sequences.push(sequence)?;
        Ok(())
    }
}

impl Table {
    ghost use Rattle.sig_table.specs.Remaining.{remaining_of};
    ghost use Rattle.sig_table.specs.Places.{places_of};
    ghost use Rattle.sig_table.specs.Ranking.{Outranks, ranks};
    ghost use Rattle.sig_table.specs.Views.{SignatureView};
    ghost use Rattle.sig_table.specs.Removal.{place_of, without};
    ghost use Rattle.sig_table.specs.Tables.{IsNumber, IsTable};

    // The table of these lists, with room for its links.
    pub(crate) fn new(
        formats: Vec<Puid>,
        signatures: Vec<Signature>,
        priorities: IndexSet<Priority>,
        mut links: Links,
    ) -> Table
        requires table { IsTable (record { formats = formats.items; signatures = signatures.items; priorities = priorities.keys }) }
        requires formats { length links.firsts.items ≡ length formats.items }
        requires signatures { length signatures.items ≤ length links.nexts.items }
        ensures lists { result ≡ record { formats = formats.items; signatures = signatures.items; priorities = priorities.keys } }
        ensures limits { IsTable result }
    {
        links.mark(&signatures);
        Table {
            formats,
            signatures,
            priorities,
            links,
        }
    }

    /// How many formats there are, with or without signatures.
    pub fn format_count(&self) -> usize
        ensures count { result ≡ length self.now.formats }
        ensures limit { result ≤ 1000 }
        ensures table { IsTable self.now }
    {
        self.formats.len()
    }

    /// The format's name.
    pub fn puid(&self, format: FormatId) -> Puid
        requires { format.0 < length self.now.formats }
        ensures { slice_get self.now.formats format.0 ≡ Some result }
    {
        self.formats[format.0 as usize]
    }

    /// How many signatures there are.
    pub fn signature_count(&self) -> usize
        ensures count { result ≡ length self.now.signatures }
        ensures limit { result ≤ 4000 }
        ensures table { IsTable self.now }
    {
        self.signatures.len()
    }

    /// The format that the signature is of.
    pub fn format_of(&self, signature: SigId) -> FormatId
        requires { signature.0 < length self.now.signatures }
        ensures format { option_map (λ s. s.format) (slice_get self.now.signatures signature.0) ≡ Some result.0 }
        ensures of_view { (s : SignatureView) → slice_get self.now.signatures signature.0 ≡ Some s → result.0 ≡ s.format }
        ensures within { result.0 < length self.now.formats }
    {
        let signature = &self.signatures[signature.0 as usize];
        signature.format
    }

    /// The signature's number, which the signature file gives.
    pub fn number_of(&self, signature: SigId) -> u32
        requires { signature.0 < length self.now.signatures }
        ensures number { option_map (λ s. s.number) (slice_get self.now.signatures signature.0) ≡ Some result }
        ensures digits { IsNumber result }
    {
        let signature = &self.signatures[signature.0 as usize];
        signature.number
    }

    /// The format's signatures, rising. It costs a step for each.
    pub fn signatures_of(&self, format: FormatId) -> SignaturesOf<'_>
        ensures places { remaining_of result ≡ places_of format.0 0 self.now.signatures }
        ensures table { IsTable self.now }
    {
        SignaturesOf::new(self.links.nexts(), self.links.first_of(format))
    }

    /// Lends the signature's sequences, in row order: one to eight.
    pub fn sequences_of(&self, signature: SigId) -> &[Sequence]
        requires { signature.0 < length self.now.signatures }
        ensures sequences { option_map (λ s. s.sequences) (slice_get self.now.signatures signature.0) ≡ Some result.now }
        ensures of_view { (s : SignatureView) → slice_get self.now.signatures signature.0 ≡ Some s → result.now ≡ s.sequences }
        ensures some { 0 < length result.now }
        ensures few { length result.now ≤ 8 }
        ensures table { IsTable self.now }
    {
        let signature = &self.signatures[signature.0 as usize];
        signature.sequences.as_slice()
    }

    /// Whether a listed pair puts the one format over the other. No pair is implied by others.
    pub fn outranks(&self, higher: FormatId, lower: FormatId) -> bool
        ensures listed { IsTrue result ↔ Outranks self.now.priorities higher.0 lower.0 }
        ensures test { result ≡ ranks self.now.priorities higher.0 lower.0 }
    {
        self.priorities.contains(&Priority::new(higher, lower))
    }

    /// Whether one of the two formats outranks the other, in either direction.
    pub fn are_related(&self, a: FormatId, b: FormatId) -> bool
        ensures { IsTrue result ↔ (Outranks self.now.priorities a.0 b.0 ⊎ Outranks self.now.priorities b.0 a.0) }
    {
        self.outranks(a, b) || self.outranks(b, a)
    }

    /// Takes out all signatures of the format of this name, and moves later ones down. The format
    /// and its priorities stay.
    ///
    /// It answers whether there is such a format.
    pub fn remove_signature_for_puid(&mut self, puid: &Puid) -> bool
        ensures answers { IsTrue result ↔ Contains self.old.formats puid.now }
        ensures removes { IsTrue result → self.new ≡ without self.old (place_of self.old.formats puid.now) }
        ensures stays { result ≡ false → self.new ≡ self.old }
    {
        let Some(place) = self.place_of(puid) else {
            return false;
        };
        self.signatures
            .retain(|signature| signature.format().0 as usize != place);
        self.links.mark(&self.signatures);
        true
    }

    // Where the format of this name stands.
    fn place_of(&self, puid: &Puid) -> Option<usize>
        ensures { result ≡ position (λ p. puid_eq p puid.now) self.now.formats }
    {
        self.formats.iter().position(|format| is_same(format, puid))
    }
}

// The derived `==`, as the test of the definitions.
fn is_same(a: &Puid, b: &Puid) -> bool
    ensures { result ≡ puid_eq a.now b.now }
{
    a == b
}

// What the writer reads.
impl Signature {
    pub(crate) fn number(&self) -> u32
        ensures { result ≡ self.now.number }
    {
        self.number
    }

    pub(crate) fn sequences(&self) -> &[Sequence]
        ensures { result.now ≡ self.now.sequences }
    {
        self.sequences.as_slice()
    }
}

impl Table {
    ghost use Rattle.sig_table.specs.Tables.{IsTable};

    pub(crate) fn formats(&self) -> &[Puid]
        ensures formats { result.now ≡ self.now.formats }
        ensures table { IsTable self.now }
    {
        self.formats.as_slice()
    }

    pub(crate) fn signatures(&self) -> &[Signature]
        ensures { result.now ≡ self.now.signatures }
    {
        self.signatures.as_slice()
    }

    pub(crate) fn priorities(&self) -> &[Priority]
        ensures { result.now ≡ self.now.priorities }
    {
        self.priorities.as_slice()
    }
}
