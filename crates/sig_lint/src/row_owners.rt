//! Equal rows of two formats.
//!
//! Behind the row `fmt/1,1,BOF,0,,4142` the row `fmt/2,5,BOF,0,0,4142` asks the same of a file, so
//! signature 5 is told with signature 1. Two rows of one format are not told. Rows are equal if
//! their canonical texts are; the first of each text is kept in a hash table, so each row is looked
//! at once.

ghost use Rattle.std.specs.Prelude.{◌≡◌, ◌++◌, ◌∷◌, [], IfOk, None, OnOk, codes, decimal, fold, length, map};
ghost use Rattle.sig_expr.specs.Canon.{canon};
ghost use Rattle.sig_lint.specs.EqualRows.{equal_rows, first_of, no_row, placed, position_text, row_text, with_row, with_told};

use crate::details::{put, put_number};
use indexmap::{IndexMap, IndexSet};
use sig_bits::FromWrite;
use sig_expr::{Expr, print};
use sig_table::{FormatId, Position, Sequence, SigId, Table};
use std::alloc::{AllocError, Global};
use std::marker::Model;

/// A signature and its format.
#[derive(Clone, Copy, Debug, PartialEq, Eq)]
pub struct Owner {
    pub signature: SigId,
    pub format: FormatId,
}

// The first row of each text, and what is told so far.
#[derive(Drop)]
struct Rows {
    firsts: IndexMap<Vec<u8>, Owner>,
    found: IndexSet<(u16, u16)>,
}

impl Model for Rows {
    ghost use Rattle.std.specs.Prelude.{map};
    ghost use Rattle.sig_lint.specs.EqualRows.{RowsView};

    ghost Value = { RowsView };

    ghost view = { λ r. record { firsts = map (λ e. (e.0.items, e.1)) r.firsts.entries; found = r.found.keys } };
}

/// The signatures that have a row of another format, which stands earlier, each with the signature
/// of the first such row. They are given by their places.
pub fn rows_of_two_formats(alloc: Global, table: &Table) -> Result<IndexSet<(u16, u16)>, AllocError>
    ensures { IfOk result (λ found. found.keys ≡ equal_rows table.now) }
{
    let mut rows = Rows::new(alloc);
    for place in 0..table.signature_count() {
        let signature = SigId(place as u16);
        let owner = Owner {
            signature,
            format: table.format_of(signature),
        };
        rows = rows.with_all(alloc, owner, table.sequences_of(signature))?;
    }
    Ok(rows.found)
}

impl Rows {
    fn new(alloc: Global) -> Rows
        ensures { result ≡ no_row }
    {
        Rows {
            firsts: IndexMap::new(alloc),
            found: IndexSet::new(alloc),
        }
    }

    // The rows with those of a signature.
    fn with_all(
        self,
        alloc: Global,
        owner: Owner,
        sequences: &[Sequence],
    ) -> Result<Rows, AllocError>
        ensures { IfOk result (λ rows. rows ≡ fold with_row self (map (placed owner) sequences.now)) }
    {
        let mut rows = self;
        for sequence in sequences {
            rows = rows.with(owner, row_text(alloc, sequence)?)?;
        }
        Ok(rows)
    }

    // The rows with one of this text.
    #[tactic(auto, unfolding(crate::specs::EqualRows::with_row))]
    fn with(self, owner: Owner, text: Vec<u8>) -> Result<Rows, AllocError>
        ensures { IfOk result (λ rows. rows ≡ with_row self (text.items, owner)) }
    {
        match self.first_of(&text) {
            Some(first) => self.with_told(owner, first),
            None => self.with_first(owner, text),
        }
    }

    // Whose the first row of this text is.
    fn first_of(&self, text: &[u8]) -> Option<Owner>
        ensures { result ≡ first_of self.now.firsts text.now }
    {
        self.firsts.get(text).copied()
    }

    // The rows with a new text.
    fn with_first(self, owner: Owner, text: Vec<u8>) -> Result<Rows, AllocError>
        requires { first_of self.firsts text.items ≡ None }
        ensures { IfOk result (λ rows. rows ≡ record self { firsts = self.firsts ++ (text.items, owner) ∷ [] }) }
    {
        let Rows { mut firsts, found } = self;
        firsts.insert(text, owner)?;
        Ok(Rows { firsts, found })
    }

    // The rows with a row that is equal to one of this owner, which is told if it is of another
    // format.
    fn with_told(self, owner: Owner, first: Owner) -> Result<Rows, AllocError>
        ensures { IfOk result (λ rows. rows ≡ record self { found = with_told self.found owner first }) }
    {
        let Rows { firsts, mut found } = self;
        if first.format != owner.format {
            found.insert((owner.signature.0, first.signature.0))?;
        }
        Ok(Rows { firsts, found })
    }
}

// The row of a sequence behind its PUID and its number, in canonical form.
fn row_text(alloc: Global, sequence: &Sequence) -> Result<Vec<u8>, AllocError>
    ensures { IfOk result (λ text. text.items ≡ row_text sequence.now) }
{
    let mut text = Vec::new(alloc);
    put_position(alloc, &mut text, sequence.position())?;
    text.extend_from_slice(&expression_text(alloc, sequence.expr())?)?;
    Ok(text)
}

fn put_position(alloc: Global, out: &mut Vec<u8>, position: Position) -> Result<(), AllocError>
    ensures { OnOk result (out.new.items ≡ out.old.items ++ position_text position) }
{
    match position {
        Position::Bof { min, max } => put_offsets(alloc, out, "BOF", min, max),
        Position::Eof { min, max } => put_offsets(alloc, out, "EOF", min, max),
        Position::Variable => put(out, "Variable,,,"),
    }
}

fn put_offsets(
    alloc: Global,
    out: &mut Vec<u8>,
    word: &str,
    min: u16,
    max: u16,
) -> Result<(), AllocError>
    ensures { OnOk result (out.new.items ≡ out.old.items ++ (word.now ++ codes "," ++ decimal min ++ codes "," ++ decimal max ++ codes ",")) }
{
    put(out, word)?;
    put(out, ",")?;
    put_number(alloc, out, u64::from(min))?;
    put(out, ",")?;
    put_number(alloc, out, u64::from(max))?;
    put(out, ",")
}

// The canonical text of an expression.
fn expression_text(alloc: Global, expr: &Expr) -> Result<Vec<u8>, AllocError>
    ensures { IfOk result (λ text. text.items ≡ canon expr.now) }
{
    let mut out = FromWrite::new(Vec::new(alloc));
    print(expr, &mut out).map_err(|_| AllocError)?;
    Ok(out.into_inner())
}
