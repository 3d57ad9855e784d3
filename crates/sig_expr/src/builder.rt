//! From pieces to items: the last pass of the parser, which builds the value.
//!
//! Of `41(42|4344)` it makes two items, a byte and a list. Outside a list a piece is an item. In a
//! list it is a part of the present alternative, which a bar or the list's end completes. Nothing
//! is judged here: the passes before it have refused every text with a fault.

ghost use Rattle.std.specs.Prelude.{◌≡◌, IfOk, OnOk, List, []};
ghost use Rattle.sig_expr.specs.declared.lexer.Piece.TheVariants as piece;
ghost use Rattle.sig_expr.specs.Built.{Built, built, fresh, with_bar, with_close, with_part, with_item, built_of, atom_of, item_of};

use crate::item::{Alternatives, Atom, Item};
use crate::lexer::Piece;
use std::alloc::{AllocError, Global};
use std::mem;

/// The items so far. In a list also its alternatives so far, and the parts of the one that is read.
#[derive(Drop)]
pub(crate) struct Builder {
    pub(crate) items: Vec<Item>,
    pub(crate) alternatives: Vec<Vec<Atom>>,
    pub(crate) alternative: Vec<Atom>,
    pub(crate) inside: bool,
}

// The part of a list, where the piece is one and its ends have words.
fn atom(piece: Piece) -> Option<Atom>
    ensures { result ≡ atom_of piece }
{
    match piece {
        Piece::Byte(byte) => Some(Atom::Byte(byte)),
        Piece::Range(first, second) => Some(Atom::Range(first.word()?, second.word()?)),
        Piece::Not(end) => Some(Atom::Not(end.word()?)),
        Piece::NotRange(first, second) => Some(Atom::NotRange(first.word()?, second.word()?)),
        _ => None,
    }
}

// The item, where the piece is one and its ends have words.
fn item(piece: Piece) -> Option<Item>
    ensures { result ≡ item_of piece }
{
    match piece {
        Piece::Byte(byte) => Some(Item::Byte(byte)),
        Piece::Any => Some(Item::Any),
        Piece::Gap { min, max } => Some(Item::Gap { min, max }),
        Piece::Range(first, second) => Some(Item::Range(first.word()?, second.word()?)),
        Piece::Not(end) => Some(Item::Not(end.word()?)),
        Piece::NotRange(first, second) => Some(Item::NotRange(first.word()?, second.word()?)),
        _ => None,
    }
}

impl Builder {
    /// Nothing is built, and there is room for so many items.
    pub(crate) fn with_capacity(alloc: Global, items: usize) -> Result<Builder, AllocError>
        ensures { IfOk result (λ b. built b ≡ fresh) }
    {
        Ok(Builder {
            items: Vec::with_capacity(alloc, items)?,
            alternatives: Vec::new(alloc),
            alternative: Vec::new(alloc),
            inside: false,
        })
    }

    // The alternative that is read ends.
    fn end_alternative(&mut self, alloc: Global) -> Result<(), AllocError>
        ensures { OnOk result (built self.new ≡ with_bar (built self.old)) }
    {
        let alternative = mem::replace(&mut self.alternative, Vec::new(alloc));
        self.alternatives.push(alternative)?;
        self.inside = true;
        Ok(())
    }

    // The list ends.
    fn end_list(&mut self, alloc: Global) -> Result<(), AllocError>
        ensures { OnOk result (built self.new ≡ with_close (built self.old)) }
    {
        self.end_alternative(alloc)?;
        let alternatives = mem::replace(&mut self.alternatives, Vec::new(alloc));
        self.items.push(Item::Alt(Alternatives::new(alternatives)))?;
        self.inside = false;
        Ok(())
    }

    // A byte, a bracket, `??` or a gap.
    fn add_part(&mut self, piece: Piece) -> Result<(), AllocError>
        ensures { OnOk result (built self.new ≡ with_part (built self.old) piece) }
    {
        if self.inside {
            if let Some(atom) = atom(piece) {
                self.alternative.push(atom)?;
            }
        } else if let Some(item) = item(piece) {
            self.items.push(item)?;
        }
        Ok(())
    }

    /// A byte more.
    pub(crate) fn add_byte(&mut self, byte: u8) -> Result<(), AllocError>
        ensures { OnOk result (built self.new ≡ built_of (built self.old) (piece.Byte byte)) }
    {
        if self.inside {
            self.alternative.push(Atom::Byte(byte))?;
        } else {
            self.items.push(Item::Byte(byte))?;
        }
        Ok(())
    }

    /// One piece more.
    pub(crate) fn add(&mut self, alloc: Global, piece: Piece) -> Result<(), AllocError>
        ensures { OnOk result (built self.new ≡ built_of (built self.old) piece) }
    {
        match piece {
            Piece::Open => {
                self.inside = true;
                Ok(())
            }
            Piece::Bar => self.end_alternative(alloc),
            Piece::Close => self.end_list(alloc),
            _ => self.add_part(piece),
        }
    }
}
