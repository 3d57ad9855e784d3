//! The items of an expression: a byte, `??`, a gap, a list of alternatives, or a bracket.
//!
//! `41(42|4344)*` has three. A part of an alternative is an `Atom`, a byte or a bracket; gaps and
//! lists do not occur in lists. `Alternatives` is a type of its own, so that contracts see lists of
//! lists and not vectors with their capacities.

ghost use Rattle.std.specs.Prelude.{◌≡◌, map};

use crate::short::Short;
use std::marker::Model;

/// A part of an alternative: a byte, or a bracket of one to eight bytes.
#[derive(Clone, Copy, Debug, PartialEq, Eq)]
pub enum Atom {
    /// This byte.
    Byte(u8),
    /// As many bytes as each end has, from the first end to the second.
    Range(Short, Short),
    /// As many bytes, other than these.
    Not(Short),
    /// As many bytes as each end has, outside the range.
    NotRange(Short, Short),
}

/// The alternatives of a list, each a list of parts.
#[derive(Debug, Drop)]
pub struct Alternatives {
    alternatives: Vec<Vec<Atom>>,
}

impl Model for Alternatives {
    ghost use Rattle.std.specs.Prelude.{List, map};
    ghost use Rattle.sig_expr.specs.declared.item.Atom.{Atom};

    ghost Value = { List (List Atom) };

    ghost view = { λ a. map (λ v. v.items) a.alternatives.items };
}

impl Alternatives {
    /// These alternatives.
    pub fn new(alternatives: Vec<Vec<Atom>>) -> Alternatives
        ensures { result ≡ map (λ v. v.items) alternatives.items }
    {
        Alternatives { alternatives }
    }

    /// Lends the alternatives.
    pub fn as_slice(&self) -> &[Vec<Atom>]
        ensures { map (λ v. v.items) result.now ≡ self.now }
    {
        self.alternatives.as_slice()
    }
}

/// An item of an expression.
#[derive(Debug, Drop)]
pub enum Item {
    /// This byte.
    Byte(u8),
    /// Any one byte.
    Any,
    /// Any bytes, at least `min` and, where there is a `max`, at most so many.
    Gap { min: u32, max: Option<u32> },
    /// One of the alternatives.
    Alt(Alternatives),
    /// As many bytes as each end has, from the first end to the second.
    Range(Short, Short),
    /// As many bytes, other than these.
    Not(Short),
    /// As many bytes as each end has, outside the range.
    NotRange(Short, Short),
}
