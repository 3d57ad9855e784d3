//! An expression: a list of items that is not empty and has no fault.
//!
//! That is its invariant (`IsExpression`), by the structure of the items and the length of their
//! canonical text. So whoever holds an `Expr` need not ask again, and proofs about automata do not
//! speak of texts. Two laws say that just these are read (`laws`).

ghost use Rattle.std.specs.Prelude.{◌≡◌};
ghost use Rattle.sig_expr.specs.Profile.{IsExpression};

use crate::item::Item;
use std::marker::Model;

/// An expression of the profile: its items from left to right, one at least.
#[derive(Debug, Drop)]
pub struct Expr {
    items: Vec<Item>,
}

impl Model for Expr {
    ghost use Rattle.std.specs.Prelude.{List};
    ghost use Rattle.sig_expr.specs.Profile.{IsExpression};
    ghost use Rattle.sig_expr.specs.declared.item.Item.{Item};

    ghost Value = { List Item };

    ghost view = { λ e. e.items.items };

    ghost invariant = { λ e. IsExpression e.items.items };
}

impl Expr {
    // These items.
    pub(crate) fn new(items: Vec<Item>) -> Expr
        requires { IsExpression items.items }
        ensures { result ≡ items.items }
    {
        Expr { items }
    }

    /// Lends the items. Their canonical text is in the profile.
    pub fn items(&self) -> &[Item]
        ensures items { result.now ≡ self.now }
        ensures expression { IsExpression self.now }
    {
        self.items.as_slice()
    }
}
