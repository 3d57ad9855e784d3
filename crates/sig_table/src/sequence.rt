//! An expression at its position: what a signature asks of a file.
//!
//! `Placed` is one as a row spells it. A `Sequence` has at most 65,535 slots besides, as an
//! invariant, so no crate above counts them again.

ghost use Rattle.std.specs.Prelude.{◌≡◌, ◌≤◌};
ghost use Rattle.sig_table.specs.Slots.{slot_count};
ghost use Rattle.sig_table.specs.Tables.{IsSequence};

use crate::Position;
use crate::slots::count_slots;
use sig_expr::Expr;
use std::marker::Model;

// An expression at its position, as a row spells it: its slots are not judged yet.
#[derive(Debug, Drop)]
pub(crate) struct Placed {
    pub(crate) position: Position,
    pub(crate) expr: Expr,
}

impl Model for Placed {
    ghost use Rattle.sig_table.specs.Views.{SequenceView};

    ghost Value = { SequenceView };

    ghost view = { λ s. record { position = s.position; items = s.expr } };
}

/// An expression with its position in a file, within the limits of both.
#[derive(Debug, Drop)]
pub struct Sequence {
    position: Position,
    expr: Expr,
}

impl Model for Sequence {
    ghost use Rattle.sig_table.specs.Views.{SequenceView};
    ghost use Rattle.sig_table.specs.Tables.{IsSequence};

    ghost Value = { SequenceView };

    ghost view = { λ s. record { position = s.position; items = s.expr } };

    ghost invariant = { λ s. IsSequence (record { position = s.position; items = s.expr }) };
}

impl Sequence {
    // The sequence of what is placed, once its slots are judged.
    pub(crate) fn new(placed: Placed) -> Sequence
        requires { IsSequence placed }
        ensures { result ≡ placed }
    {
        let Placed { position, expr } = placed;
        Sequence { position, expr }
    }

    /// Where it stands.
    pub fn position(&self) -> Position
        ensures { result ≡ self.now.position }
    {
        self.position
    }

    /// Lends the expression.
    pub fn expr(&self) -> &Expr
        ensures items { result.now ≡ self.now.items }
        ensures sequence { IsSequence self.now }
    {
        &self.expr
    }

    /// How many slots it takes: the states of its automaton beside the start.
    pub fn slots(&self) -> u32
        ensures slots { result ≡ slot_count self.now }
        ensures few { result ≤ 65535 }
        ensures sequence { IsSequence self.now }
    {
        count_slots(self.position, self.expr.items()) as u32
    }
}
