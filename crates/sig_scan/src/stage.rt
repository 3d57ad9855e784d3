//! The parts that a sequence is cut into at its unbounded gaps: stages, and the tail of an EOF
//! sequence.
//!
//! `41{0-1}42{3-*}43` has the stage `41{0-1}42`, behind whose end three bytes must pass, and the
//! stage `43`. In an EOF sequence `43` is the tail instead. Each has its own copies of the items,
//! and the bytes that every word of them has.

use crate::copy::copy_items;
use crate::lengths::span_of;
use crate::literal::Literal;
use sig_expr::Item;
use std::alloc::{AllocError, Global};
use std::marker::Model;

// Items without an unbounded gap, the greatest offset at which a word of them may begin, how many
// bytes behind its end the next stage may begin, and bytes that each word of it has.
#[derive(Debug, Drop)]
pub(crate) struct Stage {
    pub(crate) items: Vec<Item>,
    pub(crate) until: Option<u32>,
    pub(crate) delay: u32,
    pub(crate) literal: Literal,
}

impl Model for Stage {
    ghost use Rattle.sig_scan.specs.Literals.{IsLiteralOf};
    ghost use Rattle.sig_scan.specs.Stages.{StageView};

    ghost Value = { StageView };

    ghost view = { λ s. record { items = s.items.items; until = s.until; delay = s.delay } };

    ghost invariant = { λ s. IsLiteralOf s.items.items s.literal };
}

impl Stage {
    ghost use Rattle.std.specs.Prelude.{◌≡◌, IfOk};

    pub(crate) fn of(
        alloc: Global,
        items: &[Item],
        until: Option<u32>,
        delay: u32,
    ) -> Result<Stage, AllocError>
        ensures { IfOk result (λ s. s ≡ record { items = items.now; until = until; delay = delay }) }
    {
        let literal = match until {
            Some(0) => Literal::in_front(items),
            _ => Literal::of(items),
        };
        let items = copy_items(alloc, items)?;
        Ok(Stage {
            items,
            until,
            delay,
            literal,
        })
    }

    // The items alone.
    pub(crate) fn into_items(self) -> Vec<Item>
        ensures { result.items ≡ self.items }
    {
        let Stage {
            items,
            until: _,
            delay: _,
            literal: _,
        } = self;
        items
    }
}

// What stands at the end of a file, at least `min` and at most `max` bytes before it.
#[derive(Debug, Drop)]
pub(crate) struct Tail {
    pub(crate) items: Vec<Item>,
    pub(crate) min: u16,
    pub(crate) max: u16,
    // The greatest length of a word, and bytes that each word has.
    pub(crate) longest: usize,
    pub(crate) literal: Literal,
}

impl Model for Tail {
    ghost use Rattle.std.specs.Prelude.{◌≡◌};
    ghost use Rattle.sig_scan.specs.Lengths.{span};
    ghost use Rattle.sig_scan.specs.Literals.{IsLiteralOf};
    ghost use Rattle.sig_scan.specs.Stages.{TailView};

    ghost Value = { TailView };

    ghost view = { λ t. record { items = t.items.items; min = t.min; max = t.max } };

    ghost invariant = { λ t. (t.longest ≡ span t.items.items) × IsLiteralOf t.items.items t.literal };
}

impl Tail {
    ghost use Rattle.std.specs.Prelude.{◌≡◌, ◌≤◌};
    ghost use Rattle.sig_scan.specs.Lengths.{span};

    pub(crate) fn of(items: Vec<Item>, min: u16, max: u16) -> Tail
        requires { span items.items ≤ 65535 }
        ensures { result ≡ record { items = items.items; min = min; max = max } }
    {
        let longest = span_of(&items);
        let literal = if min == max {
            Literal::in_front(&items)
        } else {
            Literal::of(&items)
        };
        Tail {
            items,
            min,
            max,
            longest,
            literal,
        }
    }
}
