//! A bound on the length of an expression's words: 6 for `41{1-3}(42|4344)`.
//!
//! With an unbounded gap there is none. The bound says how far before the end of a file an EOF
//! sequence can begin.

ghost use Rattle.std.specs.Prelude.{IfSome};
ghost use Rattle.sig_expr.specs.Words.{AlternativeWord, Lang, Word};
ghost use Rattle.sig_expr.specs.declared.item.Item.TheVariants as item;
ghost use Rattle.sig_match.specs.Runs.{Bounds};

use crate::whole::part::part_length;
use sig_expr::{Alternatives, Atom, Item};

/// A length that no word of the items is above, where they have no gap without a greatest length.
pub(crate) fn longest_of(items: &[Item]) -> Option<usize>
    ensures { IfSome result (Bounds (Lang items.now)) }
{
    let mut sum: usize = 0;
    for item in items {
        let len = longest_of_item(item)?;
        sum = sum.checked_add(len)?;
    }
    Some(sum)
}

// The same of one item.
fn longest_of_item(item: &Item) -> Option<usize>
    ensures { IfSome result (Bounds (Word item.now)) }
{
    match item {
        Item::Byte(_) | Item::Any => Some(1),
        Item::Gap { max, .. } => {
            let max = (*max)?;
            Some(max as usize)
        }
        Item::Alt(alternatives) => longest_of_any(alternatives),
        Item::Range(a, b) => Some(part_length(&Atom::Range(*a, *b))),
        Item::Not(a) => Some(part_length(&Atom::Not(*a))),
        Item::NotRange(a, b) => Some(part_length(&Atom::NotRange(*a, *b))),
    }
}

// The same of any of the alternatives.
fn longest_of_any(alternatives: &Alternatives) -> Option<usize>
    ensures { IfSome result (Bounds (Word (item.Alt alternatives.now))) }
{
    let mut greatest: usize = 0;
    for alternative in alternatives.as_slice() {
        let len = longest_of_parts(alternative.as_slice())?;
        greatest = greatest.max(len);
    }
    Some(greatest)
}

// The same of parts.
fn longest_of_parts(parts: &[Atom]) -> Option<usize>
    ensures { IfSome result (Bounds (AlternativeWord parts.now)) }
{
    let mut sum: usize = 0;
    for part in parts {
        sum = sum.checked_add(part_length(part))?;
    }
    Some(sum)
}
