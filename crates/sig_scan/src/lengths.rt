//! How long the words of items can be: of `41(42|4344){1-3}` six bytes.
//!
//! The greatest lengths of the items are added, and of alternatives the longest counts. A sequence
//! within its limits has no longer words than 65,535 bytes, so nothing overflows.

ghost use Rattle.std.specs.Prelude.{◌≡◌, ◌≤◌, All, IfSome};
ghost use Rattle.sig_expr.specs.Words.{Word};
ghost use Rattle.sig_scan.specs.Lengths.{HasLength, item_span, longest_of, parts_length, span};

use crate::part::part_length;
use sig_expr::{Alternatives, Atom, Item};

/// The greatest length of a word of the items, where none is an unbounded gap.
pub(crate) fn span_of(items: &[Item]) -> usize
    requires { span items.now ≤ 65535 }
    ensures { result ≡ span items.now }
{
    let mut sum = 0;
    for item in items {
        sum += match item {
            Item::Byte(_) => 1,
            _ => span_of_item(item),
        };
    }
    sum
}

// The same of one item. Not inlined, so that the loop over the items, most of which are bytes,
// stays short.
#[inline(never)]
fn span_of_item(item: &Item) -> usize
    requires { item_span item.now ≤ 65535 }
    ensures { result ≡ item_span item.now }
{
    match item {
        Item::Byte(_) | Item::Any => 1,
        Item::Gap { min, max } => match max {
            Some(max) => *max as usize,
            None => *min as usize,
        },
        Item::Alt(alternatives) => span_of_any(alternatives),
        Item::Range(a, _) | Item::Not(a) | Item::NotRange(a, _) => a.as_bytes().len(),
    }
}

// The same of any of the alternatives.
fn span_of_any(alternatives: &Alternatives) -> usize
    requires { longest_of alternatives.now ≤ 65535 }
    ensures { result ≡ longest_of alternatives.now }
{
    let mut greatest: usize = 0;
    for alternative in alternatives.as_slice() {
        greatest = greatest.max(length_of_parts(alternative.as_slice()));
    }
    greatest
}

// How many bytes a word of these parts has.
fn length_of_parts(parts: &[Atom]) -> usize
    requires { parts_length parts.now ≤ 65535 }
    ensures { result ≡ parts_length parts.now }
{
    let mut sum = 0;
    for part in parts {
        sum += part_length(part);
    }
    sum
}

/// How many bytes each word of the item has, if that is one number.
pub(crate) fn fixed_length(item: &Item) -> Option<usize>
    ensures { IfSome result (λ n. HasLength (Word item.now) n) }
{
    match item {
        Item::Byte(_) | Item::Any => Some(1),
        Item::Gap { min, max } => {
            if *max == Some(*min) {
                Some(*min as usize)
            } else {
                None
            }
        }
        Item::Alt(alternatives) => fixed_length_of_any(alternatives),
        Item::Range(a, _) | Item::Not(a) | Item::NotRange(a, _) => Some(a.as_bytes().len()),
    }
}

// The same of each of the alternatives.
fn fixed_length_of_any(alternatives: &Alternatives) -> Option<usize>
    ensures { IfSome result (λ n. All (λ a. parts_length a ≡ n) alternatives.now) }
{
    let all = alternatives.as_slice();
    if all.is_empty() {
        return None;
    }
    let len = length_of_all(all[0].as_slice())?;
    for parts in all {
        if length_of_all(parts.as_slice())? != len {
            return None;
        }
    }
    Some(len)
}

// How many bytes a word of these parts has, if that can be counted.
fn length_of_all(parts: &[Atom]) -> Option<usize>
    ensures { IfSome result (λ n. n ≡ parts_length parts.now) }
{
    let mut sum: usize = 0;
    for part in parts {
        sum = sum.checked_add(part_length(part))?;
    }
    Some(sum)
}
