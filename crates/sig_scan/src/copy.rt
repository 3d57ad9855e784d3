//! Copies of items, so that a compiled table outlives the table that it is made of.
//!
//! Of `41(42|4344)` the list and both of its alternatives are copied; a byte and the ends of a
//! bracket are values. Nothing is shared between an expression and its copy.

ghost use Rattle.std.specs.Prelude.{◌≡◌, IfOk, map};

use sig_expr::{Alternatives, Atom, Item};
use std::alloc::{AllocError, Global};

/// The same items.
pub(crate) fn copy_items(alloc: Global, items: &[Item]) -> Result<Vec<Item>, AllocError>
    ensures { IfOk result (λ copy. copy.items ≡ items.now) }
{
    let mut copy = Vec::with_capacity(alloc, items.len())?;
    for item in items {
        match item {
            Item::Byte(byte) => copy.push_reserved(Item::Byte(*byte)),
            _ => copy.push_reserved(copy_item(alloc, item)?),
        }
    }
    Ok(copy)
}

// Not inlined, so that the loop over the items, most of which are bytes, stays short.
#[inline(never)]
fn copy_item(alloc: Global, item: &Item) -> Result<Item, AllocError>
    ensures { IfOk result (λ copy. copy ≡ item.now) }
{
    match item {
        Item::Byte(byte) => Ok(Item::Byte(*byte)),
        Item::Any => Ok(Item::Any),
        Item::Gap { min, max } => Ok(Item::Gap {
            min: *min,
            max: *max,
        }),
        Item::Alt(alternatives) => Ok(Item::Alt(copy_alternatives(alloc, alternatives)?)),
        Item::Range(a, b) => Ok(Item::Range(*a, *b)),
        Item::Not(a) => Ok(Item::Not(*a)),
        Item::NotRange(a, b) => Ok(Item::NotRange(*a, *b)),
    }
}

fn copy_alternatives(alloc: Global, alternatives: &Alternatives) -> Result<Alternatives, AllocError>
    ensures { IfOk result (λ copy. copy ≡ alternatives.now) }
{
    let mut copy = Vec::new(alloc);
    for parts in alternatives.as_slice() {
        copy.push(copy_parts(alloc, parts.as_slice())?)?;
    }
    Ok(Alternatives::new(copy))
}

fn copy_parts(alloc: Global, parts: &[Atom]) -> Result<Vec<Atom>, AllocError>
    ensures { IfOk result (λ copy. copy.items ≡ parts.now) }
{
    Vec::from_slice(alloc, parts)
}
