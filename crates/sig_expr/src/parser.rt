//! From a text to its items.
//!
//! Two passes find every refusal and allocate nothing: `syntax_place` where no expression goes on,
//! and `first_fault` the first gap or bracket out of the profile. `build_items` then builds the
//! value. In one pass memory could run out before a text is refused. No clause can refuse an answer
//! of out of memory, whatever the text: that a text of 8,192 bytes is parsed if there is memory, a
//! test shows.

ghost use Rattle.std.specs.Prelude.{◌≡◌, ◌<◌, IfOk, IfErr, length, OnOk};
ghost use Rattle.sig_expr.specs.Built.{built};
ghost use Rattle.sig_expr.specs.Passes.{stop_of, fault_in, built_step, items_of};
ghost use Rattle.sig_expr.specs.Profile.{InProfile};
ghost use Rattle.sig_expr.specs.Refusals.{Means};
ghost use Rattle.sig_expr.specs.Spelling.{Spells};
ghost use Rattle.sig_expr.specs.Texts.{Exact, expr_of};

use crate::builder::Builder;
use crate::error::ExprError;
use crate::expr::Expr;
use crate::faults::judge;
use crate::item::Item;
use crate::lexer::{Piece, State, Step, pair_in_front};
use std::alloc::{AllocError, Global};

/// The greatest length of a text.
pub(crate) const LONGEST_TEXT: usize = 8192;

// Where no expression goes on.
#[tactic(auto, unfolding(crate::specs::Passes::stop_from))]
fn syntax_place(text: &[u8]) -> Option<usize>
    ensures { result ≡ stop_of text.now }
{
    let mut state = State::START;
    let mut place = 0;
    'text: while place < text.len() {
        if state.is_between()
            && let Some(byte) = pair_in_front(&text[place..])
        {
            state = state.next(Step::Whole(Piece::Byte(byte)));
            place += 2;
            continue;
        }
        let step = state.feed(text[place]);
        if matches!(step, Step::Refused) {
            return Some(place);
        }
        state = state.next(step);
        place += 1;
    }
    if state.is_end() {
        None
    } else {
        Some(text.len())
    }
}

// The first fault of a gap or a bracket.
#[tactic(auto, unfolding(crate::specs::Passes::fault_from))]
fn first_fault(text: &[u8]) -> Option<ExprError>
    ensures { result ≡ fault_in text.now }
{
    let mut state = State::START;
    let mut opened = 0;
    let mut place = 0;
    'text: while place < text.len() {
        if state.is_between() {
            if let Some(byte) = pair_in_front(&text[place..]) {
                state = state.next(Step::Whole(Piece::Byte(byte)));
                place += 2;
                continue;
            }
            opened = place;
        }
        let step = state.feed(text[place]);
        if let Step::Whole(piece) = step
            && let Some(fault) = judge(piece, opened)
        {
            return Some(fault);
        }
        state = state.next(step);
        place += 1;
    }
    None
}

// What a step builds.
fn build(builder: &mut Builder, alloc: Global, step: Step) -> Result<(), AllocError>
    ensures { OnOk result (built builder.new ≡ built_step (built builder.old) step) }
{
    match step {
        Step::Whole(piece) => builder.add(alloc, piece),
        _ => Ok(()),
    }
}

// The items of a text. Most texts have one for each two bytes; room for more is given back, so a
// text that is one list keeps room for one item.
#[tactic(auto, unfolding(crate::specs::Passes::built_from))]
fn build_items(alloc: Global, text: &[u8]) -> Result<Vec<Item>, AllocError>
    ensures { IfOk result (λ v. v.items ≡ items_of text.now) }
{
    let mut builder = Builder::with_capacity(alloc, text.len() / 2)?;
    let mut state = State::START;
    let mut place = 0;
    'text: while place < text.len() {
        if state.is_between()
            && let Some(byte) = pair_in_front(&text[place..])
        {
            builder.add_byte(byte)?;
            state = state.next(Step::Whole(Piece::Byte(byte)));
            place += 2;
            continue;
        }
        let step = state.feed(text[place]);
        build(&mut builder, alloc, step)?;
        state = state.next(step);
        place += 1;
    }
    let mut items = builder.items;
    items.shrink_to_fit();
    Ok(items)
}

/// The expression that a text spells.
///
/// Every refusal but that of memory is found before the first growth.
#[tactic(auto, unfolding(crate::specs::Texts::expr_of))]
pub fn parse(alloc: Global, text: &[u8]) -> Result<Expr, ExprError>
    ensures exact { Exact result (expr_of text.now) }
    ensures spelled { IfOk result (λ e. InProfile text.now × Spells e text.now) }
    ensures refused { IfErr result (λ f. Means f text.now) }
{
    if text.len() > LONGEST_TEXT {
        return Err(ExprError::TooLong);
    }
    if let Some(place) = syntax_place(text) {
        return Err(ExprError::Syntax { place });
    }
    if let Some(fault) = first_fault(text) {
        return Err(fault);
    }
    match build_items(alloc, text) {
        Ok(items) => Ok(Expr::new(items)),
        Err(_) => Err(ExprError::OutOfMemory),
    }
}
