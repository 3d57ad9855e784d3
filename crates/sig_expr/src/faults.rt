//! Whether a gap or a bracket that is spelled right is also in the profile.
//!
//! `{5-3}`, `{0-0}`, `[42:41]` and `[!00:FF]` are not, each by a refusal of its own. The tests of a
//! piece stand in the order in which its refusals are judged, and the first one counts.

ghost use Rattle.std.specs.Prelude.{◌≡◌};
ghost use Rattle.sig_expr.specs.Faults.{are_all, order_fault, range_fault, not_fault, gap_fault, fault_of};

use crate::end::End;
use crate::error::ExprError;
use crate::lexer::Piece;
use crate::short::Short;
use std::cmp::Ordering;

/// The greatest gap number.
const GREATEST_GAP: u32 = 65_535;

#[tactic(auto, unfolding(crate::specs::Faults::are_all))]
fn is_all(bytes: &[u8], value: u8) -> bool
    ensures { result ≡ are_all value bytes.now }
{
    for byte in bytes {
        if *byte != value {
            return false;
        }
    }
    true
}

// Two ends of one length, of one to eight bytes.
#[tactic(auto, unfolding(crate::specs::Faults::order_fault))]
fn judge_order(not: bool, first: Short, second: Short, place: usize) -> Option<ExprError>
    ensures { result ≡ order_fault not first second place }
{
    if first.as_bytes().cmp(second.as_bytes()) != Ordering::Less {
        return Some(ExprError::RangeOrder { place });
    }
    if not && is_all(first.as_bytes(), 0) && is_all(second.as_bytes(), 255) {
        return Some(ExprError::ClassEmpty { place });
    }
    None
}

// A bracket with two ends.
#[tactic(auto, unfolding(crate::specs::Faults::range_fault))]
fn judge_range(not: bool, first: End, second: End, place: usize) -> Option<ExprError>
    ensures { result ≡ range_fault not first second place }
{
    if first.len != second.len {
        return Some(ExprError::RangeLength { place });
    }
    if first.len > Short::MAX_LEN {
        return Some(ExprError::BracketTooLong { place });
    }
    // An end of a text has a byte at least, so here both have words.
    judge_order(not, first.word()?, second.word()?, place)
}

// A bracket with one end.
#[tactic(auto, unfolding(crate::specs::Faults::not_fault))]
fn judge_not(end: End, place: usize) -> Option<ExprError>
    ensures { result ≡ not_fault end place }
{
    (end.len > Short::MAX_LEN).then_some(ExprError::BracketTooLong { place })
}

#[tactic(auto, unfolding(crate::specs::Faults::gap_fault))]
fn judge_gap(min: u32, max: Option<u32>, place: usize) -> Option<ExprError>
    ensures { result ≡ gap_fault min max place }
{
    match max {
        _ if min > GREATEST_GAP => Some(ExprError::GapNumber { place }),
        Some(max) if max > GREATEST_GAP => Some(ExprError::GapNumber { place }),
        Some(0) => Some(ExprError::GapEmpty { place }),
        Some(max) if min > max => Some(ExprError::GapOrder { place }),
        _ => None,
    }
}

/// What the piece that begins at this place of the text is refused for.
pub(crate) fn judge(piece: Piece, place: usize) -> Option<ExprError>
    ensures { result ≡ fault_of piece place }
{
    match piece {
        Piece::Gap { min, max } => judge_gap(min, max, place),
        Piece::Range(first, second) => judge_range(false, first, second, place),
        Piece::NotRange(first, second) => judge_range(true, first, second, place),
        Piece::Not(end) => judge_not(end, place),
        _ => None,
    }
}
