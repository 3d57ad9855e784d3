//! An attempt: the first end of a stage in the bytes at hand.
//!
//! Of `(41424344|43)` over `41 42 43 44` the word that begins at 0 ends at 4, and the one that
//! begins at 2 ends at 3: a later word can end earlier, also one that begins behind the offsets
//! that are tried. So once some end is found, all words that begin before it are asked for the
//! first one.

ghost use Rattle.std.specs.Prelude.{◌≡◌, ◌≤◌, IfSome, length};
ghost use Rattle.sig_scan.specs.Frontiers.{IsLeastEnd};
ghost use Rattle.sig_scan.specs.Lengths.{AreBounded, span};
ghost use Rattle.sig_scan.specs.Scans.{IsFirstOf};

use crate::frontier::Frontier;
use sig_expr::Item;

/// The first end of all words of the items that begin at `from` or later and before `until`, if one
/// of them begins before `limit`. No word has more bytes than `reach`.
pub(crate) fn attempt(
    items: &[Item],
    bytes: &[u8],
    from: usize,
    until: usize,
    limit: usize,
    reach: usize,
    frontier: &mut Frontier,
) -> Option<usize>
    requires { length bytes.now ≤ frontier.old }
    ensures room { frontier.new ≡ frontier.old }
    ensures within { IfSome result (λ end. end ≤ length bytes.now) }
    ensures first { AreBounded items.now → span items.now ≤ reach → IsFirstOf items.now bytes.now from until limit result }
{
    let end = least_end(items, bytes, from, until.min(limit), reach, frontier)?;
    let first = frontier.first_end(items, &bytes[..end], from..until.min(end), 0);
    Some(first.unwrap_or(end))
}

// The least end of the words that begin at `from` or later and before `to`.
fn least_end(
    items: &[Item],
    bytes: &[u8],
    from: usize,
    to: usize,
    reach: usize,
    frontier: &mut Frontier,
) -> Option<usize>
    requires { length bytes.now ≤ frontier.old }
    ensures room { frontier.new ≡ frontier.old }
    ensures within { IfSome result (λ end. end ≤ length bytes.now) }
    ensures least { AreBounded items.now → span items.now ≤ reach → IsLeastEnd items.now bytes.now from to 0 result }
{
    let sight = bytes.len().min(to.saturating_add(reach));
    frontier.first_end(items, &bytes[..sight], from..to, 0)
}
