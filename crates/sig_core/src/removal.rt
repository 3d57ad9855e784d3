//! Which hits are reported: those whose format no format of the hits outranks.
//!
//! With A over B and B over C, a file that hits all three gets A alone: B is outranked and still
//! outranks C. A file that hits A and C gets both. The hits that stay are swapped to the start of
//! the list, in their order, and the others are cut off at the end. That takes no memory; marks
//! beside the hits would.

ghost use Rattle.std.specs.Prelude.{◌≡◌, ◌<◌, List, length};
ghost use Rattle.std.specs.List.{list_any};
ghost use Rattle.sig_core.specs.Hits.{kept_hits};
ghost use Rattle.sig_core.specs.declared.results.Hit.{Hit};
ghost use Rattle.sig_table.specs.Ranking.{ranks};

use crate::results::{Hit, Results};
use sig_table::Table;

impl Results {
    /// Takes out the hits that a hit outranks, one that is itself taken out too.
    ///
    /// Outranked hits are moved behind the others and cut off at the end, so that each one still
    /// outranks until all hits are judged. That takes no memory, and the others keep their order.
    pub fn remove_outranked(&mut self, table: &Table)
        ensures kept { self.new ≡ kept_hits table.now self.old }
        ensures some { 0 < length self.old → 0 < length self.new }
    {
        some_are_kept(table);
        let hits = &mut self.hits;
        let mut kept = 0;
        for index in 0..hits.len() {
            if !is_outranked(table, hits[index], hits) {
                hits.swap(kept, index);
                kept += 1;
            }
        }
        hits.truncate(kept);
    }
}

// Whether the format of some hit outranks this one's.
fn is_outranked(table: &Table, hit: Hit, hits: &[Hit]) -> bool
    ensures { result ≡ list_any (λ other. ranks table.now.priorities other.format.0 hit.format.0) hits.now }
{
    hits.iter()
        .any(|other| table.outranks(other.format, hit.format))
}

// A table's priorities make no cycle. Any call of the table says so.
fn some_are_kept(table: &Table)
    ensures { (hits : List Hit) → 0 < length hits → 0 < length (kept_hits table.now hits) }
{
    let _ = table.format_count();
}
