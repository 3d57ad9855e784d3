//! Pairs of formats as they grow: row by row when a table is loaded, and behind the pairs of a
//! table for an editor who adds to them.
//!
//! Beside the pairs stand, for each format, all formats below it, so no way down is searched for a
//! pair: it closes a cycle if its higher format is below its lower one. The sets grow by a bit
//! or more at each change, so all changes together are few.

ghost use Rattle.std.specs.Prelude.{◌≡◌, ◌⊎◌, ℕ, ◌<◌, ◌≤◌, ◌↔◌, ◌∷◌, ◌++◌, [], List, IsTrue, IfOk, IfSome, MatchResult, None, Ok, false, length};
ghost use Rattle.sig_table.specs.FormatSets.{HasFormat};
ghost use Rattle.sig_table.specs.Judging.{passed, unless};
ghost use Rattle.sig_table.specs.Loading.{is_listed, pair_fault};
ghost use Rattle.sig_table.specs.Ranking.{Outranks, is_above};
ghost use Rattle.sig_table.specs.RankingViews.{AreBelow};
ghost use Rattle.sig_table.specs.Judging.{IsFault, is_read};
ghost use Rattle.sig_table.specs.Tables.{ArePriorities};

use crate::format_set::FormatSet;
use crate::priority::Priority;
use crate::{FormatId, Table, TableError};
use indexmap::IndexSet;
use std::alloc::{AllocError, Global};
use std::marker::Model;

/// Priorities among the formats of a table, without a cycle and none twice.
#[derive(Debug, Drop)]
pub struct Ranking {
    pairs: IndexSet<Priority>,
    below: Vec<FormatSet>,
}

impl Model for Ranking {
    ghost use Rattle.std.specs.Prelude.{length};
    ghost use Rattle.sig_table.specs.RankingViews.{IsRanking, RankingView};

    ghost Value = { RankingView };

    ghost view = { λ r. record { format_count = length r.below.items; pairs = r.pairs.keys } };

    ghost invariant = { IsRanking };
}

impl Ranking {
    /// The priorities of the table, in their order.
    pub fn of(alloc: Global, table: &Table) -> Result<Ranking, AllocError>
        ensures { IfOk result (λ r. r ≡ record { format_count = length table.now.formats; pairs = table.now.priorities }) }
    {
        let mut ranking = Ranking::new(alloc, table.format_count())?;
        for pair in table.priorities() {
            ranking = ranking.insert(*pair)?;
        }
        Ok(ranking)
    }

    /// Whether the pair is listed.
    pub fn outranks(&self, higher: FormatId, lower: FormatId) -> bool
        ensures { IsTrue result ↔ Outranks self.now.pairs higher.0 lower.0 }
    {
        self.contains(Priority::new(higher, lower))
    }

    /// Whether the pair can be added: it is not listed, and closes no cycle.
    pub fn takes(&self, higher: FormatId, lower: FormatId) -> bool
        requires higher { higher.0 < self.now.format_count }
        requires lower { lower.0 < self.now.format_count }
        ensures { IsTrue result ↔ ArePriorities self.now.format_count (self.now.pairs ++ (higher.0, lower.0) ∷ []) }
    {
        // Its invariant: the pairs are priorities.
        let _ = &self.pairs;
        if higher == lower {
            return false;
        }
        self.fault(Priority::new(higher, lower), 0).is_none()
    }

    /// Adds a pair behind the others.
    pub fn with(self, higher: FormatId, lower: FormatId) -> Result<Ranking, AllocError>
        requires { ArePriorities self.format_count (self.pairs ++ (higher.0, lower.0) ∷ []) }
        ensures { IfOk result (λ r. r ≡ record self { pairs = self.pairs ++ (higher.0, lower.0) ∷ [] }) }
    {
        self.insert(Priority::new(higher, lower))
    }

    pub(crate) fn pairs(&self) -> &[Priority]
        ensures pairs { result.now ≡ self.now.pairs }
        ensures limits { ArePriorities self.now.format_count self.now.pairs }
    {
        self.pairs.as_slice()
    }

    /// No pair yet, of so many formats.
    pub fn new(alloc: Global, format_count: usize) -> Result<Ranking, AllocError>
        requires { format_count ≤ 1000 }
        ensures { IfOk result (λ r. r ≡ record { format_count = format_count; pairs = [] }) }
    {
        let below = vec![in alloc; FormatSet::new(); format_count]?;
        Ok(Ranking {
            pairs: IndexSet::new(alloc),
            below,
        })
    }

    // Judges the pair of the row, and adds it.
    pub(crate) fn add(self, pair: Priority, row_number: usize) -> Result<Ranking, TableError>
        requires higher { pair.0 < self.format_count }
        requires lower { pair.1 < self.format_count }
        requires other { ¬ (pair.0 ≡ pair.1) }
        ensures { MatchResult result
            (λ r. (pair_fault self.pairs row_number pair ≡ None) × (r ≡ record self { pairs = self.pairs ++ pair ∷ [] }))
            (λ e. IsFault (unless (pair_fault self.pairs row_number pair) (Ok self)) e) }
    {
        if let Some(fault) = self.fault(pair, row_number) {
            return Err(fault);
        }
        self.insert(pair).map_err(|_| TableError::OutOfMemory)
    }

    // Judges the pair of the row. It is added where it has no fault, and else left out.
    pub(crate) fn take(
        self,
        pair: Priority,
        row_number: usize,
    ) -> Result<(Ranking, Option<TableError>), AllocError>
        requires higher { pair.0 < self.format_count }
        requires lower { pair.1 < self.format_count }
        requires other { ¬ (pair.0 ≡ pair.1) }
        ensures formats { IfOk result (λ r. r.0.format_count ≡ self.format_count) }
        ensures pairs { IfOk result (λ r. (r.0.pairs, r.1) ≡ passed self.pairs (unless (pair_fault self.pairs row_number pair) (Ok (self.pairs ++ pair ∷ [])))) }
    {
        if let Some(fault) = self.fault(pair, row_number) {
            return Ok((self, Some(fault)));
        }
        match self.insert(pair) {
            Ok(ranking) => Ok((ranking, None)),
            Err(_) => Err(AllocError),
        }
    }

    #[tactic(auto, unfolding(crate::specs::Loading::pair_fault))]
    fn fault(&self, pair: Priority, row_number: usize) -> Option<TableError>
        requires higher { pair.0 < self.now.format_count }
        requires lower { pair.1 < self.now.format_count }
        ensures fault { result ≡ pair_fault self.now.pairs row_number pair }
        ensures no_read { IfSome result (λ e. is_read e ≡ false) }
    {
        if self.contains(pair) {
            return Some(TableError::PriorityTwice { row: row_number });
        }
        if self.is_above(pair.lower(), pair.higher()) {
            return Some(TableError::PriorityCycle { row: row_number });
        }
        None
    }

    fn contains(&self, pair: Priority) -> bool
        ensures { result ≡ is_listed self.now.pairs pair }
    {
        self.pairs.contains(&pair)
    }

    // Whether the pairs lead from the one down to the other.
    fn is_above(&self, higher: FormatId, lower: FormatId) -> bool
        requires higher { higher.0 < self.now.format_count }
        requires lower { lower.0 < self.now.format_count }
        ensures { result ≡ is_above self.now.pairs higher.0 lower.0 }
    {
        self.below[higher.0 as usize].contains(lower)
    }

    // Adds a pair that closes no cycle.
    fn insert(self, pair: Priority) -> Result<Ranking, AllocError>
        requires higher { pair.0 < self.format_count }
        requires lower { pair.1 < self.format_count }
        requires other { ¬ (pair.0 ≡ pair.1) }
        requires judged { (row_number : ℕ) × (pair_fault self.pairs row_number pair ≡ None) }
        ensures { IfOk result (λ r. r ≡ record self { pairs = self.pairs ++ pair ∷ [] }) }
    {
        let Ranking {
            mut pairs,
            mut below,
        } = self;
        if pairs.insert(pair).is_err() {
            return Err(AllocError);
        }
        extend_below(&mut below, pair.higher(), pair.lower());
        Ok(Ranking { pairs, below })
    }

    pub(crate) fn into_pairs(self) -> IndexSet<Priority>
        ensures pairs { result.keys ≡ self.pairs }
        ensures limits { ArePriorities self.format_count result.keys }
    {
        self.pairs
    }
}

// Puts the lower format, and those below it, below the higher one and those above it.
fn extend_below(below: &mut [FormatSet], higher: FormatId, lower: FormatId)
    requires few { length below.old ≤ 1000 }
    requires higher { higher.0 < length below.old }
    requires lower { lower.0 < length below.old }
    requires below { (pairs : List (ℕ × ℕ)) × AreBelow below.old pairs }
    ensures { (pairs : List (ℕ × ℕ)) → AreBelow below.old pairs → AreBelow below.new (pairs ++ (higher.0, lower.0) ∷ []) }
{
    let mut added = below[lower.0 as usize];
    added.insert(lower);
    for (x, set) in below.iter_mut().enumerate() {
        extend_set(set, x == higher.0 as usize, higher, lower, &added);
    }
}

// Adds these formats to the set of the higher format, or of one above it. Where the lower one is
// there already, so are they.
fn extend_set(
    set: &mut FormatSet,
    is_higher: bool,
    higher: FormatId,
    lower: FormatId,
    added: &FormatSet,
)
    requires higher { higher.0 < 1000 }
    requires lower { lower.0 < 1000 }
    requires there { HasFormat set.old lower.0 → (f : ℕ) → HasFormat added.now f → HasFormat set.old f }
    ensures { (f : ℕ) → HasFormat set.new f ↔ (HasFormat set.old f ⊎ ((IsTrue is_higher ⊎ HasFormat set.old higher.0) × HasFormat added.now f)) }
{
    if (is_higher || set.contains(higher)) && !set.contains(lower) {
        set.join(added);
    }
}
