//! Laws of hits and of what is left of them.
//!
//! A file has one list of hit formats and one of those that are left, and the relations that define
//! them leave no choice. Where a format is hit one is left, since priorities have no cycle.

ghost use Rattle.std.specs.Prelude.{◌≡◌, ◌<◌, ◌↔◌, ℕ, Contains, List, length};
ghost use Rattle.sig_core.specs.Hits.{HitFormats, IsNotOutranked, Left, kept_hits};
ghost use Rattle.sig_core.specs.declared.results.Hit.{Hit};
ghost use Rattle.sig_table.specs.Tables.{IsTable};
ghost use Rattle.sig_table.specs.Views.{TableView};

/// The list of hit formats of a file is one.
pub fn hit_formats_are_one_list()
    ensures { (table : TableView) (file : List ℕ) (a b : List Hit) → HitFormats table file a → HitFormats table file b → a ≡ b }
{}

/// What is left of a file is one list.
pub fn left_is_one_list()
    ensures { (table : TableView) (file : List ℕ) (a b : List Hit) → Left table file a → Left table file b → a ≡ b }
{}

/// A hit is left exactly where no hit outranks it.
pub fn left_is_not_outranked()
    ensures { (table : TableView) (file : List ℕ) (hits left : List Hit) → HitFormats table file hits → Left table file left
        → (hit : Hit) → Contains left hit ↔ IsNotOutranked table hits hit }
{}

/// Where something hits, something is left: priorities make no cycle.
pub fn some_hit_is_left()
    ensures { (table : TableView) (hits : List Hit) → IsTable table → 0 < length hits → 0 < length (kept_hits table hits) }
{}
