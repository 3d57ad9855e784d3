//! Laws of hits and of what is reported of them.
//!
//! A file has one list of hit formats and one of those that are reported, and the relations that
//! define them leave no choice. Where a format is hit one is reported, since priorities have no
//! cycle.

ghost use Rattle.std.specs.Prelude.{◌≡◌, ◌<◌, ◌↔◌, ℕ, Contains, List, length};
ghost use Rattle.sig_bits.specs.Bytes.{IsBytes};
ghost use Rattle.sig_core.specs.Hits.{HitFormats, IsNotOutranked, Left, kept_hits};
ghost use Rattle.sig_core.specs.declared.results.Hit.{Hit};
ghost use Rattle.sig_table.specs.Tables.{IsTable};
ghost use Rattle.sig_table.specs.Views.{TableView};

/// Every file has hit formats, and so what is left of them.
pub fn every_file_has_hit_formats()
    ensures hits { (table : TableView) (file : List ℕ) → IsTable table → IsBytes file → (hits : List Hit) × HitFormats table file hits }
    ensures left { (table : TableView) (file : List ℕ) → IsTable table → IsBytes file → (left : List Hit) × Left table file left }
{}
