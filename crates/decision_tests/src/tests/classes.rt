//! The class of two formats: which of the two must have priority, or neither, or either. On small
//! tables worked out by hand.

use crate::tests::finding::table;
use sig_find::{PairClass, class_of_pair, lives_of_table};
use sig_table::{FormatId, Table};
use std::alloc::Global;

// Rows of a table, its listed pairs, a budget, and the class of its first two formats.
struct Row {
    rows: &'static str,
    pairs: &'static str,
    budget: u32,
    class: PairClass,
}

const ROWS: &[Row] = &[
    // Each file that begins with `41 42` begins with `41`.
    Row {
        rows: "fmt/1,1,BOF,0,,4142\nfmt/2,2,BOF,0,,41\n",
        pairs: "",
        budget: 100,
        class: PairClass::Over,
    },
    Row {
        rows: "fmt/1,1,BOF,0,,41\nfmt/2,2,BOF,0,,4142\n",
        pairs: "",
        budget: 100,
        class: PairClass::Under,
    },
    // Two signatures together take what one takes.
    Row {
        rows: "fmt/1,1,BOF,0,,41(42|43)\nfmt/2,2,BOF,0,,4142\nfmt/2,3,BOF,0,,4143\n",
        pairs: "",
        budget: 100,
        class: PairClass::Same,
    },
    Row {
        rows: "fmt/1,1,BOF,0,,41\nfmt/2,2,EOF,0,,42\n",
        pairs: "",
        budget: 100,
        class: PairClass::Apart,
    },
    // `41 43` shows that the first stands alone, unless the third takes it.
    Row {
        rows: "fmt/1,1,BOF,0,,41(42|43)\nfmt/2,2,BOF,0,,4142\nfmt/3,3,BOF,0,,4143\n",
        pairs: "",
        budget: 100,
        class: PairClass::Under,
    },
    Row {
        rows: "fmt/1,1,BOF,0,,41(42|43)\nfmt/2,2,BOF,0,,4142\nfmt/3,3,BOF,0,,4143\n",
        pairs: "fmt/3,fmt/1\n",
        budget: 100,
        class: PairClass::Same,
    },
    // No file leaves the first: each hits the third.
    Row {
        rows: "fmt/1,1,BOF,0,,4142\nfmt/2,2,BOF,0,,43\nfmt/3,3,BOF,0,,41\n",
        pairs: "fmt/3,fmt/1\n",
        budget: 100,
        class: PairClass::Over,
    },
    // The shortest file of the first hits the second, and a longer one does not.
    Row {
        rows: "fmt/1,1,Variable,,,41\nfmt/2,2,BOF,0,,41\n",
        pairs: "",
        budget: 100,
        class: PairClass::Under,
    },
    Row {
        rows: "fmt/1,1,BOF,0,,4142\nfmt/2,2,BOF,0,,41\n",
        pairs: "",
        budget: 1,
        class: PairClass::Open,
    },
];

// The class of the first two formats.
fn class_of(alloc: Global, table: &Table, budget: u32) -> Option<PairClass> {
    if table.format_count() < 2 {
        return None;
    }
    let lives = lives_of_table(alloc, table, budget).ok()?;
    class_of_pair(alloc, table, &lives, FormatId(0), FormatId(1), budget).ok()
}

fn is_class(alloc: Global, row: &Row) -> bool {
    match table(alloc, row.rows, row.pairs) {
        Some(table) => class_of(alloc, &table, row.budget) == Some(row.class),
        None => false,
    }
}

#[test]
fn how_two_formats_lie_to_each_other(rt: HostRuntime) {
    for row in ROWS {
        assert!(rt; is_class(rt.alloc(), row));
    }
}
