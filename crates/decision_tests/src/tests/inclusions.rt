//! Whether each file of one signature is one of some others. On three signatures worked out by
//! hand.

use crate::tests::finding::table;
use sig_find::{Inclusion, decide_inclusion};
use sig_table::{SigId, Table};
use std::alloc::Global;

// What is expected of an inclusion.
#[derive(Clone, Copy)]
enum Expected {
    Included,
    Counterexample(&'static [u8]),
    Unknown,
}

// A table of three signatures, a budget, and whether each file of the first is one of the two
// others.
struct Row {
    rows: &'static str,
    budget: u32,
    expected: Expected,
}

const ROWS: &[Row] = &[
    Row {
        rows: "fmt/1,1,BOF,0,,4142\nfmt/2,2,BOF,0,,43\nfmt/2,3,BOF,0,,41\n",
        budget: 100,
        expected: Expected::Included,
    },
    // Two together hit what neither does alone.
    Row {
        rows: "fmt/1,1,BOF,0,,41(42|43)\nfmt/2,2,BOF,0,,4142\nfmt/2,3,BOF,0,,4143\n",
        budget: 100,
        expected: Expected::Included,
    },
    Row {
        rows: "fmt/1,1,BOF,0,,41\nfmt/2,2,BOF,0,,4142\nfmt/2,3,BOF,0,,4143\n",
        budget: 100,
        expected: Expected::Counterexample(b"A"),
    },
    Row {
        rows: "fmt/1,1,BOF,0,,41(42|43|44)\nfmt/2,2,BOF,0,,4142\nfmt/2,3,BOF,0,,4143\n",
        budget: 100,
        expected: Expected::Counterexample(b"AD"),
    },
    Row {
        rows: "fmt/1,1,BOF,0,,4142\nfmt/2,2,BOF,0,,43\nfmt/2,3,BOF,0,,41\n",
        budget: 1,
        expected: Expected::Unknown,
    },
];

// Whether each file of the first signature is one of the two others.
fn inclusion_of(alloc: Global, table: &Table, budget: u32) -> Option<Inclusion> {
    if table.signature_count() < 3 {
        return None;
    }
    decide_inclusion(alloc, table, SigId(0), &[SigId(1), SigId(2)], budget).ok()
}

fn is_expected(alloc: Global, row: &Row) -> bool {
    let Some(table) = table(alloc, row.rows, "") else {
        return false;
    };
    match (inclusion_of(alloc, &table, row.budget), row.expected) {
        (Some(Inclusion::Included), Expected::Included) => true,
        (Some(Inclusion::Counterexample(file)), Expected::Counterexample(bytes)) => {
            file.as_slice() == bytes
        }
        (Some(Inclusion::Unknown), Expected::Unknown) => true,
        _ => false,
    }
}

#[test]
fn what_one_signature_hits_others_hit(rt: HostRuntime) {
    for row in ROWS {
        assert!(rt; is_expected(rt.alloc(), row));
    }
}
