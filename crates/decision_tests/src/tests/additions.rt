//! One pair of priorities more: safe, without effect, or the end of a format. On small tables
//! worked out by hand, such as three formats of which two together have the files of the third.

use crate::tests::finding::table;
use sig_find::{Addition, try_addition};
use sig_table::{FormatId, Ranking, Table};
use std::alloc::Global;

// Three formats: the files of the first and of the third are together those of the second.
const ROWS: &str = "fmt/1,1,BOF,0,,41\nfmt/2,2,BOF,0,,??\nfmt/3,3,BOF,0,,[!41]\n";

// The pairs that are listed, one more, a budget, and what this pair does.
struct Case {
    listed: &'static str,
    higher: u16,
    lower: u16,
    budget: u32,
    addition: Addition,
}

const CASES: &[Case] = &[
    Case {
        listed: "",
        higher: 0,
        lower: 1,
        budget: 100,
        addition: Addition::Safe,
    },
    // With the first and the third over it, no file is left for the second.
    Case {
        listed: "fmt/1,fmt/2\n",
        higher: 2,
        lower: 1,
        budget: 100,
        addition: Addition::Dead,
    },
    Case {
        listed: "fmt/1,fmt/2\n",
        higher: 2,
        lower: 0,
        budget: 100,
        addition: Addition::Safe,
    },
    Case {
        listed: "fmt/1,fmt/2\n",
        higher: 1,
        lower: 0,
        budget: 100,
        addition: Addition::Cycle,
    },
    Case {
        listed: "fmt/1,fmt/2\n",
        higher: 0,
        lower: 1,
        budget: 100,
        addition: Addition::Cycle,
    },
    Case {
        listed: "",
        higher: 0,
        lower: 1,
        budget: 1,
        addition: Addition::Unknown,
    },
];

// What the pair does behind those of the table.
fn addition_of(alloc: Global, table: &Table, case: &Case) -> Option<Addition> {
    let (higher, lower) = (FormatId(case.higher), FormatId(case.lower));
    let formats = table.format_count();
    if formats <= higher.0 as usize || formats <= lower.0 as usize {
        return None;
    }
    let ranking = Ranking::of(alloc, table).ok()?;
    try_addition(alloc, table, &ranking, higher, lower, case.budget).ok()
}

fn is_addition(alloc: Global, case: &Case) -> bool {
    match table(alloc, ROWS, case.listed) {
        Some(table) => addition_of(alloc, &table, case) == Some(case.addition),
        None => false,
    }
}

#[test]
fn what_one_pair_more_does(rt: HostRuntime) {
    for case in CASES {
        assert!(rt; is_addition(rt.alloc(), case));
    }
}
