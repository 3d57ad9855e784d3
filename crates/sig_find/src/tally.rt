//! How many of the products of a table are done, for reports of progress.
//!
//! All are counted before the search begins. The counts saturate, and no answer depends on them, so
//! no clause speaks of them.

use crate::observer::Observer;
use sig_table::{FormatId, Table};

/// How many of how many products are done.
#[derive(Clone, Copy, Debug)]
pub(crate) struct Tally {
    done: u64,
    all: u64,
}

impl Tally {
    /// None of those of the table is done.
    pub(crate) fn of(table: &Table) -> Tally {
        Tally {
            done: 0,
            all: product_count(table),
        }
    }

    /// Tells how many are done, before one more is.
    pub(crate) fn report<O: Observer>(&self, observer: &mut O)
        ensures { O.becomes observer.old observer.new }
    {
        observer.report(self.done, self.all)
    }

    /// One more is done, which the observer is told.
    pub(crate) fn advance<O: Observer>(&mut self, observer: &mut O)
        ensures { O.becomes observer.old observer.new }
    {
        self.done = self.done.saturating_add(1);
        self.report(observer)
    }
}

// The products of all two formats of which none outranks the other. It costs a step for each two
// formats, as the search itself does.
fn product_count(table: &Table) -> u64 {
    let formats = table.format_count() as u16;
    let mut count = 0u64;
    for i in 0..formats {
        let signatures = signature_count(table, FormatId(i));
        for j in i + 1..formats {
            let (a, b) = (FormatId(i), FormatId(j));
            if !table.are_related(a, b) {
                count = count.saturating_add(signatures.saturating_mul(signature_count(table, b)));
            }
        }
    }
    count
}

fn signature_count(table: &Table, format: FormatId) -> u64 {
    let mut count = 0u64;
    for _ in table.signatures_of(format) {
        count = count.saturating_add(1);
    }
    count
}
