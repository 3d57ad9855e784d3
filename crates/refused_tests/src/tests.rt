//! Library calls with growths refused, a module for each group of them, and the marks of where
//! growths may be refused.
//!
//! A test of `Table::load` is `begin`, that call, `end`, and the same call once more, which has to
//! be right. The test itself refuses nothing: `bench/refusals.py` does, between the two marks.

mod cases;
mod deciding;
mod engines;
mod expressions;
mod matching;
mod tables;

use std::fs::File;

// From here on growths may be refused.
fn begin(rt: &HostRuntime) {
    let _ = File::open(rt, "/refusals/begin");
}

// From here on memory is there.
fn end(rt: &HostRuntime) {
    let _ = File::open(rt, "/refusals/end");
}
