//! A block scan: a matcher that passes over a file once and keeps no state of an automaton.
//!
//! A sequence is cut at its unbounded gaps into stages, words of bounded length that stand in turn.
//! `41{0-1}42{3-*}43` anywhere is the stage `41{0-1}42`, behind whose end three bytes must pass,
//! and then the stage `43`. Of an EOF sequence the items behind the last unbounded gap are no
//! stage but a tail, whose offsets count from the end. Of each stage the first end is enough:
//! whatever stands behind a later end stands behind it too. So all that a scan has to know of a
//! sequence is the stage that it waits in and the first offset at which a word of it may begin; and
//! with as many bytes kept as the longest word takes, each word is judged once, with all its bytes
//! in sight. What is known of a sequence is a residual (`Waits`): it stands in the file, whatever
//! follows, exactly where its later stages do from that offset on.
//!
//! Where words lie stands in `specs/Placed.antt`, how long they are in `specs/Lengths.antt`, what
//! stands in turn in `specs/Stages.antt`, and what a scan knows in `specs/Scans.antt`. `program`
//! compiles a table into stages (`stage`), of copies of its items (`copy`), and `lengths` says how
//! long their words are. `literal` says which bytes each word of a stage has (a required literal),
//! and passes over offsets behind which they do not stand; `filter` finds those of many stages in
//! one look at a block (a literal prefilter), and `head` says by one byte which signatures hit no
//! file that begins as this one. `frontier` finds the offsets at which the words of items end, item
//! by item, as a set of bits (`offsets`), and `attempt` the first end of a stage. `state` is what
//! is known of one sequence, `buffer` the bytes at hand, and `scan` goes over a file with both.
//! `block_core` reads a file and answers which formats it hits: `BlockCore` is a `DroidCore` of
//! `sig_core`, as every matcher is.
//!
//! Gaps and `??` at the ends of a stage are not made delays, and a literal has no place of more
//! than two bytes.
#![tactic(auto)]

mod attempt;
mod block_core;
mod buffer;
mod class;
mod copy;
mod filter;
mod frontier;
mod head;
mod lengths;
mod literal;
mod marks;
mod offsets;
mod part;
mod program;
mod scan;
mod stage;
mod state;

pub use block_core::BlockCore;
