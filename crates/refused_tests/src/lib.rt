//! Tests of each library call with one of its growths refused, or that one and all later: it
//! answers what it answers with memory, or its want of memory, and once memory is there the same
//! call is right.
//!
//! A test can't refuse a growth by itself. It opens a file that is never there before its call and
//! another one behind it: `bench/refusals.py` runs the built tests with a library that sees both,
//! and that counts and refuses growths between the two alone. With no growth refused each call has
//! to be right at once, so one that always wants memory fails here by its name.
//!
//! The calls are those that take memory. One that takes none has no allocator, so nothing can be
//! refused in it; some are here all the same, since another call made their room, as `feed` and
//! `finish`. `bench/refusals.py` does the same over the whole program, subcommand by subcommand.
#![tactic(auto)]

#[cfg(test)]
mod tests;
