//! The class of two formats: what a priority between them would do.
//!
//! Let some file leave both formats A and B, as `41` at offset 0 of A and `4142` of B leave
//! `41 42`. Then an editor may put one of them over the other, and which one follows from two
//! questions: does each file that leaves A hit B, and does each that leaves B hit A? Here the
//! second one holds and the first does not, for the file `41`. So B must be over A: were A over B,
//! no file would leave B. Each question is one of inclusion (`inclusion`), for each signature of
//! the one format, in the signatures of the other and in those that outrank the one. Mostly a file
//! that is known of the one format (`lives`) answers it at once.

ghost use Rattle.std.specs.Prelude.{◌≡◌, ◌<◌, ℕ, IfOk, IsTrue, OnOk, length, map};
ghost use Rattle.sig_find.specs.Classes.{AreTakers, IsClass, IsContainment, IsContainmentOf, StandsAlone, class_by, mirror_of};
ghost use Rattle.sig_find.specs.Finding.{IsOfFormat};
ghost use Rattle.sig_find.specs.Lives.{AreLives, AreLivesOfTable, IsLifeOf};
ghost use Rattle.sig_table.specs.Places.{places_of};
ghost use Rattle.sig_table.specs.Tables.{IsTable};
ghost use Rattle.sig_table.specs.Views.{TableView};

use crate::decision::first_that_hits;
use crate::inclusion::{Inclusion, decide_inclusion};
use crate::life::{Life, SignatureLife};
use crate::lives::TableLives;
use crate::task::PairTask;
use sig_product::all_blockers;
use sig_table::{FormatId, SigId, Table};
use std::alloc::{AllocError, Global};

/// How two formats A and B lie to each other, by two questions: does each file that leaves A hit B
/// (a), and does each file that leaves B hit A (b)?
#[derive(Clone, Copy, Debug, PartialEq, Eq)]
pub enum PairClass {
    /// a, and not b. So A must be over B: with B over A, no file would leave A.
    Over,
    /// b, and not a. So B must be over A.
    Under,
    /// Both. Whichever is over the other, no file leaves that other one.
    Same,
    /// Neither. Some files leave A and do not hit B, and others leave B and do not hit A.
    Apart,
    /// One of the two is not known: for a signature of the one format it takes more rows than the
    /// budget allows, or over 64 blockers, to decide it.
    Open,
}

impl PairClass {
    /// The class of B and A, where this is that of A and B.
    pub fn mirrored(self) -> PairClass
        ensures value { result ≡ mirror_of self }
        ensures class { (table : TableView) (budget a b : ℕ) → IsClass table budget (a, b) self → IsClass table budget (b, a) result }
    {
        match self {
            PairClass::Over => PairClass::Under,
            PairClass::Under => PairClass::Over,
            PairClass::Same => PairClass::Same,
            PairClass::Apart => PairClass::Apart,
            PairClass::Open => PairClass::Open,
        }
    }
}

// What is found of one direction, from a format A to a format B.
#[derive(Clone, Copy, Debug)]
pub(crate) enum Containment {
    // Each file that leaves A hits B.
    Contained,
    // Some file leaves A and does not hit B.
    Alone,
    Open,
}

/// Decides how two formats lie to each other. The budget is that of the lives; each inclusion that
/// is asked for has it anew.
pub fn class_of_pair(
    alloc: Global,
    table: &Table,
    lives: &TableLives,
    a: FormatId,
    b: FormatId,
    budget: u32,
) -> Result<PairClass, AllocError>
    requires lives { AreLivesOfTable table.now budget lives.now }
    requires first { a.0 < length table.now.formats }
    requires second { b.0 < length table.now.formats }
    ensures { IfOk result (IsClass table.now budget (a.0, b.0)) }
{
    let there = contain_format(alloc, table, lives.of(a), a, b, budget)?;
    let back = contain_format(alloc, table, lives.of(b), b, a, budget)?;
    Ok(class_by(there, back))
}

fn class_by(there: Containment, back: Containment) -> PairClass
    ensures { result ≡ class_by there back }
{
    match (there, back) {
        (Containment::Contained, Containment::Alone) => PairClass::Over,
        (Containment::Alone, Containment::Contained) => PairClass::Under,
        (Containment::Contained, Containment::Contained) => PairClass::Same,
        (Containment::Alone, Containment::Alone) => PairClass::Apart,
        (Containment::Open, _) | (_, Containment::Open) => PairClass::Open,
    }
}

// Whether each file that leaves the format a hits the format b. These are the lives of a.
fn contain_format(
    alloc: Global,
    table: &Table,
    lives: &[SignatureLife],
    a: FormatId,
    b: FormatId,
    budget: u32,
) -> Result<Containment, AllocError>
    requires { AreLives table.now budget a.0 lives.now }
    ensures { IfOk result (IsContainment table.now budget a.0 b.0) }
{
    let task = PairTask { a, b, budget };
    let others = signatures_in(alloc, table, b)?;
    if some_file_stands_alone(alloc, table, lives, task, &others)? {
        Ok(Containment::Alone)
    } else {
        contain_each(alloc, table, lives, task, &others)
    }
}

/// The signatures of the format, in order.
pub(crate) fn signatures_in(
    alloc: Global,
    table: &Table,
    format: FormatId,
) -> Result<Vec<SigId>, AllocError>
    ensures signatures { IfOk result (λ found. found.items ≡ places_of format.0 0 table.now.signatures) }
    ensures table { IsTable table.now }
{
    let mut found = Vec::new(alloc);
    for signature in table.signatures_of(format) {
        found.push(signature)?;
    }
    Ok(found)
}

// Whether one of the files that are known of a hits none of these signatures of b. It needs no
// search.
fn some_file_stands_alone(
    alloc: Global,
    table: &Table,
    lives: &[SignatureLife],
    task: PairTask,
    others: &[SigId],
) -> Result<bool, AllocError>
    requires lives { AreLives table.now task.budget task.a.0 lives.now }
    requires others { others.now ≡ places_of task.b.0 0 table.now.signatures }
    ensures { IfOk result (λ alone. IsTrue alone → StandsAlone table.now task.a.0 task.b.0) }
{
    for own in lives {
        if let Life::Alive(file) = &own.life {
            if first_that_hits(alloc, table, others, file)?.is_none() {
                return Ok(true);
            }
        }
    }
    Ok(false)
}

// The same by an inclusion for each signature of a that is not dead.
fn contain_each(
    alloc: Global,
    table: &Table,
    lives: &[SignatureLife],
    task: PairTask,
    others: &[SigId],
) -> Result<Containment, AllocError>
    requires lives { AreLives table.now task.budget task.a.0 lives.now }
    requires others { others.now ≡ places_of task.b.0 0 table.now.signatures }
    ensures { IfOk result (IsContainment table.now task.budget task.a.0 task.b.0) }
{
    let mut open = false;
    for own in lives {
        match contain_signature(alloc, table, own, task, others)? {
            Containment::Contained => {}
            Containment::Alone => return Ok(Containment::Alone),
            Containment::Open => open = true,
        }
    }
    if open {
        Ok(Containment::Open)
    } else {
        Ok(Containment::Contained)
    }
}

// The same for one signature of a.
fn contain_signature(
    alloc: Global,
    table: &Table,
    own: &SignatureLife,
    task: PairTask,
    others: &[SigId],
) -> Result<Containment, AllocError>
    requires of { IsOfFormat table.now task.a.0 own.now.signature.0 }
    requires life { IsLifeOf table.now task.budget task.a.0 own.now.signature.0 own.now.life }
    requires others { others.now ≡ places_of task.b.0 0 table.now.signatures }
    ensures { IfOk result (IsContainmentOf table.now task.budget task.a.0 task.b.0 own.now.signature.0) }
{
    if let Life::Dead = &own.life {
        return Ok(Containment::Contained);
    }
    let s = own.signature;
    let takers = takers_of(alloc, table, s, others)?;
    match decide_inclusion(alloc, table, s, &takers, task.budget)? {
        Inclusion::Included => Ok(Containment::Contained),
        Inclusion::Counterexample(_) => Ok(Containment::Alone),
        Inclusion::Unknown => Ok(Containment::Open),
    }
}

// The others, which are likely to be needed, and behind them all signatures that outrank this one.
// One of them may stand twice.
fn takers_of(
    alloc: Global,
    table: &Table,
    s: SigId,
    others: &[SigId],
) -> Result<Vec<SigId>, AllocError>
    requires { s.0 < length table.now.signatures }
    ensures takers { IfOk result (λ takers. AreTakers table.now s.0 (map (λ b. b.0) others.now) (map (λ b. b.0) takers.items)) }
    ensures table { OnOk result (IsTable table.now) }
{
    let mut takers = Vec::from_slice(alloc, others)?;
    takers.extend_from_slice(&all_blockers(alloc, table, s, s)?)?;
    Ok(takers)
}
