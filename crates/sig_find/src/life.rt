//! One signature: whether some file that it hits leaves its format.
//!
//! In a table with a priority of `fmt/2` over `fmt/1`, a signature `4142` of `fmt/1` is dead if
//! `fmt/2` has `41`: each file that the first one hits is hit by the second one too, so `fmt/1` is
//! removed. This is the product of the signature with itself: a closed set of rows without a bad
//! one says that it is dead, and a bad row gives a shortest file that leaves the format.

ghost use Rattle.std.specs.Prelude.{◌≡◌, ◌<◌, ℕ, All, IfOk, length};
ghost use Rattle.std.specs.List.{list_any};
ghost use Rattle.sig_find.specs.Answers.{IsDecision};
ghost use Rattle.sig_find.specs.Finding.{IsOfFormat};
ghost use Rattle.sig_find.specs.Leaving.{DecidesFormat};
ghost use Rattle.sig_find.specs.Lives.{AreLives, IsLifeOf, fate_of, format_fate, is_alive, is_unknown};
ghost use Rattle.sig_table.specs.Tables.{IsTable};
ghost use Rattle.sig_table.specs.Views.{TableView};

use crate::decision::{Decision, decide_product};
use sig_table::{FormatId, SigId, Table};
use std::alloc::{AllocError, Global};

/// What is found of a signature.
#[derive(Debug, Drop)]
pub enum Life {
    /// The signature hits this file, and the file leaves its format. No shorter file does so.
    Alive(Vec<u8>),
    /// No file that the signature hits leaves its format.
    Dead,
    /// Over 64 signatures outrank its format, or files reach more rows than the budget allows.
    Unknown,
}

impl Life {
    /// The same without the file.
    pub fn fate(&self) -> Fate
        ensures { result ≡ fate_of self.now }
    {
        match self {
            Life::Alive(_) => Fate::Alive,
            Life::Dead => Fate::Dead,
            Life::Unknown => Fate::Unknown,
        }
    }
}

/// A signature, and what is found of it.
#[derive(Debug, Drop)]
pub struct SignatureLife {
    pub signature: SigId,
    pub life: Life,
}

/// What is found of a format or a signature.
#[derive(Clone, Copy, Debug, PartialEq, Eq)]
pub enum Fate {
    /// Some file leaves the format; if of a signature, one that it hits.
    Alive,
    /// No such file is there.
    Dead,
    /// None was found, and there may be one.
    Unknown,
}

/// Decides each signature of a format, in order, and from them the format. The budget is one of
/// rows, as [`decide_product`] counts them for each signature.
pub fn decide_format(
    alloc: Global,
    table: &Table,
    format: FormatId,
    budget: u32,
) -> Result<(Fate, Vec<SignatureLife>), AllocError>
    ensures lives { IfOk result (λ found. AreLives table.now budget format.0 found.1.items) }
    ensures life { IfOk result (λ found. found.0 ≡ format_fate found.1.items) }
    ensures decides { IfOk result (λ found. DecidesFormat table.now format.0 found.0) }
    ensures within { IfOk result (λ found. All (λ l. l.signature.0 < length table.now.signatures) found.1.items) }
{
    let lives = lives_of(alloc, table, format, budget)?;
    Ok((format_fate(&lives), lives))
}

fn lives_of(
    alloc: Global,
    table: &Table,
    format: FormatId,
    budget: u32,
) -> Result<Vec<SignatureLife>, AllocError>
    ensures { IfOk result (λ lives. AreLives table.now budget format.0 lives.items) }
{
    let mut lives = Vec::new(alloc);
    for signature in table.signatures_of(format) {
        let decision = decide_product(alloc, table, signature, signature, budget)?;
        let life = life_of(decision);
        lives.push(SignatureLife { signature, life })?;
    }
    Ok(lives)
}

// What the decision of a signature and itself says of the signature.
fn life_of(decision: Decision) -> Life
    ensures { (table : TableView) (budget format s : ℕ) → IsTable table → IsOfFormat table format s → IsDecision table s s budget decision → IsLifeOf table budget format s result }
{
    match decision {
        Decision::Closed { .. } => Life::Dead,
        Decision::Witness(file) => Life::Alive(file),
        Decision::GaveUp => Life::Unknown,
    }
}

fn format_fate(lives: &[SignatureLife]) -> Fate
    ensures { result ≡ format_fate lives.now }
{
    if some_alive(lives) {
        return Fate::Alive;
    }
    if some_unknown(lives) {
        return Fate::Unknown;
    }
    Fate::Dead
}

fn some_alive(lives: &[SignatureLife]) -> bool
    ensures { result ≡ list_any (λ l. is_alive (fate_of l.life)) lives.now }
{
    lives.iter().any(|l| l.life.fate() == Fate::Alive)
}

fn some_unknown(lives: &[SignatureLife]) -> bool
    ensures { result ≡ list_any (λ l. is_unknown (fate_of l.life)) lives.now }
{
    lives.iter().any(|l| l.life.fate() == Fate::Unknown)
}
