//! Each signature of a table, decided once.
//!
//! Who compares many pairs of formats asks of each format again and again which of its signatures
//! are dead or alive, and for their files. `life` decides one format; here its answers for all are
//! kept.

ghost use Rattle.std.specs.Prelude.{◌≡◌, ◌<◌, ℕ, IfOk, IsTrue, Some, length, slice_get};
ghost use Rattle.sig_find.specs.Lives.{AreLives, AreLivesOfTable, IsDead};
ghost use Rattle.sig_table.specs.Views.{TableView};

use crate::life::{Fate, SignatureLife, decide_format};
use sig_table::{FormatId, SigId, Table};
use std::alloc::{AllocError, Global};
use std::marker::Model;

/// What is found of each signature of a table, by its format.
#[derive(Debug, Drop)]
pub struct TableLives {
    formats: Vec<Vec<SignatureLife>>,
}

impl Model for TableLives {
    ghost use Rattle.std.specs.Prelude.{List, map};
    ghost use Rattle.sig_find.specs.declared.life.SignatureLife.{SignatureLife};

    ghost Value = { List (List SignatureLife) };

    ghost view = { λ l. map (λ v. v.items) l.formats.items };
}

impl TableLives {
    /// Lends what is found of the signatures of the format, in their order.
    pub fn of(&self, format: FormatId) -> &[SignatureLife]
        requires { format.0 < length self.now }
        ensures { slice_get self.now format.0 ≡ Some result.now }
    {
        let lives = &self.formats[format.0 as usize];
        lives.as_slice()
    }

    /// Whether the format has this signature, and it is found to be dead.
    pub(crate) fn has_dead(&self, format: FormatId, signature: SigId) -> bool
        ensures { IsTrue result → (table : TableView) (budget : ℕ) → AreLivesOfTable table budget self.now → IsDead table format.0 signature.0 }
    {
        match self.formats.get(format.0 as usize) {
            Some(lives) => is_dead(lives, signature),
            None => false,
        }
    }
}

// Whether the signature is found to be dead among these.
fn is_dead(lives: &[SignatureLife], signature: SigId) -> bool
    ensures { IsTrue result → (table : TableView) (budget format : ℕ) → AreLives table budget format lives.now → IsDead table format signature.0 }
{
    for own in lives {
        if own.signature == signature {
            return own.life.fate() == Fate::Dead;
        }
    }
    false
}

/// Decides each signature of the table, within a budget of rows as [`decide_format`] does.
pub fn lives_of_table(alloc: Global, table: &Table, budget: u32) -> Result<TableLives, AllocError>
    ensures { IfOk result (AreLivesOfTable table.now budget) }
{
    let mut formats = Vec::new(alloc);
    for format in 0..table.format_count() as u16 {
        let (_, lives) = decide_format(alloc, table, FormatId(format), budget)?;
        formats.push(lives)?;
    }
    Ok(TableLives { formats })
}
