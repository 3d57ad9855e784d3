//! The forced pairs of formats: each file that leaves the one hits the other, so the one must be
//! over the other.
//!
//! Each alone takes no format its last file, and several together may. So they are tried in the
//! order of their lines, each behind the priorities of the table and those that were taken before
//! it (`try_addition`), and one that would close a cycle or leave its lower format without a file
//! is left out.

ghost use Rattle.std.specs.Prelude.{◌≡◌, ◌++◌, All, IfOk, OnOk, length, string_bytes};
ghost use Rattle.sig_cert.specs.Deciding.{AreFormats};
ghost use Rattle.sig_engines.specs.Forced.{refusal};
ghost use Rattle.sig_engines.specs.Ranking.{AreRanked, IsOfFormats, IsTrialMade};
ghost use Rattle.sig_engines.specs.Texts.{format_text};

use crate::note::Note;
use sig_find::{Addition, try_addition};
use sig_table::{FormatId, Ranking, Table};
use std::alloc::{AllocError, Global};
use std::fmt::Write;

/// The priorities of a table with the forced pairs that were taken, and a line for each other one.
#[derive(Drop)]
pub(crate) struct Forced {
    pub(crate) ranking: Ranking,
    pub(crate) refused: String,
}

/// Tries the forced pairs of these notes, in their order.
pub(crate) fn rank_forced(
    alloc: Global,
    table: &Table,
    notes: &[Note],
    budget: u32,
) -> Result<Forced, AllocError>
    requires { All (IsOfFormats table.now) notes.now }
    ensures { IfOk result (λ forced. AreRanked table.now budget notes.now forced.ranking (string_bytes forced.refused)) }
{
    let mut forced = Forced {
        ranking: Ranking::of(alloc, table)?,
        refused: String::new(alloc),
    };
    for note in notes {
        if let Some((higher, lower)) = note.forced() {
            forced = forced.with(alloc, table, higher, lower, budget)?;
        }
    }
    Ok(forced)
}

impl Forced {
    // Tries one pair more.
    fn with(
        self,
        alloc: Global,
        table: &Table,
        higher: FormatId,
        lower: FormatId,
        budget: u32,
    ) -> Result<Forced, AllocError>
        requires formats { AreFormats table.now (higher, lower) }
        requires count { self.ranking.format_count ≡ length table.now.formats }
        ensures { IfOk result (λ forced. IsTrialMade table.now budget (higher.0, lower.0)
            self.ranking (string_bytes self.refused) forced.ranking (string_bytes forced.refused)) }
    {
        let addition = try_addition(alloc, table, &self.ranking, higher, lower, budget)?;
        let Forced {
            ranking,
            mut refused,
        } = self;
        push_refusal(&mut refused, table, higher, lower, addition)?;
        let ranking = match addition {
            Addition::Safe => ranking.with(higher, lower)?,
            Addition::Cycle | Addition::Dead | Addition::Unknown => ranking,
        };
        Ok(Forced { ranking, refused })
    }
}

// Why a pair was not taken, as a line; nothing of one that was.
fn push_refusal(
    lines: &mut String,
    table: &Table,
    higher: FormatId,
    lower: FormatId,
    addition: Addition,
) -> Result<(), AllocError>
    requires { AreFormats table.now (higher, lower) }
    ensures { OnOk result (string_bytes lines.new ≡ string_bytes lines.old ++ refusal (format_text table.now higher.0) (format_text table.now lower.0) addition) }
{
    let higher = table.puid(higher);
    let lower = table.puid(lower);
    match addition {
        Addition::Safe => {}
        Addition::Cycle => writeln!(lines, "not written {higher} {lower}: cycle")?,
        Addition::Dead => writeln!(lines, "not written {higher} {lower}: {lower} would be dead")?,
        Addition::Unknown => writeln!(lines, "not written {higher} {lower}: unknown")?,
    }
    Ok(())
}
