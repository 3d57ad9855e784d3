//! Progress: how much of a long search is done, as one line of the error output that is written
//! over and over.
//!
//! A report is written when so many more are done that a percent of all can be, so there are at
//! most some hundred of them. A failed write changes nothing else.
//!
//! `find` counts products, and `conflicts` pairs: a pair ends with its first witness, so how many
//! products it takes is not known before.

ghost use Rattle.std.specs.Prelude.{◌≡◌, ◌<◌, ◌≤◌, codes, false};
ghost use Rattle.std.proofs.Common.{◌∙◌, refl};
ghost use Rattle.sig_engines.specs.Writing.{Prints};
ghost use Rattle.sig_engines.specs.Progress.{report_text, things_text};
ghost use Rattle.sig_bits.specs.Device.{Adds};

use crate::writing::{put, put_number};
use sig_bits::{DeviceFault, Output};
use sig_find::Observer;

/// What a search goes through.
#[derive(Clone, Copy, Debug, PartialEq, Eq)]
pub enum Things {
    /// Products of two signatures.
    Products,
    /// Pairs of formats.
    Pairs,
    /// Formats.
    Formats,
}

impl Things {
    fn text(self) -> &'static str
        ensures { result.now ≡ things_text self }
    {
        match self {
            Things::Products => " products",
            Things::Pairs => " pairs",
            Things::Formats => " formats",
        }
    }
}

/// Tells an error output how many of how many things are done.
#[derive(Drop)]
pub(crate) struct Meter<'a, E> {
    things: Things,
    err: &'a mut E,
    // So many are to be done before the next report.
    next: u64,
}

impl<'a, E: Output> Meter<'a, E> {
    /// Nothing is told yet.
    pub(crate) fn new(things: Things, err: &'a mut E) -> Meter<'a, E>
        ensures same_reference { result.err.ghost_name ≡ err.entry.ghost_name }
        ensures unchanged { result.err.now ≡ err.old }
        ensures things { result.things ≡ things }
    {
        Meter {
            things,
            err,
            next: 0,
        }
    }

    /// Ends the line.
    pub(crate) fn end(&mut self)
        ensures same_reference { self.new.err.ghost_name ≡ self.old.err.ghost_name }
        ensures sound { E.failed self.new.err.now ≡ false → E.failed self.old.err.now ≡ false }
        ensures ends { E.failed self.new.err.now ≡ false → Adds (E.written self.old.err.now) (codes "\n") (E.written self.new.err.now) }
    {
        let _ = put(self.err, "\n");
    }
}

impl<E: Output> Observer for Meter<'_, E> {
    ghost use Rattle.sig_engines.specs.Metered.{HasTold, ShowsReport};

    ghost becomes = { λ before after. HasTold E.failed E.written before after };

    fn report(&mut self, done: u64, all: u64)
        ensures told { HasTold E.failed E.written self.old self.new }
        ensures shows { ShowsReport E.failed E.written self.old self.new done all }
    {
        if done < self.next {
            return;
        }
        self.next = next_report(done, all);
        let _ = write_report(self.things, done, all, self.err);
    }

    ghost stays = { λ meter. record {
      same_reference = refl;
      same_things = refl;
      sound = λ is. is;
      adds = λ is things same start told. told;
    } };

    ghost goes_on = { λ a b c first second. record {
      same_reference = second.same_reference ∙ first.same_reference;
      same_things = second.same_things ∙ first.same_things;
      sound = λ is. first.sound (second.sound is);
      adds = λ is things same start told. second.adds is things (first.same_things ∙ same) start (first.adds (second.sound is) things same start told);
    } };
}

// How many are to be done at the report after this one: a percent of all more, or all.
fn next_report(done: u64, all: u64) -> u64
    ensures { done < all → result ≤ all }
{
    let step = all.div_ceil(100).max(1);
    done.saturating_add(step)
        .min(all)
        .max(done.saturating_add(1))
}

fn write_report<E: Output>(
    things: Things,
    done: u64,
    all: u64,
    err: &mut E,
) -> Result<(), DeviceFault>
    ensures prints { Prints result (report_text things (done, all)) (E.written err.old) (E.written err.new) (E.failed err.new) }
    ensures sound { E.failed err.new ≡ false → E.failed err.old ≡ false }
{
    put(err, "\r")?;
    put_number(err, done)?;
    put(err, " of ")?;
    put_number(err, all)?;
    put(err, things.text())
}
