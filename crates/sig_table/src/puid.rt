//! The names of formats, as `fmt/40` and `x-fmt/7`.
//!
//! The number of a `Puid` is from 1 to 999,999,999 by its invariant, so what it prints is read as
//! that `Puid` (law `printed_is_read`). Definitions speak of its two parts (`PuidView`).

ghost use Rattle.std.specs.Prelude.{◌≡◌, ◌<◌, ◌^◌, IfSome, Some};
ghost use Rattle.sig_table.specs.Puids.{numbered, puid_of, puid_text};
ghost use Rattle.sig_table.specs.declared.puid.Puid.{Puid};

use crate::numbers::read_positive;
use std::fmt;
use std::marker::Model;

/// The two registries that name formats.
#[derive(Clone, Copy, Debug, PartialEq, Eq, Hash)]
pub enum Registry {
    /// `fmt`
    Fmt,
    /// `x-fmt`, whose names are provisional.
    XFmt,
}

/// A PRONOM unique identifier, such as `fmt/40`. It prints as it was read.
#[derive(Clone, Copy, Debug, PartialEq, Eq, Hash)]
pub struct Puid {
    registry: Registry,
    number: u32,
}

impl Model for Puid {
    ghost use Rattle.sig_table.specs.PuidViews.{PuidView};

    ghost Value = { PuidView };

    ghost use Rattle.sig_table.specs.Tables.{IsNumber};

    ghost view = { λ p. record { registry = p.registry; number = p.number } };

    ghost invariant = { λ p. IsNumber p.number };

    ghost inverse = { λ v. record { registry = v.registry; number = v.number } };
}

impl Puid {
    /// Reads `fmt/` or `x-fmt/` and a number of one to nine digits, the first not 0.
    pub fn parse(text: &[u8]) -> Option<Puid>
        ensures value { result ≡ puid_of text.now }

        // It prints as it was read, and what is so printed is read.
        ensures spelled { IfSome result (λ p. puid_text p ≡ text.now) }
        ensures taken { (p : Puid) → puid_text p ≡ text.now → 0 < p.number → p.number < 10 ^ 9 → result ≡ Some p }
    {
        read_puid(text)
    }

    pub fn registry(&self) -> Registry
        ensures { result ≡ self.now.registry }
    {
        self.registry
    }

    pub fn number(&self) -> u32
        ensures { result ≡ self.now.number }
    {
        self.number
    }
}

// The PUID that the text is of.
#[tactic(auto, unfolding(crate::specs::Puids::puid_of))]
fn read_puid(text: &[u8]) -> Option<Puid>
    ensures { result ≡ puid_of text.now }
{
    if text.starts_with(b"fmt/") {
        return numbered(Registry::Fmt, &text[4..]);
    }
    if text.starts_with(b"x-fmt/") {
        return numbered(Registry::XFmt, &text[6..]);
    }
    None
}

// The PUID of a registry whose number the digits write.
fn numbered(registry: Registry, digits: &[u8]) -> Option<Puid>
    ensures { result ≡ numbered registry digits.now }
{
    let number = read_positive(digits)?;
    Some(Puid { registry, number })
}

impl fmt::Display for Puid {
    ghost use Rattle.std.specs.Prelude.{Some};
    ghost use Rattle.sig_table.specs.Puids.{puid_text};

    ghost output = { λ p. Some (puid_text p) };

    fn fmt<W: fmt::Write>(&self, f: &mut fmt::Formatter<W>) -> fmt::Result {
        let number = self.number;
        match self.registry {
            Registry::Fmt => write!(f, "fmt/{number}"),
            Registry::XFmt => write!(f, "x-fmt/{number}"),
        }
    }
}
