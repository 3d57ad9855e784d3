//! A format over another. To clauses it is the pair of their places, the higher one first.

ghost use Rattle.std.specs.Prelude.{◌≡◌};

use crate::FormatId;
use std::marker::Model;

// A format, and one that it outranks.
#[derive(Clone, Copy, Debug, PartialEq, Eq, Hash)]
pub(crate) struct Priority {
    higher: FormatId,
    lower: FormatId,
}

impl Model for Priority {
    ghost use Rattle.std.specs.Prelude.{ℕ};

    ghost Value = { ℕ × ℕ };

    ghost view = { λ p. (p.higher.0, p.lower.0) };

    ghost inverse = { λ v. record { higher = record { 0 = v.0 }; lower = record { 0 = v.1 } } };
}

impl Priority {
    pub(crate) fn new(higher: FormatId, lower: FormatId) -> Priority
        ensures { result ≡ (higher.0, lower.0) }
    {
        Priority { higher, lower }
    }

    pub(crate) fn higher(self) -> FormatId
        ensures { result.0 ≡ self.0 }
    {
        self.higher
    }

    pub(crate) fn lower(self) -> FormatId
        ensures { result.0 ≡ self.1 }
    {
        self.lower
    }
}
