//! What is kept of a pair that has a line: its formats and its class. The lines of formats and the
//! forced pairs are made of it once all pairs are known.

ghost use Rattle.std.specs.Prelude.{◌≡◌, ◌∷◌, []};
ghost use Rattle.sig_engines.specs.ClassTexts.{is_class};
ghost use Rattle.sig_engines.specs.Notes.{forced_by, is_in, is_seen, is_unseen, pairs_if, seen_from};

use sig_find::PairClass;
use sig_table::FormatId;

/// A pair that is ambiguous, with its class, or unknown, and then it has none.
#[derive(Clone, Copy, Debug, PartialEq, Eq)]
pub(crate) struct Note {
    pub(crate) a: FormatId,
    pub(crate) b: FormatId,
    pub(crate) class: Option<PairClass>,
}

impl Note {
    /// Whether the format is one of the two.
    pub(crate) fn is_of(&self, format: FormatId) -> bool
        ensures { result ≡ is_in format.0 self.now }
    {
        self.a.0 == format.0 || self.b.0 == format.0
    }

    /// Whether the format is one of the two, and the class is this one when it is named first.
    pub(crate) fn is_seen(&self, class: PairClass, format: FormatId) -> bool
        ensures { result ≡ is_seen class format.0 self.now }
    {
        self.is_of(format) && is_class(class, self.seen_from(format))
    }

    /// Whether the format is one of the two, and they have no class.
    pub(crate) fn is_unseen(&self, format: FormatId) -> bool
        ensures { result ≡ is_unseen format.0 self.now }
    {
        self.is_of(format) && self.class.is_none()
    }

    // The class when this format is named first.
    fn seen_from(&self, format: FormatId) -> Option<PairClass>
        ensures { result ≡ seen_from format.0 self.now }
    {
        if self.a.0 == format.0 {
            self.class
        } else {
            self.class.map(PairClass::mirrored)
        }
    }

    /// The pair as it must be ranked, the higher format first, where a class says so.
    pub(crate) fn forced(&self) -> Option<(FormatId, FormatId)>
        ensures { forced_by self.now ≡ pairs_if result }
    {
        match self.class {
            Some(PairClass::Over) => Some((self.a, self.b)),
            Some(PairClass::Under) => Some((self.b, self.a)),
            Some(PairClass::Same | PairClass::Apart | PairClass::Open) | None => None,
        }
    }
}

fn is_class(class: PairClass, of: Option<PairClass>) -> bool
    ensures { result ≡ is_class class of }
{
    of == Some(class)
}
