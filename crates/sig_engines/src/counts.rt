//! How many pairs of formats are decided, ambiguous and unknown, and of which class.
//!
//! Of three pairs, one of them decided, one ambiguous and of the class `over`, and one unknown, the
//! last line of `conflicts --class` begins with `pairs 3 decided 1 ambiguous 1 unknown 1 over 1`. A
//! file that was tried counts as ambiguous. Pairs of which one format outranks the other are not
//! counted, and the line is made by `pair_lines`.

ghost use Rattle.std.specs.Prelude.{◌≡◌, ◌↔◌, ◌+◌, ◌-◌, ◌^◌, ◌<◌, [], IsTrue, Some};
ghost use Rattle.sig_engines.specs.Conflicts.{AreCounts, HasRoom, IsCounted, pairs_in};

use sig_find::{PairClass, PairDecision};

/// The unrelated pairs of formats so far, by what is known of them, and by their classes.
#[derive(Clone, Copy, Debug, PartialEq, Eq)]
pub(crate) struct Counts {
    pub(crate) decided: u32,
    pub(crate) ambiguous: u32,
    pub(crate) unknown: u32,
    pub(crate) over: u32,
    pub(crate) under: u32,
    pub(crate) same: u32,
    pub(crate) apart: u32,
    pub(crate) open: u32,
}

impl Counts {
    /// No pair yet.
    pub(crate) fn new() -> Counts
        ensures { AreCounts [] result }
    {
        Counts {
            decided: 0,
            ambiguous: 0,
            unknown: 0,
            over: 0,
            under: 0,
            same: 0,
            apart: 0,
            open: 0,
        }
    }

    /// One pair more, with its class if it has one.
    pub(crate) fn add(&mut self, decision: &PairDecision, class: Option<PairClass>)
        requires { HasRoom self.old }
        ensures { IsCounted self.old self.new (Some decision.now) class }
    {
        match decision {
            PairDecision::Decided => self.decided += 1,
            PairDecision::Ambiguous { .. } | PairDecision::Tried { .. } => self.ambiguous += 1,
            PairDecision::Unknown { .. } => self.unknown += 1,
        }
        match class {
            None => {}
            Some(PairClass::Over) => self.over += 1,
            Some(PairClass::Under) => self.under += 1,
            Some(PairClass::Same) => self.same += 1,
            Some(PairClass::Apart) => self.apart += 1,
            Some(PairClass::Open) => self.open += 1,
        }
    }

    /// All pairs.
    pub(crate) fn pairs(self) -> u32
        requires { pairs_in self < 2 ^ 32 }
        ensures { result ≡ pairs_in self }
    {
        self.decided + self.ambiguous + self.unknown
    }

    /// Whether each pair is decided.
    pub(crate) fn are_all_decided(self) -> bool
        ensures { IsTrue result ↔ ((self.ambiguous ≡ 0) × (self.unknown ≡ 0)) }
    {
        self.ambiguous == 0 && self.unknown == 0
    }
}
