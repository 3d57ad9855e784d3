//! The hits of a file: formats in table order, each with its first signature that hits.
//!
//! `DroidCore::remove_lower_priority_hits` takes out those that are not reported.

ghost use Rattle.std.specs.Prelude.{◌≡◌};

use sig_table::{FormatId, SigId};
use std::marker::Model;

/// A format that is hit, with its first signature that hits.
#[derive(Clone, Copy, Debug, PartialEq, Eq)]
pub struct Hit {
    pub format: FormatId,
    pub signature: SigId,
}

/// Hits, in table order.
#[derive(Debug, Drop)]
pub struct Results {
    pub(crate) hits: Vec<Hit>,
}

impl Model for Results {
    ghost use Rattle.std.specs.Prelude.{List};
    ghost use Rattle.sig_core.specs.declared.results.Hit.{Hit};

    ghost Value = { List Hit };

    ghost view = { λ r. r.hits.items };
}

impl Results {
    /// These hits.
    pub fn new(hits: Vec<Hit>) -> Results
        ensures { result ≡ hits.items }
    {
        Results { hits }
    }

    /// Lends the hits.
    pub fn hits(&self) -> &[Hit]
        ensures { result.now ≡ self.now }
    {
        self.hits.as_slice()
    }
}
