//! The signatures of a format in table order, as an iterator that takes no memory: it follows the
//! links from each to the next (`links`).

ghost use Rattle.std.specs.Prelude.{◌≡◌};
ghost use Rattle.sig_table.specs.Links.{LinksRise, linked_from};

use crate::SigId;

/// An iterator over the signatures of a format, rising.
///
/// Each step goes on to the format's next signature in the table.
#[derive(Debug, Drop)]
pub struct SignaturesOf<'a> {
    nexts: &'a [u16],
    place: u16,
    ghost rise: { LinksRise nexts.now },
}

impl<'a> SignaturesOf<'a> {
    ghost use Rattle.sig_table.specs.Remaining.{remaining_of};

    // Those that the links lead through from this place on.
    pub(crate) fn new(nexts: &'a [u16], place: u16) -> SignaturesOf<'a>
        requires { LinksRise nexts.now }
        ensures { remaining_of result ≡ linked_from nexts.now place }
    {
        SignaturesOf { nexts, place }
    }
}

impl Iterator for SignaturesOf<'_> {
    ghost use Rattle.std.specs.Iterator.{YieldsFirst, item_count};
    ghost use Rattle.sig_table.specs.Remaining.{remaining_of};

    type Item = SigId;

    ghost next_gives = { YieldsFirst remaining_of };

    ghost remaining = { item_count remaining_of };

    fn next(&mut self) -> Option<SigId> {
        let place = self.place;
        if place as usize >= self.nexts.len() {
            return None;
        }
        self.place = self.nexts[place as usize];
        Some(SigId(place))
    }
}
