//! Reports of progress: a search calls an observer that its caller lends, and asks nothing of it.
//!
//! So a failed write of a report changes no answer. What reports can make of an observer is a
//! relation, `becomes`, which holds without a report and goes on from one to the next: whoever
//! knows what one report does knows what a search did, and no clause counts reports. Of a closure
//! less could be said after a call.

ghost use Rattle.std.specs.Prelude.{⊤};

/// Is told, at the start and after each product or pair, how many of how many are done.
///
/// A search owes it nothing more, and asks nothing of it.
pub trait Observer {
    /// What reports can make of an observer.
    ghost becomes: { Self → Self → Type 0 };

    /// So many of so many are done.
    fn report(&mut self, done: u64, all: u64)
        ensures { becomes self.old self.new };

    /// None can make nothing of it.
    ghost stays: { (o : Self) → becomes o o };

    /// And some, and then more, what they can make of it.
    ghost goes_on: { (a b c : Self) → becomes a b → becomes b c → becomes a c };
}

/// The observer that makes nothing of what it is told.
#[derive(Clone, Copy, Debug)]
pub struct Unobserved;

impl Observer for Unobserved {
    ghost becomes = { λ before after. ⊤ };

    ghost stays = { λ o. tt };

    ghost goes_on = { λ a b c first second. tt };

    fn report(&mut self, _done: u64, _all: u64) {}
}
