//! Calls for which memory may run out. Whoever makes an allocation fail sees by what is printed which call met it.

use std::alloc::Global;

/// How a call went, with the same call after it if memory ran out for the first.
#[derive(Clone, Copy, Debug, PartialEq, Eq)]
pub enum Outcome {
    /// It returned what it should.
    Made,
    /// Memory ran out for it. It left what it should leave then, and the call after it returned what it should.
    Refused,
    /// Memory ran out before the call.
    Unready,
    /// Anything else.
    Wrong,
}

impl Outcome {
    /// Returns how a call went that isn't made again: `right` says whether all is as it should be.
    pub fn of(right: bool) -> Outcome {
        if right { Outcome::Made } else { Outcome::Wrong }
    }

    /// Returns how a call went for which memory ran out: `right` says whether all is as it should be.
    pub fn refused(right: bool) -> Outcome {
        if right {
            Outcome::Refused
        } else {
            Outcome::Wrong
        }
    }

    /// Returns whether the call went as it should. Prints that memory ran out for it, if it did.
    pub fn is_right<P: Print>(self, rt: &P, call: &str) -> bool {
        if self == Outcome::Refused {
            let _unread = println!(rt; "memory ran out: {call}");
        }
        self == Outcome::Made || self == Outcome::Refused
    }
}

/// Returns whether there is no memory, not even for a byte.
pub fn is_out(alloc: Global) -> bool {
    Vec::<u8>::with_capacity(alloc, 1).is_err()
}
