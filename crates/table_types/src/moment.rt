//! Points in time.

ghost use Rattle.std.specs.Prelude.{◌≡◌, ◌≤◌, ◌<◌, ◌^◌, ◌↔◌, IsSome, IfSome};
ghost use Rattle.table_types.specs.Rows.{later_by};

use std::marker::Model;

/// A point in time in milliseconds, from 2^32 to 2^63 - 1 (profile). With these bounds a period that began up to 2^32 -
/// 1 ms ago starts at 0 or later, and an end up to 2^32 - 1 ms ahead fits in 64 bits.
#[derive(Clone, Copy, Debug, PartialEq, Eq, PartialOrd, Ord)]
pub struct Moment {
    milliseconds: u64,
}

impl Model for Moment {
    ghost use Rattle.std.specs.Prelude.{ℕ, ◌≤◌, ◌<◌, ◌^◌};

    ghost Value = { ℕ };

    ghost view = { λ a. a.milliseconds };

    ghost invariant = { λ a. (2 ^ 32 ≤ a.milliseconds) × (a.milliseconds < 2 ^ 63) };

    ghost inverse = { λ n. record { milliseconds = n } };
}

impl Moment {
    /// Makes the moment `milliseconds` after the clock's zero. Returns `None` below 2^32 and from 2^63 on.
    pub fn new(milliseconds: u64) -> Option<Moment>
        ensures moment { IfSome result (λ moment. moment ≡ milliseconds) }
        ensures exactly { IsSome result ↔ ((2 ^ 32 ≤ milliseconds) × (milliseconds < 2 ^ 63)) }
    {
        if (1 << 32..1 << 63).contains(&milliseconds) {
            Some(Moment { milliseconds })
        } else {
            None
        }
    }

    /// Returns the least moment.
    pub fn least() -> Moment
        ensures { result ≡ 2 ^ 32 }
    {
        Moment {
            milliseconds: 1 << 32,
        }
    }

    /// Returns the moment in milliseconds.
    pub fn milliseconds(self) -> u64
        ensures value { result ≡ self }
        ensures least { 2 ^ 32 ≤ self }
        ensures most { self < 2 ^ 63 }
    {
        self.milliseconds
    }

    /// Returns the moment `milliseconds` later, or the greatest moment if that is past it.
    pub fn later_by(self, milliseconds: u32) -> Moment
        ensures { result ≡ later_by milliseconds self }
    {
        let later = self.milliseconds + u64::from(milliseconds);
        if later < 1 << 63 {
            Moment {
                milliseconds: later,
            }
        } else {
            Moment {
                milliseconds: (1 << 63) - 1,
            }
        }
    }
}
