//! Plans of which names are read.

ghost use Rattle.std.specs.Prelude.{◌≡◌};

use std::marker::Model;

/// A choice of the requests of a batch to keep, so that their names are read and not written, and a price for the place
/// of each request, which proves that no choice saves more bytes (profile).
#[derive(Debug, Drop)]
pub struct Plan {
    keep: Vec<bool>,
    prices: Vec<u64>,
}

impl Model for Plan {
    ghost use Rattle.known_state.specs.Plans.{Plan};

    ghost Value = { Plan };

    ghost view = { λ p. record { keep = p.keep.items; prices = p.prices.items } };
}

impl Plan {
    /// Returns the plan that keeps the requests marked in `keep`, at `prices`: one mark and one price for each request,
    /// in order.
    pub fn new(keep: Vec<bool>, prices: Vec<u64>) -> Plan
        ensures { result ≡ record { keep = keep.items; prices = prices.items } }
    {
        Plan { keep, prices }
    }

    /// Returns for each request, in order, whether it is kept.
    pub fn keep(&self) -> &[bool]
        ensures { result.now ≡ self.now.keep }
    {
        self.keep.as_slice()
    }

    /// Returns the price of each request's place, in order.
    pub fn prices(&self) -> &[u64]
        ensures { result.now ≡ self.now.prices }
    {
        self.prices.as_slice()
    }

    /// Returns the marks and the prices.
    pub fn into_parts(self) -> (Vec<bool>, Vec<u64>)
        ensures { (result.0.items ≡ self.keep) × (result.1.items ≡ self.prices) }
    {
        (self.keep, self.prices)
    }
}
