//! Links between requests for one name.

ghost use Rattle.std.specs.Prelude.{◌≡◌, ◌<◌, ◌≤◌, [], ◌∷◌, ◌++◌, length};

use std::marker::Model;
use table_types::Batch;

/// The greatest number of requests: as many as a batch has updates.
pub const MOST_REQUESTS: usize = Batch::MOST;

/// A link: from the place at which a name was last requested, or 0 if it is held at the start, to the place at which it
/// is requested again; what reading the name saves, in bytes; and whether the plan keeps that request.
#[derive(Clone, Copy, Debug)]
pub struct RequestLink {
    pub from: u16,
    pub to: u16,
    pub saving: u32,
    pub kept: bool,
}

impl Model for RequestLink {
    ghost use Rattle.known_state.specs.Plans.{Link};

    ghost Value = { Link };

    ghost view = { λ l. record { from = l.from; to = l.to; saving = l.saving; kept = l.kept } };

    ghost inverse = { λ l. record { from = l.from; to = l.to; saving = l.saving; kept = l.kept } };
}

/// The links of at most 4,096 requests, in order. They are stored inline, without allocation.
#[derive(Debug, Drop)]
pub struct Links {
    links: [RequestLink; MOST_REQUESTS],
    count: usize,
}

impl Model for Links {
    ghost use Rattle.std.specs.Prelude.{◌≡◌, ◌≤◌, List, length, take};
    ghost use Rattle.known_state.specs.Plans.{Link};

    ghost Value = { List Link };

    ghost view = { λ a. take a.count a.links };

    ghost invariant = { λ a. (length a.links ≡ 4096) × (a.count ≤ 4096) };
}

impl Links {
    /// Returns no links.
    pub fn new() -> Links
        ensures { result ≡ [] }
    {
        let none = RequestLink {
            from: 0,
            to: 0,
            saving: 0,
            kept: false,
        };
        Links {
            links: [none; MOST_REQUESTS],
            count: 0,
        }
    }

    /// Appends a link. There must be fewer than 4,096.
    pub fn push(&mut self, link: RequestLink)
        requires { length self.old < 4096 }
        ensures { self.new ≡ self.old ++ link ∷ [] }
    {
        self.links[self.count] = link;
        self.count += 1;
    }

    /// Returns the links, in order.
    pub fn as_slice(&self) -> &[RequestLink]
        ensures links { result.now ≡ self.now }
        ensures most { length self.now ≤ 4096 }
    {
        &self.links[..self.count]
    }
}
