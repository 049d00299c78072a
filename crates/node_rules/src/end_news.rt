//! What the log says of a connection with a peer that is over.

ghost use Rattle.std.specs.Prelude.{◌≡◌};
ghost use Rattle.node_rules.specs.EndNews.{end_news, has_failed};

use node_core::SessionEnd;

/// What the log says of a connection with a peer that is over.
#[derive(Clone, Copy, Debug, PartialEq, Eq)]
pub enum EndNews {
    /// How the session ended.
    Session,
    /// That the peer refused the node's hello with this status, if that is news.
    Refusal(u16),
    /// Why it came to no session, if that is news.
    NoSession,
    /// Nothing.
    Nothing,
}

/// A connection with a peer that is over.
#[derive(Clone, Copy, Debug)]
pub struct EndedConnection {
    /// Whether its session had begun.
    pub begun: bool,
    /// Whether the node made it.
    pub connects: bool,
    /// Whether the node lacked memory or a thread for its session.
    pub lacking: bool,
    /// Why it ended.
    pub end: SessionEnd,
    /// The status that the peer answered, if it answered one.
    pub status: Option<u16>,
    /// Whether no session may stand: a table gets new numbers, or the node stops.
    pub given_up: bool,
}

impl EndedConnection {
    /// Returns whether it was an attempt of the node, or the node lacked memory or a thread for its session, and nobody gave it up.
    fn has_failed(&self) -> bool
        ensures { result ≡ has_failed self.now }
    {
        (self.connects || self.lacking) && self.end != SessionEnd::Replaced && !self.given_up
    }

    /// Returns what the log says of it.
    pub fn news(&self) -> EndNews
        ensures { result ≡ end_news self.now }
    {
        if self.begun {
            return EndNews::Session;
        }
        if !self.has_failed() {
            return EndNews::Nothing;
        }
        match self.status {
            Some(status) if status != 200 => EndNews::Refusal(status),
            _ => EndNews::NoSession,
        }
    }
}
