//! Counts of the control messages of a remote peer.

ghost use Rattle.std.specs.Prelude.{◌≡◌};
ghost use Rattle.session_core.specs.HeardCounts.{counted, message_counted, none_counted, one_more};

use learner::Taken;
use peers_msg::Control;

/// How often the remote peer has sent each control message. A count that is full stays as it is.
#[derive(Clone, Copy, Debug, PartialEq, Eq)]
pub struct Controls {
    /// Resync requests.
    pub requests: u64,
    /// Resyncs that ended as finished.
    pub finished: u64,
    /// Resyncs that ended as partial.
    pub partial: u64,
    /// Resyncs that it confirmed.
    pub confirmed: u64,
    /// Heartbeats.
    pub heartbeats: u64,
}

impl Controls {
    /// Returns the counts before any message.
    pub(crate) fn none() -> Controls
        ensures { result ≡ none_counted }
    {
        Controls {
            requests: 0,
            finished: 0,
            partial: 0,
            confirmed: 0,
            heartbeats: 0,
        }
    }

    /// Counts a control message.
    fn count(&mut self, control: Control)
        ensures { self.new ≡ counted control self.old }
    {
        match control {
            Control::ResyncRequest => self.requests = one_more(self.requests),
            Control::ResyncFinished => self.finished = one_more(self.finished),
            Control::ResyncPartial => self.partial = one_more(self.partial),
            Control::ResyncConfirmed => self.confirmed = one_more(self.confirmed),
            Control::Heartbeat => self.heartbeats = one_more(self.heartbeats),
        }
    }

    /// Counts a message if it is a control message.
    pub(crate) fn count_message(&mut self, taken: &Taken)
        ensures { self.new ≡ message_counted taken.now self.old }
    {
        if let Taken::Said(control) = taken {
            self.count(*control);
        }
    }
}

/// Returns the count after one more, unless it is full.
pub(crate) fn one_more(count: u64) -> u64
    ensures { result ≡ one_more count }
{
    count.saturating_add(1)
}
