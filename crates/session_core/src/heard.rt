//! What a session counts of what its remote peer sends.

ghost use Rattle.std.specs.Prelude.{◌≡◌};
ghost use Rattle.session_core.specs.HeardCounts.{none_heard};

use crate::controls::Controls;
use tolerant_intake::PassedOver;

/// What a session has counted of what the remote peer sent.
#[derive(Clone, Copy, Debug, PartialEq, Eq)]
pub(crate) struct Heard {
    /// How often it sent each control message.
    pub(crate) controls: Controls,
    /// How often something of it was passed over, for each cause.
    pub(crate) passed_over: PassedOver,
}

impl Heard {
    /// Returns the counts before anything came.
    pub(crate) fn none() -> Heard
        ensures { result ≡ none_heard }
    {
        Heard {
            controls: Controls::none(),
            passed_over: PassedOver::none(),
        }
    }
}
