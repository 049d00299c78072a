//! Whether a peer's heartbeat stayed away.

ghost use Rattle.std.specs.Prelude.{◌≡◌};
ghost use Rattle.node_rules.specs.Heartbeats.{missed_heartbeat};

/// The longest time in which the node may read nothing of a peer that is well, in milliseconds: the peer sends a heartbeat 3 s after its last
/// byte, a HAProxy at times only once a timer of 5 s is over. It leaves 1 s for a node that stood still, of which the log says nothing up to
/// 2 s: both at their longest are rare, and then the line says that bytes stayed away, as they did.
const LONGEST: u64 = 6_000;

/// Returns for how many milliseconds the node read nothing of a peer, not even a heartbeat, if that is news, given whether their session
/// had begun and how long the node waited for bytes at most since the last look.
pub fn missed_heartbeat(begun: bool, longest_wait: u64) -> Option<u64>
    ensures { result ≡ missed_heartbeat begun longest_wait }
{
    if begun && longest_wait > LONGEST {
        Some(longest_wait)
    } else {
        None
    }
}
