//! How long the node leaves a peer alone that breaks the protocol.

ghost use Rattle.std.specs.Prelude.{◌≡◌};
ghost use Rattle.node_core.specs.Rests.{rests_until};

/// A minute, in milliseconds.
const MINUTE: u64 = 60_000;

/// Returns the time until which the node doesn't connect to a peer, given when its last fault came and when the second before that, in
/// milliseconds since the node began: a minute after a fault that was the third within one.
pub fn rests_until(last: Option<u64>, second_before: Option<u64>) -> u64
    ensures { result ≡ rests_until last second_before }
{
    match (last, second_before) {
        (Some(last), Some(first)) if last.saturating_sub(first) < MINUTE => {
            last.saturating_add(MINUTE)
        }
        _ => 0,
    }
}
