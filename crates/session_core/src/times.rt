//! The times of a session that stays, in milliseconds.

ghost use Rattle.std.specs.Prelude.{◌≡◌};
ghost use Rattle.session_core.specs.Paces.{has_passed};

/// From the last byte sent to a heartbeat.
pub(crate) const HEARTBEAT: u64 = 3_000;

/// From the last byte received to the end of the session.
pub(crate) const SILENCE: u64 = 10_000;

/// From the copy of a batch to the end of the wait for its acknowledgement, if the remote peer has never acknowledged its
/// table.
pub(crate) const LEAVING: u64 = 2_000;

/// From the opening of the session to its first push.
pub(crate) const PUSH: u64 = 300;

/// From the beginning of one resync to that of the next.
pub(crate) const RESYNC: u64 = 1_000;

/// Returns whether `time` has passed from `since` to `now`.
pub(crate) fn has_passed(time: u64, since: u64, now: u64) -> bool
    ensures { result ≡ has_passed time since now }
{
    now.saturating_sub(since) >= time
}
