//! Which connection ends: one that has been idle for too long, or the one idle longest when another comes.
ghost use Rattle.std.specs.Prelude.{◌≡◌, MatchOption, true};
ghost use Rattle.std.specs.List.{list_all};
ghost use Rattle.admin_port.specs.Idle.{IsLongest, is_at_work, is_idle_too_long, is_no_longer};

/// How long a connection may be idle, in milliseconds.
const MOST_IDLE: u64 = 60_000;

/// Returns whether a connection that has been idle since `since` has been so for too long at `now`, both in milliseconds.
pub fn is_idle_too_long(since: u64, now: u64) -> bool
    ensures { result ≡ is_idle_too_long since now }
{
    now.saturating_sub(since) >= MOST_IDLE
}

/// Returns the place of the connection that has been idle longest, if any is idle. `idle` has for each place since when its connection has
/// been idle, or `None` if it isn't, or if the place has no connection.
pub fn longest_idle(idle: &[Option<u64>]) -> Option<usize>
    ensures { MatchOption result (list_all is_at_work idle.now ≡ true) (IsLongest idle.now) }
{
    let mut longest: Option<(usize, u64)> = None;
    for (place, since) in idle.iter().enumerate() {
        let Some(since) = *since else {
            continue;
        };
        match longest {
            Some((_, own)) if own <= since => {}
            _ => longest = Some((place, since)),
        }
    }
    match longest {
        Some((place, _)) => Some(place),
        None => None,
    }
}
