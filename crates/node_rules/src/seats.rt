//! Whose connection goes for that of another client.

ghost use Rattle.std.specs.Prelude.{◌≡◌, MatchOption, nat_lt, slice_get};
ghost use Rattle.admin_port.specs.Idle.{IsLongest};
ghost use Rattle.node_rules.specs.Seats.{GoesAfter, IsRoom, Leaves, NoneIsIdle, NoneLeaves, Stays, is_long};

use admin_port::longest_idle;

/// How long a connection has to have been idle to go for another one, in milliseconds: so long that a request which has come was read.
const SETTLED: u64 = 100;

/// How long requests of a connection may be answered before it goes for another one, in milliseconds.
const MOST_ANSWERING: u64 = 60_000;

/// Whether there is room for the connection of another client.
#[derive(Clone, Copy, Debug, PartialEq, Eq)]
pub enum Room {
    /// There is.
    Free,
    /// There is once the connection at this place has gone.
    InPlaceOf(usize),
    /// There is none.
    Full,
}

/// Returns whether `place` has an entry in `since`, and that is at least `least` ago at `now`.
fn is_long(least: u64, since: &[Option<u64>], place: usize, now: u64) -> bool
    ensures { result ≡ is_long least now (slice_get since.now place) }
{
    match since.get(place) {
        Some(Some(own)) => now.saturating_sub(*own) >= least,
        Some(None) | None => false,
    }
}

/// Returns the place with the earliest entry in `since`, if that is at least `least` ago at `now`.
#[tactic(auto, using(crate::proofs::Leaving::at_work_stays, crate::proofs::Leaving::longest_stays))]
fn longest_after(least: u64, since: &[Option<u64>], now: u64) -> Option<usize>
    ensures { MatchOption result (Stays least now since.now) (GoesAfter least now since.now) }
{
    let place = longest_idle(since)?;
    if is_long(least, since, place, now) {
        Some(place)
    } else {
        None
    }
}

/// Returns the place of the connection that goes for another one at `now`, if one does: the one idle longest, or else the one whose
/// requests have been answered longest, since its client takes the answers so slowly.
fn leaving(idle: &[Option<u64>], answering: &[Option<u64>], now: u64) -> Option<usize>
    ensures { MatchOption result (NoneLeaves idle.now answering.now now) (Leaves idle.now answering.now now) }
{
    match longest_after(SETTLED, idle, now) {
        Some(place) => Some(place),
        None => longest_after(MOST_ANSWERING, answering, now),
    }
}

/// Returns whether there is room for another connection at `now`, where there are `count` of at most `most`. `idle` has for each place
/// since when the connection there has been idle, and `answering` since when requests of it have been answered.
pub fn room_for_client(
    count: usize,
    most: usize,
    idle: &[Option<u64>],
    answering: &[Option<u64>],
    now: u64,
) -> Room
    ensures { IsRoom (nat_lt count most) (Leaves idle.now answering.now now) (NoneLeaves idle.now answering.now now) result }
{
    if count < most {
        return Room::Free;
    }
    match leaving(idle, answering, now) {
        Some(place) => Room::InPlaceOf(place),
        None => Room::Full,
    }
}

/// Returns whether there is room for another visit, where there are `count` of at most `most`. `idle` has for each that waits since when
/// it has been idle, if a thread has found that.
pub fn room_for_visit(count: usize, most: usize, idle: &[Option<u64>]) -> Room
    ensures { IsRoom (nat_lt count most) (IsLongest idle.now) (NoneIsIdle idle.now) result }
{
    if count < most {
        return Room::Free;
    }
    match longest_idle(idle) {
        Some(place) => Room::InPlaceOf(place),
        None => Room::Full,
    }
}
