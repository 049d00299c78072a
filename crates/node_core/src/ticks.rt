//! When the ticks of a session come.

ghost use Rattle.std.specs.Prelude.{◌≡◌, ◌-◌, max};
ghost use Rattle.node_core.specs.Ticks.{after_tick, begun, has_moved, is_due, is_lively, is_own_time, is_put_off, is_tick, is_unread, later, next_due, noted, others, ticked};

/// The time between two ticks of a lively session, in milliseconds.
const TICK: u64 = 100;

/// How late a tick may come, in milliseconds.
const HELD_UP: u64 = 1_000;

/// How long a session is lively after more than a heartbeat was sent or received, in milliseconds. Whatever the session has still to do
/// by the clock then is due within that time, but for a heartbeat and the end in silence.
const LIVELY: u64 = 2_500;

/// From the last byte sent to a heartbeat, in milliseconds.
const HEARTBEAT: u64 = 3_000;

/// From the last byte received to the end of the session, in milliseconds.
const SILENCE: u64 = 10_000;

/// What went over a connection so far.
#[derive(Clone, Copy, Debug)]
pub struct Traffic {
    /// The bytes sent.
    pub sent: u64,
    /// The bytes that the session has read.
    pub received: u64,
    /// The heartbeats among both.
    pub heartbeats: u64,
    /// When the last bytes were sent.
    pub sent_at: u64,
}

/// What a session did since it last looked whether a tick comes.
#[derive(Clone, Copy, Debug)]
pub struct Busy {
    /// When it looked.
    pub since: u64,
    /// How long its writes took, in milliseconds.
    pub writing: u64,
}

impl Busy {
    /// Returns whether the session did for no longer than `HELD_UP` anything else than write.
    fn is_own_time(&self, now: u64) -> bool
        ensures { result ≡ is_own_time now self.now }
    {
        let passed = now.saturating_sub(self.since);
        passed.saturating_sub(self.writing) <= HELD_UP
    }
}

/// Returns the time after a moment, as far as a moment can be.
fn later(time: u64, moment: u64) -> u64
    ensures { result ≡ later time moment }
{
    moment.saturating_add(time)
}

impl Traffic {
    /// Returns the number of bytes but for the heartbeats, of two bytes each.
    fn others(&self) -> u64
        ensures { result ≡ others self.now }
    {
        self.sent
            .saturating_add(self.received)
            .saturating_sub(self.heartbeats.saturating_mul(2))
    }
}

/// When the ticks of a session come: often while it is lively, and otherwise when it owes a heartbeat or has been silent for too
/// long. All times are in milliseconds since the node began.
///
/// A tick that is late by more than a second is put off by a second, once: this node was held up, so what has arrived since is to be
/// read before the session judges what didn't come. The time of the session's own writes, to a peer that reads slowly, doesn't count as
/// late. For the same reason a tick before which the session has read nothing for 10 s waits until it has read what has arrived.
#[derive(Clone, Copy, Debug)]
pub struct Ticks {
    /// When the next tick is due.
    due: u64,
    /// When it would be due if the session were lively.
    next: u64,
    /// When more than heartbeats last went over the connection.
    lively: u64,
    /// When the session last read bytes.
    heard: u64,
    /// Whether the last tick that was due was put off.
    put_off: bool,
    /// Up to when the session did nothing but its own work: a tick isn't late before.
    free: u64,
    /// What went over the connection so far.
    traffic: Traffic,
}

impl Ticks {
    /// Returns the ticks of a session that begins now.
    pub fn new(now: u64) -> Ticks
        ensures { result ≡ begun now }
    {
        Ticks {
            due: now,
            next: now,
            lively: now,
            heard: now,
            put_off: false,
            free: now,
            traffic: Traffic {
                sent: 0,
                received: 0,
                heartbeats: 0,
                sent_at: now,
            },
        }
    }

    /// Returns whether the session is lively.
    fn is_lively(&self, now: u64) -> bool
        ensures { result ≡ is_lively now self.now }
    {
        now.saturating_sub(self.lively) < LIVELY
    }

    /// Returns when the next tick is due.
    fn next_due(&self, now: u64) -> u64
        ensures { result ≡ next_due now self.now }
    {
        if self.is_lively(now) {
            return self.next;
        }
        let heartbeat = later(HEARTBEAT, self.traffic.sent_at);
        let silence = later(SILENCE, self.heard);
        self.next.max(heartbeat.min(silence))
    }

    /// Notes what the session did since it last looked whether a tick comes, and what went over the connection up to now.
    pub fn note(&mut self, now: u64, busy: Busy, traffic: Traffic)
        ensures { self.new ≡ noted now busy traffic self.old }
    {
        if busy.is_own_time(now) {
            self.free = now;
        }
        if traffic.received != self.traffic.received {
            self.heard = now;
        }
        if traffic.others() != self.traffic.others() {
            if !self.is_lively(now) && now < self.due {
                self.next = self.next.max(later(TICK, now));
            }
            self.lively = now;
        }
        self.traffic = traffic;
        self.due = self.next_due(now);
    }

    /// Returns whether the session has read nothing for `SILENCE`, though bytes have arrived.
    fn is_unread(&self, now: u64, arrived: u64) -> bool
        ensures { result ≡ is_unread now arrived self.now }
    {
        now.saturating_sub(self.heard) >= SILENCE && self.traffic.received < arrived
    }

    /// Returns whether the tick is late by more than `HELD_UP` for another cause than the session's own writes, and wasn't put off before.
    fn is_put_off(&self, now: u64) -> bool
        ensures { result ≡ is_put_off now self.now }
    {
        !self.put_off && now.saturating_sub(self.due.max(self.free)) > HELD_UP
    }

    /// Returns whether a tick comes now, given how many bytes have arrived on the connection.
    pub fn is_tick(&mut self, now: u64, arrived: u64) -> bool
        ensures tick { result ≡ is_tick now arrived self.old }
        ensures ticked { self.new ≡ ticked now arrived self.old }
    {
        if now < self.due || self.is_unread(now, arrived) {
            return false;
        }
        let is_put_off = self.is_put_off(now);
        self.next = later(if is_put_off { HELD_UP } else { TICK }, now);
        self.due = self.next;
        self.put_off = is_put_off;
        !is_put_off
    }

    /// Returns how long a session with nothing to do waits at most.
    pub fn rest(&self, now: u64) -> u64
        ensures { result ≡ max 1 (self.now.due - now) }
    {
        self.due.saturating_sub(now).max(1)
    }
}
