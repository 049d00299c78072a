//! Laws of the attempts to connect to a peer, which hold whatever the program does.

ghost use Rattle.std.specs.Prelude.{◌≤◌, ◌<◌, ◌+◌, ◌-◌, ◌^◌, ℕ};
ghost use Rattle.node_rules.specs.Attempts.{next_due};

/// The next attempt is due 2 to 4 s after a session or an attempt ended, or up to 2 s after the time until which the peer is left
/// alone.
pub fn attempts_come()
    ensures soon { (now rests : ℕ) → rests ≤ now + 2000 → now + 4000 ≤ 2 ^ 64 - 1 → (now + 2000 ≤ next_due now rests) × (next_due now rests < now + 4000) }
    ensures rests { (now rests : ℕ) → now + 2000 ≤ rests → rests + 2000 ≤ 2 ^ 64 - 1 → (rests ≤ next_due now rests) × (next_due now rests < rests + 2000) }
{}
