//! Laws of the ticks of a session, which hold whatever the program does.

ghost use Rattle.std.specs.Prelude.{◌≡◌, ◌≤◌, ◌+◌, ◌-◌, ◌^◌, ℕ, List, false, max, nat_le, true};
ghost use Rattle.std.specs.List.{list_all};
ghost use Rattle.node_core.specs.declared.ticks.Busy.{Busy};
ghost use Rattle.node_core.specs.declared.ticks.Ticks.{Ticks};
ghost use Rattle.node_core.specs.declared.ticks.Traffic.{Traffic};
ghost use Rattle.node_core.specs.Ticks.{Note, is_due, is_lively, is_own_time, is_tick, is_unread, later, noted, noted_all, ticked};

/// A tick comes only to a session that has read bytes less than 10 s ago, or has read all that has arrived: so no peer is taken to be
/// silent of which bytes have arrived since. A tick that is due comes at once, or a second later: it is put off once at most, whatever is
/// noted meanwhile. It isn't put off for the time of the session's own writes.
pub fn ticks_come()
    ensures judged { (t : Ticks) (now arrived : ℕ) → is_tick now arrived t ≡ true → 10000 ≤ now - t.heard → arrived ≤ t.traffic.received }
    ensures once { (t : Ticks) (now later arrived more : ℕ) → is_due now arrived t ≡ true → is_tick now arrived t ≡ false → now + 1000 ≤ later → later ≤ 2 ^ 64 - 1 →
        is_unread later more t ≡ false → is_tick later more (ticked now arrived t) ≡ true }
    ensures between { (t : Ticks) (now later arrived more : ℕ) (notes : List Note) → is_due now arrived t ≡ true → is_tick now arrived t ≡ false →
        is_due later more (noted_all notes (ticked now arrived t)) ≡ true → is_tick later more (noted_all notes (ticked now arrived t)) ≡ true }
    ensures soon { (t : Ticks) (now last arrived : ℕ) (notes : List Note) → is_due now arrived t ≡ true → list_all (λ n. nat_le n.at last) notes ≡ true →
        (noted_all notes (ticked now arrived t)).next ≤ max (later 1000 now) (later 100 last) }
    ensures own { (t : Ticks) (at now arrived : ℕ) (busy : Busy) (traffic : Traffic) → is_own_time at busy ≡ true → now ≤ at + 1000 →
        is_due now arrived (noted at busy traffic t) ≡ true → is_tick now arrived (noted at busy traffic t) ≡ true }
{}

/// Once it is noted what went over the connection, the next tick is due no later than a heartbeat, 3 s after the last bytes were sent,
/// and than the end in silence, 10 s after the last bytes were read, unless the time after the last tick isn't over. In a lively session
/// it is due once that is over, and one that is due already isn't put off by what goes over the connection.
pub fn heartbeats_come()
    ensures heartbeat { (t : Ticks) (now : ℕ) (busy : Busy) (traffic : Traffic) → (noted now busy traffic t).due ≤ max (noted now busy traffic t).next (later 3000 traffic.sent_at) }
    ensures silence { (t : Ticks) (now : ℕ) (busy : Busy) (traffic : Traffic) → (noted now busy traffic t).due ≤ max (noted now busy traffic t).next (later 10000 (noted now busy traffic t).heard) }
    ensures lively { (t : Ticks) (now : ℕ) (busy : Busy) (traffic : Traffic) → is_lively now (noted now busy traffic t) ≡ true → (noted now busy traffic t).due ≡ (noted now busy traffic t).next }
    ensures overdue { (t : Ticks) (now : ℕ) (busy : Busy) (traffic : Traffic) → t.due ≤ now → (noted now busy traffic t).next ≡ t.next }
{}
