//! Laws of a node that asks its peers for all rows, which hold whatever the program does.

ghost use Rattle.std.specs.Prelude.{◌≡◌, ◌==◌, ◌≤◌, ◌<◌, ◌+◌, ◌*◌, ◌⊎◌, ℕ, false, true, List, Option, None, Some, length, slice_get};
ghost use Rattle.std.specs.List.{list_all, list_any};
ghost use Rattle.node_core.specs.declared.asking.Awaited.{Awaited};
ghost use Rattle.node_core.specs.declared.asking.Candidate.{Candidate};
ghost use Rattle.node_core.specs.CatchingUp.{AskingState, heard, is_asked, is_next, is_overdue, lapsed, owes};
ghost use Rattle.node_core.specs.AskingRuns.{Answer, CanBeAsked, HasSession, Happening, Asks, Finished, Finishes, IsAwaited, Passes, Rounds, WasAskedSince, WasLastAsked, after, after_all, after_seconds, are_timely, asked_by_all, asks_none_before, is_asked_before, is_asking, is_end_of, is_from, is_heard_before, may_end, was_before};

/// No two peers are asked at once. While a peer is waited for, no peer is next to be asked; and a peer that is waited for is so
/// until it ends its resync, loses its session or begins another, is mute for 5 s, or was asked ten minutes ago, unless some peer ends
/// its resync as finished, after which no peer is asked.
pub fn one_at_a_time()
    ensures next { (a : AskingState) (w : Awaited) (peer now : ℕ) → a.awaited ≡ Some w → is_next peer now a ≡ false }
    ensures waits { (a : AskingState) (w : Awaited) (h : Happening) → a.awaited ≡ Some w → may_end a w h ≡ false → IsAwaited w.peer (after h a) }
{}

/// A mute peer is waited for 5 s at most: if it was asked and brings no row, then whatever else happens, it isn't waited for once
/// the time is noted 5 s later.
pub fn a_mute_peer_holds_nobody_up()
    ensures { (a : AskingState) (peer asked now : ℕ) (hs : List Happening) → is_next peer asked a ≡ true → list_any (is_from peer) hs ≡ false → asked + 5000 ≤ now →
        IsAwaited peer (after (Passes now) (after_all hs (after (Asks peer asked) a))) → ⊥ }
{}

/// No peer is waited for longer than ten minutes: if it was asked, then whatever it brings, and whatever else happens, it isn't
/// waited for once the time is noted ten minutes later, unless it is asked again meanwhile.
pub fn every_wait_ends()
    ensures { (a : AskingState) (peer asked now : ℕ) (hs : List Happening) → is_next peer asked a ≡ true → list_any (is_asking peer) hs ≡ false → asked + 600000 ≤ now →
        IsAwaited peer (after (Passes now) (after_all hs (after (Asks peer asked) a))) → ⊥ }
{}

/// A peer that is waited for and brings a row has 5 s from then on, within the ten minutes from when it was asked. One that owes an
/// answer and brings a row isn't asked for a minute from then on, whoever else is, so what it teaches doesn't begin anew, unless it was
/// asked eleven minutes ago.
pub fn whoever_brings_rows_goes_on()
    ensures waits { (a : AskingState) (w : Awaited) (now later : ℕ) → a.awaited ≡ Some w → later < now + 5000 → later < w.asked_at + 600000 → IsAwaited w.peer (lapsed later (heard w.peer now a)) }
    ensures asks { (a : AskingState) (c : Candidate) (peer now later : ℕ) → slice_get a.peers peer ≡ Some c → is_asked c.standing ≡ true → is_overdue later c.asked_at ≡ false →
        later < now + 60000 → is_next peer later (heard peer now a) ≡ false }
{}

/// A peer that has a session, on which it doesn't show that it can't teach all, is asked again, whatever it brings and whatever else
/// happens. It can be asked at the latest eleven minutes after it was, unless it was asked again meanwhile; and from then on each other peer
/// is asked once at most before it is.
pub fn each_is_asked_in_turn()
    ensures again { (a : AskingState) (peer asked now : ℕ) (hs : List Happening) → is_next peer asked a ≡ true → list_any (is_end_of peer) hs ≡ false →
        list_any (λ other. other == peer) (asked_by_all hs (after (Asks peer asked) a)) ≡ false → asked + 660000 ≤ now →
        CanBeAsked peer now (after_all hs (after (Asks peer asked) a)) }
    ensures turns { (a : AskingState) (peer now : ℕ) (asked : Option ℕ) (hs : List Happening) → WasLastAsked peer asked a → is_overdue now asked ≡ true →
        list_all (asks_none_before now) hs ≡ true → list_any (is_end_of peer) hs ≡ false → list_any (λ other. other == peer) (asked_by_all hs a) ≡ false →
        length (asked_by_all hs a) < length a.peers }
{}

/// Whatever happens, a node that looks each second, at the time and whether a peer is next, is taught all rows or asks a peer whose session
/// stands and that doesn't show on it that it can't teach all, within eleven minutes and 601 s for each peer that it has. If a peer that was
/// asked ends its resync as finished, the node has been taught all rows.
pub fn whoever_stays_is_asked()
    ensures asked { (a : AskingState) (peer now : ℕ) (asked : Option ℕ) (seconds : List (List Happening)) → WasLastAsked peer asked a → was_before now asked ≡ true →
        is_asked_before now a.awaited ≡ true → are_timely peer now seconds ≡ true → 660 + 601 * length a.peers ≤ length seconds →
        ((after_seconds now seconds a).taught ≡ true) ⊎ WasAskedSince peer now (after_seconds now seconds a) }
    ensures finishes { (a : AskingState) (peer : ℕ) → owes (slice_get a.peers peer) ≡ true → (after (Finishes peer) a).taught ≡ true }
{}

/// A node that has a peer that ends its resync as finished if it is asked comes to be up to date. From any state, once a minute has
/// passed in which nothing came, nobody is waited for, and the peer can be asked. From then on, whichever of the peers that are next
/// is asked each 5 s, and whatever the others answer, there are no more rounds than peers, and as long as the node hasn't been taught all
/// rows, there is a peer to be asked.
pub fn a_node_comes_to_be_up_to_date()
    ensures minute { (a : AskingState) (peer now : ℕ) → HasSession peer now a → is_heard_before (now + 1) a.awaited ≡ true →
        ((lapsed (now + 60000) a).awaited ≡ None) × CanBeAsked peer (now + 60000) (lapsed (now + 60000) a) }
    ensures rounds { (answers : ℕ → Answer) (peer now : ℕ) (peers : List ℕ) (a e : AskingState) → CanBeAsked peer now a → answers peer ≡ Finished →
        Rounds answers now peers a e → length peers ≤ length a.peers }
    ensures goes_on { (answers : ℕ → Answer) (peer now : ℕ) (peers : List ℕ) (a e : AskingState) → a.awaited ≡ None → CanBeAsked peer now a → answers peer ≡ Finished →
        Rounds answers now peers a e → (e.taught ≡ true) ⊎ ((next : ℕ) × (is_next next (now + 5000 * length peers) e ≡ true)) }
{}
