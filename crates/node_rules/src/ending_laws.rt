//! Laws of a session that ends for the stop of its node, which hold whatever the program does.

ghost use Rattle.std.specs.Prelude.{◌≡◌, ◌∷◌, ℕ, Bool, false, true, List, Some};
ghost use Rattle.node_core.specs.declared.session_ends.SessionEnd.TheVariants as ends;
ghost use Rattle.node_rules.specs.declared.ending.Outside.{Outside};
ghost use Rattle.node_rules.specs.Endings.{interruption};
ghost use Rattle.node_rules.specs.EndingRuns.{Happening, IdledSinceStop, Looks, after_all};

/// A session is ended for a stop only if the node stops, the peer has acknowledged the last number that it was taught of each table
/// that wasn't left, and since the worker saw that the node stops, at a time when the session's turns push rows, there was nothing to do
/// in as many turns as there are tables, and in none between these.
pub fn a_stop_waits_for_all()
    ensures { (hs : List Happening) (now : ℕ) (o : Outside) (tables : ℕ) (acknowledged : Bool) → o.paused ≡ false →
        interruption now o tables acknowledged (after_all hs) ≡ Some ends.End →
        (o.stops ≡ true) × (acknowledged ≡ true) × IdledSinceStop tables (Looks now o.stops ∷ hs) }
{}
