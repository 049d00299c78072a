//! Laws of what is known of a peer, which hold whatever the program does.

ghost use Rattle.std.specs.Prelude.{◌≡◌, ◌∷◌, ℕ, false, true, List, None, Some};
ghost use Rattle.node_core.specs.declared.reaching.Failure.{Failure};
ghost use Rattle.node_core.specs.declared.last_errors.LastError.TheVariants as errors;
ghost use Rattle.node_rules.specs.PeerRecords.{error_after, stands};
ghost use Rattle.node_rules.specs.PeerRuns.{Fails, Happening, Refuses, after, after_all};

/// While a session stands, no error is told why there is none, whatever happened before and happens meanwhile. While none does, the
/// error that is told is that of the attempt that failed last, or of the hello that was refused last, if that was later.
pub fn the_last_error_tells_why()
    ensures none { (hs : List Happening) → stands (after_all hs) ≡ true → (after_all hs).last_error ≡ None }
    ensures failed { (hs : List Happening) (failure : Failure) → stands (after_all hs) ≡ false → (after (Fails failure) (after_all hs)).last_error ≡ Some (error_after failure) }
    ensures refused { (hs : List Happening) (status : ℕ) → stands (after_all hs) ≡ false → (after (Refuses status) (after_all hs)).last_error ≡ Some (errors.HelloRefused status) }
{}

/// Whatever happens while no session stands, and begins none, since when there is none stays as it is told: an attempt that fails, in
/// whichever way, doesn't begin it anew.
pub fn a_peer_stays_down_since()
    ensures { (hs : List Happening) (h : Happening) → stands (after_all hs) ≡ false → stands (after_all (h ∷ hs)) ≡ false → (after_all (h ∷ hs)).since ≡ (after_all hs).since }
{}
