//! Laws of when numbers are assigned, which hold whatever the program does.

ghost use Rattle.std.specs.Prelude.{◌≡◌, ◌<◌, ℕ, List, Some};
ghost use Rattle.node_core.specs.declared.number_times.Look.{Look};
ghost use Rattle.node_core.specs.NumberTimes.{IsAmong, noted_all, since};

/// Nobody is told that a number was assigned before it was seen to be: at the time that is told there was a look, and the next number
/// was above this one then.
pub fn an_age_is_never_too_great()
    ensures { (looks : List Look) (number time : ℕ) → since number (noted_all looks) ≡ Some time →
        (look : Look) × IsAmong looks look × (look.time ≡ time) × (number < look.next) }
{}
