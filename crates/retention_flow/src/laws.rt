//! Laws of the network.

ghost use Rattle.std.specs.Prelude.{◌≤◌, ◌+◌, ◌-◌, ◌^◌, ℕ, List, length, replicate};
ghost use Rattle.std.specs.List.{AllByRecursion};
ghost use Rattle.known_state.specs.Requests.{Asked};
ghost use Rattle.known_state.specs.Plans.{at_start, Accepts};
ghost use Rattle.retention_flow.specs.declared.arcs.RequestArc.{RequestArc};
ghost use Rattle.retention_flow.specs.Network.{AreArcs, IsCalm, AreSpent, arcs_from, prices_of, plan_of};

/// The arcs with all links kept are those of the requests, and heights of 0 are calm for them, whatever room is left.
pub fn the_start_is_calm()
    ensures { (held : List (List ℕ)) → (rs : List Asked) → (room : List ℕ) →
        AreArcs (at_start held) rs (arcs_from (at_start held) rs) × IsCalm (replicate (length rs + 1) 0) room (arcs_from (at_start held) rs) }
{}

/// If heights are calm, one slot less than there are is free or used at each place, and no price is above 2^32, then
/// the plan that keeps the kept arcs at the prices of those heights is accepted.
pub fn calm_heights_are_accepted()
    ensures { (slots : ℕ) → (held : List (List ℕ)) → (rs : List Asked) → (heights room : List ℕ) → (arcs : List RequestArc) →
        AreArcs (at_start held) rs arcs → IsCalm heights room arcs → AreSpent (slots - 1) room held rs arcs →
        AllByRecursion (λ price. price ≤ 2 ^ 32) (prices_of heights) → Accepts slots held rs (plan_of heights arcs) }
{}
