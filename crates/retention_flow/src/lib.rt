//! A planner of which names are read, so that the most bytes are saved (profile). It solves a minimum-cost flow: each
//! slot is a unit of flow through the places of the requests, and a kept link carries one unit past the places inside
//! it.
//!
//! There are two ways to the flow. One begins with all links kept, in as many slots as that takes, and takes the slots
//! that are too many away one by one. The other begins with only those links kept that have nothing inside, and adds one
//! slot after another. Both go along augmenting paths of least cost, which one kind of search finds: from the last node
//! to the first, or from the first to the last. `plan` goes the way that needs at most `slots - 1` augmenting paths, and
//! `plan_by_cycles` always takes away. In the adding way the search for a path may begin anew once.
//!
//! Heights are the potentials of the nodes, and the slack of a residual arc is its reduced cost. Heights are calm if no
//! residual arc has a negative slack.
#![tactic(auto)]

mod adding;
mod arcs;
mod augmenting;
mod distances;
mod laws;
mod leaving;
mod network;
mod path_search;
mod planning;
mod plans;
mod raising;
mod room;
mod spreading;
mod steps;
mod taking;

pub use laws::{calm_heights_are_accepted, the_start_is_calm};
pub use planning::{PlanError, plan, plan_by_cycles};
