//! The network that a search goes through.

use crate::arcs::RequestArc;

/// The network that a search goes through, lent to it.
#[derive(Drop)]
pub struct Network<'a> {
    /// The arcs of the requests.
    pub arcs: &'a [RequestArc],
    /// The free slots at each place.
    pub room: &'a [usize],
    /// Where an arc of a request that begins at a node ends, for each node but the last (`later_ends`).
    pub later: &'a [usize],
    /// The indices of the arcs that begin at the first node (`first_arcs`).
    pub first: &'a [usize],
}
