//! How a search reaches its nodes.

/// The residual arc by which a node is reached.
#[derive(Clone, Copy, Debug)]
pub enum ResidualArc {
    /// None: it is the source, at which a search begins.
    Start,
    /// From the node before it: frees a slot at the place between them.
    Right,
    /// From the node after it: takes a free slot at the place between them.
    Left,
    /// From this later node, back over the arc of the request after that node, which is then no longer kept.
    Back(usize),
    /// From an earlier node, over the arc of the request after this node, which is then kept.
    On,
}

/// Where a search begins, and where it ends.
#[derive(Clone, Copy, Debug)]
pub struct Ends {
    /// The node from which the others are reached.
    pub source: usize,
    /// The node to which a path is searched for.
    pub target: usize,
}

/// How a search reached a node.
#[derive(Clone, Copy, Debug)]
pub struct Step {
    /// How many nodes were reached before it.
    pub rank: usize,
    /// The residual arc that leads to it.
    pub arc: ResidualArc,
}

/// A residual arc from a reached node to one that isn't reached.
#[derive(Clone, Copy, Debug)]
pub struct Leaving {
    /// The node that isn't reached.
    pub node: usize,
    /// The arc, as seen from that node.
    pub arc: ResidualArc,
    /// Its reduced cost: how far the heights of the nodes reached can rise before it is 0.
    pub slack: u64,
}
