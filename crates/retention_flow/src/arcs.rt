//! The arcs of requests.

ghost use Rattle.std.specs.Prelude.{◌≡◌, ◌≤◌, ℕ, List, IfOk};
ghost use Rattle.std.specs.BTreeMap.{get_by};
ghost use Rattle.std.specs.Cmp.Lexicographic.{slice_cmp};
ghost use Rattle.std.specs.Ordering.{nat_cmp};
ghost use Rattle.known_state.specs.Plans.{at_start};
ghost use Rattle.retention_flow.specs.Network.{arc_of, arcs_from, GoBack, SaveLittle};

use known_state::Request;
use std::alloc::Global;
use std::collections::BTreeMap;
use table_types::{Memory, Name};

/// The arc of a request's link: from the node at which the link begins to the node before the request. A request
/// without a link has an arc from the node before it to that same node, which saves nothing.
#[derive(Clone, Copy, Debug)]
pub struct RequestArc {
    /// The node at which the arc begins.
    pub from: usize,
    /// How many bytes are saved if the arc is kept.
    pub saving: u64,
    /// Whether the arc is kept.
    pub kept: bool,
}

/// Returns the arc of the request after `node`, whose name was last requested or held at `from`, if anywhere.
fn arc_of(from: Option<usize>, node: usize, request: &Request) -> RequestArc
    ensures arc { result ≡ arc_of from node request.now }
    ensures little { result.saving ≤ 32768 }
{
    match from {
        Some(from) => RequestArc {
            from,
            saving: u64::from(request.write_cost() - request.read_cost()),
            kept: true,
        },
        None => RequestArc {
            from: node,
            saving: 0,
            kept: false,
        },
    }
}

/// Returns place 0 for each of these names.
fn held_at_start<'a>(alloc: Global, held: &'a [Name]) -> Result<BTreeMap<&'a [u8], usize>, Memory>
    ensures { IfOk result (λ last. (name : List ℕ) → get_by (λ key. slice_cmp nat_cmp name key.now) last ≡ (at_start held.now).last name) }
{
    let mut last = BTreeMap::new(alloc);
    for name in held {
        last.insert(name.as_slice(), 0)?;
    }
    Ok(last)
}

/// Returns the arcs of `requests` with all links kept, if the names in `held` are held at the start.
pub fn find_arcs(
    alloc: Global,
    held: &[Name],
    requests: &[Request],
) -> Result<Vec<RequestArc>, Memory>
    ensures arcs { IfOk result (λ arcs. arcs.items ≡ arcs_from (at_start held.now) requests.now) }
    ensures back { IfOk result (λ arcs. GoBack arcs.items) }
    ensures little { IfOk result (λ arcs. SaveLittle arcs.items) }
{
    let mut last = held_at_start(alloc, held)?;
    let mut arcs = Vec::new(alloc);
    for (index, request) in requests.iter().enumerate() {
        let from = last.insert(request.name().as_slice(), index + 1)?;
        arcs.push(arc_of(from, index, request))?;
    }
    Ok(arcs)
}
