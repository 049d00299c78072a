//! A node that is about to serve several sessions at once.

ghost use Rattle.std.specs.Prelude.{◌≡◌, ◌∷◌, [], true, IfErr, IfOk, map};
ghost use Rattle.node_text.specs.declared.scenes.Scene.{Scene};
ghost use Rattle.text_commands.specs.Endings.{IsEarly};
ghost use Rattle.node_commands.specs.Sharing.{IsServer, waiting_session, worker_at};

use crate::node::loading::{NodeTables, opened};
use crate::node::scene_of;
use node_text::Scene;
use peers_devices::Faults;
use peers_engine::Worker;
use session_core::Session;
use std::alloc::Global;
use std::io::Read;
use std::sync::Wait;
use table_shards::Seat;
use table_types::{Memory, Name, Roster};
use text_commands::{Ending, rising_roster};

/// A node that is about to serve several sessions: its tables, which are loaded, and the worker of each session.
#[derive(Drop)]
pub struct Server {
    pub(crate) tables: NodeTables,
    pub(crate) workers: Vec<Worker>,
}

/// Makes a session that waits for `peer` to connect, and is up to date.
#[tactic(auto, unfolding(crate::specs::Sharing::waiting_session))]
pub(crate) fn waiting(
    alloc: Global,
    name: &Name,
    peer: &Name,
    roster: Roster,
) -> Result<Session, Memory>
    ensures { IfOk result (λ session. session ≡ waiting_session name.now peer.now roster) }
{
    let own = name.copy(alloc)?;
    let mut peers = Vec::new(alloc);
    peers.push(peer.copy(alloc)?).map_err(Memory::from)?;
    Session::accept(alloc, own, peers, roster, true)
}

/// Makes a worker for each seat, in order. Its session has the number before the seat's.
#[tactic(auto, using(crate::proofs::SharingLaws::one_worker))]
fn workers_at(
    alloc: Global,
    name: &Name,
    peer: &Name,
    roster: &Roster,
    seats: Vec<Seat>,
) -> Result<Vec<Worker>, Memory>
    ensures { IfOk result (λ workers. workers.items ≡ map (worker_at (waiting_session name.now peer.now roster.now)) seats.items) }
{
    let mut workers = Vec::with_capacity(alloc, seats.len())?;
    for seat in seats {
        let session = waiting(alloc, name, peer, roster.copy(alloc)?)?;
        let number = seat.number().saturating_sub(1);
        workers.push(Worker {
            session,
            seat,
            number,
        })?;
    }
    Ok(workers)
}

/// Makes the node that serves the rows of `scene` in as many sessions at once.
#[tactic(auto, using(crate::proofs::SharingLaws::server_with))]
fn server_of<H: Wait>(
    rt: &H,
    alloc: Global,
    name: &Name,
    peer: &Name,
    sessions: u32,
    scene: Scene,
) -> Result<Server, Ending>
    ensures server { IfOk result (λ server. IsServer scene name.now peer.now sessions server) }
    ensures early { IfErr result IsEarly }
{
    let Scene {
        tables: definitions,
        updates,
        ..
    } = scene;
    let roster = rising_roster(definitions)?;
    let shared = roster.copy(alloc)?;
    let (tables, seats) = opened(rt, alloc, roster, updates.as_slice(), sessions)?;
    let workers = workers_at(alloc, name, peer, &shared, seats)?;
    Ok(Server { tables, workers })
}

impl Server {
    /// Makes the node `name` that waits for `peer` to connect as often as there are sessions. Reads a scene from `input`: the node has
    /// the scene's tables, which have learned its updates. Its sessions are up to date. Fails with `Line` or `Scene` if the scene is
    /// refused, with `Device` if the input can't be read, and with `Memory` if memory runs out.
    pub(crate) fn new<H: Wait, I: Read + Faults>(
        rt: &H,
        alloc: Global,
        name: &Name,
        peer: &Name,
        sessions: u32,
        input: &mut I,
    ) -> Result<Server, Ending>
        ensures server { IfOk result (λ server. (scene : Scene) × IsServer scene name.now peer.now sessions server) }
        ensures early { IfErr result IsEarly }
    {
        let scene = scene_of(alloc, input)?;
        let server = server_of(rt, alloc, name, peer, sessions, scene)?;
        Ok(server)
    }
}
