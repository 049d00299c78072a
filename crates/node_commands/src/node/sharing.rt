//! Sessions that run side by side, each in a thread of its own and over a connection of its own.

ghost use Rattle.std.specs.Prelude.{◌≡◌, ◌⊎◌, IfErr, IfOk};
ghost use Rattle.text_commands.specs.declared.endings.Ending.TheVariants as endings;
ghost use Rattle.node_commands.specs.Serving.{HasServed};
ghost use Rattle.node_commands.specs.Sharing.{AllServed, AreKept, AreStarted};

use crate::node::turns::{Pace, Played, Turns, play};
use crate::sockets::taken;
use peers_devices::{Counting, Writes};
use peers_engine::Worker;
use std::alloc::Global;
use std::net::{TcpListener, TcpStream};
use std::snapshot::Snapshot;
use std::sync::Wait;
use std::thread;
use std::thread::{Promise, PromisedHandle, Scope, Threads};
use table_shards::Shards;
use table_types::Memory;
use text_commands::Ending;

/// A session that is over: its worker as its turns left it, and its course.
#[derive(Drop)]
pub struct Served {
    pub(crate) worker: Worker,
    pub(crate) played: Played,
}

/// What the thread of a session promises: that this worker takes the turns of its session with these tables, at most as many.
#[derive(Drop)]
pub struct TakesTurns {
    pub(crate) worker: Snapshot<Worker>,
    pub(crate) shards: Snapshot<Shards>,
    pub(crate) turns: u32,
}

impl Promise<Served> for TakesTurns {
    ghost use Rattle.node_commands.specs.Serving.{HasServed};

    ghost kept_by = { λ promise served. HasServed promise.shards.value promise.turns promise.worker.value served };
}

/// The work of a session's thread: its worker, the most turns that it takes, and its connection.
#[derive(Drop)]
pub(crate) struct Task {
    alloc: Global,
    worker: Worker,
    turns: u32,
    stream: TcpStream,
}

/// Takes the turns of a session, and closes its connection.
fn serve_one<H: Wait>(rt: &H, shards: &Shards, task: Task) -> Served
    ensures { HasServed shards.now task.turns task.worker result }
{
    let Task {
        alloc,
        mut worker,
        turns,
        stream,
    } = task;
    let pace = Pace {
        leaves: false,
        stands: true,
        taken: 0,
    };
    let played = play(
        rt,
        alloc,
        shards,
        &mut worker,
        Turns { pace, most: turns },
        &mut Counting::new(&stream),
        &mut Counting::new(&stream),
        &mut Writes::none(),
    );
    Served { worker, played }
}

/// Starts the thread of a session.
fn start<'s, E: 's, H: Wait + Sync>(
    rt: &'s H,
    scope: &'s Scope<'s, E>,
    shards: &'s Shards,
    task: Task,
) -> Result<PromisedHandle<Served, TakesTurns>, Ending>
    ensures started { IfOk result (λ thread. (thread.promise.worker.value ≡ task.worker) × (thread.promise.shards.value ≡ shards.now) × (thread.promise.turns ≡ task.turns)) }
    ensures early { IfErr result (λ ending. (ending ≡ endings.Memory) ⊎ (ending ≡ endings.Device)) }
{
    let promise = TakesTurns {
        worker: Snapshot::of(&task.worker),
        shards: Snapshot::of(shards),
        turns: task.turns,
    };
    match scope.spawn_with(promise, move || serve_one(rt, shards, task)) {
        Ok(thread) => Ok(thread),
        Err(_) => Err(Ending::Device),
    }
}

/// Accepts a connection for each worker, in order, and starts its thread before it accepts the next. Then nobody listens any more.
fn start_all<'s, E: 's, H: Wait + Sync>(
    rt: &'s H,
    alloc: Global,
    scope: &'s Scope<'s, E>,
    shards: &'s Shards,
    listener: TcpListener,
    turns: u32,
    workers: Vec<Worker>,
) -> Result<Vec<PromisedHandle<Served, TakesTurns>>, Ending>
    ensures started { IfOk result (λ threads. AreStarted (λ thread. thread.promise) shards.now turns workers.items threads.items) }
    ensures early { IfErr result (λ ending. (ending ≡ endings.Memory) ⊎ (ending ≡ endings.Device)) }
{
    let mut threads = Vec::with_capacity(alloc, workers.len())?;
    for worker in workers {
        let Ok(stream) = taken(&listener) else {
            return Err(Ending::Device);
        };
        let task = Task {
            alloc,
            worker,
            turns,
            stream,
        };
        let thread = start(rt, scope, shards, task)?;
        threads.push(thread).map_err(Memory::from)?;
    }
    Ok(threads)
}

/// Joins the threads, in order.
fn join_all<H: Threads + Wait>(
    rt: &H,
    alloc: Global,
    threads: Vec<PromisedHandle<Served, TakesTurns>>,
) -> Result<Vec<Served>, Ending>
    ensures kept { IfOk result (λ all. AreKept (λ thread. thread.promise) threads.items all.items) }
    ensures early { IfErr result (λ ending. (ending ≡ endings.Memory) ⊎ (ending ≡ endings.Device)) }
{
    let mut all = Vec::with_capacity(alloc, threads.len())?;
    for thread in threads {
        all.push(thread.join(rt)).map_err(Memory::from)?;
    }
    Ok(all)
}

/// Accepts a connection for each worker, runs their sessions side by side, and waits until all are over.
fn serve_in<'s, E: 's, H: Threads + Wait + Sync>(
    rt: &'s H,
    alloc: Global,
    scope: &'s Scope<'s, E>,
    shards: &'s Shards,
    listener: TcpListener,
    turns: u32,
    workers: Vec<Worker>,
) -> Result<Vec<Served>, Ending>
    ensures served { IfOk result (λ all. AllServed shards.now turns workers.items all.items) }
    ensures early { IfErr result (λ ending. (ending ≡ endings.Memory) ⊎ (ending ≡ endings.Device)) }
{
    let threads = start_all(rt, alloc, scope, shards, listener, turns, workers)?;
    join_all(rt, alloc, threads)
}

/// Accepts a connection for each worker, in order, and runs their sessions side by side, each in a thread of its own. If a connection
/// can't be accepted or a thread can't be started, waits for those that run, and fails with `Device`.
pub(crate) fn serve_all<H: Threads + Wait + Sync>(
    rt: &H,
    alloc: Global,
    shards: &Shards,
    listener: TcpListener,
    turns: u32,
    workers: Vec<Worker>,
) -> Result<Vec<Served>, Ending>
    ensures served { IfOk result (λ all. AllServed shards.now turns workers.items all.items) }
    ensures early { IfErr result (λ ending. (ending ≡ endings.Memory) ⊎ (ending ≡ endings.Device)) }
{
    thread::scope(thread::scope_env(), rt, move |scope| {
        serve_in(rt, alloc, scope, shards, listener, turns, workers)
    })
}
