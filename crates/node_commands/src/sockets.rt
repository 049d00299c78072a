//! The subcommands `serve` and `join`: nodes that meet over TCP.

ghost use Rattle.std.specs.Prelude.{◌≡◌, ◌≢◌, ◌⊎◌, ℕ, List, Ok, IfErr, IfOk};
ghost use Rattle.std.specs.Io.KnownBytes.{Appends};
ghost use Rattle.node_text.specs.declared.scenes.Scene.{Scene};
ghost use Rattle.text_commands.specs.Endings.{IsEarly, line_of};
ghost use Rattle.text_commands.specs.declared.endings.Ending.{Ending};
ghost use Rattle.text_commands.specs.declared.endings.Ending.TheVariants as endings;
ghost use Rattle.node_commands.specs.declared.node.Report.{Report};
ghost use Rattle.node_commands.specs.FallingBack.{IsJoined, IsMeeting};
ghost use Rattle.node_commands.specs.Nodes.{AppendsSome, HasRows, IsPrinted, IsServed, IsServedAlone, IsServedShared};
ghost use Rattle.node_commands.specs.Sharing.{IsShared};
ghost use Rattle.node_commands.specs.Turning.{Sending};

use crate::link::Link;
use crate::node::{Meeting, Node, Report, Server, serve_all, total_of};
use peers_devices::{Counting, Faults, Writes};
use std::alloc::Global;
use std::io;
use std::io::{Read, Write};
use std::net::{Ipv4Addr, Net, TcpListener, TcpStream};
use std::sync::Wait;
use std::thread::Threads;
use text_commands::Ending;

/// Listens on `port` of 127.0.0.1.
fn listening<N: Net<Listener = TcpListener, Stream = TcpStream>>(
    net: &N,
    port: u16,
) -> io::Result<TcpListener> {
    TcpListener::bind(net, (Ipv4Addr::LOCALHOST, port))
}

/// Accepts a connection.
pub(crate) fn taken(listener: &TcpListener) -> io::Result<TcpStream> {
    let (stream, _) = listener.accept()?;
    stream.set_nodelay(true)?;
    Ok(stream)
}

/// Listens on `port` of 127.0.0.1, and accepts one connection.
fn accepted<N: Net<Listener = TcpListener, Stream = TcpStream>>(
    net: &N,
    port: u16,
) -> io::Result<TcpStream> {
    let listener = listening(net, port)?;
    taken(&listener)
}

/// Connects to `port` of 127.0.0.1.
fn connected<N: Net<Listener = TcpListener, Stream = TcpStream>>(
    net: &N,
    port: u16,
) -> io::Result<TcpStream> {
    let stream = TcpStream::connect(net, (Ipv4Addr::LOCALHOST, port))?;
    stream.set_nodelay(true)?;
    Ok(stream)
}

/// Runs a node's session over `stream`, and closes it. Fails with `Device` if there is no connection.
fn met<H: Wait>(
    rt: &H,
    alloc: Global,
    node: Node,
    turns: u32,
    stream: io::Result<TcpStream>,
) -> Result<Report, Ending>
    ensures printed { IfOk result (λ report. (received : List ℕ) × (sent : Sending) × IsPrinted node turns report.ending received sent report.text.items) }
    ensures early { IfErr result IsEarly }
{
    match stream {
        Ok(stream) => node.meet(
            rt,
            alloc,
            turns,
            &mut Counting::new(&stream),
            &mut Counting::new(&stream),
            &mut Writes::none(),
        ),
        Err(_) => Err(Ending::Device),
    }
}

/// Runs a node's first session over `stream`, and closes it. Fails with `Device` if there is no connection. It isn't inlined, since
/// its frame is large.
#[inline(never)]
fn met_first<H: Wait>(
    rt: &H,
    alloc: Global,
    node: Node,
    turns: u32,
    stream: io::Result<TcpStream>,
) -> Result<Meeting, Ending>
    ensures met { IfOk result (λ meeting. (received : List ℕ) × (sent : Sending) × IsMeeting node turns meeting received sent) }
    ensures early { IfErr result IsEarly }
{
    match stream {
        Ok(stream) => node.meet_or_fall_back(
            rt,
            alloc,
            turns,
            &mut Counting::new(&stream),
            &mut Counting::new(&stream),
            &mut Writes::none(),
        ),
        Err(_) => Err(Ending::Device),
    }
}

/// Runs the only session of a node that serves.
fn served_alone<N: Net<Listener = TcpListener, Stream = TcpStream> + Wait, I: Read + Faults>(
    rt: &N,
    alloc: Global,
    link: Link,
    input: &mut I,
) -> Result<Report, Ending>
    ensures printed { IfOk result (λ report. (scene : Scene) × IsServedAlone scene link report.ending report.text.items) }
    ensures early { IfErr result IsEarly }
{
    let Link {
        turns,
        port,
        name,
        peer,
        ..
    } = link;
    let node = Node::serving(rt, alloc, name, peer, input)?;
    met(rt, alloc, node, turns, accepted(rt, port))
}

/// Runs the sessions of a node side by side.
#[tactic(auto, using(crate::proofs::SharingLaws::shared_with))]
fn met_by_all<H: Threads + Wait + Sync>(
    rt: &H,
    alloc: Global,
    server: Server,
    turns: u32,
    listener: io::Result<TcpListener>,
) -> Result<Report, Ending>
    ensures printed { IfOk result (λ report. IsShared server turns report.ending report.text.items) }
    ensures early { IfErr result (λ ending. (ending ≡ endings.Memory) ⊎ (ending ≡ endings.Device)) }
{
    let Ok(listener) = listener else {
        return Err(Ending::Device);
    };
    let Server { tables, workers } = server;
    let all = serve_all(rt, alloc, &tables.shards, listener, turns, workers)?;
    total_of(alloc, tables, all)
}

/// Runs the sessions of a node that serves several.
fn served_shared<
    N: Net<Listener = TcpListener, Stream = TcpStream> + Threads + Wait + Sync,
    I: Read + Faults,
>(rt: &N, alloc: Global, link: Link, input: &mut I) -> Result<Report, Ending>
    ensures printed { IfOk result (λ report. (scene : Scene) × IsServedShared scene link report.ending report.text.items) }
    ensures early { IfErr result IsEarly }
{
    let server = Server::new(rt, alloc, &link.name, &link.peer, link.sessions, input)?;
    let report = met_by_all(rt, alloc, server, link.turns, listening(rt, link.port))?;
    Ok(report)
}

/// Runs the sessions of a node that serves.
fn served<
    N: Net<Listener = TcpListener, Stream = TcpStream> + Threads + Wait + Sync,
    I: Read + Faults,
>(rt: &N, alloc: Global, link: Link, input: &mut I) -> Result<Report, Ending>
    ensures printed { IfOk result (λ report. (scene : Scene) × IsServed scene link report.ending report.text.items) }
    ensures early { IfErr result IsEarly }
{
    if link.sessions == 1 {
        served_alone(rt, alloc, link, input)
    } else {
        served_shared(rt, alloc, link, input)
    }
}

/// Runs the session of a node that joins, and the one that follows if it falls back.
fn joined<N: Net<Listener = TcpListener, Stream = TcpStream> + Wait, I: Read + Faults>(
    rt: &N,
    alloc: Global,
    link: Link,
    input: &mut I,
) -> Result<Report, Ending>
    ensures printed { IfOk result (λ report. (scene : Scene) × IsJoined scene link report.ending report.text.items) }
    ensures early { IfErr result IsEarly }
{
    let Link {
        turns,
        port,
        name,
        peer,
        ..
    } = link;
    let node = Node::joining(rt, alloc, name, peer, input)?;
    let meeting = met_first(rt, alloc, node, turns, connected(rt, port))?;
    match meeting {
        Meeting::Over(report) => Ok(report),
        Meeting::FellBack(again) => met(rt, alloc, again, turns, connected(rt, port)),
    }
}

/// Prints the report of a session, or the line of the ending if there is no report.
fn reported<O: Write + Faults, E: Write + Faults>(
    alloc: Global,
    met: Result<Report, Ending>,
    output: &mut O,
    errors: &mut E,
) -> Ending
    requires { IfErr met IsEarly }
    ensures printed { HasRows result → (report : Report) × (met ≡ Ok report) × (report.ending ≡ result) × Appends (O.contents output.old) (O.contents output.new) report.text.items }
    ensures said { result ≢ Ending.Device → Appends (E.contents errors.old) (E.contents errors.new) (line_of result) }
    ensures silent { (HasRows result → ⊥) → result ≢ Ending.Device → output.new ≡ output.old }
    ensures device { result ≡ Ending.Device → (output.new ≡ output.old)
        ⊎ ((report : Report) × (met ≡ Ok report) × AppendsSome (O.contents output.old) (O.contents output.new) report.text.items) }
{
    match met {
        Ok(report) => report.print(output, errors),
        Err(ending) => ending.said(alloc, errors),
    }
}

/// Reads a scene from `input`, waits on the link's port for the other node to connect, and runs one session with it, which
/// teaches the rows of the scene. Then audits the tables, and writes on `output` how many turns the session made, and the rows that
/// the tables now have.
///
/// The session ends after the link's turns, when the other node closes the connection, or when it has a fault. If the scene is
/// refused, memory runs out, the audit finds a fault or the connection of the only session fails, `serve` writes nothing on
/// `output`. Unless a device fails, it writes the line of the ending on `errors`. `serve` waits for the other node.
///
/// If the link has several sessions, accepts as many connections, and runs the session of each in a thread of its own, with its own
/// number and seat, over the same tables and all at one moment. Writes how many turns they made together, the line `audit ok`, and the
/// rows. A session that has a fault or loses its connection ends alone; the first one that didn't end well decides how `serve` ends.
/// If a connection can't be accepted or a thread can't be started, `serve` waits for the sessions that run, and writes nothing on
/// `output`.
pub fn serve<
    N: Net<Listener = TcpListener, Stream = TcpStream> + Threads + Wait + Sync,
    I: Read + Faults,
    O: Write + Faults,
    E: Write + Faults,
>(rt: &N, alloc: Global, link: Link, input: &mut I, output: &mut O, errors: &mut E) -> Ending
    ensures printed { HasRows result → (scene : Scene) × (text : List ℕ) × IsServed scene link result text
        × Appends (O.contents output.old) (O.contents output.new) text }
    ensures said { result ≢ Ending.Device → Appends (E.contents errors.old) (E.contents errors.new) (line_of result) }
    ensures silent { (HasRows result → ⊥) → result ≢ Ending.Device → output.new ≡ output.old }
    ensures device { result ≡ Ending.Device → (output.new ≡ output.old)
        ⊎ ((scene : Scene) × (ending : Ending) × (text : List ℕ) × IsServed scene link ending text
        × AppendsSome (O.contents output.old) (O.contents output.new) text) }
{
    let met = served(rt, alloc, link, input);
    reported(alloc, met, output, errors)
}

/// Reads a scene from `input`, of which it takes only the tables, connects to the link's port, and runs one session with the node
/// that listens there, from which it requests all rows. Then audits the tables, and writes on `output` how many turns the session
/// made, and the rows that the tables now have.
///
/// The session ends as in `serve`, and also after the turn that sent `resync confirmed`, even if the resync was partial. If the other
/// node answers its hello with status 502, and turns are left, `join` closes the connection, connects again, and runs a session that
/// says version 2.0, with the same number and seat and its turns counted on.
pub fn join<
    N: Net<Listener = TcpListener, Stream = TcpStream> + Wait,
    I: Read + Faults,
    O: Write + Faults,
    E: Write + Faults,
>(rt: &N, alloc: Global, link: Link, input: &mut I, output: &mut O, errors: &mut E) -> Ending
    ensures printed { HasRows result → (scene : Scene) × (text : List ℕ) × IsJoined scene link result text
        × Appends (O.contents output.old) (O.contents output.new) text }
    ensures said { result ≢ Ending.Device → Appends (E.contents errors.old) (E.contents errors.new) (line_of result) }
    ensures silent { (HasRows result → ⊥) → result ≢ Ending.Device → output.new ≡ output.old }
    ensures device { result ≡ Ending.Device → (output.new ≡ output.old)
        ⊎ ((scene : Scene) × (ending : Ending) × (text : List ℕ) × IsJoined scene link ending text
        × AppendsSome (O.contents output.old) (O.contents output.new) text) }
{
    let met = joined(rt, alloc, link, input);
    reported(alloc, met, output, errors)
}
