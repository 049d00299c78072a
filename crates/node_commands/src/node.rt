//! A node that meets another: its tables, its session, and what it prints once the session is over.

mod auditing;
mod falling_back;
mod loading;
mod server;
mod sharing;
mod totals;
mod turns;

ghost use Rattle.std.specs.Prelude.{◌≡◌, ◌≢◌, ◌⊎◌, ◌∷◌, [], ℕ, List, true, false, IfErr, IfOk, string_bytes};
ghost use Rattle.std.specs.Io.KnownBytes.{Appends, Consumes};
ghost use Rattle.node_text.specs.declared.scenes.Scene.{Scene};
ghost use Rattle.text_commands.specs.Endings.{IsEarly, line_of};
ghost use Rattle.table_types.specs.declared.version.Version.TheVariants as versions;
ghost use Rattle.text_commands.specs.declared.endings.Ending.TheVariants as endings;
ghost use Rattle.table_shards.specs.Audits.{AuditState};
ghost use Rattle.node_commands.specs.Auditing.{IsAuditOf};
ghost use Rattle.node_commands.specs.Nodes.{AppendsSome, HasTakenTurns, IsJoining, IsPrinted, IsServing, has_rows, is_told, joining_session};
ghost use Rattle.node_commands.specs.Printing.{IsText};
ghost use Rattle.node_commands.specs.Turning.{sending, writer};

use crate::node::auditing::audited;
use crate::node::loading::{NodeTables, SESSION, opened};
use crate::node::server::waiting;
use crate::node::sharing::Served;
use crate::node::turns::{Pace, Turns, play};
use crate::printing::session_text;
pub use falling_back::Meeting;
use node_text::{Scene, read_scene};
use peers_devices::{Faults, Writes, read_to_end, write_all};
use peers_engine::Worker;
use peers_hello::Hello;
pub(crate) use server::Server;
use session_core::Session;
pub(crate) use sharing::serve_all;
use std::alloc::Global;
use std::io::{Read, Write};
use std::sync::Wait;
use table_shards::Seat;
use table_types::{Memory, Name, Roster, Version};
use text_commands::{Ending, rising_roster};
pub(crate) use totals::total_of;

/// A node that is about to meet another: its tables, which are loaded, and its session, ready to work.
#[derive(Drop)]
pub struct Node {
    pub(crate) tables: NodeTables,
    pub(crate) worker: Worker,
    pub(crate) pace: Pace,
    /// The session of another connection, if the other node refuses the version of the first one's hello.
    pub(crate) fallback: Option<Session>,
}

/// What a node has to print once its session is over: a text for the output, and the line of the ending for the writer for
/// errors.
#[derive(Debug, Drop)]
pub struct Report {
    pub(crate) text: Vec<u8>,
    pub(crate) ending: Ending,
    pub(crate) line: String,
    ghost says: { string_bytes line ≡ line_of ending },
    ghost told: { is_told ending ≡ true },
}

/// Reads a scene from `input`, up to its end.
pub(crate) fn scene_of<I: Read + Faults>(alloc: Global, input: &mut I) -> Result<Scene, Ending>
    ensures early { IfErr result IsEarly }
{
    let text = read_to_end(alloc, input)?;
    Ok(read_scene(alloc, text.as_slice())?)
}

/// Makes the node that serves the rows of `scene`.
#[tactic(auto, using(crate::proofs::NodeLaws::serving_with))]
fn serving_of<H: Wait>(
    rt: &H,
    alloc: Global,
    name: &Name,
    peer: &Name,
    scene: Scene,
) -> Result<Node, Ending>
    ensures node { IfOk result (λ node. IsServing scene name.now peer.now node) }
    ensures early { IfErr result IsEarly }
{
    let Scene {
        tables: definitions,
        updates,
        ..
    } = scene;
    let roster = rising_roster(definitions)?;
    let shared = roster.copy(alloc)?;
    let (tables, mut seats) = opened(rt, alloc, roster, updates.as_slice(), 1)?;
    let session = waiting(alloc, name, peer, shared)?;
    let worker = Worker {
        session,
        seat: seats.remove(0),
        number: SESSION,
    };
    Ok(Node {
        tables,
        worker,
        pace: Pace {
            leaves: false,
            stands: false,
            taken: 0,
        },
        fallback: None,
    })
}

/// Makes a session of a node that joins, which says this version. It isn't up to date.
#[tactic(auto, unfolding(crate::specs::Nodes::joining_session))]
fn joining_session(
    alloc: Global,
    name: &Name,
    peer: &Name,
    roster: &Roster,
    version: Version,
) -> Result<Session, Memory>
    ensures { IfOk result (λ session. session ≡ joining_session name.now peer.now version roster.now) }
{
    let hello = Hello {
        remote: peer.copy(alloc)?,
        local: name.copy(alloc)?,
        pid: 1,
        relative: 1,
        version,
    };
    Session::connect(alloc, hello, roster.copy(alloc)?, false)
}

/// Makes the sessions of a node that joins: one that says version 2.1, and one that says 2.0, which follows if the first falls back.
fn joining_sessions(
    alloc: Global,
    name: &Name,
    peer: &Name,
    roster: &Roster,
) -> Result<(Session, Session), Memory>
    ensures { IfOk result (λ sessions. (sessions.0 ≡ joining_session name.now peer.now versions.V21 roster.now) × (sessions.1 ≡ joining_session name.now peer.now versions.V20 roster.now)) }
{
    let session = joining_session(alloc, name, peer, roster, Version::V21)?;
    let fallback = joining_session(alloc, name, peer, roster, Version::V20)?;
    Ok((session, fallback))
}

/// Makes the node that joins with the tables of `scene`.
#[tactic(auto, using(crate::proofs::NodeLaws::joining_with))]
fn joining_of<H: Wait>(
    rt: &H,
    alloc: Global,
    name: &Name,
    peer: &Name,
    scene: Scene,
) -> Result<Node, Ending>
    ensures node { IfOk result (λ node. IsJoining scene name.now peer.now node) }
    ensures early { IfErr result IsEarly }
{
    let Scene {
        tables: definitions,
        ..
    } = scene;
    let roster = rising_roster(definitions)?;
    let shared = roster.copy(alloc)?;
    let (tables, mut seats) = opened(rt, alloc, roster, &[], 1)?;
    let (session, fallback) = joining_sessions(alloc, name, peer, &shared)?;
    let worker = Worker {
        session,
        seat: seats.remove(0),
        number: SESSION,
    };
    Ok(Node {
        tables,
        worker,
        pace: Pace {
            leaves: true,
            stands: false,
            taken: 0,
        },
        fallback: Some(fallback),
    })
}

/// Returns whether the rows are printed after a session that ended with `ending`.
fn has_rows(ending: Ending) -> bool
    ensures { result ≡ has_rows ending }
{
    match ending {
        Ending::Done | Ending::Stream(_) | Ending::Strange | Ending::Unasked => true,
        Ending::Line(_)
        | Ending::Scene
        | Ending::Configuration
        | Ending::NotShortest
        | Ending::Memory
        | Ending::Device => false,
    }
}

/// Returns whether the rows are printed after several sessions of which the first one that didn't end well ended with `ending`.
pub(crate) fn is_told(ending: Ending) -> bool
    ensures { result ≡ is_told ending }
{
    has_rows(ending) || matches!(ending, Ending::Device)
}

/// Returns the ending of a session whose rows aren't printed: `Device` if a device failed, `Memory` otherwise.
pub(crate) fn early(ending: Ending) -> Ending
    ensures { (result ≡ Ending.Memory) ⊎ (result ≡ Ending.Device) }
{
    match ending {
        Ending::Device => Ending::Device,
        _ => Ending::Memory,
    }
}

/// Audits the tables with the seats of the sessions, and returns the text of a session's `turns` turns and of the tables' rows.
fn text_of(
    alloc: Global,
    tables: NodeTables,
    seats: Vec<Seat>,
    turns: u32,
) -> Result<Vec<u8>, Ending>
    ensures text { IfOk result (λ text. (a : AuditState) × IsAuditOf tables seats.items a × IsText turns a.unlocked.tables text.items) }
    ensures early { IfErr result (λ ending. (ending ≡ endings.Memory) ⊎ (ending ≡ endings.Device)) }
{
    let audit = audited(alloc, tables, seats)?;
    let text = session_text(alloc, turns, audit.tables())?;
    Ok(text)
}

/// Returns the seat from which a worker called the tables.
fn seat_of(worker: Worker) -> Seat
    ensures { result ≡ worker.seat }
{
    worker.seat
}

/// Makes the report of the last session, which is over: the number of turns that the node took, and the rows that the tables now have,
/// once they are audited with the session's seat. Fails with the session's ending if no rows are printed after it, with `Device` if the
/// audit finds a fault, and with `Memory` if memory runs out.
fn report_of(
    alloc: Global,
    tables: NodeTables,
    served: Served,
    turns: u32,
) -> Result<Report, Ending>
    ensures text { IfOk result (λ report. (a : AuditState) × IsAuditOf tables (served.worker.seat ∷ []) a × IsText turns a.unlocked.tables report.text.items) }
    ensures ending { IfOk result (λ report. report.ending ≡ served.played.ending) }
    ensures early { IfErr result (λ ending. (ending ≡ endings.Memory) ⊎ (ending ≡ endings.Device)) }
{
    let Served { worker, played } = served;
    let seat = seat_of(worker);
    let ending = played.ending;
    if !has_rows(ending) {
        return Err(early(ending));
    }
    let mut seats = Vec::with_capacity(alloc, 1)?;
    seats.push(seat).map_err(Memory::from)?;
    let text = text_of(alloc, tables, seats, turns)?;
    let line = ending.line(alloc)?;
    Ok(Report { text, ending, line })
}

impl Node {
    /// Makes the node `name` that waits for `peer` to connect. Reads a scene from `input`: the node has the scene's tables, which
    /// have learned its updates. Its session is up to date. Fails with `Line` or `Scene` if the scene is refused, with `Device`
    /// if the input can't be read, and with `Memory` if memory runs out.
    pub fn serving<H: Wait, I: Read + Faults>(
        rt: &H,
        alloc: Global,
        name: Name,
        peer: Name,
        input: &mut I,
    ) -> Result<Node, Ending>
        ensures node { IfOk result (λ node. (scene : Scene) × IsServing scene name peer node) }
        ensures early { IfErr result IsEarly }
    {
        let scene = scene_of(alloc, input)?;
        let node = serving_of(rt, alloc, &name, &peer, scene)?;
        Ok(node)
    }

    /// Makes the node `name` that connects to `peer`. Reads a scene from `input`: the node has the scene's tables, without rows.
    /// Its session isn't up to date: it requests a resync, and ends once it has confirmed it. It says version 2.1, and has another
    /// session ready that says 2.0. Fails as `serving` does. It isn't inlined, since its frame is large.
    #[inline(never)]
    pub fn joining<H: Wait, I: Read + Faults>(
        rt: &H,
        alloc: Global,
        name: Name,
        peer: Name,
        input: &mut I,
    ) -> Result<Node, Ending>
        ensures node { IfOk result (λ node. (scene : Scene) × IsJoining scene name peer node) }
        ensures early { IfErr result IsEarly }
    {
        let scene = scene_of(alloc, input)?;
        let node = joining_of(rt, alloc, &name, &peer, scene)?;
        Ok(node)
    }

    /// Runs the session with the other node for at most `turns` turns, those of an earlier session included, audits the tables, and
    /// returns what is to be printed. `from` reads what the other node sends, and `to` writes what it receives; the writes are counted
    /// in `writes`. Fails with `Device` if a read or a write fails or the audit finds a fault, and with `Memory` if memory runs out:
    /// then nothing is printed.
    pub fn meet<H: Wait, R: Read + Faults, W: Write + Faults>(
        self,
        rt: &H,
        alloc: Global,
        turns: u32,
        from: &mut R,
        to: &mut W,
        writes: &mut Writes,
    ) -> Result<Report, Ending>
        ensures played { (received sent : List ℕ)
            × HasTakenTurns self turns received (sending sent (writer (W.contents to.old) writes.old (W.failed to.old)) (writer (W.contents to.new) writes.new (W.failed to.new)))
            × Consumes (R.remaining from.old) (R.remaining from.new) received
            × Appends (W.contents to.old) (W.contents to.new) sent }
        ensures printed { IfOk result (λ report. (received sent : List ℕ)
            × IsPrinted self turns report.ending received (sending sent (writer (W.contents to.old) writes.old (W.failed to.old)) (writer (W.contents to.new) writes.new (W.failed to.new))) report.text.items
            × Consumes (R.remaining from.old) (R.remaining from.new) received
            × Appends (W.contents to.old) (W.contents to.new) sent) }
        ensures early { IfErr result (λ ending. (ending ≡ endings.Memory) ⊎ (ending ≡ endings.Device)) }
    {
        let Node {
            tables,
            mut worker,
            pace,
            ..
        } = self;
        let most = turns.saturating_sub(pace.taken);
        let asked = Turns { pace, most };
        let played = play(
            rt,
            alloc,
            &tables.shards,
            &mut worker,
            asked,
            from,
            to,
            writes,
        );
        let taken = pace.taken + played.turns;
        report_of(alloc, tables, Served { worker, played }, taken)
    }
}

impl Report {
    /// Writes the text on `output` and the line of the ending on `errors`, and returns the ending: `Device` if a writer fails. Then
    /// `output` may have only the beginning of the text.
    pub fn print<O: Write + Faults, E: Write + Faults>(
        self,
        output: &mut O,
        errors: &mut E,
    ) -> Ending
        ensures ends { result ≢ Ending.Device → result ≡ self.ending }
        ensures printed { result ≢ Ending.Device → Appends (O.contents output.old) (O.contents output.new) self.text.items }
        ensures said { result ≢ Ending.Device → Appends (E.contents errors.old) (E.contents errors.new) (line_of result) }
        ensures device { result ≡ Ending.Device → AppendsSome (O.contents output.old) (O.contents output.new) self.text.items }
    {
        match write_all(output, self.text.as_slice()) {
            Ok(()) => self.ending.written(errors, self.line.as_str()),
            Err(_) => Ending::device(errors),
        }
    }
}
