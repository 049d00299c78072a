//! The subcommand `round`: threads change a table while a session's worker copies, plans, settles and acknowledges, and an audit
//! compares the table with what each of them did. Rounds follow one another over the same table.

mod laws;
mod starting;
mod table;
mod tracking;
mod worker;

ghost use Rattle.std.specs.Prelude.{◌≡◌, ◌≢◌, ◌≤◌, ◌⊎◌, ◌+◌, ◌*◌, ◌∷◌, [], ℕ, List, IfOk, IsTrue, OnOk, length};
ghost use Rattle.std.specs.List.{AllByRecursion};
ghost use Rattle.std.specs.Io.KnownBytes.{Appends};
ghost use Rattle.text_commands.specs.Endings.{line_of};
ghost use Rattle.table_shards.specs.Audits.{AuditState};
ghost use Rattle.node_commands.specs.Tracks.{GainsWork, HasDoneItsPart};
ghost use Rattle.node_commands.specs.Rounds.{AreRounds, GoesOn, IsAudited, IsCountingTable, IsCutShort, IsRoundTable, IsTextOf};

use crate::locks::{audit_of, lock, refused};
use crate::printing::round_text;
use crate::rounds::starting::{last_seat, track_from_gate, work_from_gate};
use crate::rounds::table::{SESSION, TABLE, is_counting_table, is_round_table, new_table, roster};
use known_state::Known;
pub use laws::a_round_counts_its_tracks;
use peers_devices::{Faults, write_all};
use peers_engine::AlwaysOpen;
pub use starting::StartGate;
use std::alloc::Global;
use std::io::Write;
use std::sync::Wait;
use std::thread;
use std::thread::{Promise, PromisedHandle, Threads};
use table_cell::OpenError;
use table_shards::held::lent;
use table_shards::{Audit, RoundError, Seat, Shards};
use table_types::{Memory, Version};
use text_commands::Ending;
pub use tracking::track_all;
pub use worker::work;

/// How many rounds there are, and the size of each.
#[derive(Clone, Copy, Debug, PartialEq, Eq)]
pub struct RoundSize {
    /// The number of threads that change the table, at most 8. They are counted from 1, and thread i changes the key i.
    pub threads: u32,
    /// The number of times that each thread adds 1 to gpc0 of its key in a round.
    pub tracks: u32,
    /// The number of rounds, at least 1.
    pub rounds: u32,
}

/// What each thread of a round promises: it returns its seat, which has then done its part.
impl Promise<Result<Seat, Ending>> for RoundSize {
    ghost kept_by = { λ asked result. IfOk result (HasDoneItsPart asked.threads asked.tracks) };
}

/// Runs rounds one after another over one table, and writes the line `audit ok` for each and the rows of the table on `output`.
///
/// In a round `asked.threads` threads change the table, each under the table's lock, while a session's worker in a thread of its
/// own copies, plans, settles and acknowledges until there is nothing to copy. Once all have ended, this thread continues as the
/// worker until there is again nothing to copy, and audits the table with the receipts of all seats. Each later round goes on with
/// the table that the audit left: its history begins anew, its session stays open, and its seats have no receipts. If a thread
/// can't be started, `round` joins those that run, and ends with `Device`, as it does if a call of the table is refused or an audit
/// finds a fault.
///
/// Writes on `output` only once all audits have found nothing wrong. If `round` ends with `Memory`, `output` is as it was; if it
/// ends with `Device`, `output` may have the beginning of the text, but never all of it. Unless it ends with `Device`, it
/// writes the line of the ending on `errors`. `round` waits for its threads.
pub fn round<R: Threads + Wait + Sync, W: Write + Faults, E: Write + Faults>(
    rt: &R,
    alloc: Global,
    asked: RoundSize,
    output: &mut W,
    errors: &mut E,
) -> Ending
    requires threads { asked.threads ≤ 8 }
    requires rounds { 1 ≤ asked.rounds }
    ensures done { result ≡ Ending.Done → (text : List ℕ) × IsTextOf asked.threads asked.tracks asked.rounds text × Appends (W.contents output.old) (W.contents output.new) text }
    ensures silent { result ≢ Ending.Done → (output.new ≡ output.old)
        ⊎ ((result ≡ Ending.Device) × IsCutShort asked.threads asked.tracks asked.rounds (W.contents output.old) (W.contents output.new)) }
    ensures ends { (result ≡ Ending.Done) ⊎ ((result ≡ Ending.Memory) ⊎ (result ≡ Ending.Device)) }
    ensures said { result ≢ Ending.Device → Appends (E.contents errors.old) (E.contents errors.new) (line_of result) }
{
    gated_round(rt, alloc, &AlwaysOpen, asked, output, errors)
}

/// Runs rounds as `round` does, but each of their threads, the workers' too, first stops at the gate.
pub fn gated_round<
    R: Threads + Wait + Sync,
    G: StartGate + Sync,
    W: Write + Faults,
    E: Write + Faults,
>(rt: &R, alloc: Global, gate: &G, asked: RoundSize, output: &mut W, errors: &mut E) -> Ending
    requires threads { asked.threads ≤ 8 }
    requires rounds { 1 ≤ asked.rounds }
    ensures done { result ≡ Ending.Done → (text : List ℕ) × IsTextOf asked.threads asked.tracks asked.rounds text × Appends (W.contents output.old) (W.contents output.new) text }
    ensures silent { result ≢ Ending.Done → (output.new ≡ output.old)
        ⊎ ((result ≡ Ending.Device) × IsCutShort asked.threads asked.tracks asked.rounds (W.contents output.old) (W.contents output.new)) }
    ensures ends { (result ≡ Ending.Done) ⊎ ((result ≡ Ending.Memory) ⊎ (result ≡ Ending.Device)) }
    ensures said { result ≢ Ending.Device → Appends (E.contents errors.old) (E.contents errors.new) (line_of result) }
{
    let text = match audited_text(rt, alloc, gate, asked) {
        Ok(text) => text,
        Err(Ending::Memory) => return Ending::Memory.said(alloc, errors),
        Err(_) => return Ending::device(errors),
    };
    match write_all(output, text.as_slice()) {
        Ok(()) => Ending::Done,
        Err(_) => Ending::device(errors),
    }
}

/// Runs the rounds, and returns their text.
fn audited_text<R: Threads + Wait + Sync, G: StartGate + Sync>(
    rt: &R,
    alloc: Global,
    gate: &G,
    asked: RoundSize,
) -> Result<Vec<u8>, Ending>
    requires threads { asked.threads ≤ 8 }
    requires rounds { 1 ≤ asked.rounds }
    ensures { IfOk result (λ text. IsTextOf asked.threads asked.tracks asked.rounds text.items) }
{
    let audit = run(rt, alloc, gate, asked)?;
    round_text(alloc, asked.rounds, &audit)
}

/// Runs the rounds, and returns the audit of the last one.
fn run<R: Threads + Wait + Sync, G: StartGate + Sync>(
    rt: &R,
    alloc: Global,
    gate: &G,
    asked: RoundSize,
) -> Result<Audit, Ending>
    requires threads { asked.threads ≤ 8 }
    requires rounds { 1 ≤ asked.rounds }
    ensures { IfOk result (λ audit. (earlier : List AuditState) × (length (audit ∷ earlier) ≡ asked.rounds) × AreRounds asked.threads asked.tracks (audit ∷ earlier)) }
{
    let mut known = Known::fresh(alloc, roster(alloc)?)?;
    let mut audit = first_round(rt, alloc, gate, asked, &mut known)?;
    for before in 1..asked.rounds {
        audit = later_round(rt, alloc, gate, asked, before, audit, &mut known)?;
    }
    Ok(audit)
}

/// Returns whether the only table is the new table of a round.
fn has_round_table(alloc: Global, audit: &Audit) -> Result<bool, Ending>
    ensures { IfOk result (λ has. IsTrue has → AllByRecursion (λ t. IsRoundTable t.cell) audit.now.unlocked.tables) }
{
    match audit.tables() {
        [table] => is_round_table(alloc, &table.cell),
        _ => Ok(false),
    }
}

/// Returns whether the only table is a round's, and the key of each of `threads` threads counts `count`.
fn has_counting_table(
    alloc: Global,
    audit: &Audit,
    threads: u32,
    count: u64,
) -> Result<bool, Ending>
    ensures { IfOk result (λ has. IsTrue has → AllByRecursion (λ t. IsCountingTable threads count t.cell) audit.now.unlocked.tables) }
{
    match audit.tables() {
        [table] => is_counting_table(alloc, &table.cell, threads, count),
        _ => Ok(false),
    }
}

/// Runs the first round over a new table, whose session it opens. Once its threads have ended, continues as the worker until there is
/// nothing to copy, and audits the table. Fails with `Device` unless the audited table is the round's: no contract of a lock says
/// which cell it holds.
#[tactic(auto, using(crate::proofs::TrackLaws::parts_done, crate::proofs::TrackLaws::more_worked))]
fn first_round<R: Threads + Wait + Sync, G: StartGate + Sync>(
    rt: &R,
    alloc: Global,
    gate: &G,
    asked: RoundSize,
    known: &mut Known,
) -> Result<Audit, Ending>
    requires { asked.threads ≤ 8 }
    ensures { IfOk result (λ audit. AreRounds asked.threads asked.tracks (audit ∷ [])) }
{
    let mut cells = Vec::new(alloc);
    cells.push(new_table(alloc)?).map_err(Memory::from)?;
    let (shards, mut seats) = Shards::new(alloc, cells, asked.threads + 2)?;
    let mut own = last_seat(&mut seats, asked)?;
    open(rt, &shards, &mut own)?;
    let mut done = run_threads(rt, alloc, gate, asked, &shards, seats, known)?;
    work(rt, alloc, &AlwaysOpen, &shards, &mut own, known)?;
    done.push(own).map_err(Memory::from)?;
    let audit = audit_of(alloc, shards, done)?;
    if has_round_table(alloc, &audit)? {
        Ok(audit)
    } else {
        Err(Ending::Device)
    }
}

/// Returns how rounds end if there is no next one because of `error`.
fn no_next(error: RoundError) -> Ending {
    match error {
        RoundError::Memory => Ending::Memory,
        RoundError::BatchOut => Ending::Device,
    }
}

/// Runs a round over the table that `before` rounds left, continues as the worker, and audits the table, as the first round does. Fails
/// with `Device` unless the threads' keys count as many tracks as all rounds made: no contract of a lock says which cell it holds.
#[tactic(auto, using(crate::proofs::TrackLaws::parts_done))]
fn later_round<R: Threads + Wait + Sync, G: StartGate + Sync>(
    rt: &R,
    alloc: Global,
    gate: &G,
    asked: RoundSize,
    before: u32,
    last: Audit,
    known: &mut Known,
) -> Result<Audit, Ending>
    requires { asked.threads ≤ 8 }
    ensures audited { IfOk result (λ audit. IsAudited asked.threads asked.tracks audit) }
    ensures goes_on { IfOk result (λ audit. GoesOn asked.threads ((before + 1) * asked.tracks) last audit) }
{
    let (shards, mut seats) = match last.next_round(alloc) {
        Ok(next) => next,
        Err((error, _)) => return Err(no_next(error)),
    };
    let mut own = last_seat(&mut seats, asked)?;
    let mut done = run_threads(rt, alloc, gate, asked, &shards, seats, known)?;
    work(rt, alloc, &AlwaysOpen, &shards, &mut own, known)?;
    done.push(own).map_err(Memory::from)?;
    let audit = audit_of(alloc, shards, done)?;
    let count = (u64::from(before) + 1) * u64::from(asked.tracks);
    if has_counting_table(alloc, &audit, asked.threads, count)? {
        Ok(audit)
    } else {
        Err(Ending::Device)
    }
}

/// Opens the session, while it holds the lock.
fn open<R: Wait>(rt: &R, shards: &Shards, seat: &mut Seat) -> Result<(), Ending>
    ensures { OnOk result (GainsWork seat.old seat.new) }
{
    let mut locked = lock(rt, shards, TABLE)?;
    match lent::open_session(&mut locked, seat, TABLE, SESSION, Version::V21) {
        Ok(()) => Ok(()),
        Err(error) => Err(refused(error, OpenError::Memory)),
    }
}

/// Joins threads, and returns their seats. Stops at the first one that failed: the scope then joins the others.
fn join_all<R: Threads>(
    rt: &R,
    alloc: Global,
    asked: RoundSize,
    handles: Vec<PromisedHandle<Result<Seat, Ending>, RoundSize>>,
) -> Result<Vec<Seat>, Ending>
    requires { AllByRecursion (λ handle. handle.promise ≡ asked) handles.items }
    ensures { IfOk result (λ seats. AllByRecursion (HasDoneItsPart asked.threads asked.tracks) seats.items) }
{
    let mut seats = Vec::new(alloc);
    for handle in handles {
        seats.push(handle.join(rt)?).map_err(Memory::from)?;
    }
    Ok(seats)
}

/// Starts a thread for each of `seats` but the last, which changes the key that is the seat's number, and one for the worker, which
/// has the last. Each stops at the gate first. Once all have started, joins them, and returns their seats. If a thread can't be
/// started, returns `Device` once those that run have ended.
fn run_threads<R: Threads + Wait + Sync, G: StartGate + Sync>(
    rt: &R,
    alloc: Global,
    gate: &G,
    asked: RoundSize,
    shards: &Shards,
    mut seats: Vec<Seat>,
    known: &mut Known,
) -> Result<Vec<Seat>, Ending>
    ensures { IfOk result (λ done. AllByRecursion (HasDoneItsPart asked.threads asked.tracks) done.items) }
{
    let Some(last) = seats.pop() else {
        return Err(Ending::Device);
    };
    thread::scope(
        thread::scope_env(),
        rt,
        move |scope| -> Result<Vec<Seat>, Ending>
            ensures { IfOk result (λ done. AllByRecursion (HasDoneItsPart asked.threads asked.tracks) done.items) }
        {
            let mut handles = Vec::new(alloc);
            for seat in seats {
                let started = scope.spawn_with(asked, move || {
                    track_from_gate(rt, gate, shards, seat, asked)
                });
                let Some(tracker) = started.ok() else {
                    return Err(Ending::Device);
                };
                handles.push(tracker).map_err(Memory::from)?;
            }
            let started = scope.spawn_with(asked, move || {
                work_from_gate(rt, alloc, gate, shards, last, known, asked)
            });
            let Some(worker) = started.ok() else {
                return Err(Ending::Device);
            };
            handles.push(worker).map_err(Memory::from)?;
            join_all(rt, alloc, asked, handles)
        },
    )
}
