//! Calls of `t1` and of `wide` for which memory may run out: such a call changes nothing, and returns what it should when it is made
//! again. Each function may be run with any one allocation failing, or with none.

use crate::cells::{SERVER, WIDE, cell, count, has, is_wide, key_of, only, received};
use crate::ends::{moment, row};
use crate::next_rounds::begun_anew;
use crate::round::Round;
use std::alloc::Global;
use std::sync::Wait;
use table_cell::{
    AckError, CloseError, CopyError, LearnError, OpenError, PurgeError, TableCell, TrackError,
};
use table_rows::{ListRows, MapRows, Rows};
use table_shards::{Audit, RoundError, Seat, ShardError, Shards, held};
use table_types::{Batch, Change, CopyKind, DataType, Key, Moment, Settled, Update, Version};
use tests_play_data::outcomes::{Outcome, is_out};
use tests_play_data::parts::{T1, named, text_key};

/// A call of a table, and what it returns at the point at which it is made.
#[derive(Clone, Copy, Debug, PartialEq, Eq)]
pub enum Call {
    /// Opens this session.
    Open(u32),
    /// Adds to the count of a key, or sets the server's name by adding 0: the key, how much, and the row's number and count. A key of
    /// `wide` is a letter.
    Track(u32, u64, u32, u64),
    /// Learns 5 for key 7 in session 1, or for key `a` of `wide`: the row's number.
    Learn(u32),
    /// Copies what is due to session 1, which is one row: its number and count.
    Copy(u32, u64),
    /// Acknowledges this number in session 1, which is all that it was taught.
    Ack(u32),
    /// Closes this session.
    Close(u32),
    /// Purges 30 s later: how many rows.
    Purge(usize),
}

/// A call, the calls before it, and the keys and counts of the rows before and after it.
pub struct Story {
    /// What is printed if memory runs out for the call.
    pub name: &'static str,
    /// Whether the table is `wide`, and not `t1`.
    pub is_wide: bool,
    /// How many rows the table has room for: 1, or 10 if not.
    pub is_narrow: bool,
    pub before: &'static [Call],
    pub rows: &'static [(u32, u64)],
    pub call: Call,
    pub rows_after: &'static [(u32, u64)],
}

/// Makes the change that adds `more`.
fn add(more: u64) -> Change {
    Change::Add(DataType::Gpc0, more)
}

/// Makes the change that adds `more`, or sets the server's name if that is 0.
fn change(alloc: Global, more: u64) -> Option<Change> {
    if more > 0 {
        return Some(add(more));
    }
    Some(Change::SetName(Some(named(alloc, SERVER)?)))
}

fn tracks(
    alloc: Global,
    cell: &mut TableCell,
    key: u32,
    more: u64,
    (number, counted): (u32, u64),
) -> Option<bool> {
    let (key, change) = key_of(alloc, is_wide(cell), key).zip(change(alloc, more))?;
    match cell.track(0, key, change, Moment::least()) {
        Ok(reply) => Some(reply.number == number && count(&reply.row) == Some(counted)),
        Err(TrackError::Memory) => None,
        Err(_) => Some(false),
    }
}

/// Makes the update that a table learns, a second time if memory runs out for it.
fn five(alloc: Global, is_wide: bool) -> Option<Update> {
    match received(alloc, is_wide) {
        Some(update) => Some(update),
        None => received(alloc, is_wide),
    }
}

fn learns(alloc: Global, cell: &mut TableCell, number: u32) -> Option<bool> {
    let five = five(alloc, is_wide(cell))?;
    match cell.learn(1, five, Moment::least()) {
        Ok(reply) => Some(reply.number == number && count(&reply.row) == Some(5)),
        Err(LearnError::Memory) => None,
        Err(_) => Some(false),
    }
}

fn copies(cell: &mut TableCell, number: u32, counted: u64) -> Option<bool> {
    match cell.copy(1, CopyKind::Push, 512, Moment::least()) {
        Ok(batch) => Some(only(&batch) == Some((number, 30_000, counted))),
        Err(CopyError::Memory) => None,
        Err(_) => Some(false),
    }
}

fn purges(cell: &mut TableCell, purged: usize) -> Option<bool> {
    match cell.purge(moment(30_000)?) {
        Ok(count) => Some(count == purged),
        Err(PurgeError::Memory) => None,
        Err(_) => Some(false),
    }
}

/// Makes a call, and returns whether it returns what it should; `None` if memory runs out.
fn is_made(alloc: Global, cell: &mut TableCell, call: Call) -> Option<bool> {
    match call {
        Call::Open(session) => match cell.open_session(session, Version::V21) {
            Err(OpenError::Memory) => None,
            answer => Some(answer == Ok(())),
        },
        Call::Track(key, more, number, counted) => {
            tracks(alloc, cell, key, more, (number, counted))
        }
        Call::Learn(number) => learns(alloc, cell, number),
        Call::Copy(number, counted) => copies(cell, number, counted),
        Call::Ack(number) => match cell.ack(1, number) {
            Err(AckError::Memory) => None,
            answer => Some(answer == Ok(Settled::All)),
        },
        Call::Close(session) => match cell.close_session(session) {
            Err(CloseError::Memory) => None,
            answer => Some(answer == Ok(())),
        },
        Call::Purge(purged) => purges(cell, purged),
    }
}

fn are_made(alloc: Global, cell: &mut TableCell, calls: &[Call]) -> bool {
    for call in calls {
        if is_made(alloc, cell, *call) != Some(true) {
            return false;
        }
    }
    true
}

/// Makes `t1` or `wide` with room for one row, or for ten, and makes these calls.
fn prepared(
    alloc: Global,
    (is_wide, is_narrow): (bool, bool),
    before: &[Call],
) -> Option<TableCell> {
    let size = if is_narrow { 1 } else { 10 };
    let mut cell = if is_wide {
        cell(alloc, &WIDE, size)?
    } else {
        cell(alloc, &T1, size)?
    };
    if are_made(alloc, &mut cell, before) {
        Some(cell)
    } else {
        None
    }
}

/// Returns whether the table has `events` events and these rows. Asks a second time if memory runs out for the rows.
fn stands(cell: &TableCell, events: u64, rows: &[(u32, u64)]) -> bool {
    let has_rows = match has(cell, rows) {
        Some(has) => has,
        None => has(cell, rows) == Some(true),
    };
    cell.events() == events && has_rows
}

/// Makes the call of a story, again if memory runs out for it.
fn goes(alloc: Global, cell: &mut TableCell, story: &Story) -> Outcome {
    let events = cell.events();
    let made_events = events.saturating_add(1);
    match is_made(alloc, cell, story.call) {
        Some(right) => Outcome::of(right && stands(cell, made_events, story.rows_after)),
        None => Outcome::refused(
            stands(cell, events, story.rows)
                && is_made(alloc, cell, story.call) == Some(true)
                && stands(cell, made_events, story.rows_after),
        ),
    }
}

fn plays(alloc: Global, story: &Story) -> Option<Outcome> {
    let mut cell = prepared(alloc, (story.is_wide, story.is_narrow), story.before)?;
    Some(goes(alloc, &mut cell, story))
}

/// Plays each story, prepared a second time if memory runs out before its call. Returns the index of the first that fails.
pub fn first_failing<P: Print>(rt: &P, alloc: Global, stories: &[Story]) -> Option<usize> {
    for (place, story) in stories.iter().enumerate() {
        let outcome = match plays(alloc, story) {
            Some(outcome) => outcome,
            None => plays(alloc, story).unwrap_or(Outcome::Unready),
        };
        if !outcome.is_right(rt, story.name) {
            return Some(place);
        }
    }
    None
}

/// A call that is made from a seat, or of the tables of a round.
#[derive(Clone, Copy, Debug, PartialEq, Eq)]
pub enum Shared {
    /// Adds 1 to key 7, which has 5.
    Track,
    /// Copies the row of key 7 for session 1.
    Copy,
    /// Takes the tables out of their locks.
    Unlock,
    /// Begins another round with an audited one.
    NextRound,
}

/// What is done before such a call: session 1 is open, and key 7 has 5.
const BEFORE: &[Call] = &[Call::Open(1), Call::Track(7, 5, 1, 5)];

/// Makes `t1` under its lock, and its seat.
fn begun(alloc: Global) -> Option<Round> {
    let cells = vec![in alloc; prepared(alloc, (false, false), BEFORE)?].ok()?;
    let (shards, mut seats) = Shards::new(alloc, cells, 1).ok()?;
    let seat = seats.pop();
    Some(Round { shards, seat })
}

/// Copies the rows for session 1 under the lock of `t1`. Takes the seat and puts it back.
pub(crate) fn copied<R: Wait>(
    rt: &R,
    round: &mut Round,
) -> Option<Result<Batch, ShardError<CopyError>>> {
    let lock = round.shards.cell(1)?;
    let taken = round.seat.take()?;
    let mut locked = lock.lock(rt);
    let (back, answer) = held::copy(
        &mut locked,
        taken,
        1,
        1,
        CopyKind::Push,
        512,
        Moment::least(),
    );
    round.seat = Some(back);
    Some(answer)
}

/// Makes a call from the seat, and returns whether it returns what it should; `None` if memory runs out.
fn is_shared<R: Wait>(rt: &R, round: &mut Round, is_copy: bool) -> Option<bool> {
    if is_copy {
        return match copied(rt, round) {
            Some(Ok(batch)) => Some(only(&batch) == Some((1, 30_000, 5))),
            Some(Err(ShardError::Memory)) => None,
            Some(Err(ShardError::Cell(CopyError::Memory))) => None,
            _ => Some(false),
        };
    }
    match round.track_at(rt, 1, 1, Key::Int(7)) {
        Some(Ok(reply)) => Some(reply.number == 2 && count(&reply.row) == Some(6)),
        Some(Err(ShardError::Memory)) => None,
        Some(Err(ShardError::Cell(TrackError::Memory))) => None,
        _ => Some(false),
    }
}

/// Returns how many events `t1` has had, and how many of them were dropped.
fn events<R: Wait>(rt: &R, shards: &Shards) -> Option<(u64, u64)> {
    let locked = shards.cell(1)?.lock(rt);
    Some((locked.cell().events(), locked.cell().dropped()))
}

/// Returns whether `t1` has `events_of` events, and the seat `receipts` receipts.
fn has_receipts<R: Wait>(rt: &R, round: &Round, events_of: u64, receipts: usize) -> bool {
    events(rt, &round.shards) == Some((events_of, 0)) && round.receipts(1) == Some(receipts)
}

/// Makes a call from the seat, again if memory runs out for it: the seat then comes back without a receipt.
fn shares<R: Wait>(rt: &R, round: &mut Round, is_copy: bool) -> Outcome {
    match is_shared(rt, round, is_copy) {
        Some(right) => Outcome::of(right && has_receipts(rt, round, 3, 1)),
        None => Outcome::refused(
            has_receipts(rt, round, 2, 0)
                && is_shared(rt, round, is_copy) == Some(true)
                && has_receipts(rt, round, 3, 1),
        ),
    }
}

/// Takes the tables out of their locks, again if memory runs out for it: they then come back as they were. Audits them in the end.
fn unlocks<R: Wait>(rt: &R, alloc: Global, shards: Shards, seats: Vec<Seat>) -> Outcome {
    match shards.unlock(alloc) {
        Ok(tables) => Outcome::of(tables.audit(seats).is_ok()),
        Err((_, back)) => {
            let stayed = events(rt, &back) == Some((3, 0));
            match back.unlock(alloc) {
                Ok(tables) => Outcome::refused(stayed && tables.audit(seats).is_ok()),
                Err(_) => Outcome::Wrong,
            }
        }
    }
}

/// Makes a list of the seat alone.
fn seats(alloc: Global, seat: Option<Seat>) -> Option<Vec<Seat>> {
    vec![in alloc; seat?].ok()
}

/// Makes `t1` under its lock, with a track of key 7 from its seat.
fn tracked<R: Wait>(rt: &R, alloc: Global) -> Option<Round> {
    let mut round = begun(alloc)?;
    if is_shared(rt, &mut round, false) == Some(true) {
        Some(round)
    } else {
        None
    }
}

/// Takes `t1` out of its lock once the seat has a receipt.
fn unlocks_tracked<R: Wait>(rt: &R, alloc: Global) -> Option<Outcome> {
    let Round { shards, seat } = tracked(rt, alloc)?;
    let (shards, seats) = Some(shards).zip(seats(alloc, seat))?;
    Some(unlocks(rt, alloc, shards, seats))
}

/// Returns whether the audit has `t1` with its three events, and the seat with its receipt.
fn is_whole(audit: &Audit) -> bool {
    let ([table], [seat]) = (audit.tables(), audit.seats()) else {
        return false;
    };
    let cell = &table.cell;
    cell.events() == 3 && cell.dropped() == 0 && seat.receipts(1).len() == 1
}

/// Returns whether a round has `t1` with three events, all of them dropped, and seat 1, which has seen them and has no receipt.
fn is_anew<R: Wait>(rt: &R, shards: &Shards, seats: &[Seat]) -> bool {
    let [seat] = seats else {
        return false;
    };
    let has_seen = seat.number() == 1 && seat.seen(1) == 3 && seat.receipts(1).is_empty();
    has_seen && events(rt, shards) == Some((3, 3))
}

/// Begins another round with an audited one, again if memory runs out for it: the audit then comes back as it was.
fn goes_on<R: Wait>(rt: &R, alloc: Global, audit: Audit) -> Outcome {
    match audit.next_round(alloc) {
        Ok((shards, seats)) => Outcome::of(is_anew(rt, &shards, seats.as_slice())),
        Err((error, back)) => {
            let stayed = error == RoundError::Memory && is_whole(&back);
            match back.next_round(alloc) {
                Ok((shards, seats)) => {
                    Outcome::refused(stayed && is_anew(rt, &shards, seats.as_slice()))
                }
                Err(_) => Outcome::Wrong,
            }
        }
    }
}

/// Begins another round once `t1` and its seat are audited.
fn goes_on_audited<R: Wait>(rt: &R, alloc: Global) -> Option<Outcome> {
    let audit = tracked(rt, alloc)?.audit(alloc)?.ok()?;
    Some(goes_on(rt, alloc, audit))
}

fn shares_begun<R: Wait>(rt: &R, alloc: Global, is_copy: bool) -> Option<Outcome> {
    let mut round = begun(alloc)?;
    Some(shares(rt, &mut round, is_copy))
}

fn played<R: Wait>(rt: &R, alloc: Global, call: Shared) -> Option<Outcome> {
    match call {
        Shared::Track => shares_begun(rt, alloc, false),
        Shared::Copy => shares_begun(rt, alloc, true),
        Shared::Unlock => unlocks_tracked(rt, alloc),
        Shared::NextRound => goes_on_audited(rt, alloc),
    }
}

/// Returns how the call went, prepared a second time if memory ran out before it.
pub fn outcome<R: Wait>(rt: &R, alloc: Global, call: Shared) -> Outcome {
    match played(rt, alloc, call) {
        Some(outcome) => outcome,
        None => played(rt, alloc, call).unwrap_or(Outcome::Unready),
    }
}

/// What calls that don't allocate need: `t1` with a batch out, and `t1` whose batch was acknowledged; `t1` under its lock, and its seat; a
/// string key; and the row of key 7 in both types that hold rows.
#[derive(Drop)]
struct Ready {
    cell: TableCell,
    batch: Batch,
    quiet: TableCell,
    round: Round,
    text: Key,
    map: MapRows,
    list: ListRows,
}

fn put_seven<R: Rows>(alloc: Global, rows: &mut R) -> Option<()> {
    rows.put(Key::Int(7), row(alloc, 1, None).ok()?).ok()?;
    Some(())
}

fn filled(alloc: Global) -> Option<(MapRows, ListRows)> {
    let mut map = MapRows::new(alloc);
    let mut list = ListRows::new(alloc);
    put_seven(alloc, &mut map)?;
    put_seven(alloc, &mut list)?;
    Some((map, list))
}

fn handed_out(alloc: Global) -> Option<(TableCell, Batch)> {
    let mut cell = prepared(alloc, (false, false), BEFORE)?;
    match cell.copy(1, CopyKind::Push, 512, Moment::least()) {
        Ok(batch) => Some((cell, batch)),
        Err(_) => None,
    }
}

/// What is done before a checkpoint: nothing is out, and there were four events.
const BEFORE_CHECKPOINT: &[Call] = &[
    Call::Open(1),
    Call::Track(7, 5, 1, 5),
    Call::Copy(1, 5),
    Call::Ack(1),
];

fn make_ready(alloc: Global) -> Option<Ready> {
    let ((cell, batch), (map, list)) = handed_out(alloc).zip(filled(alloc))?;
    let (quiet, round) = prepared(alloc, (false, false), BEFORE_CHECKPOINT).zip(begun(alloc))?;
    let text = text_key(alloc, b"a")?;
    Some(Ready {
        cell,
        batch,
        quiet,
        round,
        text,
        map,
        list,
    })
}

/// Returns whether `settle`, a track with a key of another kind, and `slide` return what they should of a table with a batch out,
/// which is still known after the slide.
fn slides(cell: &mut TableCell, batch: &Batch, text: Key) -> bool {
    let settled = cell.settle(1, batch) == Ok(());
    let tracked = cell.track(0, text, add(1), Moment::least());
    let refused = matches!(tracked, Err(TrackError::WrongKey));
    let slid = cell.slide().count() == 3;
    settled && refused && slid && cell.settle(1, batch) == Ok(())
}

/// Returns whether a table with a row that was tracked at the least moment tells its latest moment, its next number and when the row
/// ends.
fn tells(cell: &TableCell) -> bool {
    cell.latest() == Moment::least() && cell.next_number() == 2 && cell.next_end() == moment(30_000)
}

/// Returns whether a checkpoint drops the four events of a table without a batch out, and nothing that it tells of its row.
fn begins_anew(cell: &mut TableCell) -> bool {
    let told = tells(cell);
    cell.checkpoint() == Ok(()) && cell.events() == 4 && cell.dropped() == 4 && told && tells(cell)
}

/// Returns whether `held::begin_anew` drops the two events of `t1`, and none once they are dropped, and the seat comes back each time,
/// without a receipt.
fn begins_anew_from_a_seat<R: Wait>(rt: &R, round: &mut Round) -> bool {
    let begun = begun_anew(rt, round) == Some(Ok(2)) && begun_anew(rt, round) == Some(Ok(0));
    begun && events(rt, &round.shards) == Some((2, 2)) && round.receipts(1) == Some(0)
}

/// Returns whether `settle`, a track with a key of another kind, `slide`, `checkpoint`, `held::begin_anew` and `Rows::take` return what
/// they should.
fn answers<R: Wait>(rt: &R, ready: Ready) -> bool {
    let Ready {
        mut cell,
        batch,
        mut quiet,
        mut round,
        text,
        mut map,
        mut list,
    } = ready;
    let answered = slides(&mut cell, &batch, text) && begins_anew(&mut quiet);
    let begun = begins_anew_from_a_seat(rt, &mut round);
    answered && begun && map.take(&Key::Int(7)).is_some() && list.take(&Key::Int(7)).is_some()
}

fn needs_none<R: Wait>(rt: &R, alloc: Global) -> Option<Outcome> {
    let ready = make_ready(alloc)?;
    let is_out = is_out(alloc);
    let right = answers(rt, ready);
    Some(if is_out {
        Outcome::refused(right)
    } else {
        Outcome::of(right)
    })
}

/// Returns how calls went that don't allocate; `Refused` if there was no memory meanwhile, and they returned what they should. They
/// count as made if there is no memory to prepare them.
pub fn outcome_without_memory<R: Wait>(rt: &R, alloc: Global) -> Outcome {
    match needs_none(rt, alloc) {
        Some(outcome) => outcome,
        None => {
            if is_out(alloc) {
                Outcome::Made
            } else {
                needs_none(rt, alloc).unwrap_or(Outcome::Unready)
            }
        }
    }
}
