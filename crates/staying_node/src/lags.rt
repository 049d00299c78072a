//! What the peers lack: the rows that are still to be pushed to them, or to be acknowledged by them.

use crate::node::Node;
use crate::tables::{lock, not_before_latest, number_of};
use admin_port::TableLag;
use std::alloc::{AllocError, Global};
use std::sync::{Mutex, Wait};
use std::time::Clock;
use table_cell::{Pending, TableCell};
use table_types::{CopyKind, TableDef};

/// How many rows of a table are looked at at once, while its lock is held, to be counted.
const PART: usize = 512;

/// The most parts in which a table is counted, whatever is changed meanwhile: those of a resync, and those that are pushed behind it.
const PARTS: usize = 2 * (TableCell::MOST_ROWS / PART + 1);

/// The node keeps a count for a while if it looked at this many parts of a table or more to make it.
const MANY_PARTS: usize = 64;

/// How long it is kept, in milliseconds.
const KEPT: u64 = 5_000;

/// How many counts are kept at most.
const MOST_KEPT: usize = 1_024;

/// What a peer lacks of a table.
#[derive(Clone, Copy, Debug)]
struct Lag {
    /// How many rows.
    rows: u64,
    /// The number of the first of them.
    first: Option<u32>,
}

impl Lag {
    /// Returns what a peer lacks that has all rows.
    fn none() -> Lag {
        Lag {
            rows: 0,
            first: None,
        }
    }

    /// Returns this lag with the rows of a part.
    fn plus(self, part: Pending) -> Lag {
        Lag {
            rows: self.rows.saturating_add(part.count as u64),
            first: self.first.or(part.first),
        }
    }
}

/// The rows of a table that haven't been counted yet.
#[derive(Clone, Copy, Debug)]
struct Rest {
    /// The copies that include them.
    kind: CopyKind,
    /// The number above which they come.
    number: u32,
}

/// How far a peer is in a table. Those that are equally far lack the same rows.
#[derive(Clone, Copy, Debug, PartialEq, Eq)]
struct Reach {
    table: u64,
    /// The number up to which it has acknowledged.
    acknowledged: u32,
    /// The number up to which a resync teaches it, if one is under way.
    taught_to: Option<u32>,
}

/// A count of many rows.
#[derive(Clone, Copy, Debug)]
struct Counted {
    /// The session of the peer for which they were counted, and how far that was.
    session: u32,
    reach: Reach,
    /// When they had been counted, in milliseconds since the node began.
    at: u64,
    lag: Lag,
}

/// The latest counts of many rows, so that whoever asks often doesn't have the same rows counted again and again.
#[derive(Drop)]
pub(crate) struct Lags {
    /// The oldest first.
    kept: Mutex<Vec<Counted>>,
}

impl Lags {
    /// Returns that nothing was counted.
    pub(crate) fn new(alloc: Global) -> Lags {
        Lags {
            kept: Mutex::new(Vec::new(alloc)),
        }
    }

    /// Returns what was counted lately for a session in a table, or for another one that was as far.
    fn find<R: Wait>(&self, rt: &R, session: u32, reach: Reach, now: u64) -> Option<Lag> {
        let kept = self.kept.lock(rt);
        for counted in &*kept {
            let is_of_it = counted.session == session && counted.reach.table == reach.table;
            let is_fresh = now.saturating_sub(counted.at) < KEPT;
            if is_fresh && (is_of_it || counted.reach == reach) {
                return Some(counted.lag);
            }
        }
        None
    }

    /// Keeps a count.
    fn keep<R: Wait>(&self, rt: &R, counted: Counted) {
        let mut kept = self.kept.lock(rt);
        add_to(&mut kept, counted);
    }
}

/// Adds a count to those that are kept, for which the oldest one goes if they are too many. If memory runs out, it isn't added.
fn add_to(kept: &mut Vec<Counted>, counted: Counted) {
    if kept.len() >= MOST_KEPT {
        let _oldest = kept.remove(0);
    }
    let _added = kept.push(counted);
}

/// A session with a peer in a table.
#[derive(Clone, Copy)]
struct Place<'a> {
    node: &'a Node,
    table: &'a TableDef,
    session: u32,
}

impl<'a> Place<'a> {
    /// Adds a part of the rest to `lag`, and returns what is left then.
    fn count_part<R: Wait + Clock>(&self, rt: &R, rest: Rest, lag: &mut Lag) -> Option<Rest> {
        let locked = lock(rt, self.node, self.table.id())?;
        let cell = locked.cell();
        let progress = cell.progress(self.session)?;
        let number = rest.number.max(progress.acknowledged);
        let now = not_before_latest(&locked, self.node.clock.now(rt));
        let part = cell.pending_above(number, progress.bound, rest.kind, now, PART);
        *lag = lag.plus(part);
        match (part.next, rest.kind) {
            (Some(number), kind) => Some(Rest { kind, number }),
            (None, CopyKind::Standing) => Some(Rest {
                kind: CopyKind::Push,
                number: progress.bound,
            }),
            (None, CopyKind::Push | CopyKind::Resync) => None,
        }
    }

    /// Returns how far the peer is, given whether a resync is under way that teaches it.
    fn reach<R: Wait>(&self, rt: &R, teaches: bool) -> Option<Reach> {
        let table = self.table.id();
        let locked = lock(rt, self.node, table)?;
        let progress = locked.cell().progress(self.session)?;
        Some(Reach {
            table,
            acknowledged: progress.acknowledged,
            taught_to: if teaches { Some(progress.bound) } else { None },
        })
    }

    /// Counts what the peer lacks: the rows that are pushed, and if a resync is under way, first those that it teaches. Returns that, and
    /// in how many parts. The table's lock is held for a part at a time, so a row that changes meanwhile may be counted twice, or not
    /// at all. A node that stops counts no further.
    fn count<R: Wait + Clock>(&self, rt: &R, teaches: bool) -> (Lag, usize) {
        let mut lag = Lag::none();
        let mut rest = Rest {
            kind: if teaches {
                CopyKind::Standing
            } else {
                CopyKind::Push
            },
            number: 0,
        };
        for parts in 0..PARTS {
            if self.node.stops() {
                return (lag, parts);
            }
            match self.count_part(rt, rest, &mut lag) {
                Some(left) => rest = left,
                None => return (lag, parts),
            }
        }
        (lag, PARTS)
    }

    /// Returns what the peer lacks: as it is, or as it was within the last `KEPT` if many rows had to be looked at to count it.
    fn lag<R: Wait + Clock>(&self, rt: &R, teaches: bool) -> Lag {
        let (node, session) = (self.node, self.session);
        let Some(reach) = self.reach(rt, teaches) else {
            return Lag::none();
        };
        if let Some(lag) = (node.lags).find(rt, session, reach, node.clock.milliseconds(rt)) {
            return lag;
        }
        let (lag, parts) = self.count(rt, teaches);
        if parts >= MANY_PARTS {
            let at = node.clock.milliseconds(rt);
            let counted = Counted {
                session,
                reach,
                at,
                lag,
            };
            node.lags.keep(rt, counted);
        }
        lag
    }
}

/// Returns whether a resync is under way in which the node teaches the peer with this index, or `None` if there is no session.
fn teaches<R: Wait>(rt: &R, node: &Node, peer: usize) -> Option<bool> {
    let status = node.slots.get(peer)?.status(rt);
    if status.record.stands() {
        Some(status.record.teaches)
    } else {
        None
    }
}

/// Returns what the peer with this index lacks of a table, given what `teaches` says of it.
fn lag_of<R: Wait + Clock>(
    rt: &R,
    node: &Node,
    peer: usize,
    table: &TableDef,
    teaches: Option<bool>,
) -> Lag {
    let place = Place {
        node,
        table,
        session: number_of(peer),
    };
    match teaches {
        Some(teaches) => place.lag(rt, teaches),
        None => Lag::none(),
    }
}

/// Returns how many rows of all tables the peer with this index lacks.
pub(crate) fn pending<R: Wait + Clock>(rt: &R, node: &Node, peer: usize) -> u64 {
    let teaches = teaches(rt, node, peer);
    let mut rows = 0u64;
    for table in node.roster.tables() {
        rows = rows.saturating_add(lag_of(rt, node, peer, table, teaches).rows);
    }
    rows
}

/// Returns what the peer with this index lacks of each table.
pub(crate) fn table_lags<'a, R: Wait + Clock>(
    rt: &R,
    node: &'a Node,
    peer: usize,
) -> Result<Vec<TableLag<'a>>, AllocError> {
    let teaches = teaches(rt, node, peer);
    let mut lags = Vec::new(node.alloc);
    for (index, table) in node.roster.tables().iter().enumerate() {
        let lag = lag_of(rt, node, peer, table, teaches);
        let since = match lag.first {
            Some(number) => node.numbering.since(rt, index, number),
            None => None,
        };
        let now = node.clock.milliseconds(rt);
        lags.push(TableLag {
            table,
            rows: lag.rows,
            age: now.saturating_sub(since.unwrap_or(now)),
        })?;
    }
    Ok(lags)
}
