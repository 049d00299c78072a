//! The lines of the log that wait to be written.
ghost use Rattle.std.specs.Prelude.{◌≡◌, ◌≢◌, ◌≤◌, ◌+◌, ◌-◌, ◌++◌, ◌∷◌, ◌^◌, [], IfErr, IfOk, IfSome, OnErr, OnOk, None, false, length, map, min, true};
ghost use Rattle.node_log.specs.Events.{event_name};
ghost use Rattle.node_log.specs.Keys.{name_of};
ghost use Rattle.node_log.specs.Limits.{after, has_room, unsaid};
ghost use Rattle.node_log.specs.Lines.{Adds};
ghost use Rattle.node_log.specs.Waiting.{AddsDue, AddsOmitted, AreToldUpTo, HaveLine, IsFull, are_of, is_dropped, is_due, is_same_peer, limit_of, name_at, told, told_if_due, with_line};

use crate::events::event_name;
use crate::limits::Limit;
use crate::lines::{Form, push_line};
use node_core::{Event, Omission};
use std::alloc::{AllocError, Global};
use std::mem;
use table_types::{Name, is_same_name};

/// The most bytes of lines that wait. A line that would pass that is dropped.
const MOST_BYTES: usize = 65_536;

/// What became of a line.
#[derive(Clone, Copy, Debug, PartialEq, Eq)]
pub enum Fate {
    /// It waits to be written.
    Waits,
    /// It is left out, and counted with others of its event about its peer.
    LeftOut,
    /// It is dropped, since too many wait.
    Full,
    /// It is dropped, since memory ran out.
    Lost,
}

impl Fate {
    /// Returns whether the line is dropped.
    pub fn is_dropped(self) -> bool
        ensures { result ≡ is_dropped self }
    {
        matches!(self, Fate::Full | Fate::Lost)
    }
}

/// Why a line can't wait.
#[derive(Clone, Copy, Debug, PartialEq, Eq)]
pub enum Lack {
    /// There is no room for it among those that wait.
    Room,
    /// Memory ran out.
    Memory,
}

/// The lines of one event about one peer, or about none.
#[derive(Debug, Drop)]
pub struct Limited {
    /// The event's name.
    event: &'static str,
    /// The index of the peer.
    peer: Option<usize>,
    limit: Limit,
}

/// The lines of the log that wait to be written, and how many others weren't said.
#[derive(Debug, Drop)]
pub struct Waiting {
    alloc: Global,
    text: Vec<u8>,
    limits: Vec<Limited>,
    /// How many lines were dropped, or couldn't be written, since that was last said.
    unwritten: u64,
}

impl Limited {
    /// Returns whether these are the lines of `event` about `peer`.
    fn are_of(&self, event: &str, peer: Option<usize>) -> bool
        ensures { result ≡ are_of event.now peer self.now }
    {
        is_same_peer(self.peer, peer) && is_same_name(self.event.as_bytes(), event.as_bytes())
    }

    /// Returns whether the line is due that says how many lines were left out: the first of them came a second ago, or no more lines come.
    fn is_due(&self, now: u64, last: bool) -> bool
        ensures { result ≡ is_due now last self.now }
    {
        self.limit.omitted() != 0 && (last || self.limit.owes(now))
    }

    /// Appends the line that says how many lines were left out, and notes that it is said. `names` are those of the peers.
    fn tell(
        &mut self,
        alloc: Global,
        text: &mut Vec<u8>,
        form: Form,
        names: &[Name],
    ) -> Result<(), Lack>
        ensures told { OnOk result (self.new ≡ told self.old) }
        ensures line { OnOk result (AddsOmitted form names.now self.old text.old.items text.new.items) }
        ensures stays { OnErr result (self.new ≡ self.old) }
        ensures same { OnErr result (text.new.items ≡ text.old.items) }
        ensures bound { OnOk result (length text.new.items ≤ 65536) }
    {
        let event = Event::Omitted {
            peer: name_at(names, self.peer),
            cause: Omission::Repeated(self.event),
            count: self.limit.omitted(),
        };
        append(alloc, text, form, &event)?;
        let _count = self.limit.report();
        Ok(())
    }
}

/// Returns the line of an event.
fn line_of(alloc: Global, form: Form, event: &Event<'_>) -> Result<Vec<u8>, AllocError>
    ensures { IfOk result (λ line. Adds form event.now [] line.items) }
{
    let mut line = Vec::new(alloc);
    push_line(alloc, &mut line, form, event)?;
    Ok(line)
}

/// Appends the line of an event, or nothing if there is no room for it or memory runs out.
fn append(alloc: Global, text: &mut Vec<u8>, form: Form, event: &Event<'_>) -> Result<(), Lack>
    ensures line { OnOk result (Adds form event.now text.old.items text.new.items) }
    ensures same { OnErr result (text.new.items ≡ text.old.items) }
    ensures bound { OnOk result (length text.new.items ≤ 65536) }
    ensures full { IfErr result (λ lack. lack ≡ Lack.Room → IsFull form event.now text.old.items) }
{
    let Ok(line) = line_of(alloc, form, event) else {
        return Err(Lack::Memory);
    };
    if line.len() > MOST_BYTES.saturating_sub(text.len()) {
        return Err(Lack::Room);
    }
    text.extend_from_slice(line.as_slice())
        .map_err(|_| Lack::Memory)
}

/// Returns the name of the peer with this index, if there is one.
fn name_at(names: &[Name], peer: Option<usize>) -> Option<&[u8]>
    ensures { name_of result ≡ name_at names.now peer }
{
    match names.get(peer?) {
        Some(name) => Some(name.as_slice()),
        None => None,
    }
}

/// Returns whether both are one peer, or both are none.
fn is_same_peer(one: Option<usize>, other: Option<usize>) -> bool
    ensures { result ≡ is_same_peer one other }
{
    match (one, other) {
        (None, None) => true,
        (Some(one), Some(other)) => one == other,
        _ => false,
    }
}

/// Notes that a line comes now of the event and the peer that `new` is of, if one came before. Returns whether it is said.
fn says_again(limits: &mut [Limited], now: u64, new: &Limited) -> Option<bool>
    ensures says { IfSome result (λ says. says ≡ has_room now (limit_of new.now.event.now new.now.peer limits.old)) }
    ensures noted { IfSome result (λ says. limits.new ≡ with_line now new.now limits.old) }
    ensures stays { result ≡ None → limits.new ≡ limits.old }
    ensures unsaid { result ≡ None → limit_of new.now.event.now new.now.peer limits.old ≡ unsaid }
    ensures first { result ≡ None → with_line now new.now limits.old ≡ limits.old ++ record new.now { limit = after now unsaid } ∷ [] }
{
    for limited in limits.iter_mut() {
        if limited.are_of(new.event, new.peer) {
            return Some(limited.limit.says(now));
        }
    }
    None
}

/// Notes that a line comes now of the event and the peer that `new` is of. Returns whether it is said.
fn says(limits: &mut Vec<Limited>, now: u64, new: Limited) -> Result<bool, AllocError>
    ensures says { IfOk result (λ says. says ≡ has_room now (limit_of new.event.now new.peer limits.old.items)) }
    ensures noted { OnOk result (limits.new.items ≡ with_line now new limits.old.items) }
    ensures stays { OnErr result (limits.new.items ≡ limits.old.items) }
{
    if let Some(says) = says_again(limits.as_mut_slice(), now, &new) {
        return Ok(says);
    }
    let mut limit = Limit::new();
    let says = limit.says(now);
    limits.push(Limited {
        event: new.event,
        peer: new.peer,
        limit,
    })?;
    Ok(says)
}

/// Appends for each of these limits how many lines were left out, if that is to be said.
fn tell_all(
    alloc: Global,
    limits: &mut [Limited],
    text: &mut Vec<u8>,
    now: u64,
    form: Form,
    names: &[Name],
    last: bool,
) -> Result<(), Lack>
    ensures told { OnOk result (limits.new ≡ map (told_if_due now last) limits.old) }
    ensures lines { OnOk result (AddsDue form names.now now last limits.old text.old.items text.new.items) }
    ensures so_far { OnErr result (AreToldUpTo form names.now now last limits.old limits.new text.old.items text.new.items) }
    ensures bound { length text.old.items ≤ 65536 → length text.new.items ≤ 65536 }
{
    for limited in limits.iter_mut() {
        if limited.is_due(now, last) {
            limited.tell(alloc, text, form, names)?;
        }
    }
    Ok(())
}

impl Waiting {
    /// Returns what waits at first: nothing.
    pub fn new(alloc: Global) -> Waiting
        ensures empty { result.text.items ≡ [] }
        ensures unsaid { result.limits.items ≡ [] }
        ensures written { result.unwritten ≡ 0 }
    {
        Waiting {
            alloc,
            text: Vec::new(alloc),
            limits: Vec::new(alloc),
            unwritten: 0,
        }
    }

    /// Returns whether a line of this event about the peer with this index, or about none, isn't left out if it comes now.
    pub fn has_room(&self, now: u64, event: &str, peer: Option<usize>) -> bool
        ensures { result ≡ has_room now (limit_of event.now peer self.now.limits.items) }
    {
        for limited in self.limits.iter() {
            if limited.are_of(event, peer) {
                return limited.limit.has_room(now);
            }
        }
        true
    }

    /// Adds the line of an event about the peer with this index, or about none, at a moment of the node's clock.
    pub fn add(&mut self, now: u64, form: Form, peer: Option<usize>, event: &Event<'_>) -> Fate
        ensures waits { result ≡ Fate.Waits → Adds form event.now self.old.text.items self.new.text.items }
        ensures same { result ≢ Fate.Waits → self.new.text.items ≡ self.old.text.items }
        ensures bound { length self.old.text.items ≤ 65536 → length self.new.text.items ≤ 65536 }
        ensures full { result ≡ Fate.Full → IsFull form event.now self.old.text.items }
        ensures left_out { result ≡ Fate.LeftOut → has_room now (limit_of (event_name event.now) peer self.old.limits.items) ≡ false }
        ensures said { has_room now (limit_of (event_name event.now) peer self.old.limits.items) ≡ true → result ≢ Fate.LeftOut }
        ensures noted { result ≢ Fate.Lost → HaveLine now (event_name event.now) peer self.old.limits.items self.new.limits.items }
        ensures dropped { is_dropped result ≡ true → self.new.unwritten ≡ min (self.old.unwritten + 1) (2 ^ 64 - 1) }
        ensures others { is_dropped result ≡ false → self.new.unwritten ≡ self.old.unwritten }
    {
        let new = Limited {
            event: event_name(event),
            peer,
            limit: Limit::new(),
        };
        let fate = match says(&mut self.limits, now, new) {
            Ok(true) => match append(self.alloc, &mut self.text, form, event) {
                Ok(()) => Fate::Waits,
                Err(Lack::Room) => Fate::Full,
                Err(Lack::Memory) => Fate::Lost,
            },
            Ok(false) => Fate::LeftOut,
            Err(AllocError) => Fate::Lost,
        };
        if fate.is_dropped() {
            self.note_unwritten(1);
        }
        fate
    }

    /// Returns how many lines were dropped, or couldn't be written, and weren't said to be.
    pub fn unwritten(&self) -> u64
        ensures { result ≡ self.now.unwritten }
    {
        self.unwritten
    }

    /// Notes that lines were dropped, or couldn't be written.
    pub fn note_unwritten(&mut self, count: u64)
        ensures { self.new ≡ record self.old { unwritten = min (self.old.unwritten + count) (2 ^ 64 - 1) } }
    {
        self.unwritten = self.unwritten.saturating_add(count);
    }

    /// Notes that `count` of these lines were reported.
    pub fn forget_unwritten(&mut self, count: u64)
        ensures { self.new ≡ record self.old { unwritten = self.old.unwritten - count } }
    {
        self.unwritten = self.unwritten.saturating_sub(count);
    }

    /// Adds how many lines were left out, for each event and peer of which the first one was a second ago, or for all if no more lines
    /// come. `names` are those of the peers. Those for which there is no room, or for which memory runs out, stay to be said.
    pub fn add_omitted(
        &mut self,
        now: u64,
        form: Form,
        names: &[Name],
        last: bool,
    ) -> Result<(), Lack>
        ensures told { OnOk result (self.new.limits.items ≡ map (told_if_due now last) self.old.limits.items) }
        ensures lines { OnOk result (AddsDue form names.now now last self.old.limits.items self.old.text.items self.new.text.items) }
        ensures so_far { OnErr result (AreToldUpTo form names.now now last self.old.limits.items self.new.limits.items self.old.text.items self.new.text.items) }
        ensures bound { length self.old.text.items ≤ 65536 → length self.new.text.items ≤ 65536 }
        ensures unwritten { self.new.unwritten ≡ self.old.unwritten }
    {
        let limits = self.limits.as_mut_slice();
        tell_all(self.alloc, limits, &mut self.text, now, form, names, last)
    }

    /// Takes the lines that wait.
    pub fn take(&mut self) -> Vec<u8>
        ensures taken { result.items ≡ self.old.text.items }
        ensures empty { self.new.text.items ≡ [] }
        ensures limits { self.new.limits ≡ self.old.limits }
        ensures unwritten { self.new.unwritten ≡ self.old.unwritten }
    {
        mem::replace(&mut self.text, Vec::new(self.alloc))
    }
}
