//! Since when the numbers of a table are assigned.

ghost use Rattle.std.specs.Prelude.{◌≡◌, ◌<◌, ◌≤◌, [], fold, IfSome, OnErr, OnOk, length};
ghost use Rattle.node_core.specs.NumberTimes.{are_close, last_next, noted, of_use, since, spare, spare_after, thinned};

use std::alloc::{AllocError, Global};
use std::marker::Model;

/// The most looks that are kept.
const MOST: usize = 512;

/// The share of the time since a look that may lie between it and the one before.
const SHARE: u64 = 8;

/// A look at the next number of a table.
#[derive(Clone, Copy, Debug)]
struct Look {
    /// When it was, in milliseconds since the node began.
    time: u64,
    /// The next number to assign then.
    next: u64,
}

/// Since when the numbers of a table are assigned, as far as looks at its next number tell.
///
/// A number is assigned at the first look at which the next one is above it. Few looks are kept: one can be spared if those beside it
/// are closer together than an eighth of the time since the later one. So the time since a number was assigned is known to within the
/// time between two looks, or an eighth of itself.
#[derive(Drop)]
pub struct NumberTimes {
    /// In ascending order of time and of the next number.
    looks: Vec<Look>,
}

impl Model for NumberTimes {
    ghost use Rattle.std.specs.Prelude.{◌≤◌, List, length};
    ghost use Rattle.node_core.specs.declared.number_times.Look.{Look};

    ghost Value = { List Look };

    ghost view = { λ t. t.looks.items };

    ghost invariant = { λ t. length t.looks.items ≤ 512 };
}

/// Returns the next number at the last look, or 0 if there is none.
fn last_next(looks: &[Look]) -> u64
    ensures { result ≡ last_next looks.now }
{
    match looks.last() {
        Some(look) => look.next,
        None => 0,
    }
}

/// Returns whether `earlier` and `later` are at most an eighth of the time since `later` apart.
fn are_close(now: u64, earlier: Look, later: Look) -> bool
    ensures { result ≡ are_close now earlier later }
{
    later.time.saturating_sub(earlier.time) <= now.saturating_sub(later.time) / SHARE
}

/// Returns the index in `looks` of the first look that is close to the second one before it, which at the beginning are `first` and
/// `second`.
fn spare_after(now: u64, first: Look, second: Look, looks: &[Look]) -> Option<usize>
    ensures exactly { result ≡ spare_after now first second looks.now }
    ensures within { IfSome result (λ index. index < length looks.now) }
{
    let mut earlier = first;
    let mut between = second;
    for (index, look) in looks.iter().enumerate() {
        if are_close(now, earlier, *look) {
            return Some(index);
        }
        earlier = between;
        between = *look;
    }
    None
}

/// Returns the index of the first look that can be spared, since those beside it are close.
fn spare(now: u64, looks: &[Look]) -> Option<usize>
    ensures exactly { result ≡ spare now looks.now }
    ensures within { IfSome result (λ index. index < length looks.now) }
{
    let [first, second, rest @ ..] = looks else {
        return None;
    };
    match spare_after(now, *first, *second, rest) {
        Some(index) => Some(index + 1),
        None => None,
    }
}

/// Drops a look that can be spared, or, if there is none, the first one of too many.
fn thin(now: u64, looks: &mut Vec<Look>)
    ensures thinned { looks.new.items ≡ thinned now looks.old.items }
    ensures few { length looks.old.items ≤ 513 → length looks.new.items ≤ 512 }
{
    match spare(now, looks.as_slice()) {
        Some(index) => {
            looks.remove(index);
        }
        None if looks.len() > MOST => {
            looks.remove(0);
        }
        None => {}
    }
}

impl NumberTimes {
    /// Returns what is known before any look. Doesn't allocate.
    pub fn new(alloc: Global) -> NumberTimes
        ensures { result ≡ [] }
    {
        NumberTimes {
            looks: Vec::new(alloc),
        }
    }

    /// Notes the next number to assign at a look. If it is lower than before, the numbers begin anew. If memory runs out, the look
    /// isn't kept.
    pub fn note(&mut self, now: u64, next: u64) -> Result<(), AllocError>
        ensures noted { OnOk result (self.new ≡ noted now next self.old) }
        ensures of_use { OnErr result (self.new ≡ of_use next self.old) }
    {
        let last = last_next(self.looks.as_slice());
        if next == last {
            return Ok(());
        }
        if next < last {
            self.looks.clear();
        }
        self.looks.push(Look { time: now, next })?;
        thin(now, &mut self.looks);
        Ok(())
    }

    /// Returns the time of the first look that is kept at which `number` was assigned, in milliseconds since the node began; `None` if
    /// it wasn't at any.
    pub fn since(&self, number: u32) -> Option<u64>
        ensures { result ≡ since number self.now }
    {
        for look in &self.looks {
            if u64::from(number) < look.next {
                return Some(look.time);
            }
        }
        None
    }
}
