//! Numbers of updates, and the keys that have them.

ghost use Rattle.std.specs.Prelude.{◌≡◌, ◌↔◌, ◌≤◌, ◌<◌, ◌^◌, ◌∷◌, ◌++◌, [], Err, IfNone, IfOk, IfSome, OnOk, OnErr, Some, length, option_copied, take};
ghost use Rattle.std.specs.List.{AllByRecursion, list_any};
ghost use Rattle.std.specs.List.Sorted.{IsStrictlySortedBy};
ghost use Rattle.std.specs.Map.{keys_of};
ghost use Rattle.std.specs.Ordering.{nat_cmp};
ghost use Rattle.update_numbers.specs.declared.numbers.NumberError.TheVariants as errors;
ghost use Rattle.update_numbers.specs.Numbers.{above, dropped, given, is_of, key_at, pairs_without, pushed, without_below};

use crate::rising::Rising;
use std::alloc::Global;
use std::cmp::Reverse;
use std::collections::BTreeMap;
use std::marker::Model;
use std::ops::Bound;
use table_types::{Key, Memory};
use thiserror::Error;

/// Why no number was assigned. Nothing has changed.
#[derive(Clone, Copy, Debug, PartialEq, Eq, Error)]
pub enum NumberError {
    /// All numbers up to 2^32 - 1 are assigned.
    #[error("spent")]
    Spent,
    /// Memory ran out.
    #[error("memory")]
    Memory,
}

/// Numbers assigned to keys, each the next one. `give` assigns a key the next number in place of its older ones, which it
/// searches for among all pairs. A caller that knows a key's older number uses `push` and `remove`, which look for one number
/// each.
#[derive(Drop)]
pub struct Numbers {
    alloc: Global,
    /// In descending order: a new number is above all others, so a search that begins at the front finds its place at
    /// once.
    keys: BTreeMap<Reverse<u32>, Key>,
    /// 2^32 if all numbers are assigned.
    next: u64,
}

impl Model for Numbers {
    ghost use Rattle.update_numbers.specs.Numbers.{AreNumbered, Numbering};
    ghost use Rattle.update_numbers.specs.Rising.{rising};

    ghost Value = { Numbering };

    ghost view = { λ a. record { pairs = rising a.keys.entries; next = a.next } };

    ghost invariant = { λ a. AreNumbered (rising a.keys.entries) a.next };
}

impl Numbers {
    /// Makes a numbering without keys, whose next number is `first`. Doesn't allocate.
    pub fn new(alloc: Global, first: u32) -> Numbers
        requires { 1 ≤ first }
        ensures { result ≡ record { pairs = []; next = first } }
    {
        Numbers {
            alloc,
            keys: BTreeMap::new(alloc),
            next: u64::from(first),
        }
    }

    /// Returns the next number to assign, or 2^32 if all are assigned.
    pub fn next(&self) -> u64
        ensures next { result ≡ self.now.next }
        ensures most { result ≤ 2 ^ 32 }
        ensures rising { IsStrictlySortedBy nat_cmp (keys_of self.now.pairs) }
        ensures below { AllByRecursion (λ pair. pair.0 < self.now.next) self.now.pairs }
    {
        self.next
    }

    /// Returns how many numbers have a key.
    pub fn len(&self) -> usize
        ensures { result ≡ length self.now.pairs }
    {
        self.keys.len()
    }

    /// Returns the key of `number`.
    pub fn key_at(&self, number: u32) -> Option<&Key>
        ensures { option_copied result ≡ key_at self.now.pairs number }
    {
        self.keys.get(&Reverse(number))
    }

    /// Assigns the next number to `key` in place of its older ones. If it fails, nothing has changed. Takes time linear in the
    /// number of pairs.
    pub fn give(&mut self, key: &Key) -> Result<u32, NumberError>
        ensures given { OnOk result (self.new ≡ given key.now self.old) }
        ensures number { IfOk result (λ number. number ≡ self.old.next) }
        ensures spent { (result ≡ Err errors.Spent) ↔ (2 ^ 32 ≤ self.old.next) }
        ensures stays { OnErr result (self.new ≡ self.old) }
    {
        let next = self.next();
        let Ok(number) = u32::try_from(next) else {
            return Err(NumberError::Spent);
        };
        let Ok(own) = key.copy(self.alloc) else {
            return Err(NumberError::Memory);
        };
        let Ok(()) = self.push(own) else {
            return Err(NumberError::Memory);
        };
        self.drop_below(next, key);
        Ok(number)
    }

    /// Removes the numbers of `key`, and returns whether it had one. Doesn't allocate. Takes time linear in the number of
    /// pairs.
    pub fn drop_key(&mut self, key: &Key) -> bool
        ensures had { result ≡ list_any (is_of key.now) self.old.pairs }
        ensures dropped { self.new ≡ dropped key.now self.old }
    {
        let before = self.len();
        self.drop_below(self.next(), key);
        self.len() < before
    }

    /// Removes the numbers of `key` below `number`. Doesn't allocate.
    fn drop_below(&mut self, number: u64, key: &Key)
        ensures { self.new ≡ record { pairs = without_below number key.now self.old.pairs; next = self.old.next } }
    {
        self.keys.retain(|of, own| u64::from(of.0) >= number || key.cmp(own).is_ne());
    }

    /// Assigns the next number to `key`, which keeps its older one until the caller removes it. If memory runs out, nothing
    /// has changed.
    pub fn push(&mut self, key: Key) -> Result<(), Memory>
        requires { self.old.next < 2 ^ 32 }
        ensures pushed { OnOk result (self.new ≡ pushed key self.old) }
        ensures stays { OnErr result (self.new ≡ self.old) }
    {
        self.keys.insert(Reverse(self.next as u32), key)?;
        self.next += 1;
        Ok(())
    }

    /// Takes back the greatest number, which is then the next one again, and returns it with its key; `None` if there
    /// is none. Doesn't allocate.
    pub fn pop(&mut self) -> Option<(u32, Key)>
        ensures last { IfSome result (λ pair. self.old.pairs ≡ self.new.pairs ++ pair ∷ []) }
        ensures next { IfSome result (λ pair. self.new.next ≡ pair.0) }
        ensures none { IfNone result (self.old.pairs ≡ []) }
        ensures stays { IfNone result (self.new ≡ self.old) }
    {
        let (Reverse(number), key) = self.keys.pop_first()?;
        self.next = u64::from(number);
        Some((number, key))
    }

    /// Removes the pair of `number`, and returns its key. Doesn't allocate.
    pub fn remove(&mut self, number: u32) -> Option<Key>
        ensures key { result ≡ key_at self.old.pairs number }
        ensures removed { self.new ≡ record { pairs = pairs_without (Some number) self.old.pairs; next = self.old.next } }
    {
        self.keys.remove(&Reverse(number))
    }

    /// Iterates over the pairs above `number`, in ascending order of number. Doesn't allocate.
    pub fn iter_above(&self, number: u32) -> Rising<'_>
        ensures { result ≡ above number self.now.pairs }
    {
        let above = (Bound::Unbounded, Bound::Excluded(Reverse(number)));
        Rising::new(self.keys.range(above))
    }

    /// Returns the pairs above `number`, in ascending order of number, with copies of the keys, at most `limit` of
    /// them.
    pub fn above(&self, number: u32, limit: usize) -> Result<Vec<(u32, Key)>, Memory>
        ensures { IfOk result (λ pairs. pairs.items ≡ take limit (above number self.now.pairs)) }
    {
        let mut found = Vec::new(self.alloc);
        for (number, key) in self.iter_above(number) {
            if found.len() == limit {
                break;
            }
            found.push((number, key.copy(self.alloc)?))?;
        }
        Ok(found)
    }
}
