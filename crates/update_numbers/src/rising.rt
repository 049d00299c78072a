//! Iteration over numbers with their keys, in ascending order of number.

ghost use Rattle.std.specs.Prelude.{◌≡◌, length};
ghost use Rattle.std.specs.Iterator.{at_most};
ghost use Rattle.std.specs.Map.Iter.{TakesFirst};
ghost use Rattle.update_numbers.specs.Rising.{rising};

use std::cmp::Reverse;
use std::collections::btree_map::Range;
use std::marker::Model;
use table_types::Key;

/// An iterator over the remaining numbers with their keys, in ascending order of number. It doesn't allocate.
#[derive(Drop)]
pub struct Rising<'a> {
    /// In descending order of number.
    falling: Range<'a, Reverse<u32>, Key>,
}

impl<'a> Model for Rising<'a> {
    ghost use Rattle.std.specs.Prelude.{ℕ, List};
    ghost use Rattle.table_types.specs.declared.key.Key.{Key};
    ghost use Rattle.update_numbers.specs.Rising.{rising};

    ghost Value = { List (ℕ × Key) };

    ghost view = { λ a. rising a.falling };
}

impl<'a> Rising<'a> {
    /// Iterates over the same pairs from the other end.
    pub(crate) fn new(falling: Range<'a, Reverse<u32>, Key>) -> Rising<'a>
        ensures { result ≡ rising falling.entry }
    {
        Rising { falling }
    }
}

impl<'a> Iterator for Rising<'a> {
    type Item = (u32, &'a Key);

    ghost next_gives = { TakesFirst (λ pair. (pair.0, pair.1.now)) };

    ghost remaining = { λ s. at_most (length s) };

    fn next(&mut self) -> Option<(u32, &'a Key)> {
        let Some((number, key)) = self.falling.next_back() else {
            return None;
        };
        Some((number.0, key))
    }
}
