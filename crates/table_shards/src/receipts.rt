//! Iteration over a seat's receipts of one table.

ghost use Rattle.std.specs.Prelude.{◌≡◌, ◌≤◌, ◌<◌, ◌==◌, ℕ, leb, get_or, length, option_copied, option_map, slice_get, false, true};
ghost use Rattle.std.specs.Iterator.{at_most};
ghost use Rattle.std.specs.List.{AllWithin};
ghost use Rattle.std.specs.Map.Iter.{TakesFirst};
ghost use Rattle.table_shards.specs.Counts.{RiseAfter};
ghost use Rattle.table_shards.specs.Pages.{page_state};
ghost use Rattle.table_shards.specs.Receipts.{ReceiptState, receipts_on, times};

use crate::pages::Page;
use crate::receipt::Receipt;
use std::marker::Model;

/// An iterator over a seat's receipts of one table, in the order of their places. It doesn't allocate.
#[derive(Drop)]
pub struct Receipts<'a> {
    /// `None` if the seat has none of the table.
    page: Option<&'a Page>,
    /// The index of the next one on the page.
    next: usize,
    /// The number of receipts on the page.
    end: usize,
}

impl<'a> Model for Receipts<'a> {
    ghost use Rattle.std.specs.Prelude.{List, drop};
    ghost use Rattle.table_shards.specs.Pages.{AreFrom, lent_receipts};
    ghost use Rattle.table_shards.specs.Receipts.{ReceiptState};

    ghost Value = { List ReceiptState };

    ghost view = { λ a. drop a.next (lent_receipts a.page) };

    ghost invariant = { λ a. AreFrom a.next a.end (lent_receipts a.page) };
}

impl<'a> Receipts<'a> {
    /// Iterates over the receipts of the page, if there is one.
    pub(crate) fn of(page: Option<&'a Page>) -> Receipts<'a>
        ensures { result ≡ receipts_on (option_map (λ p. page_state p.now) page.entry) }
    {
        let end = match page {
            Some(page) => page.receipts.len(),
            None => 0,
        };
        Receipts { page, next: 0, end }
    }

    /// Returns how many receipts are left.
    pub fn len(&self) -> usize
        ensures { result ≡ length self.now }
    {
        self.end - self.next
    }

    /// Returns whether no receipts are left.
    pub fn is_empty(&self) -> bool
        ensures { result ≡ (length self.now == 0) }
    {
        self.len() == 0
    }

    /// Returns the receipt that is at `index` among those that are left, or `None` if there is none.
    pub fn get(&self, index: usize) -> Option<&'a Receipt>
        ensures { option_copied result ≡ slice_get self.now index }
    {
        if index >= self.len() {
            return None;
        }
        match self.page {
            Some(page) => page.receipts.get(self.next + index),
            None => None,
        }
    }

    /// Returns whether the receipt at `index` is of a place up to `from`.
    fn is_up_to(&self, from: u64, index: usize) -> bool
        requires { index < length self.now }
        ensures { (d : ReceiptState) → result ≡ leb (get_or self.now index d).place from }
    {
        match self.get(index) {
            Some(receipt) => receipt.place() <= from,
            None => unreachable!(),
        }
    }

    /// Returns how many receipts are of places up to `from`, by a binary search.
    fn count_up_to(&self, from: u64) -> usize
        requires { RiseAfter 0 self.now }
        ensures within { result ≤ length self.now }
        ensures early { AllWithin (λ r. leb r.place from ≡ true) self.now 0 result }
        ensures late { AllWithin (λ r. leb r.place from ≡ false) self.now result (length self.now) }
    {
        let mut low = 0;
        let mut high = self.len();
        while low < high {
            let middle = low + (high - low) / 2;
            if self.is_up_to(from, middle) {
                low = middle + 1;
            } else {
                high = middle;
            }
        }
        low
    }

    /// Skips the receipts of places up to `from`.
    pub(crate) fn later_than(self, from: u64) -> Receipts<'a>
        requires { RiseAfter 0 self }
        ensures rising { RiseAfter from result }
        ensures times { (place : ℕ) → from < place → times place result ≡ times place self.entry }
    {
        let next = self.next + self.count_up_to(from);
        Receipts {
            page: self.page,
            next,
            end: self.end,
        }
    }
}

impl<'a> Iterator for Receipts<'a> {
    type Item = &'a Receipt;

    ghost next_gives = { TakesFirst (λ receipt. receipt.now) };

    ghost remaining = { λ s. at_most (length s) };

    fn next(&mut self) -> Option<&'a Receipt> {
        let receipt = self.get(0)?;
        self.next += 1;
        Some(receipt)
    }
}
