//! A thread's seat: its number, and its receipts.

ghost use Rattle.std.specs.Prelude.{◌≡◌, ◌≢◌, ℕ, [], None};
ghost use Rattle.table_shards.specs.Receipts.{PlacesRise, ahead_of, forgotten, receipts_of, seen_of};
ghost use Rattle.table_shards.specs.Noting.{noted};
ghost use Rattle.table_shards.specs.Pages.{ArePages, page_states};

use crate::answers::{Answer, Answered};
use crate::book::Book;
use crate::pages::{Page, page_of};
use crate::receipts::Receipts;
use std::alloc::Global;
use std::marker::Model;

/// A thread's seat at the tables: its number, its receipts of the events that it made, the place up to which it has seen
/// the events of each table, and the latest answer without an event. The places of its receipts of one table ascend, up
/// to what it has seen.
#[derive(Debug, Drop)]
pub struct Seat {
    pub(crate) book: Book,
}

impl Model for Seat {
    ghost use Rattle.table_shards.specs.Receipts.{SeatState};
    ghost use Rattle.table_shards.specs.Pages.{page_states, seat_of, ArePages};

    ghost Value = { SeatState };

    ghost view = { λ a. seat_of a.book };

    ghost invariant = { λ a. ArePages (page_states a.book.pages.items) };
}

impl Seat {
    /// Makes a seat with these pages. Doesn't allocate.
    pub(crate) fn with_pages(alloc: Global, number: u32, pages: Vec<Page>) -> Seat
        requires { ArePages (page_states pages.items) }
        ensures { result ≡ record { number = number; pages = page_states pages.items; answers = 0; latest = None } }
    {
        Seat {
            book: Book {
                alloc,
                number,
                pages,
                answers: 0,
                latest: None,
            },
        }
    }

    /// Returns the seat's number, from 1 among the seats that were made together.
    pub fn number(&self) -> u32
        ensures { result ≡ self.now.number }
    {
        self.book.number
    }

    /// Returns the place up to which the seat has seen the table's events, or 0 if it has seen none.
    pub fn seen(&self, table: u64) -> u64
        ensures { result ≡ seen_of table self.now }
    {
        self.book.seen(table)
    }

    /// Returns the seat's receipts of the table, in the order of their places.
    pub fn receipts(&self, table: u64) -> Receipts<'_>
        ensures receipts { result ≡ receipts_of table self.now }
        ensures rising { PlacesRise 0 (receipts_of table self.now) (seen_of table self.now) }
    {
        Receipts::of(page_of(self.book.pages.as_slice(), table))
    }

    /// Returns how many events of the table the seat has seen, and `events`, if it has seen more than `events`.
    pub fn ahead(&self, table: u64, events: u64) -> Option<(u64, u64)>
        ensures { result ≡ ahead_of self.now table events }
    {
        self.book.ahead(table, events)
    }

    /// Returns the latest answer without an event that a call of `held::noted` added.
    pub fn latest(&self) -> Option<Answered>
        ensures { result ≡ self.now.latest }
    {
        self.book.latest
    }

    /// Drops the seat's receipts of the table. Its number, what it has seen, and its receipts of other tables stay. If one of
    /// the receipts is of an event of the round, an audit of the round then fails. Doesn't allocate.
    #[tactic(auto, using(crate::proofs::ForgetLaws::no_receipts, crate::proofs::ForgetLaws::same_positions, crate::proofs::ForgetLaws::other_receipts))]
    pub fn forget(&mut self, table: u64)
        ensures seat { self.new ≡ forgotten table self.old }
        ensures none { receipts_of table self.new ≡ [] }
        ensures seen { (other : ℕ) → seen_of other self.new ≡ seen_of other self.old }
        ensures others { (other : ℕ) → other ≢ table → receipts_of other self.new ≡ receipts_of other self.old }
    {
        self.book.forget(table);
    }

    /// Adds the answer, if there is one, to a call of the session when the cell had `events` events. Doesn't allocate.
    pub(crate) fn note(&mut self, table: u64, session: u32, events: u64, answer: Option<Answer>)
        ensures { self.new ≡ noted table session events answer self.old }
    {
        if let Some(answer) = answer {
            self.book.answers = self.book.answers.wrapping_add(1);
            self.book.latest = Some(Answered {
                table,
                session,
                events,
                answer,
            });
        }
    }
}
