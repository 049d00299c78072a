//! What a seat keeps.

ghost use Rattle.std.specs.Prelude.{◌≡◌, ◌<◌, IfOk};
ghost use Rattle.table_shards.specs.Receipts.{ahead_of, forgotten, seen_of, with_receipt};
ghost use Rattle.table_shards.specs.Pages.{page_states, seat_of, ArePages, HasRoomIn};

use crate::answers::Answered;
use crate::pages::{Page, Room, forget, make_room_for, page_of, write_in};
use crate::receipt::Receipt;
use std::alloc::Global;
use table_types::Memory;

/// A seat's number, its page for each table of which it has receipts, the number of its calls that got an answer
/// without an event, and the latest of these answers.
#[derive(Debug, Drop)]
pub struct Book {
    pub alloc: Global,
    pub number: u32,
    pub pages: Vec<Page>,
    pub answers: u64,
    pub latest: Option<Answered>,
}

impl Book {
    /// Returns the place up to which the seat has seen the table's events, or 0 if it has seen none.
    pub fn seen(&self, table: u64) -> u64
        ensures { result ≡ seen_of table (seat_of self.now) }
    {
        match page_of(self.pages.as_slice(), table) {
            Some(page) => page.seen,
            None => 0,
        }
    }

    /// Returns how many events of the table the seat has seen, and `events`, if it has seen more than `events`.
    pub fn ahead(&self, table: u64, events: u64) -> Option<(u64, u64)>
        ensures { result ≡ ahead_of (seat_of self.now) table events }
    {
        let seen = self.seen(table);
        if events < seen {
            Some((seen, events))
        } else {
            None
        }
    }

    /// Makes room for one more receipt of the table. The seat stays as it was.
    pub fn make_room(&mut self, table: u64) -> Result<Room, Memory>
        ensures room { IfOk result (HasRoomIn table self.new.pages) }
        ensures stays { seat_of self.new ≡ seat_of self.old }
    {
        make_room_for(self.alloc, &mut self.pages, table)
    }

    /// Adds a receipt of the table, for which there is room. Doesn't allocate.
    #[tactic(auto, using(crate::proofs::PageLaws::put_pages))]
    pub fn add(&mut self, room: Room, table: u64, receipt: Receipt)
        requires room { HasRoomIn table self.old.pages room }
        requires pages { ArePages (page_states self.old.pages.items) }
        requires above { seen_of table (seat_of self.old) < receipt.place }
        ensures added { seat_of self.new ≡ with_receipt (seat_of self.old) table receipt }
        ensures pages { ArePages (page_states self.new.pages.items) }
    {
        write_in(&mut self.pages, room, table, receipt);
    }

    /// Drops the receipts of the table. What was seen of it stays. Doesn't allocate.
    pub fn forget(&mut self, table: u64)
        requires { ArePages (page_states self.old.pages.items) }
        ensures forgotten { seat_of self.new ≡ forgotten table (seat_of self.old) }
        ensures pages { ArePages (page_states self.new.pages.items) }
    {
        forget(self.pages.as_mut_slice(), self.alloc, table);
    }
}
