//! What a seat has of each table.

ghost use Rattle.std.specs.Prelude.{◌≡◌, ◌<◌, [], None, map, option_map, true, IfNone, IfOk, IfSome, OnOk, HoldsAt};
ghost use Rattle.std.specs.Vec.{vec_len, vec_capacity};
ghost use Rattle.table_shards.specs.Receipts.{forgotten_page, page_at, page_with, pages_with};
ghost use Rattle.table_shards.specs.Pages.{page_state, page_states, HasRoom, HasRoomIn, IsPageAt};

use crate::receipt::Receipt;
use std::alloc::Global;
use table_cell::Blocks;
use table_types::Memory;

/// A seat's receipts of one table, in the order of their places, and the place up to which it has seen the table's
/// events.
#[derive(Debug, Drop)]
pub struct Page {
    pub table: u64,
    pub seen: u64,
    pub receipts: Blocks<Receipt>,
}

/// Where there is room for one more receipt of a table.
#[derive(Debug, Drop)]
pub enum Room {
    /// On the table's page, which is at this index.
    OnPage(usize),
    /// In this empty list, for a new page.
    OnNewPage(Blocks<Receipt>),
}

/// Returns the page of `table`.
pub fn page_of(pages: &[Page], table: u64) -> Option<&Page>
    ensures { option_map (λ page. page_state page.now) result ≡ page_at table (page_states pages.now) }
{
    for page in pages {
        if page.table == table {
            return Some(page);
        }
    }
    None
}

/// Returns the index of the page of `table`.
pub fn index_of(pages: &[Page], table: u64) -> Option<usize>
    ensures found { IfSome result (IsPageAt table pages.now) }
    ensures none { IfNone result (page_at table (page_states pages.now) ≡ None) }
{
    for index in 0..pages.len() {
        if pages[index].table == table {
            return Some(index);
        }
    }
    None
}

/// Makes room for one more receipt.
pub fn make_room(page: &mut Page) -> Result<(), Memory>
    ensures room { OnOk result (HasRoom page.new) }
    ensures stays { page_state page.new ≡ page_state page.old }
{
    page.receipts.reserve_one()
}

/// Adds a receipt, whose place is then seen.
pub fn write(page: &mut Page, receipt: Receipt)
    requires { HasRoom page.old }
    ensures { page_state page.new ≡ page_with (page_state page.old) receipt }
{
    page.seen = receipt.place();
    page.receipts.push_reserved(receipt);
}

/// Makes room for one more receipt of `table`, which changes no page.
pub fn make_room_for(alloc: Global, pages: &mut Vec<Page>, table: u64) -> Result<Room, Memory>
    ensures room { IfOk result (HasRoomIn table pages.new) }
    ensures stays { page_states pages.new.items ≡ page_states pages.old.items }
{
    match index_of(pages.as_slice(), table) {
        Some(index) => {
            make_room(&mut pages[index])?;
            Ok(Room::OnPage(index))
        }
        None => {
            pages.reserve(1)?;
            let mut receipts = Blocks::new(alloc);
            receipts.reserve_one()?;
            Ok(Room::OnNewPage(receipts))
        }
    }
}

/// Adds a receipt to the page at `index`.
pub fn write_at(pages: &mut Vec<Page>, index: usize, table: u64, receipt: Receipt)
    requires here { IsPageAt table pages.old.items index }
    requires room { HoldsAt HasRoom pages.old.items index }
    ensures { page_states pages.new.items ≡ pages_with table receipt (page_states pages.old.items) }
{
    write(&mut pages[index], receipt);
}

/// Adds a page with one receipt, in the list `receipts`.
#[tactic(auto, using(crate::proofs::PageLaws::put_new))]
fn write_page(pages: &mut Vec<Page>, receipts: Blocks<Receipt>, table: u64, receipt: Receipt)
    requires lacked { page_at table (page_states pages.old.items) ≡ None }
    requires none { receipts.items ≡ [] }
    requires room { receipts.has_room ≡ true }
    requires space { vec_len pages.old < vec_capacity pages.old }
    ensures { page_states pages.new.items ≡ pages_with table receipt (page_states pages.old.items) }
{
    let seen = receipt.place();
    let mut receipts = receipts;
    receipts.push_reserved(receipt);
    pages.push_reserved(Page {
        table,
        seen,
        receipts,
    });
}

/// Adds a receipt of `table`, for which there is room.
pub fn write_in(pages: &mut Vec<Page>, room: Room, table: u64, receipt: Receipt)
    requires { HasRoomIn table pages.old room }
    ensures { page_states pages.new.items ≡ pages_with table receipt (page_states pages.old.items) }
{
    match room {
        Room::OnPage(index) => write_at(pages, index, table, receipt),
        Room::OnNewPage(receipts) => write_page(pages, receipts, table, receipt),
    }
}

/// Drops the receipts of `table`. What was seen of it stays.
pub fn forget(pages: &mut [Page], alloc: Global, table: u64)
    ensures { page_states pages.new ≡ map (forgotten_page table) (page_states pages.old) }
{
    for page in pages.iter_mut() {
        if page.table == table {
            page.receipts = Blocks::new(alloc);
        }
    }
}
