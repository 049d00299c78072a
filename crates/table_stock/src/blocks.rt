//! Lists in blocks, which stay where they are when the list grows.

ghost use Rattle.std.specs.Prelude.{◌≡◌, ◌<◌, ◌∷◌, ◌++◌, [], OnOk, Some, length, option_copied, slice_get, slice_set, true};

use std::alloc::Global;
use std::marker::Model;
use std::mem;
use table_types::Memory;

/// The number of items in a full block.
const BLOCK_LENGTH: usize = 1_024;

/// How many full blocks a list may have at most.
const MOST_BLOCKS: usize = 1 << 50;

/// A list in blocks of 1,024 items. Only the first block grows, by doubling, so that a short list is small. Each later block
/// is allocated whole, and no item of a list of more than one block is moved. So each call takes constant time, but for the
/// list of the blocks.
#[derive(Debug, Drop)]
pub struct Blocks<T> {
    /// The full blocks.
    full: Vec<Vec<T>>,
    /// The items after those of the full blocks.
    last: Vec<T>,
}

impl<T> Model for Blocks<T> {
    ghost use Rattle.table_stock.specs.Blocks.{AreBlocks, ListInBlocks, has_room_in, items_in};

    ghost Value = { ListInBlocks T };

    ghost view = { λ b. record { items = items_in b.full.items b.last; has_room = has_room_in b.last } };

    ghost invariant = { λ b. AreBlocks b.full.items b.last };
}

/// Puts `item` in place of the one at `index`, and returns that one.
fn replace_in<T>(items: &mut Vec<T>, index: usize, item: T) -> T
    requires { index < length items.old.items }
    ensures older { slice_get items.old.items index ≡ Some result }
    ensures put { items.new.items ≡ slice_set items.old.items index item }
{
    mem::replace(&mut items[index], item)
}

impl<T> Blocks<T> {
    /// Makes an empty list. Doesn't allocate.
    pub fn new(alloc: Global) -> Blocks<T>
        ensures { result.items ≡ [] }
    {
        Blocks {
            full: Vec::new(alloc),
            last: Vec::new(alloc),
        }
    }

    /// Returns the number of items.
    pub fn len(&self) -> usize
        ensures { result ≡ length self.now.items }
    {
        self.full.len() * BLOCK_LENGTH + self.last.len()
    }

    /// Returns the item at `index`, or `None` if there is none.
    pub fn get(&self, index: usize) -> Option<&T>
        ensures { option_copied result ≡ slice_get self.now.items index }
    {
        match self.full.get(index / BLOCK_LENGTH) {
            Some(block) => block.get(index % BLOCK_LENGTH),
            None => self.last.get(index - self.full.len() * BLOCK_LENGTH),
        }
    }

    /// Makes room for one more item, which changes no item. Fails if memory runs out, or if 2^50 blocks are full.
    pub fn reserve_one(&mut self) -> Result<(), Memory>
        ensures room { OnOk result (self.new.has_room ≡ true) }
        ensures stays { self.new.items ≡ self.old.items }
    {
        if self.last.len() < BLOCK_LENGTH {
            self.last.reserve(1)?;
            return Ok(());
        }
        if self.full.len() >= MOST_BLOCKS {
            return Err(Memory);
        }
        self.full.reserve(1)?;
        let next = Vec::with_capacity(*self.last.allocator(), BLOCK_LENGTH)?;
        self.full.push_reserved(mem::replace(&mut self.last, next));
        Ok(())
    }

    /// Adds an item at the end, for which there is room. Doesn't allocate.
    pub fn push_reserved(&mut self, item: T)
        requires { self.old.has_room ≡ true }
        ensures { self.new.items ≡ self.old.items ++ item ∷ [] }
    {
        self.last.push_reserved(item);
    }

    /// Puts an item in place of the one at `index`, and returns that one. Doesn't allocate.
    pub fn replace(&mut self, index: usize, item: T) -> T
        requires { index < length self.old.items }
        ensures older { slice_get self.old.items index ≡ Some result }
        ensures put { self.new.items ≡ slice_set self.old.items index item }
    {
        let block = index / BLOCK_LENGTH;
        if block < self.full.len() {
            return replace_in(&mut self.full[block], index % BLOCK_LENGTH, item);
        }
        replace_in(&mut self.last, index - self.full.len() * BLOCK_LENGTH, item)
    }
}
