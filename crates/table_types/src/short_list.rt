//! A list that usually has a single element.

ghost use Rattle.std.specs.Prelude.{◌≡◌, [], ◌∷◌, ◌++◌, ◌≤◌, IfOk, IsOk, length};

use crate::memory::Memory;
use std::alloc::Global;
use std::marker::Model;

/// Where the elements of a list are stored.
#[derive(Debug, Drop)]
enum Place<T> {
    /// There are none.
    Nowhere,
    /// A single one, inline in the list.
    Inline([T; 1]),
    /// In a heap allocation.
    Heap(Vec<T>),
}

/// A list of elements in order, of which contracts see only the elements. A single element is stored inline and takes
/// no heap memory, unless the list was made of a `Vec` or with room for more. Rows of tables that store one count or
/// rate profit from this.
#[derive(Debug, Drop)]
pub struct ShortList<T> {
    place: Place<T>,
}

impl<T> Model for ShortList<T> {
    ghost use Rattle.std.specs.Prelude.{List};
    ghost use Rattle.table_types.specs.ShortLists.{elements_at};

    ghost Value = { List T };

    ghost view = { λ s. elements_at s.place };
}

impl<T> ShortList<T> {
    /// Makes an empty list.
    pub fn new() -> ShortList<T>
        ensures { result ≡ [] }
    {
        ShortList {
            place: Place::Nowhere,
        }
    }

    /// Makes a list of the elements of a `Vec`, which keeps its allocation.
    pub fn from_vec(items: Vec<T>) -> ShortList<T>
        ensures { result ≡ items.items }
    {
        ShortList {
            place: Place::Heap(items),
        }
    }

    /// Borrows the elements.
    pub fn as_slice(&self) -> &[T]
        ensures { result.now ≡ self.now }
    {
        match &self.place {
            Place::Nowhere => &[],
            Place::Inline(item) => item.as_slice(),
            Place::Heap(items) => items.as_slice(),
        }
    }
}

impl<T: Copy> ShortList<T> {
    /// Makes a list of these elements. Allocates only for two or more. Fails if memory runs out.
    pub fn from_slice(alloc: Global, items: &[T]) -> Result<ShortList<T>, Memory>
        ensures list { IfOk result (λ list. list ≡ items.now) }
        ensures in_place { length items.now ≤ 1 → IsOk result }
    {
        let place = match items {
            [] => Place::Nowhere,
            [item] => Place::Inline([*item]),
            _ => Place::Heap(Vec::from_slice(alloc, items)?),
        };
        Ok(ShortList { place })
    }

    /// Returns the elements in a `Vec`: the one that the list was made of, if it was. Allocates only for a single
    /// element that is stored inline. Fails if memory runs out.
    pub fn into_vec(self, alloc: Global) -> Result<Vec<T>, Memory>
        ensures { IfOk result (λ items. items.items ≡ self) }
    {
        match self.place {
            Place::Nowhere => Ok(Vec::new(alloc)),
            Place::Inline(item) => Ok(Vec::from_slice(alloc, item.as_slice())?),
            Place::Heap(items) => Ok(items),
        }
    }

    /// Makes an empty list with room for `count` elements. Allocates only for two or more. Fails if memory runs out.
    pub fn with_capacity(alloc: Global, count: usize) -> Result<ShortList<T>, Memory>
        ensures empty { IfOk result (λ list. list ≡ []) }
        ensures in_place { count ≤ 1 → IsOk result }
    {
        let place = if count > 1 {
            Place::Heap(Vec::with_capacity(alloc, count)?)
        } else {
            Place::Nowhere
        };
        Ok(ShortList { place })
    }

    /// Returns the list with one more element at its end. Fails if memory runs out.
    pub fn with(self, alloc: Global, item: T) -> Result<ShortList<T>, Memory>
        ensures { IfOk result (λ items. items ≡ self ++ item ∷ []) }
    {
        let place = match self.place {
            Place::Nowhere => Place::Inline([item]),
            Place::Inline(first) => {
                let mut items = Vec::from_slice(alloc, first.as_slice())?;
                items.push(item)?;
                Place::Heap(items)
            }
            Place::Heap(mut items) => {
                items.push(item)?;
                Place::Heap(items)
            }
        };
        Ok(ShortList { place })
    }

    /// Returns an equal copy. Allocates only for two or more elements. Fails if memory runs out.
    pub fn copy(&self, alloc: Global) -> Result<ShortList<T>, Memory>
        ensures copy { IfOk result (λ copy. copy ≡ self.now) }
        ensures in_place { length self.now ≤ 1 → IsOk result }
    {
        ShortList::from_slice(alloc, self.as_slice())
    }
}
