//! The place at which each name was last requested, or held.

ghost use Rattle.std.specs.Prelude.{◌≡◌, ◌<◌, ◌≤◌, ◌+◌, ◌-◌, [], List, ℕ, length, take, Some, IfOk, IfErr, if◌then◌else◌};
ghost use Rattle.std.specs.List.{insert};
ghost use Rattle.table_types.specs.Rosters.{is_same_name};
ghost use Rattle.known_state.specs.Plans.{at_start};
ghost use Rattle.price_checker.specs.LastPlaces.{place_of, HasNameAt, IsGapFor};
ghost use Rattle.price_checker.specs.NamesHeld.{AreFew, names_held};

use crate::links::MOST_REQUESTS;
use crate::names_held::Held;
use std::marker::Model;
use table_types::SLOT_COUNT;

/// The greatest number of names: those that are held at the start, and one for each request.
const MOST_NAMES: usize = SLOT_COUNT + MOST_REQUESTS;

/// A name, and the place of its last request: 0 if it wasn't requested, but is held at the start.
#[derive(Clone, Copy, Debug)]
pub struct LastPlace<'a> {
    name: &'a [u8],
    place: u16,
}

/// The names held at the start and those requested so far, in ascending order, each with the place of its last request.
/// They are stored inline, without allocation.
#[derive(Debug, Drop)]
pub struct LastPlaces<'a> {
    places: [LastPlace<'a>; MOST_NAMES],
    count: usize,
}

impl<'a> Model for LastPlaces<'a> {
    ghost use Rattle.std.specs.Prelude.{◌≡◌, ◌≤◌, List, length, take};
    ghost use Rattle.price_checker.specs.declared.last_places.LastPlace.{LastPlace};
    ghost use Rattle.price_checker.specs.LastPlaces.{NamesRise};

    ghost Value = { List LastPlace };

    ghost view = { λ a. take a.count a.places };

    ghost invariant = { λ a. (length a.places ≡ 4224) × (a.count ≤ 4224) × NamesRise (take a.count a.places) };
}

/// Inserts `new` at `index`. The elements from there on move one further, and the last one is dropped.
fn insert_at<'a>(places: &mut [LastPlace<'a>], index: usize, new: LastPlace<'a>)
    requires { index < length places.old }
    ensures { places.new ≡ insert (take (length places.old - 1) places.old) index new.entry }
{
    places[index..].rotate_right(1);
    places[index] = new;
}

impl<'a> LastPlaces<'a> {
    /// Returns the last places if no name is held, and there were no requests.
    fn new() -> LastPlaces<'a>
        ensures { result ≡ [] }
    {
        let none = LastPlace {
            name: &[],
            place: 0,
        };
        LastPlaces {
            places: [none; MOST_NAMES],
            count: 0,
        }
    }

    /// Returns the last places if there were no requests: 0 for each name that is held at the start.
    pub fn at_start(held: Held<'a>) -> LastPlaces<'a>
        requires { AreFew held }
        ensures last { (name : List ℕ) → place_of result name ≡ (at_start (names_held held.entry)).last name }
        ensures count { length result ≤ 128 }
    {
        let mut last_places = LastPlaces::new();
        for index in 0..held.len() {
            if let Some(name) = held.name(index) {
                last_places.insert(name.as_slice(), 0);
            }
        }
        last_places
    }

    /// Returns the index of `name`, or the index at which it would go.
    fn find(&self, name: &[u8]) -> Result<usize, usize>
        ensures found { IfOk result (HasNameAt self.now name.now) }
        ensures absent { IfErr result (IsGapFor self.now name.now) }
    {
        self.places[..self.count].binary_search_by(|last| last.name.cmp(name))
    }

    /// Makes `place` the last place of `name`, and returns the one before, if there was one. There must be fewer than
    /// 4,224 names.
    pub fn insert(&mut self, name: &'a [u8], place: u16) -> Option<u16>
        requires { length self.old < 4224 }
        ensures before { result ≡ place_of self.old name.now }
        ensures after { (other : List ℕ) →
            place_of self.new other ≡ (if is_same_name name.now other then Some place else place_of self.old other) }
        ensures count { length self.new ≤ length self.old + 1 }
    {
        match self.find(name) {
            Ok(index) => {
                let before = self.places[index].place;
                self.places[index].place = place;
                Some(before)
            }
            Err(index) => {
                insert_at(
                    &mut self.places[..self.count + 1],
                    index,
                    LastPlace { name, place },
                );
                self.count += 1;
                None
            }
        }
    }
}
