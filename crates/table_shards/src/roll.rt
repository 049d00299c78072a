//! Whether all seats are present.

ghost use Rattle.std.specs.Prelude.{◌≡◌, ◌≤◌, ℕ};
ghost use Rattle.std.specs.Bool.{MatchBool};
ghost use Rattle.std.specs.List.{AllByRecursion, count_by};
ghost use Rattle.table_shards.specs.Roll.{AreSeats, IsSeatOf, has_number};

use crate::seat::Seat;

/// Returns how many of the seats have `number`.
fn count(number: u32, seats: &[Seat]) -> usize
    ensures { result ≡ count_by (has_number number) seats.now }
{
    seats.iter().filter(|seat| seat.number() == number).count()
}

/// Returns whether each seat is one of the seats 1 to `most`.
fn are_seats_of(most: u32, seats: &[Seat]) -> bool
    ensures { MatchBool result (AllByRecursion (IsSeatOf most) seats.now) (AllByRecursion (IsSeatOf most) seats.now → ⊥) }
{
    for seat in seats {
        let number = seat.number();
        if number < 1 || most < number {
            return false;
        }
    }
    true
}

/// Returns whether each of the seats 1 to `most` is present once.
fn are_all_there(most: u32, seats: &[Seat]) -> bool
    ensures { MatchBool result
        ((number : ℕ) → 1 ≤ number → number ≤ most → count_by (has_number number) seats.now ≡ 1)
        (((number : ℕ) → 1 ≤ number → number ≤ most → count_by (has_number number) seats.now ≡ 1) → ⊥) }
{
    for before in 0..most {
        if count(before + 1, seats) != 1 {
            return false;
        }
    }
    true
}

/// Returns whether the seats are the seats 1 to `most`, each once.
pub fn are_seats(most: u32, seats: &[Seat]) -> bool
    ensures { MatchBool result (AreSeats most seats.now) (AreSeats most seats.now → ⊥) }
{
    are_seats_of(most, seats) && are_all_there(most, seats)
}
