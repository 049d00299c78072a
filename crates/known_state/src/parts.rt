//! What the parts of a known state must satisfy.

ghost use Rattle.std.specs.Prelude.{◌≡◌};
ghost use Rattle.std.specs.List.{list_all};
ghost use Rattle.table_types.specs.Rosters.{has_id};
ghost use Rattle.known_state.specs.Known.{is_in, repeats, has_last, repeats_last, are_known, are_defined};

use table_types::{Roster, has_id};

fn all_own(roster: &Roster, ids: &[u64]) -> bool
    ensures { result ≡ list_all (λ id. has_id id roster.now) ids.now }
{
    for id in ids {
        if !has_id(roster.tables(), *id) {
            return false;
        }
    }
    true
}

fn all_last_numbers_own(roster: &Roster, last_numbers: &[(u64, u32)]) -> bool
    ensures { result ≡ list_all (λ last. has_id last.0 roster.now) last_numbers.now }
{
    for last in last_numbers {
        if !has_id(roster.tables(), last.0) {
            return false;
        }
    }
    true
}

fn is_in(ids: &[u64], id: u64) -> bool
    ensures { result ≡ is_in id ids.now }
{
    ids.contains(&id)
}

fn all_last_numbers_held(defined: &[u64], last_numbers: &[(u64, u32)]) -> bool
    ensures { result ≡ list_all (λ last. is_in last.0 defined.now) last_numbers.now }
{
    for last in last_numbers {
        if !is_in(defined, last.0) {
            return false;
        }
    }
    true
}

/// Returns whether each id is in the roster.
pub fn are_known(
    roster: &Roster,
    selected: Option<u64>,
    defined: &[u64],
    last_numbers: &[(u64, u32)],
) -> bool
    ensures { result ≡ are_known roster.now selected defined.now last_numbers.now }
{
    let selects_own = match selected {
        Some(id) => has_id(roster.tables(), id),
        None => true,
    };
    selects_own && all_own(roster, defined) && all_last_numbers_own(roster, last_numbers)
}

/// Returns whether every id that is selected or has a last number is defined.
pub fn are_defined(selected: Option<u64>, defined: &[u64], last_numbers: &[(u64, u32)]) -> bool
    ensures { result ≡ are_defined selected defined.now last_numbers.now }
{
    let selects_defined = match selected {
        Some(id) => is_in(defined, id),
        None => true,
    };
    selects_defined && all_last_numbers_held(defined, last_numbers)
}

/// Returns whether an id occurs twice. Among 65 ids of a roster one does, so this compares at most 64 of them with the
/// rest.
pub fn repeats(ids: &[u64]) -> bool
    ensures { result ≡ repeats ids.now }
{
    for (index, id) in ids.iter().enumerate() {
        if is_in(&ids[index + 1..], *id) {
            return true;
        }
    }
    false
}

fn has_last(last_numbers: &[(u64, u32)], id: u64) -> bool
    ensures { result ≡ has_last id last_numbers.now }
{
    for last in last_numbers {
        if last.0 == id {
            return true;
        }
    }
    false
}

/// Returns whether an id has two last numbers.
pub fn repeats_last(last_numbers: &[(u64, u32)]) -> bool
    ensures { result ≡ repeats_last last_numbers.now }
{
    for (index, last) in last_numbers.iter().enumerate() {
        if has_last(&last_numbers[index + 1..], last.0) {
            return true;
        }
    }
    false
}
