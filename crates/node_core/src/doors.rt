//! Which door closes its connection if another one comes.

ghost use Rattle.std.specs.Prelude.{◌≡◌};
ghost use Rattle.std.specs.List.{list_all};
ghost use Rattle.node_core.specs.Doors.{is_later, is_longest, is_shorter};

/// Returns whether a door isn't free, and its connection hasn't been silent for longer than since `own`.
fn is_later(own: u64, since: Option<u64>) -> bool
    ensures { result ≡ is_later own since }
{
    match since {
        Some(since) => own <= since,
        None => false,
    }
}

/// Returns whether a door isn't free, and its connection has been silent for less long than since `own`.
fn is_shorter(own: u64, since: Option<u64>) -> bool
    ensures { result ≡ is_shorter own since }
{
    match since {
        Some(since) => own < since,
        None => false,
    }
}

/// Returns whether no door is free, and each connection has been silent for less long than since `own`.
fn are_shorter(own: u64, silent: &[Option<u64>]) -> bool
    ensures { result ≡ list_all (is_shorter own) silent.now }
{
    for since in silent {
        if !is_shorter(own, *since) {
            return false;
        }
    }
    true
}

/// Returns whether no door is free, and no connection has been silent for longer than since `own`.
fn are_later(own: u64, silent: &[Option<u64>]) -> bool
    ensures { result ≡ list_all (is_later own) silent.now }
{
    for since in silent {
        if !is_later(own, *since) {
            return false;
        }
    }
    true
}

/// Returns whether no door is free, and this one is the first of those whose connections have been silent longest. `silent` says for each
/// door since when its connection has been silent, or that it is free.
pub fn is_longest(silent: &[Option<u64>], door: usize) -> bool
    ensures { result ≡ is_longest silent.now door }
{
    match silent.get(door) {
        Some(Some(own)) => {
            let (before, behind) = silent.split_at(door);
            are_shorter(*own, before) && are_later(*own, behind)
        }
        Some(None) | None => false,
    }
}
