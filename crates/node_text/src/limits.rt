//! Limits of a text: what it says at most once, and lists of a greatest length.
ghost use Rattle.std.specs.Prelude.{◌≡◌, ◌∷◌, ◌++◌, ◌≤◌, [], None, Some, Err, IsSome, OnErr, OnOk, vec_len};

use crate::error::LineError;

/// Sets `place` to `value` unless it has a value.
pub fn set_once<T: Drop>(place: &mut Option<T>, value: T) -> Result<(), LineError>
    ensures set { OnOk result ((place.old ≡ None) × (place.new ≡ Some value)) }
    ensures refused { OnErr result (IsSome place.old) }
    ensures stays { OnErr result (place.new ≡ place.old) }
{
    if place.is_some() {
        return Err(LineError::Refused);
    }
    *place = Some(value);
    Ok(())
}

/// Appends `item` to `items` unless that has `most` items already.
pub fn push_within<T: Drop>(items: &mut Vec<T>, most: usize, item: T) -> Result<(), LineError>
    ensures pushed { OnOk result ((items.new.items ≡ items.old.items ++ item ∷ []) × (vec_len items.new ≤ most)) }
    ensures refused { result ≡ Err LineError.Refused → most ≤ vec_len items.old }
    ensures stays { OnErr result (items.new.items ≡ items.old.items) }
{
    if items.len() >= most {
        return Err(LineError::Refused);
    }
    items.push(item)?;
    Ok(())
}
