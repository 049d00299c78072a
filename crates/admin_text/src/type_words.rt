//! The data types of the line of a table.
ghost use Rattle.std.specs.Prelude.{◌≡◌, [], map, option_copied};
ghost use Rattle.table_types.specs.Tables.{stores};
ghost use Rattle.admin_text.specs.Outcomes.{Gives};
ghost use Rattle.admin_text.specs.TableLines.{entries_behind, entry_at, name_part, named_entry, period_of, period_part, stored, with_period};

use crate::faults::{Fault, TableFault, TypeFault};
use crate::line_refusals::LineRefusal;
use crate::named::type_named;
use node_text::{cut, number_from_one};
use std::alloc::Global;
use table_types::{DataType, Items};

/// The place of the first data type in the line of a table.
const FIRST_TYPE: usize = 6;

/// Reads data types, each of them once, from the words behind a table's expiry.
pub(crate) fn read_types(
    alloc: Global,
    words: &[&[u8]],
) -> Result<Items<(DataType, Option<u32>)>, LineRefusal>
    ensures { Gives (λ outcome. outcome ≡ entries_behind 6 [] (map (λ word. word.now) words.now)) result }
{
    let mut types = Vec::new(alloc);
    for (index, word) in words.iter().enumerate() {
        let entry = entry_at(FIRST_TYPE + index, types.as_slice(), word)?;
        types.push(entry)?;
    }
    Ok(Items::new(types))
}

/// Reads the data type that `word` gives at `place`, behind these others.
fn entry_at(
    place: usize,
    earlier: &[(DataType, Option<u32>)],
    word: &[u8],
) -> Result<(DataType, Option<u32>), Fault>
    ensures { result ≡ entry_at place earlier.now word.now }
{
    match type_named(name_part(word)) {
        Some(data_type) if stores(earlier, data_type) => Err(stored(place, TypeFault::Repeated)),
        Some(data_type) => with_period(place, data_type, period_part(word)),
        None => Err(stored(place, TypeFault::Unknown)),
    }
}

/// Returns a data type with the period that is written behind it. A rate has one, and nothing else does.
fn with_period(
    place: usize,
    data_type: DataType,
    period: Option<&[u8]>,
) -> Result<(DataType, Option<u32>), Fault>
    ensures { result ≡ with_period place data_type (option_copied period.entry) }
{
    match (data_type.is_rate(), period) {
        (true, Some(word)) => match period_of(word) {
            Some(period) => Ok((data_type, Some(period))),
            None => Err(stored(place, TypeFault::NoPeriod)),
        },
        (true, None) => Err(stored(place, TypeFault::NoPeriod)),
        (false, Some(_)) => Err(stored(place, TypeFault::Period)),
        (false, None) => Ok((data_type, None)),
    }
}

/// Returns what is wrong with the data type at `place`.
fn stored(place: usize, fault: TypeFault) -> Fault
    ensures { result ≡ stored place fault }
{
    Fault::Table(TableFault::Stored(place, fault))
}

/// Returns the period in milliseconds that `word` writes.
fn period_of(word: &[u8]) -> Option<u32>
    ensures { result ≡ period_of word.now }
{
    number_from_one(word, u32::MAX)
}

/// Returns whether one of the entries is of this data type.
fn stores(entries: &[(DataType, Option<u32>)], data_type: DataType) -> bool
    ensures { result ≡ stores data_type entries.now }
{
    for entry in entries {
        if data_type.id() == entry.0.id() {
            return true;
        }
    }
    false
}

/// Returns what comes before the first `:` of `word`, or all of it.
pub(crate) fn name_part(word: &[u8]) -> &[u8]
    ensures { result.now ≡ name_part word.now }
{
    match cut(word, b':') {
        Some((name, _)) => name,
        None => word,
    }
}

/// Returns what comes behind the first `:` of `word`.
pub(crate) fn period_part(word: &[u8]) -> Option<&[u8]>
    ensures { option_copied result ≡ period_part word.now }
{
    let (_, period) = cut(word, b':')?;
    Some(period)
}
