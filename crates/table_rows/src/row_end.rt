//! Where rows stand in the order in which they end.

ghost use Rattle.std.specs.Prelude.{◌≡◌, ◌<◌, ◌^◌, IfSome, is_some, option_copied, option_map, refl};
ghost use Rattle.std.specs.Ordering.{as_partial_cmp, is_lt};
ghost use Rattle.std.specs.Cmp.{partial_order_from_agreeing_total};
ghost use Rattle.table_rows.specs.Endings.{end_or_last, ending_of, later_cmp};
ghost use Rattle.table_rows.specs.Rows.{IsFirstOf, end_cmp};
ghost use Rattle.table_rows.specs.EndingOrder.{later_cmp_ties, later_cmp_total};

use std::cmp::Ordering;
use table_types::{Key, Row};

/// Where a row stands in the order in which the rows of a table end: by its end, and then by its number, which no other
/// row has. The last to end comes first: a new row mostly ends after all others, so a search that begins at the front
/// finds its place at once.
#[derive(Clone, Copy, Debug, PartialEq, Eq)]
pub struct RowEnd {
    /// The moment at which the row ends, in milliseconds, or `u64::MAX` if it never expires.
    pub end: u64,
    /// The number of the row's last update.
    pub number: u32,
}

/// Returns the moment at which `row` ends, in milliseconds, or `u64::MAX` if it never expires.
fn end_of(row: &Row) -> u64
    ensures end { result ≡ end_or_last row.now.ends }
    ensures within { IfSome row.now.ends (λ end. end < 2 ^ 63) }
{
    match row.ends() {
        Some(moment) => moment.milliseconds(),
        None => u64::MAX,
    }
}

impl RowEnd {
    /// Returns where `row` stands in that order.
    pub fn of(row: &Row) -> RowEnd
        ensures ending { result ≡ ending_of row.now }
        ensures within { IfSome row.now.ends (λ end. end < 2 ^ 63) }
    {
        RowEnd {
            end: end_of(row),
            number: row.number(),
        }
    }
}

/// Returns whether a row comes before another in the order in which rows end, rows that end together by number and then by
/// key.
fn ends_before(key: &Key, row: &Row, other: &Key, other_row: &Row) -> bool
    ensures { result ≡ is_lt (end_cmp (key.now, row.now) (other.now, other_row.now)) }
{
    // `RowEnd` has the last to end first.
    match RowEnd::of(other_row).cmp(&RowEnd::of(row)) {
        Ordering::Less => true,
        Ordering::Equal => key.cmp(other).is_lt(),
        Ordering::Greater => false,
    }
}

/// Returns the first to end of two rows, or the next row if there is no first one.
pub(crate) fn first_of<'a>(
    first: Option<(&'a Key, &'a Row)>,
    next: (&'a Key, &'a Row),
) -> (&'a Key, &'a Row)
    ensures { IsFirstOf (option_map (λ e. (e.0.now, e.1.now)) first.entry) (next.entry.0.now, next.entry.1.now) (result.0.now, result.1.now) }
{
    let Some((key, row)) = first else {
        return next;
    };
    if ends_before(next.0, next.1, key, row) {
        next
    } else {
        (key, row)
    }
}

/// Returns the key of a row, if there is one.
pub(crate) fn key_of<'a>(row: Option<(&'a Key, &'a Row)>) -> Option<&'a Key>
    ensures key { option_copied result ≡ option_map (λ e. e.0.now) row.entry }
    ensures some { is_some result ≡ is_some row.entry }
{
    match row {
        Some((key, _)) => Some(key),
        None => None,
    }
}

impl PartialOrd for RowEnd {
    ghost partial_cmp = { as_partial_cmp later_cmp };

    ghost laws = { partial_order_from_agreeing_total later_cmp later_cmp_total (λ a b. refl) later_cmp_ties };

    fn partial_cmp(&self, other: &Self) -> Option<Ordering> {
        Some(self.cmp(other))
    }
}

impl Ord for RowEnd {
    ghost cmp = { later_cmp };

    ghost total = { later_cmp_total };

    ghost matches_partial_cmp = { λ a b. refl };

    ghost matches_eq = { later_cmp_ties };

    #[inline(always)]
    fn cmp(&self, other: &Self) -> Ordering {
        match other.end.cmp(&self.end) {
            Ordering::Equal => other.number.cmp(&self.number),
            order => order,
        }
    }
}
