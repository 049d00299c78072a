//! How the periods of a rate rotate.

ghost use Rattle.std.specs.Prelude.{◌≡◌, ◌≤◌};
ghost use Rattle.table_types.specs.Rotation.{rotated, rate_at, counted};

use crate::moment::Moment;
use crate::row::Cell;

/// Returns the rate as of `moment`, with a period of `period` milliseconds. Within the current period it is unchanged.
/// In the period after that, the current count becomes the previous one. Later both counts are 0, and a period begins
/// at `moment`. A count, or a rate that starts after `moment`, is unchanged.
pub fn rotate(cell: Cell, period: u32, moment: Moment) -> Cell
    ensures { result ≡ rotated period moment cell }
{
    let Cell::Rate { start, current, .. } = cell else {
        return cell;
    };
    let period = u64::from(period);
    let elapsed = moment.milliseconds().saturating_sub(start);
    if elapsed < period {
        cell
    } else if elapsed < 2 * period {
        Cell::Rate {
            start: start + period,
            current: 0,
            previous: current,
        }
    } else {
        Cell::Rate {
            start: moment.milliseconds(),
            current: 0,
            previous: 0,
        }
    }
}

/// Returns the value of a rate that was rotated to `moment`.
fn counted(cell: Cell, period: u32, moment: Moment) -> u64
    requires { 1 ≤ period }
    ensures { result ≡ counted period moment cell }
{
    match cell {
        Cell::Count(count) => count,
        Cell::Rate {
            start,
            current,
            previous,
        } => {
            let elapsed = moment.milliseconds().saturating_sub(start);
            let left = u64::from(period).saturating_sub(elapsed);
            u64::from(current) + u64::from(previous) * left / u64::from(period)
        }
    }
}

/// Returns the value of a rate at `moment`, with a period of `period` milliseconds: after the rotation, the current
/// count plus the share of the previous count for which the current period has still to run, rounded down. The value of
/// a count is the count.
pub fn read_rate(cell: Cell, period: u32, moment: Moment) -> u64
    requires { 1 ≤ period }
    ensures { result ≡ rate_at period moment cell }
{
    counted(rotate(cell, period, moment), period, moment)
}
