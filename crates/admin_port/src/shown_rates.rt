//! Rates as HAProxy prints them.
ghost use Rattle.std.specs.Prelude.{◌≡◌, ◌≤◌};
ghost use Rattle.admin_port.specs.ShownRates.{rate_after, shown_rate, smoothed};

use table_types::{Cell, Moment};

/// Returns the value of a rate at `moment`, with a period of `period` milliseconds, or a count as it is. Unlike `read_rate`, it shows a
/// lone event as 1 until a second period has passed, as HAProxy does.
pub(crate) fn shown_rate(cell: Cell, period: u32, moment: Moment) -> u64
    requires { 1 ≤ period }
    ensures { result ≡ shown_rate period moment cell }
{
    match cell {
        Cell::Count(count) => count,
        Cell::Rate {
            start,
            current,
            previous,
        } => {
            let elapsed = moment.milliseconds().saturating_sub(start);
            rate_after(period, elapsed, current, previous)
        }
    }
}

/// Returns the value of a rate when `elapsed` milliseconds have passed since the start of the period in which `current` was counted.
fn rate_after(period: u32, elapsed: u64, current: u32, previous: u32) -> u64
    requires { 1 ≤ period }
    ensures { result ≡ rate_after period elapsed current previous }
{
    let length = u64::from(period);
    if elapsed <= length {
        smoothed(period, current, previous, length - elapsed)
    } else if elapsed <= 2 * length {
        smoothed(period, 0, current, 2 * length - elapsed)
    } else {
        0
    }
}

/// Returns the value of a rate of whose period `left` milliseconds are left.
fn smoothed(period: u32, current: u32, previous: u32, left: u64) -> u64
    requires period { 1 ≤ period }
    requires left { left ≤ period }
    ensures { result ≡ smoothed period current previous left }
{
    if current == 0 && previous <= 1 {
        u64::from(previous)
    } else {
        u64::from(current) + u64::from(previous) * left / u64::from(period)
    }
}
