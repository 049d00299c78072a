//! Raising heights.

ghost use Rattle.std.specs.Prelude.{◌≡◌, ℕ, ◌+◌, ◌^◌, ◌<◌, length, slice_index};
ghost use Rattle.retention_flow.specs.Network.{is_reached, IsRaised};

use crate::steps::Step;

/// Raises the heights of the nodes reached.
pub fn raise(heights: &mut [u64], steps: &[Option<Step>], by: u64)
    requires count { length steps.now ≡ length heights.old }
    requires small { (node : ℕ) → node < length heights.old → slice_index heights.old node + by < 2 ^ 64 }
    ensures count { length heights.new ≡ length heights.old }
    ensures raised { IsRaised heights.old heights.new (is_reached steps.now) by }
{
    for (node, step) in steps.iter().enumerate() {
        if step.is_some() {
            heights[node] += by;
        }
    }
}
