//! Devices: readers and writers that count their failed calls, reading from one until its end, writing all of some bytes to one, and
//! what the writes come to.
#![tactic(auto)]

mod devices;
mod input;
mod output;
mod writes;

pub use devices::{Counting, Faults, rose};
pub use input::{MOST_READS, ReadError, read_to_end};
pub use output::{WriteError, write_all, write_all_counted};
pub use writes::Writes;
