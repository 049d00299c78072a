//! The encoded integers of HAProxy's peers protocol (HAProxy, doc/peers-v2.0.txt): a number below 2^64 in one to ten
//! bytes, small numbers in one. A number below 240 is that byte. Otherwise the first byte is 240 plus the number's low
//! four bits, and each later byte holds seven bits of the rest. The first later byte below 128 is the last.
#![tactic(auto)]

mod laws;
mod reading;
mod spelling;

pub use laws::{lengths, one_spelling, reading_of_spellings};
pub use reading::{Read, get};
pub use spelling::{len, put};
