//! Plays the examples that only a call can show: an example is data, written in short, and a function of this crate makes the
//! calls and compares. The library has no tests, so it is proved once. A function that returns an index returns that of the
//! first example that fails. If memory runs out, an example counts as failed.
#![tactic(auto)]

pub mod batches;
pub mod cyclic_names;
pub mod decoders;
pub mod exchanges;
pub mod growth;
pub mod intakes;
pub mod integers;
pub mod known_states;
pub mod learners;
pub mod lessons;
pub mod lists;
pub mod messages;
pub mod outcomes;
pub mod parts;
pub mod plans;
pub mod rates;
pub mod rows;
pub mod slots;
