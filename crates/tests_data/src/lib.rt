//! Examples that were worked out by hand and that only a call can show: tables of data, and a test for each. All other examples
//! go through the program: they are files of `examples/`.
#![tactic(auto)]

#[cfg(test)]
mod batches;
#[cfg(test)]
mod bytes;
#[cfg(test)]
mod decoders;
#[cfg(test)]
mod exchanges;
#[cfg(test)]
mod growth;
#[cfg(test)]
mod intakes;
#[cfg(test)]
mod integers;
#[cfg(test)]
mod known_states;
#[cfg(test)]
mod learners;
#[cfg(test)]
mod lessons;
#[cfg(test)]
mod lists;
#[cfg(test)]
mod messages;
#[cfg(test)]
mod plans;
#[cfg(test)]
mod rates;
#[cfg(test)]
mod rows;
#[cfg(test)]
mod slots;
