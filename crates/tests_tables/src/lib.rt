//! Examples of tables that were worked out by hand and that only a call can show: a test for each. All other examples go through
//! the program: they are files of `examples/`.
#![tactic(auto)]

#[cfg(test)]
mod growth;
#[cfg(test)]
mod numbers;
#[cfg(test)]
mod rows;
#[cfg(test)]
mod seats;
#[cfg(test)]
mod swaps;
