//! Examples of sessions and devices that were worked out by hand and that only a call can show: tables of data, and a test for
//! each. All other examples go through the program (`bin/checks`).
#![tactic(auto)]

#[cfg(test)]
mod devices;
#[cfg(test)]
mod failures;
#[cfg(test)]
mod gates;
#[cfg(test)]
mod hellos;
#[cfg(test)]
mod machine;
#[cfg(test)]
mod rounds;
#[cfg(test)]
mod turns;
#[cfg(test)]
mod workers;
#[cfg(test)]
mod worlds;
