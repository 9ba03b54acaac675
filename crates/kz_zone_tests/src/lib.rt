//! Tests of the crates from frames of memory up to a CPU: what no contract says, and that calls with ample memory
//! succeed. Whole runs are in cases/, for the built program.
#![tactic(auto)]

#[cfg(test)]
mod fixture;
#[cfg(test)]
mod memory;
#[cfg(test)]
mod opening;
#[cfg(test)]
mod supplying;
