//! Tests of the crates that read bytes, lay out types and plan zones: what no contract says, and that calls with ample
//! memory succeed. Bundles that are refused and plans are in cases/, for the built program.
#![tactic(auto)]

#[cfg(test)]
mod bundles;
#[cfg(test)]
mod streams;
#[cfg(test)]
mod types;
