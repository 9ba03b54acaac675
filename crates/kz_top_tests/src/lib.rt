//! Tests of the crates from whole runs up to whole calls: streams that fail, made bundles, and that calls with ample
//! memory succeed. Reports are in cases/, for the built program.
#![tactic(auto)]

#[cfg(test)]
mod calls;
#[cfg(test)]
mod made;
#[cfg(test)]
mod texts;
