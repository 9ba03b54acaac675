//! The bundle that is made of a number, and what is told of its run.
//!
//! Its lines are drawn from one stream of the number, each writer from whichever word it begins with. The text is made
//! as an input would be, and goes through the reader like any other.
//!
//! Contract: the text is the one that is made of the number, and the summary counts the replies of a record. A law says
//! that each number below 2^64 makes a text that spells a bundle, so `make` is never refused.
#![tactic(auto)]

mod bundle;
mod fields;
mod laws;
mod order;
mod sections;
mod steps;
mod summary;
mod totals;
mod types;
mod write;

pub use bundle::make_bundle;
pub use laws::made_bundles_spell;
pub use summary::summary_text;
