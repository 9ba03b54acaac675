//! Bundles: read from bytes, and printed.
//!
//! `form/` reads the lines one after the other, `stages/` judges types, names, rounds and the order, `planned/` is for
//! what needs the bundle's plan: which zone a line is addressed to, and how many lines each zone has. What is kept of a
//! text is small: a type line as its text, a step by numbers. No loop goes over pairs of lines or of names.
//!
//! Contract: Ok is the bundle that the bytes spell, with the layouts of its types; else the refusal is their first
//! fault. Laws say that the grammar and its reader agree, that a bundle has one text, and that what is read keeps to
//! its limits.
#![tactic(auto)]

mod fault;
mod form;
mod laws;
mod planned;
mod printing;
mod read;
mod stages;

pub use fault::ReadBundleFault;
pub use kz_model::{Cause, Counted, Refusal};
pub use laws::{a_bundle_has_one_text, spelling_is_reading, what_is_read_is_valid};
pub use planned::addressing::addressed;
pub use planned::rooms::{ZoneLoad, rooms, zone_loads};
pub use printing::print_bundle;
pub use read::{read_bundle, read_with_layouts};
pub use stages::typing::bundle_layouts;
