//! The size classes, and the chunk of each.
//!
//! No call takes memory, and all is proved for a table of any length. `class_of` is a binary search; `geometry` tries
//! one page, then two, up to eight.
//!
//! Contract: a size's class is the least that isn't below it, and its chunk has the least pages that hold an element
//! and leave over at most an eighth. That this is what the definitions compute is a law here (`classes_are_least`).
#![tactic(auto)]

mod laws;
mod pages;
mod table;

pub use laws::classes_are_least;
pub use table::{ClassTable, kalloc_classes};
