//! The layouts of declared types: sizes, alignments, and the letters of what covers their granules.
//!
//! A `Layouter` takes one declaration at a time and borrows nothing of it, so a reader may drop each as it goes. The
//! definition covers a type byte by byte; the code keeps one code for each granule of eight bytes. Its work is linear
//! in the declarations and in the granules that fields cover, whatever their counts are. Names are found in ordered
//! trees.
//!
//! Contract: the layouts are the definition's, or the fault is its first, with its place. Where fields are in them, and
//! what their letters say, is said by laws (src/laws.rt).
#![tactic(auto)]

mod body;
mod braces;
mod laws;
mod layouter;
mod letters;
mod over;
mod places;
mod types;

pub use kz_model::{LayoutCause, LayoutFault};
pub use laws::{data_holds_no_pointer, fields_are_placed};
pub use layouter::Layouter;
pub use places::Places;
pub use types::layouts;
