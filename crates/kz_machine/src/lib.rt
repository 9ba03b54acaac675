//! The machine: its CPUs, its zones and one supply, run in the order of a bundle.
//!
//! It stands for a play: each book's zone is the play's, but for what CPUs did since their last visits. The rooms are
//! lowered to what the bundle's lines can use, before anything is made, and `boot` takes all memory.
//!
//! Contract: the record of `replay` is that of the run of the bundle's order, and keeps its zones apart.
#![tactic(auto)]

mod machine;
mod opening;
mod record_room;
mod running;
mod settling;
mod stepping;

pub use machine::Machine;
pub use running::replay;
