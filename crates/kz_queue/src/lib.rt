//! Chunks by their places, with the lowest ordinal of each place at hand.
//!
//! A chunk is idle in part (`Part`), wholly idle (`Whole`), all out (`Out`), or not mapped (`Gone`). For each place
//! there are bits, 64 in a number, and bits more that say which of these numbers aren't 0. So each call takes the same
//! few steps for up to 4096 chunks, and `lowest` one step more for each further 4096. It knows nothing of zones.
//!
//! Contract: `Shelf::lowest` is the least ordinal of a place, None exactly where none has it.
#![tactic(auto)]

mod ordinals;
mod place;
mod sets;
mod shelf;

pub use place::Place;
pub use shelf::Shelf;
