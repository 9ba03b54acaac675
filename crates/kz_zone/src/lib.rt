//! The shared part of a zone: its chunks, its depot, its transit and the words that its picks draw. And the stack
//! (`Pair`) that a CPU brings.
//!
//! Chunks are found on a shelf by their places, gifts by a hash table. It asks the supply through a `Pages` alone.
//! `Zone::new` takes all memory.
//!
//! Contract: in each state that the zone stands for, a call is its part of a step's definition, with the asks that
//! belong to it. A caller who gives blocks back owes that they stand nowhere in what is shared.
#![tactic(auto)]

mod chunks;
mod depot;
mod grow;
mod idle;
mod pair;
mod pick;
mod slots;
mod transit;
mod trim;
mod within;
mod zone;

pub use depot::Depot;
pub use pair::Pair;
pub use zone::Zone;
