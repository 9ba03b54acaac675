//! One chunk of a zone: its idle elements and its bytes.
//!
//! The idle elements are a rising list of at most 256 bytes in the chunk itself, so no call takes memory. While a chunk
//! is mapped it has its frames, and an element may lie in several. It knows nothing of stacks, names or the supply.
//!
//! Contract: each call changes one chunk as its definition does; `take` gives the idle element that the word picks.
#![tactic(auto)]

mod bytes;
mod chunk;
mod idle;

pub use chunk::Chunk;
