//! The supply of frames and pages, and what one zone sees of it.
//!
//! A `Supply` has the free frames, which move to chunks and back, a cursor for each submap, and a log. A `ThinSupply`
//! makes fewer frames than it counts, for a caller who shows that they are enough. A zone sees either through the trait
//! `Pages`, so no zone knows of another. `new` alone takes memory. `ReadyPages` is for answers that were got before;
//! nothing uses it yet.
//!
//! Contract: each ask is answered by the supply's table and written down, and frames that are granted are all 0.
#![tactic(auto)]

mod pages;
mod ready;
mod solo;
mod stock;
mod supply;
mod thin;
mod thin_pages;

pub use pages::{Denied, Grant, Pages, Want};
pub use ready::{ReadyBase, ReadyPages};
pub use solo::{SoloBase, SoloPages};
pub use supply::Supply;
pub use thin::ThinSupply;
pub use thin_pages::{ThinBase, ThinPages};
