//! Frames of memory of 4096 bytes, packs of at most eight of them, and the bytes of a pack joined.
//!
//! `Frame::new` alone takes memory. Frames move and are never copied: a frame is in one place by ownership, and
//! contracts see its bytes.
//!
//! Contract: reads and writes are those of the joined bytes, wherever frames meet.
#![tactic(auto)]

mod frame;
mod frames;
mod over;

pub use frame::Frame;
pub use frames::Frames;
pub use over::{read_over, write_over};
