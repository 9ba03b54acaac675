//! Sources and sinks of bytes that count their faults, and the lines, tokens, numbers and hexadecimal bytes of a text.
//!
//! It alone touches readers and writers. A source may tell its rest and a sink what it took; one in memory does,
//! standard input and output don't. A count of faults stops at 2^64 - 1: that it rose means that it is greater, or
//! stands there.
//!
//! Contract: what was read left the front of the rest, in order; what was written was appended; a failure comes only
//! where the count of faults rose. Texts are cut and read exactly as they are defined.
#![tactic(auto)]

mod digits;
mod hex;
mod input;
mod lines;
mod memory;
mod numbers;
mod output;
mod standard;
mod streams;
mod token;

pub use digits::{glyph, push_decimal, push_hex};
pub use hex::read_hex;
pub use input::{InputFault, read_all};
pub use lines::{Line, Lines};
pub use memory::{MemorySink, MemorySource};
pub use numbers::read_u64;
pub use output::write_whole;
pub use standard::{StdSink, StdSource};
pub use streams::{Failed, Sink, Source};
pub use token::{Token, tokens};
