//! Where a chunk stands.

/// What is to be had of a chunk.
#[derive(Clone, Copy, Debug, PartialEq, Eq)]
pub enum Place {
    /// Some elements are idle, and some are not.
    Part,
    /// All elements are idle.
    Whole,
    /// No element is idle.
    Out,
    /// The chunk is not mapped.
    Gone,
}
