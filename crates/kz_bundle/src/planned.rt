//! What a bundle's lines are with its plan.

pub(crate) mod addressing;
pub(crate) mod counts;
pub(crate) mod rooms;
