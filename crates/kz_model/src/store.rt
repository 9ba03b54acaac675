//! What is kept short: declarations as their lines, names apart from types, steps and replies without their bytes.

pub(crate) mod named;
pub(crate) mod recent;
pub(crate) mod replies;
pub(crate) mod short;
pub(crate) mod type_lines;
