//! The stages after the form: types, names, and rounds with the order.

mod entry;
mod naming;
pub(crate) mod numbers;
pub(crate) mod rounds;
mod scan;
pub(crate) mod typing;
