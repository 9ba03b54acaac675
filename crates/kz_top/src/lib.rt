//! The top call: the arguments, then the input, then the work, then the output.
//!
//! It joins the crates and computes little: which command is asked for, the text of a bundle, the status, the line on
//! err.
//!
//! Contract: `kzone_still` has no condition. Its clauses say which status comes when, and what out and err took.
#![tactic(auto)]

mod answer;
mod call;
mod command;
mod status;

pub use call::kzone_still;
pub use command::Command;
pub use kz_make::make_bundle;
pub use status::Status;
