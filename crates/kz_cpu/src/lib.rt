//! One CPU: its stacks, its names, and the steps that it does by itself.
//!
//! It has a stack for each zone and one table of names for all; what a name is bound to carries the zone of the step
//! that bound it. It touches a zone through its book alone. `Cpu::new` alone takes memory.
//!
//! Contract: `local` gives no answer exactly where the step needs a visit; `slow` makes that visit, which carries all
//! steps since the last; `settle` carries those alone. What the CPU has of other zones stays.
#![tactic(auto)]

mod binding;
mod cache;
mod cpu;
mod own_reply;
mod refusals;

pub use binding::Binding;
pub use cpu::Cpu;
