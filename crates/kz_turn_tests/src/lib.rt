//! Tests of kz_turn: two threads that take turns, and a value that keeps the pass of another turn.
#![tactic(auto)]

#[cfg(test)]
mod nested;
pub mod seats;
#[cfg(test)]
mod tally;
