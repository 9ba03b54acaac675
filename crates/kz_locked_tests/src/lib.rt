//! Tests of kz_locked: two zones ask a supply behind a turn, each in a thread of its own.
#![tactic(auto)]

#[cfg(test)]
mod sharing;
