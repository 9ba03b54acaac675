//! Laws over runs and plays, which hold whatever program makes them.
//!
//! A play is the run of an order as it goes, line by line (specs/Play). The laws are about the definitions of kz_model
//! alone: each element is in one place, what needs no visit may be delayed, an order is played line by line, and the
//! zones of a run are kept apart (specs/Isolation). No code that runs stands here.
//!
//! Contract: each law is the contract of a function that does nothing (src/laws.rt). Code that needs a law calls it; a
//! proof may cite its lemma.
#![tactic(auto)]

mod laws;
mod stays;

pub use laws::{
    a_report_names_its_run, addresses_are_sequestered, agreement_decides,
    delayed_runs_answer_alike, delays_change_nothing, each_element_is_in_one_place,
    orders_are_played, orders_make_runs, runs_keep_zones_apart, runs_that_agree_are_alike,
    steps_without_a_visit_are_local,
};
pub use stays::{
    Stay, stays_answer, stays_hold_within, stays_leave_parts, stays_make_courses, stays_make_runs,
    visits_tell_stays,
};
