//! Stays of CPUs in zones: what one who holds a zone's turn leaves behind, and the run that all stays make.
ghost use Rattle.kz_laws.specs.StayAmounts.{StaysHoldWithin};
ghost use Rattle.kz_laws.specs.StayLaws.{StaysMakeCourses, StaysMakeRuns, StaysAnswer, StaysLeaveParts, VisitsTellStays};

use kz_model::{Block, Bound, Reply, Step, SupplyEntry};
use std::collections::LinkedList;

/// A CPU's stay in a zone. It stands in proofs alone: no value of it is made.
pub struct Stay {
    pub round: u32,
    pub cpu: u32,
    /// The steps that the visit carries.
    pub steps: LinkedList<Step>,
    /// The replies to them, one each.
    pub replies: LinkedList<Reply>,
    pub settled: bool,
    /// What the zone asked of the supply meanwhile.
    pub entries: LinkedList<SupplyEntry>,
    /// The CPU's stack after it, the oldest block first.
    pub stack: LinkedList<Block>,
    /// The CPU's names after it, with what each is bound to.
    pub names: LinkedList<(u32, Bound)>,
}

/// Stays one after the other are the zone alone over their steps.
pub fn stays_make_courses()
    ensures { StaysMakeCourses }
{}

/// Stays that carry each CPU's steps round by round, with one log of the supply, are a run.
pub fn stays_make_runs()
    ensures { StaysMakeRuns }
{}

/// What a CPU's stays were answered, round by round, is what the report says of its lines.
pub fn stays_answer()
    ensures { StaysAnswer }
{}

/// What a CPU has after stays is what its own last one left it.
pub fn stays_leave_parts()
    ensures { StaysLeaveParts }
{}

/// Visits and entries tell the stays that made them.
pub fn visits_tell_stays()
    ensures { VisitsTellStays }
{}

/// Stays hold no more than their steps bring.
pub fn stays_hold_within()
    ensures { StaysHoldWithin }
{}
