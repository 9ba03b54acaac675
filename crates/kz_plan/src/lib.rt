//! The plan: which zones there are, and which types each has.
//!
//! It is made of the types' layouts, a budget of zones and a seed. One zone after another goes to the class that has
//! the most signatures for a zone; sets and maps hold signatures, and no loop goes over pairs of types. A budget that
//! is too short is refused before memory is asked for.
//!
//! Contract: the plan is the definition's, or the budget is short, with the number of classes in use. Laws say that no
//! other division is fairer, that each signature is dealt once, that a plan has a fit zone of its own class for each
//! type, and which types always or never share a zone.
#![tactic(auto)]

mod dealing;
mod division;
mod fault;
mod grouping;
mod laws;
mod planning;
mod zones;

pub use division::share;
pub use fault::PlanFault;
pub use grouping::general_classes;
pub use laws::{
    like_types_share_a_zone, plans_are_fit, shares_are_fair, signatures_are_dealt_once,
    types_have_zones_of_their_class,
};
pub use planning::plan;
