//! What stands behind the turns while CPUs run as threads: the supply, which all zones share, and each zone.
//!
//! A zone asks in a stay at the supply's turn, by the pass whose number is the zone's. It stands on kz_supply and
//! kz_turn, and the program doesn't use it yet.
//!
//! Contract: a zone that knows its own entries and its share of the supply may ask, whatever other zones did meanwhile;
//! the answer is the supply's, and the pass knows the entry (`ask_for_chunk`, `ask_for_frames`, `give_back`). A zone
//! behind its turn tells the stays that led to it (`LockedZone`). It still does after one more
//! (`one_more_stay_is_kept`), and the pass of a CPU knows what the CPU has there (`passes_know_parts`).
#![tactic(auto)]

mod laws;
mod readying;
mod supply;
mod zone;

pub use laws::{
    new_zones_are_locked, one_more_stay_is_kept, passes_know_parts, settlings_are_stays,
    settlings_go_on, stays_carry_first_steps, visits_are_stays, visits_go_on,
};
pub use readying::{hand_back, make_ready};
pub use supply::{LockedSupply, Share, SupplyStart, ask_for_chunk, ask_for_frames, give_back};
pub use zone::{LockedZone, TurnName, ZoneStart};
