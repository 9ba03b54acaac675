//! What a visit asks of the supply, which it asks before the visit, and what it gives back, which the supply gets after.
ghost use Rattle.std.specs.Prelude.{◌≡◌, ◌≢◌, ◌+◌, ◌<◌, ◌≤◌, ◌++◌, [], length};
ghost use Rattle.kz_supply.specs.declared.pages.Want.TheVariants.{Nothing};
ghost use Rattle.kz_supply.specs.Exchange.{entries_of};
ghost use Rattle.kz_supply.specs.Ready.{NoAnswer};
ghost use Rattle.kz_turn.specs.Turns.{turn_name};
ghost use Rattle.kz_locked.specs.Readying.{IsReadyFor, IsWithinSupply, MayGiveBackAll, backs_of, exchanges_ready};
ghost use Rattle.kz_locked.specs.Shares.{MayAsk};
ghost use Rattle.kz_locked.specs.Supply.{own_log, own_share};

use crate::supply::{LockedSupply, ask_for_chunk, ask_for_frames, give_back};
use kz_model::ZoneParams;
use kz_supply::{ReadyPages, Want};
use kz_turn::{Pass, Turn};
use std::sync::Wait;

/// Asks the supply for what a visit will ask for, in one stay, and makes the answer ready.
pub fn make_ready<R: Wait>(
    rt: &R,
    turn: &Turn<LockedSupply>,
    pass: Pass<LockedSupply>,
    params: &ZoneParams,
    want: Want,
    pages: &mut ReadyPages,
) -> Pass<LockedSupply>
    requires turn { pass.name ≡ turn_name turn.now }
    requires seat { pass.number ≡ params.now.zone }
    requires zone { params.now.zone < length pass.base.shares }
    requires may { want ≢ Nothing → MayAsk (own_share pass) (own_log pass) params.now.pages }
    requires submap { params.now.submap < 5 }
    requires some { 1 ≤ params.now.pages }
    requires few { params.now.pages ≤ 8 }
    requires same_params { pages.old.params ≡ params.now }
    requires idle { pages.old.ready ≡ NoAnswer }
    requires fresh { pages.old.exchanges ≡ [] }
    ensures seat { (result.name ≡ pass.name) × (result.number ≡ pass.number) × (result.base ≡ pass.base) }
    ensures own { result.own ≡ pass.own ++ entries_of params.now.zone (exchanges_ready pages.new) }
    ensures ready { IsReadyFor want pages.old pages.new }
    ensures within { IsWithinSupply pass.base (own_log pass) params.now.pages pages.new.ready }
{
    match want {
        Want::Nothing => pass,
        Want::Chunk => {
            let (pass, granted) = ask_for_chunk(rt, turn, pass, params);
            pages.ready_chunk(granted);
            pass
        }
        Want::Frames => {
            let (pass, given) = ask_for_frames(rt, turn, pass, params);
            pages.ready_frames(given);
            pass
        }
    }
}

/// Hands the frames that were given back to the supply, each in a stay of its own, the oldest first.
pub fn hand_back<R: Wait>(
    rt: &R,
    turn: &Turn<LockedSupply>,
    pass: Pass<LockedSupply>,
    params: &ZoneParams,
    pages: &mut ReadyPages,
) -> Pass<LockedSupply>
    requires turn { pass.name ≡ turn_name turn.now }
    requires seat { pass.number ≡ params.now.zone }
    requires zone { params.now.zone < length pass.base.shares }
    requires may { MayGiveBackAll (own_share pass) (own_log pass) params.now.pages (length pages.old.waiting) }
    requires same_params { pages.old.params ≡ params.now }
    ensures seat { (result.name ≡ pass.name) × (result.number ≡ pass.number) × (result.base ≡ pass.base) }
    ensures own { result.own ≡ pass.own ++ backs_of params.now.zone params.now.pages (length pages.old.waiting) }
    ensures handed { pages.new
        ≡ record pages.old { handed = pages.old.handed + length pages.old.waiting; waiting = [] } }
{
    let mut pass = pass;
    while let Some(frames) = pages.next_back() {
        pass = give_back(rt, turn, pass, params.zone, frames);
    }
    pass
}
