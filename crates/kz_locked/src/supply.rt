//! The supply behind a turn.
ghost use Rattle.std.specs.Prelude.{◌≡◌, ℕ, ◌+◌, ◌^◌, ◌<◌, ◌≤◌, ◌++◌, ◌∷◌, [], length, IfOk, IfErr};
ghost use Rattle.kz_model.specs.Run.Journal.{log_at};
ghost use Rattle.kz_model.specs.declared.supply.Ask.TheVariants.{Chunk as AskChunk, Frames as AskFrames, Back};
ghost use Rattle.kz_model.specs.declared.supply.Answer.TheVariants.{Taken};
ghost use Rattle.kz_frame.specs.Frames.{zero_frames};
ghost use Rattle.kz_supply.specs.declared.pages.Denied.TheVariants.{NoFrames};
ghost use Rattle.kz_supply.specs.Exchange.{chunk_answer, frames_answer, ask_for_chunk as chunk_ask, ask_for_frames as frames_ask};
ghost use Rattle.kz_turn.specs.Turns.{turn_name};
ghost use Rattle.kz_locked.specs.Shares.{IsShared, MayAsk, MayGiveBack, share_of, frames_held};
ghost use Rattle.kz_locked.specs.Supply.{start_of, entries_since, own_log, own_share};

use kz_frame::Frames;
use kz_model::{SupplyEntry, ZoneParams};
use kz_supply::{Denied, Grant, ThinSupply};
use kz_turn::{Kept, Pass, Turn};
use std::collections::LinkedList;
use std::sync::Wait;

/// How many entries of the log a zone may make, and how many frames it may have out at once.
#[derive(Clone, Copy, Debug, PartialEq, Eq)]
pub struct Share {
    pub entries: u32,
    pub frames: u32,
}

/// A supply as its turn was opened. Clauses alone see it: no value of it is made.
pub struct SupplyStart {
    pub frames: u32,
    pub made: u32,
    pub pages: u32,
    pub room: u32,
    /// By zone.
    pub shares: LinkedList<Share>,
    pub log: LinkedList<SupplyEntry>,
}

/// A supply that zones share, behind a turn whose seats are numbered by zone.
#[derive(Drop)]
pub struct LockedSupply {
    supply: ThinSupply,
    shares: Vec<Share>,
    /// How many entries the log had as the turn was opened.
    opened: usize,
    ghost kept: { IsShared shares.items supply },
    ghost since: { opened ≤ length supply.counted.log },
    ghost short: { length (entries_since opened supply) < 2 ^ 62 },
}

impl Kept for LockedSupply {
    type Base = SupplyStart;

    type Entry = SupplyEntry;

    ghost base = { λ s. start_of s.shares.items s.opened s.supply };

    ghost journal = { λ s. entries_since s.opened s.supply };

    ghost short = { λ s. s.short };
}

impl LockedSupply {
    /// The supply as it is now, which each zone uses within its share.
    pub fn new(supply: ThinSupply, shares: Vec<Share>) -> LockedSupply
        requires { IsShared shares.items supply }
        ensures supply { result.supply ≡ supply }
        ensures shares { result.shares ≡ shares }
        ensures opened { result.opened ≡ length supply.counted.log }
    {
        let opened = supply.log().len();
        LockedSupply {
            supply,
            shares,
            opened,
        }
    }

    /// The supply and the shares, when the turn is closed.
    pub fn into_parts(self) -> (ThinSupply, Vec<Share>)
        ensures parts { result ≡ (self.supply, self.shares) }
        ensures shared { IsShared result.1.items result.0 }
    {
        let LockedSupply {
            supply,
            shares,
            opened: _,
        } = self;
        (supply, shares)
    }

    fn chunk(self, params: &ZoneParams) -> (LockedSupply, Result<Grant, Denied>)
        requires zone { params.now.zone < length self.shares.items }
        requires may { MayAsk (share_of self.shares.items params.now.zone) (log_at params.now.zone self.supply.counted.log)
            params.now.pages }
        requires submap { params.now.submap < 5 }
        requires some { 1 ≤ params.now.pages }
        requires few { params.now.pages ≤ 8 }
        ensures base { start_of result.0.shares.items result.0.opened result.0.supply
            ≡ start_of self.shares.items self.opened self.supply }
        ensures journal { entries_since result.0.opened result.0.supply
            ≡ entries_since self.opened self.supply
            ++ (
              params.now.zone,
              record { zone = params.now.zone; ask = chunk_ask params.now; answer = chunk_answer result.1 },
            )
            ∷ [] }
        ensures zero { IfOk result.1 (λ grant. grant.frames ≡ zero_frames params.now.pages) }
        ensures fits { IfOk result.1 (λ grant. frames_held (log_at params.now.zone self.supply.counted.log) + params.now.pages
            ≤ self.supply.counted.frames) }
        ensures below { IfOk result.1 (λ grant. grant.page + params.now.pages ≤ self.supply.counted.pages) }
    {
        let LockedSupply {
            mut supply,
            shares,
            opened,
        } = self;
        let granted = supply.chunk(params.zone, params.submap, params.pages);
        (
            LockedSupply {
                supply,
                shares,
                opened,
            },
            granted,
        )
    }

    fn frames(self, params: &ZoneParams) -> (LockedSupply, Result<Frames, Denied>)
        requires zone { params.now.zone < length self.shares.items }
        requires may { MayAsk (share_of self.shares.items params.now.zone) (log_at params.now.zone self.supply.counted.log)
            params.now.pages }
        requires some { 1 ≤ params.now.pages }
        requires few { params.now.pages ≤ 8 }
        ensures base { start_of result.0.shares.items result.0.opened result.0.supply
            ≡ start_of self.shares.items self.opened self.supply }
        ensures journal { entries_since result.0.opened result.0.supply
            ≡ entries_since self.opened self.supply
            ++ (
              params.now.zone,
              record { zone = params.now.zone; ask = frames_ask params.now; answer = frames_answer result.1 },
            )
            ∷ [] }
        ensures zero { IfOk result.1 (λ frames. frames ≡ zero_frames params.now.pages) }
        ensures fits { IfOk result.1 (λ frames. frames_held (log_at params.now.zone self.supply.counted.log) + params.now.pages
            ≤ self.supply.counted.frames) }
        ensures space { IfErr result.1 (λ denied. (free : ℕ) × (denied ≡ NoFrames free)) }
    {
        let LockedSupply {
            mut supply,
            shares,
            opened,
        } = self;
        let given = supply.frames(params.zone, params.pages);
        (
            LockedSupply {
                supply,
                shares,
                opened,
            },
            given,
        )
    }

    fn back(self, zone: u32, frames: Frames) -> LockedSupply
        requires zone { zone < length self.shares.items }
        requires may { MayGiveBack (share_of self.shares.items zone) (log_at zone self.supply.counted.log) (length frames) }
        ensures base { start_of result.shares.items result.opened result.supply
            ≡ start_of self.shares.items self.opened self.supply }
        ensures journal { entries_since result.opened result.supply
            ≡ entries_since self.opened self.supply
            ++ (zone, record { zone = zone; ask = Back (length frames); answer = Taken }) ∷ [] }
    {
        let LockedSupply {
            mut supply,
            shares,
            opened,
        } = self;
        supply.back(zone, frames);
        LockedSupply {
            supply,
            shares,
            opened,
        }
    }
}

/// A zone's ask for a new chunk, in one stay at the supply's turn.
pub fn ask_for_chunk<R: Wait>(
    rt: &R,
    turn: &Turn<LockedSupply>,
    pass: Pass<LockedSupply>,
    params: &ZoneParams,
) -> (Pass<LockedSupply>, Result<Grant, Denied>)
    requires turn { pass.name ≡ turn_name turn.now }
    requires seat { pass.number ≡ params.now.zone }
    requires zone { params.now.zone < length pass.base.shares }
    requires may { MayAsk (own_share pass) (own_log pass) params.now.pages }
    requires submap { params.now.submap < 5 }
    requires some { 1 ≤ params.now.pages }
    requires few { params.now.pages ≤ 8 }
    ensures seat { (result.0.name ≡ pass.name) × (result.0.number ≡ pass.number) × (result.0.base ≡ pass.base) }
    ensures own { result.0.own
        ≡ pass.own
        ++ record { zone = params.now.zone; ask = chunk_ask params.now; answer = chunk_answer result.1 } ∷ [] }
    ensures zero { IfOk result.1 (λ grant. grant.frames ≡ zero_frames params.now.pages) }
    ensures fits { IfOk result.1 (λ grant. frames_held (own_log pass) + params.now.pages ≤ pass.base.frames) }
    ensures below { IfOk result.1 (λ grant. grant.page + params.now.pages ≤ pass.base.pages) }
{
    let (held, supply) = turn.enter(rt, pass);
    let (supply, granted) = supply.chunk(params);
    (turn.leave(held, supply), granted)
}

/// A zone's ask for the frames of a chunk that it has, in one stay at the supply's turn.
pub fn ask_for_frames<R: Wait>(
    rt: &R,
    turn: &Turn<LockedSupply>,
    pass: Pass<LockedSupply>,
    params: &ZoneParams,
) -> (Pass<LockedSupply>, Result<Frames, Denied>)
    requires turn { pass.name ≡ turn_name turn.now }
    requires seat { pass.number ≡ params.now.zone }
    requires zone { params.now.zone < length pass.base.shares }
    requires may { MayAsk (own_share pass) (own_log pass) params.now.pages }
    requires some { 1 ≤ params.now.pages }
    requires few { params.now.pages ≤ 8 }
    ensures seat { (result.0.name ≡ pass.name) × (result.0.number ≡ pass.number) × (result.0.base ≡ pass.base) }
    ensures own { result.0.own
        ≡ pass.own
        ++ record { zone = params.now.zone; ask = frames_ask params.now; answer = frames_answer result.1 } ∷ [] }
    ensures zero { IfOk result.1 (λ frames. frames ≡ zero_frames params.now.pages) }
    ensures fits { IfOk result.1 (λ frames. frames_held (own_log pass) + params.now.pages ≤ pass.base.frames) }
    ensures space { IfErr result.1 (λ denied. (free : ℕ) × (denied ≡ NoFrames free)) }
{
    let (held, supply) = turn.enter(rt, pass);
    let (supply, given) = supply.frames(params);
    (turn.leave(held, supply), given)
}

/// A zone gives frames back, in one stay at the supply's turn.
pub fn give_back<R: Wait>(
    rt: &R,
    turn: &Turn<LockedSupply>,
    pass: Pass<LockedSupply>,
    zone: u32,
    frames: Frames,
) -> Pass<LockedSupply>
    requires turn { pass.name ≡ turn_name turn.now }
    requires seat { pass.number ≡ zone }
    requires zone { zone < length pass.base.shares }
    requires may { MayGiveBack (own_share pass) (own_log pass) (length frames) }
    ensures seat { (result.name ≡ pass.name) × (result.number ≡ pass.number) × (result.base ≡ pass.base) }
    ensures own { result.own
        ≡ pass.own ++ record { zone = zone; ask = Back (length frames); answer = Taken } ∷ [] }
{
    let (held, supply) = turn.enter(rt, pass);
    let supply = supply.back(zone, frames);
    turn.leave(held, supply)
}
