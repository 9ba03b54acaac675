//! The supply.
ghost use Rattle.std.specs.Prelude.{◌≡◌, ◌<◌, ◌≤◌, [], length, IfOk};
ghost use Rattle.kz_model.specs.declared.supply.Ask.TheVariants.{Chunk as AskChunk, Frames as AskFrames, Back};
ghost use Rattle.kz_model.specs.declared.supply.Answer.TheVariants.{Taken};
ghost use Rattle.kz_model.specs.Run.Supply.{answer_of};
ghost use Rattle.kz_frame.specs.Frames.{zero_frames};
ghost use Rattle.kz_supply.specs.Exchange.{chunk_answer, frames_answer};
ghost use Rattle.kz_supply.specs.Supply.{AreAnswered, stock_of, frames_out, with_entry};

use crate::{Denied, Grant, ThinSupply};
use kz_frame::Frames;
use kz_model::{Items, SupplyEntry};
use std::alloc::{AllocError, Global};
use std::marker::Model;

/// Frames that move between zones, the pages of five submaps, and a log of all asks with their answers.
///
/// It takes all its memory when it is made. As many frames are made as any asks can have out.
#[derive(Drop)]
pub struct Supply {
    thin: ThinSupply,
}

impl Model for Supply {
    ghost use Rattle.kz_supply.specs.Supply.{Supply as Seen};
    ghost use Rattle.kz_supply.specs.Thin.{IsMadeWhole};

    ghost Value = { Seen };

    ghost view = { λ s. s.thin.counted };

    ghost invariant = { λ s. IsMadeWhole s.thin };
}

impl Supply {
    /// A supply of so many free frames and so many pages in each submap, with room for so many entries in its log.
    ///
    /// An entry takes at most eight frames, so memory is taken for at most eight frames an entry.
    pub fn new(alloc: Global, frames: u32, pages: u32, log_room: u32) -> Result<Supply, AllocError>
        ensures { IfOk result (λ supply. supply ≡ record { frames = frames; pages = pages; room = log_room; log = [] }) }
    {
        let made = log_room.saturating_mul(8);
        let thin = ThinSupply::new(alloc, frames, made, pages, log_room)?;
        Ok(Supply { thin })
    }

    /// Answers a zone's ask for a new chunk of so many pages of a submap.
    pub fn chunk(&mut self, zone: u32, submap: u32, pages: u32) -> Result<Grant, Denied>
        requires room { length self.old.log < self.old.room }
        requires submap { submap < 5 }
        requires some { 1 ≤ pages }
        requires few { pages ≤ 8 }
        ensures answer { chunk_answer result ≡ answer_of self.old.pages (stock_of self.old) (AskChunk submap pages) }
        ensures logged { self.new
            ≡ with_entry (record { zone = zone; ask = AskChunk submap pages; answer = chunk_answer result }) self.old }
        ensures answers { AreAnswered self.new }
        ensures zero { IfOk result (λ grant. grant.frames ≡ zero_frames pages) }
    {
        self.thin.chunk(zone, submap, pages)
    }

    /// Answers a zone's ask for frames.
    pub fn frames(&mut self, zone: u32, pages: u32) -> Result<Frames, Denied>
        requires room { length self.old.log < self.old.room }
        requires some { 1 ≤ pages }
        requires few { pages ≤ 8 }
        ensures answer { frames_answer result ≡ answer_of self.old.pages (stock_of self.old) (AskFrames pages) }
        ensures logged { self.new
            ≡ with_entry (record { zone = zone; ask = AskFrames pages; answer = frames_answer result }) self.old }
        ensures answers { AreAnswered self.new }
        ensures zero { IfOk result (λ frames. frames ≡ zero_frames pages) }
    {
        self.thin.frames(zone, pages)
    }

    /// Takes frames back from a zone.
    pub fn back(&mut self, zone: u32, frames: Frames)
        requires room { length self.old.log < self.old.room }
        requires out { length frames ≤ frames_out self.old }
        ensures logged { self.new
            ≡ with_entry (record { zone = zone; ask = Back (length frames); answer = Taken }) self.old }
        ensures answers { AreAnswered self.new }
    {
        self.thin.back(zone, frames);
    }

    /// All asks so far with their answers, in their order. The answers are those of the supply's table.
    pub fn log(&self) -> &[SupplyEntry]
        ensures log { result.now ≡ self.now.log }
        ensures answers { AreAnswered self.now }
        ensures room { length self.now.log ≤ self.now.room }
        ensures free { (stock_of self.now).free ≤ self.now.frames }
    {
        self.thin.log()
    }

    /// All asks with their answers, moved out. The frames are let go.
    pub fn into_log(self) -> Items<SupplyEntry>
        ensures { result ≡ self.log }
    {
        self.thin.into_log()
    }
}
