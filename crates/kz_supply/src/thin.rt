//! The supply with fewer frames made than it counts: free frames, and a cursor for each submap.
ghost use Rattle.std.specs.Prelude.{◌≡◌, ◌<◌, ◌≤◌, [], length, min, IfOk};
ghost use Rattle.kz_model.specs.declared.supply.Ask.TheVariants.{Chunk as AskChunk, Frames as AskFrames, Back};
ghost use Rattle.kz_model.specs.declared.supply.Answer.TheVariants.{Taken};
ghost use Rattle.kz_model.specs.Run.Supply.{answer_of, pages_left};
ghost use Rattle.kz_frame.specs.Frames.{zero_frames};
ghost use Rattle.kz_supply.specs.Exchange.{chunk_answer, frames_answer};
ghost use Rattle.kz_supply.specs.Supply.{AreAnswered, stock_of, frames_out};
ghost use Rattle.kz_supply.specs.Thin.{HasMade, thin_with_entry};

use crate::pages::{answer_to_chunk, answer_to_frames};
use crate::stock::Stock;
use crate::{Denied, Grant};
use kz_frame::Frames;
use kz_model::{Answer, Ask, Items, SupplyEntry};
use std::alloc::{AllocError, Global};
use std::marker::Model;

/// A supply like [`Supply`](crate::Supply), for a caller who knows how many of its frames can be out at once: memory is
/// taken for so many, and the others are only counted.
///
/// It takes all its memory when it is made.
#[derive(Drop)]
pub struct ThinSupply {
    stock: Stock,
    log: Vec<SupplyEntry>,
    room: u32,
}

impl Model for ThinSupply {
    ghost use Rattle.std.specs.Prelude.{◌-◌, vec_capacity};
    ghost use Rattle.kz_supply.specs.Thin.{ThinSupply as Seen, AgreesWithLog};

    ghost Value = { Seen };

    ghost view = { λ s. record {
      counted =
          record { frames = s.stock.frames; pages = s.stock.pages; room = s.room; log = s.log.items };
      made =
          s.stock.frames - s.stock.unmade;
    } };

    ghost invariant = { λ s. AgreesWithLog s.stock.left s.stock.unmade (vec_capacity s.log)
        (record {
          counted = record {
            frames = s.stock.frames;
            pages = s.stock.pages;
            room = s.room;
            log =
                s.log.items;
          };
          made = s.stock.frames - s.stock.unmade;
        }) };
}

impl ThinSupply {
    /// A supply of so many free frames, of which so many are made, and so many pages in each submap, with room for so
    /// many entries in its log.
    pub fn new(
        alloc: Global,
        frames: u32,
        made: u32,
        pages: u32,
        log_room: u32,
    ) -> Result<ThinSupply, AllocError>
        ensures { IfOk result (λ supply. supply
            ≡ record {
              counted = record { frames = frames; pages = pages; room = log_room; log = [] };
              made =
                  min frames made;
            }) }
    {
        let stock = Stock::new(alloc, frames, frames.min(made), pages)?;
        let log = Vec::with_capacity(alloc, log_room as usize)?;
        Ok(ThinSupply {
            stock,
            log,
            room: log_room,
        })
    }

    /// Answers a zone's ask for a new chunk of so many pages of a submap.
    pub fn chunk(&mut self, zone: u32, submap: u32, pages: u32) -> Result<Grant, Denied>
        requires room { length self.old.counted.log < self.old.counted.room }
        requires submap { submap < 5 }
        requires some { 1 ≤ pages }
        requires few { pages ≤ 8 }
        requires made { pages ≤ pages_left self.old.counted.pages (stock_of self.old.counted) submap →
            HasMade pages self.old }
        ensures answer { chunk_answer result
            ≡ answer_of self.old.counted.pages (stock_of self.old.counted) (AskChunk submap pages) }
        ensures logged { self.new
            ≡ thin_with_entry (record { zone = zone; ask = AskChunk submap pages; answer = chunk_answer result })
            self.old }
        ensures answers { AreAnswered self.new.counted }
        ensures zero { IfOk result (λ grant. grant.frames ≡ zero_frames pages) }
    {
        let granted = self.stock.chunk(submap, pages);
        let answer = answer_to_chunk(&granted);
        let ask = Ask::Chunk { submap, pages };
        self.log.push_reserved(SupplyEntry { zone, ask, answer });
        granted
    }

    /// Answers a zone's ask for frames.
    pub fn frames(&mut self, zone: u32, pages: u32) -> Result<Frames, Denied>
        requires room { length self.old.counted.log < self.old.counted.room }
        requires some { 1 ≤ pages }
        requires few { pages ≤ 8 }
        requires made { HasMade pages self.old }
        ensures answer { frames_answer result
            ≡ answer_of self.old.counted.pages (stock_of self.old.counted) (AskFrames pages) }
        ensures logged { self.new
            ≡ thin_with_entry (record { zone = zone; ask = AskFrames pages; answer = frames_answer result }) self.old }
        ensures answers { AreAnswered self.new.counted }
        ensures zero { IfOk result (λ frames. frames ≡ zero_frames pages) }
    {
        let given = self.stock.frames(pages);
        let answer = answer_to_frames(&given);
        let ask = Ask::Frames { pages };
        self.log.push_reserved(SupplyEntry { zone, ask, answer });
        given
    }

    /// Takes frames back from a zone.
    pub fn back(&mut self, zone: u32, frames: Frames)
        requires room { length self.old.counted.log < self.old.counted.room }
        requires out { length frames ≤ frames_out self.old.counted }
        ensures logged { self.new
            ≡ thin_with_entry (record { zone = zone; ask = Back (length frames); answer = Taken }) self.old }
        ensures answers { AreAnswered self.new.counted }
    {
        let ask = Ask::Back {
            pages: frames.len(),
        };
        let answer = Answer::Taken;
        self.stock.back(frames);
        self.log.push_reserved(SupplyEntry { zone, ask, answer });
    }

    /// All asks so far with their answers, in their order. The answers are those of the supply's table.
    pub fn log(&self) -> &[SupplyEntry]
        ensures log { result.now ≡ self.now.counted.log }
        ensures answers { AreAnswered self.now.counted }
        ensures room { length self.now.counted.log ≤ self.now.counted.room }
        ensures free { (stock_of self.now.counted).free ≤ self.now.counted.frames }
    {
        self.log.as_slice()
    }

    /// All asks with their answers, moved out. The frames are let go.
    pub fn into_log(self) -> Items<SupplyEntry>
        ensures { result ≡ self.counted.log }
    {
        Items::from_vec(self.log)
    }
}
