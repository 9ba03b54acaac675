//! A zone's shared part: its chunks, its depot, its transit and its words.
ghost use Rattle.std.specs.Prelude.{◌≡◌, ◌+◌, ◌*◌, ◌<◌, ◌≤◌, ◌++◌, [], ◌∷◌, true, false, length, take, drop, map, replicate, Some, is_some, slice_index, IfOk, OnOk, OnErr, IfSome, IfNone};
ghost use Rattle.std.specs.List.{remove};
ghost use Rattle.std.specs.Option.{unwrap_or};
ghost use Rattle.kz_model.specs.Zone.Words.{opened};
ghost use Rattle.kz_model.specs.Zone.State.{Shared, Gift, chunk_at, no_cpu_part};
ghost use Rattle.kz_model.specs.Zone.Rules.{ready, after_spill, all_idle, trimmed, before_unmapping, count_whole, gift_place, gift_at, with_bytes, bytes_at};
ghost use Rattle.kz_model.specs.Zone.Whole.{AreAway};
ghost use Rattle.kz_zone.specs.Zone.{StandsFor, IsSame, IsSettled, IsBlock, IsSoundZone, shared_of, place_of, want_of};
ghost use Rattle.kz_supply.specs.Pages.{IsUsed};
ghost use Rattle.kz_zone.specs.Growth.{CanServe, HasAsked, chunks_of, growth_asks, trim_exchanges};
ghost use Rattle.kz_zone.specs.Room.{IsFitRoom};
ghost use Rattle.std.specs.List.{count_by};

use crate::chunks::Chunks;
use crate::grow::ready;
use crate::idle::{empty_depot, empty_stack, put_all};
use crate::pick::pick_onto;
use crate::transit::Transit;
use crate::trim::unmap_whole;
use crate::{Depot, Pair};
use kz_model::{Block, Piece, Room, Words};
use kz_queue::Shelf;
use kz_supply::{Denied, Pages, Want};
use std::alloc::{AllocError, Global};
use std::marker::Model;

/// What no one CPU has of a zone.
///
/// It takes all its memory when it is made.
#[derive(Drop)]
pub struct Zone {
    chunks: Chunks,
    depot: Depot,
    transit: Transit,
    words: Words,
}

impl Model for Zone {
    ghost use Rattle.kz_zone.specs.Zone.{Zone as Seen};
    ghost use Rattle.kz_zone.specs.Fields.{IsDepotOf};

    ghost Value = { Seen };

    ghost view = { λ z. record {
      params = z.chunks.params;
      most_chunks = z.chunks.most;
      most_gifts =
          z.transit.room;
      chunks = z.chunks.chunks;
      bases = z.chunks.bases;
      depot = z.depot.lists;
      transit =
          z.transit.gifts;
      words = z.words;
    } };

    ghost invariant = { λ z. IsDepotOf z.chunks.params z.depot };
}

impl Zone {
    /// A zone with no chunk and an empty depot, whose picks draw from the zone's own stream of the seed.
    pub fn new(alloc: Global, room: &Room) -> Result<Zone, AllocError>
        requires { IsFitRoom room.now }
        ensures { IfOk result (λ zone. zone ≡ record {
          params = room.now.params;
          most_chunks = room.now.chunks;
          most_gifts = room.now.transit;
          chunks = [];
          bases = [];
          depot = [];
          transit = [];
          words = opened room.now.params.seed (2 + room.now.params.zone);
        }) }
    {
        let params = room.params;
        Ok(Zone {
            chunks: Chunks::new(alloc, params, room.chunks)?,
            depot: Depot::new(alloc, params.magazine, params.depot, params.cpus)?,
            transit: Transit::new(alloc, room.transit)?,
            words: Words::new(params.seed, 2 + u64::from(params.zone)),
        })
    }

    /// Fills an empty stack: with the list last put into the depot, else by picks, for which the zone grows where no
    /// element is idle.
    pub fn refill<P: Pages>(&mut self, into: &mut Pair, pages: &mut P) -> Result<(), Denied>
        requires empty { into.old.blocks ≡ [] }
        requires same_magazine { into.old.magazine ≡ self.old.params.magazine }
        requires serves { CanServe (P.seen pages.old) (chunks_of self.old) (want_of self.old) 0 }

        // What the stack gets, and what is left.
        ensures shows { OnOk result ((s : Shared) → StandsFor self.old s →
            StandsFor self.new (ready self.old.params s []).1) }
        ensures stack { OnOk result ((s : Shared) → StandsFor self.old s → into.new
            ≡ record into.old { blocks = (ready self.old.params s []).0 }) }
        ensures some { OnOk result (0 < length into.new.blocks) }
        ensures unchanged { OnErr result ((self.new ≡ self.old) × (into.new ≡ into.old)) }
        ensures same { IsSame self.old self.new }

        // What was asked.
        ensures asked { HasAsked (growth_asks self.old.params (shared_of self.old)) (chunks_of self.old)
            (chunks_of self.new) result (P.seen pages.old) (P.seen pages.new) }
    {
        self.chunks.keeps();
        if self.depot.get(into) {
            return Ok(());
        }
        ready(&mut self.chunks, pages)?;
        self.chunks.keeps();
        let magazine = self.chunks.params().magazine;
        pick_onto(&mut self.chunks, &mut self.words, magazine, into);
        Ok(())
    }

    /// Takes the oldest blocks of a full stack, a magazine's size of them: into the depot where it has room, else they
    /// become idle.
    pub fn spill(&mut self, from: &mut Pair)
        requires full { length from.old.blocks ≡ 2 * from.old.magazine }
        requires same_magazine { from.old.magazine ≡ self.old.params.magazine }
        requires away { AreAway self.old.params (shared_of self.old) from.old.blocks }
        ensures shows { (s : Shared) → StandsFor self.old s →
            StandsFor self.new (after_spill self.old.params (take from.old.magazine from.old.blocks) s) }
        ensures left { from.new ≡ record from.old { blocks = drop from.old.magazine from.old.blocks } }
        ensures same { IsSettled self.old self.new }
    {
        if self.depot.put(from) {
            return;
        }
        put_all(&mut self.chunks, from.front());
        from.drop_front();
    }

    /// What filling an empty stack will ask for.
    pub fn want(&self) -> Want
        ensures { result ≡ want_of self.now }
    {
        if !self.depot.is_empty() || self.chunks.has_idle() {
            Want::Nothing
        } else if self.chunks.unmapped().is_some() {
            Want::Frames
        } else {
            Want::Chunk
        }
    }

    /// Makes all blocks of a stack idle.
    pub fn flush(&mut self, from: &mut Pair)
        requires same_magazine { from.old.magazine ≡ self.old.params.magazine }
        requires away { AreAway self.old.params (shared_of self.old) from.old.blocks }
        ensures shows { (s : Shared) → StandsFor self.old s →
            StandsFor self.new (record s { chunks = all_idle from.old.blocks s.chunks }) }
        ensures left { from.new ≡ record from.old { blocks = [] } }
        ensures same { IsSettled self.old self.new }
    {
        empty_stack(&mut self.chunks, from);
    }

    /// Makes the depot's blocks idle, and unmaps each chunk that is then wholly idle. It gives the number of pages that
    /// went back.
    pub fn trim<P: Pages>(&mut self, pages: &mut P) -> u32
        requires serves { CanServe (P.seen pages.old) (chunks_of self.old) Want.Nothing
            (count_by (λ chunk. chunk.mapped) self.old.chunks) }
        requires away { AreAway self.old.params (shared_of self.old) [] }
        ensures pages { result ≡ self.old.params.pages * count_whole self.old.params
            (before_unmapping (shared_of self.old)) }
        ensures shows { (s : Shared) → StandsFor self.old s →
            StandsFor self.new (trimmed self.old.params s no_cpu_part).shared }
        ensures same { IsSettled self.old self.new }
        ensures used { IsUsed (P.seen pages.old) (P.seen pages.new)
            (trim_exchanges self.old.params (shared_of self.old)) 0 0 }
    {
        empty_depot(&mut self.chunks, &mut self.depot);
        self.chunks.keeps();
        let unmapped = unmap_whole(&mut self.chunks, pages);
        self.chunks.params().pages * unmapped
    }

    /// Puts a gift for a CPU and one of its names last into transit.
    pub fn give(&mut self, to: u32, name: u32, block: Block)
        requires { length self.old.transit < self.old.most_gifts }
        ensures shows { (s : Shared) → StandsFor self.old s →
            StandsFor self.new (record s {
              transit = s.transit ++ record { to = to; name = name; block = block }
                  ∷ [];
            }) }
        ensures same { IsSettled self.old self.new }
    {
        self.transit.give(to, name, block);
    }

    /// Takes the oldest gift for a CPU and one of its names out of transit.
    pub fn take(&mut self, to: u32, name: u32) -> Option<Block>
        ensures some { is_some result ≡ is_some (gift_place to name self.old.transit) }
        ensures block { IfSome result (λ block. block
            ≡ (gift_at self.old.transit (unwrap_or (gift_place to name self.old.transit) 0)).block) }
        ensures shows { IfSome result (λ block. (s : Shared) → StandsFor self.old s →
            StandsFor self.new (record s { transit = remove s.transit (unwrap_or (gift_place to name s.transit) 0) })) }
        ensures none { IfNone result (self.new ≡ self.old) }
        ensures same { IsSettled self.old self.new }
    {
        self.transit.take(to, name)
    }

    /// Reads some bytes of a block, unless its chunk is unmapped.
    pub fn read(&self, block: Block, off: u32, len: u32) -> Option<Piece>
        requires there { IsBlock self.now block }
        requires inside { off + len ≤ self.now.params.element }
        requires few { len ≤ 32 }
        ensures some { is_some result ≡ (chunk_at self.now.chunks block.chunk).mapped }
        ensures bytes { IfSome result (λ bytes. bytes ≡ bytes_at self.now.params block off len (shared_of self.now)) }
    {
        self.chunks.read(block, off, len)
    }

    /// Writes some bytes of a block, unless its chunk is unmapped.
    pub fn write(&mut self, block: Block, off: u32, bytes: &Piece) -> bool
        requires there { IsBlock self.old block }
        requires inside { off + length bytes.now ≤ self.old.params.element }
        ensures mapped { result ≡ (chunk_at self.old.chunks block.chunk).mapped }
        ensures shows { result ≡ true → (s : Shared) → StandsFor self.old s →
            StandsFor self.new (with_bytes self.old.params block off bytes.now s) }
        ensures unchanged { result ≡ false → self.new ≡ self.old }
        ensures same { IsSettled self.old self.new }
    {
        self.chunks.write(block, off, bytes)
    }

    /// Sets all bytes of a block to 0.
    pub fn zero(&mut self, block: Block)
        requires there { IsBlock self.old block }
        requires mapped { (chunk_at self.old.chunks block.chunk).mapped ≡ true }
        ensures shows { (s : Shared) → StandsFor self.old s →
            StandsFor self.new (with_bytes self.old.params block 0 (replicate self.old.params.element 0) s) }
        ensures same { IsSettled self.old self.new }
    {
        self.chunks.zero(block);
    }

    /// How many chunks the zone has.
    pub fn chunks(&self) -> u32
        ensures chunks { result ≡ length self.now.chunks }
        ensures kept { IsSoundZone self.now }
    {
        self.chunks.keeps();
        self.transit.keeps();
        self.chunks.len()
    }

    /// The first page of a chunk in the zone's submap.
    pub fn base(&self, chunk: u32) -> u32
        requires { chunk < length self.now.chunks }
        ensures { result ≡ slice_index self.now.bases chunk }
    {
        self.chunks.base(chunk)
    }

    pub fn mapped(&self, chunk: u32) -> bool
        requires { chunk < length self.now.chunks }
        ensures { result ≡ (chunk_at self.now.chunks chunk).mapped }
    {
        self.chunks.mapped(chunk)
    }

    /// Where each chunk stands.
    pub fn shelf(&self) -> &Shelf
        ensures { result.now.places ≡ map (place_of self.now.params.count) self.now.chunks }
    {
        self.chunks.shelf()
    }
}
