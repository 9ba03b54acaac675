//! The chunks of a zone, each with its place on a shelf.
ghost use Rattle.std.specs.Prelude.{◌≡◌, ℕ, ◌+◌, ◌*◌, ◌%◌, ◌<◌, ◌≤◌, ◌++◌, [], ◌∷◌, true, false, length, take, drop, map, replicate, is_some, slice_index, slice_set, slice_get, Some, IfOk, IfSome, IfNone};
ghost use Rattle.kz_model.specs.Zone.State.{Chunk as State, chunk_at, no_chunk};
ghost use Rattle.kz_model.specs.Zone.Pick.{is_whole, has_idle, chunk_to_pick, element_to_pick, without_idle, fresh_chunk, unmapped_place};
ghost use Rattle.kz_model.specs.Zone.Rules.{with_idle, first_byte};
ghost use Rattle.kz_model.specs.Zone.Whole.{IsChunk, times_idle};
ghost use Rattle.kz_frame.specs.Frames.{joined, zero_frames};
ghost use Rattle.kz_zone.specs.Room.{AreFitParams};
ghost use Rattle.kz_zone.specs.Zone.{place_of};
ghost use Rattle.kz_zone.specs.Chunks.{shape_of};
ghost use Rattle.kz_zone.specs.Growing.{with_chunks};
ghost use Rattle.kz_zone.specs.Written.{with_written};
ghost use Rattle.std.specs.List.{position};

use crate::within::push_within;
use kz_chunk::Chunk;
use kz_frame::Frames;
use kz_model::{Block, Geometry, Piece, ZoneParams};
use kz_queue::{Place, Shelf};
use std::alloc::{AllocError, Global};
use std::marker::Model;

/// The chunks of a zone by their ordinals.
///
/// They take all their memory when they are made.
#[derive(Drop)]
pub struct Chunks {
    params: ZoneParams,
    most: u32,
    chunks: Vec<Chunk>,
    shelf: Shelf,
}

impl Model for Chunks {
    ghost use Rattle.std.specs.Prelude.{vec_capacity};
    ghost use Rattle.kz_zone.specs.Chunks.{Chunks as Seen, states_of, bases_of, AreChunks};

    ghost Value = { Seen };

    ghost view = { λ c. record {
      params = c.params;
      most = c.most;
      chunks = states_of c.chunks.items;
      bases =
          bases_of c.chunks.items;
    } };

    ghost invariant = { λ c. AreChunks c.params c.most (vec_capacity c.chunks) c.chunks.items c.shelf };
}

impl Chunks {
    /// No chunk, with room for so many.
    pub fn new(alloc: Global, params: ZoneParams, most: u32) -> Result<Chunks, AllocError>
        requires fit { AreFitParams params }
        requires few { most ≤ 4096 }
        ensures { IfOk result (λ chunks. chunks ≡ record { params = params; most = most; chunks = []; bases = [] }) }
    {
        Ok(Chunks {
            params,
            most,
            chunks: Vec::with_capacity(alloc, most as usize)?,
            shelf: Shelf::new(alloc, most)?,
        })
    }

    pub fn params(&self) -> ZoneParams
        ensures { result ≡ self.now.params }
    {
        self.params
    }

    pub fn len(&self) -> u32
        ensures { result ≡ length self.now.chunks }
    {
        self.chunks.len() as u32
    }

    /// Its first page in the zone's submap.
    pub fn base(&self, ordinal: u32) -> u32
        requires { ordinal < length self.now.chunks }
        ensures { result ≡ slice_index self.now.bases ordinal }
    {
        self.chunks[ordinal as usize].base()
    }

    pub fn mapped(&self, ordinal: u32) -> bool
        requires { ordinal < length self.now.chunks }
        ensures { result ≡ (chunk_at self.now.chunks ordinal).mapped }
    {
        self.chunks[ordinal as usize].mapped()
    }

    /// Where each chunk stands.
    pub fn shelf(&self) -> &Shelf
        ensures { result.now.places ≡ map (place_of self.now.params.count) self.now.chunks }
    {
        &self.shelf
    }

    /// What the chunks keep.
    pub fn keeps(&self)
        ensures fit { AreFitParams self.now.params }
        ensures few { length self.now.chunks ≤ self.now.most }
        ensures most { self.now.most ≤ 4096 }
        ensures bases { length self.now.bases ≡ length self.now.chunks }
        ensures kept { (ordinal : ℕ) → IsChunk self.now.params (chunk_at self.now.chunks ordinal) }
    {
        let _most = &self.most;
    }

    /// The unmapped chunk of the lowest ordinal.
    pub fn unmapped(&self) -> Option<u32>
        ensures { result ≡ unmapped_place self.now.chunks }
    {
        self.shelf.lowest(Place::Gone)
    }

    /// The wholly idle chunk of the lowest ordinal.
    pub fn whole(&self) -> Option<u32>
        ensures { result ≡ position (is_whole self.now.params.count) self.now.chunks }
    {
        self.shelf.lowest(Place::Whole)
    }

    /// The chunk to pick from.
    pub fn to_pick(&self) -> Option<u32>
        ensures ordinal { result ≡ chunk_to_pick self.now.params.count self.now.chunks }
        ensures some { is_some result ≡ has_idle (with_chunks self.now.chunks) }
        ensures idle { IfSome result (λ ordinal. 0 < length (chunk_at self.now.chunks ordinal).idle) }
    {
        self.shelf.lowest(Place::Part).or(self.whole())
    }

    /// Some element is idle.
    pub fn has_idle(&self) -> bool
        ensures idle { result ≡ has_idle (with_chunks self.now.chunks) }
        ensures to_pick { result ≡ is_some (chunk_to_pick self.now.params.count self.now.chunks) }
    {
        self.to_pick().is_some()
    }

    /// Takes out the idle element that a word picks.
    pub fn pick(&mut self, ordinal: u32, word: u32) -> u32
        requires { 0 < length (chunk_at self.old.chunks ordinal).idle }
        ensures element { result ≡ element_to_pick self.old.params.count (word % self.old.params.count)
            (chunk_at self.old.chunks ordinal).idle }
        ensures left { self.new ≡ record self.old {
          chunks =
              slice_set self.old.chunks ordinal (without_idle result (chunk_at self.old.chunks ordinal));
        } }
    {
        let chunk = &mut self.chunks[ordinal as usize];
        let before = place_of(chunk, self.params.count);
        let taken = chunk.take(word);
        chunk.keeps();
        let after = place_of(chunk, self.params.count);
        settle(&mut self.shelf, ordinal, before, after);
        taken.unwrap()
    }

    /// Makes an element idle that is not.
    pub fn put(&mut self, block: Block)
        requires mapped { (chunk_at self.old.chunks block.chunk).mapped ≡ true }
        requires within { block.index < self.old.params.count }
        requires out { times_idle block.index (chunk_at self.old.chunks block.chunk).idle ≡ 0 }
        ensures { self.new ≡ record self.old { chunks = with_idle block self.old.chunks } }
    {
        let chunk = &mut self.chunks[block.chunk as usize];
        let before = place_of(chunk, self.params.count);
        chunk.put(block.index);
        chunk.keeps();
        let after = place_of(chunk, self.params.count);
        settle(&mut self.shelf, block.chunk, before, after);
    }

    /// Maps a chunk again, with frames whose bytes are all 0.
    pub fn remap(&mut self, ordinal: u32, frames: Frames)
        requires there { ordinal < length self.old.chunks }
        requires unmapped { (chunk_at self.old.chunks ordinal).mapped ≡ false }
        requires zero { frames ≡ zero_frames self.old.params.pages }
        ensures { self.new ≡ record self.old {
          chunks =
              slice_set self.old.chunks ordinal (fresh_chunk self.old.params);
        } }
    {
        let chunk = &mut self.chunks[ordinal as usize];
        let before = place_of(chunk, self.params.count);
        chunk.map(frames);
        chunk.keeps();
        let after = place_of(chunk, self.params.count);
        settle(&mut self.shelf, ordinal, before, after);
    }

    /// Unmaps a chunk that is wholly idle. The bytes of its elements are in the frames that it gives.
    pub fn unmap(&mut self, ordinal: u32) -> Frames
        requires { is_whole self.old.params.count (chunk_at self.old.chunks ordinal) ≡ true }
        ensures left { self.new ≡ record self.old { chunks = slice_set self.old.chunks ordinal no_chunk } }
        ensures frames { length result ≡ self.old.params.pages }
        ensures bytes { take (self.old.params.count * self.old.params.element) (joined result)
            ≡ (chunk_at self.old.chunks ordinal).bytes }
    {
        let chunk = &mut self.chunks[ordinal as usize];
        let before = place_of(chunk, self.params.count);
        let frames = chunk.unmap();
        chunk.keeps();
        let after = place_of(chunk, self.params.count);
        settle(&mut self.shelf, ordinal, before, after);
        frames
    }

    /// Maps a new chunk that begins at this page, with frames whose bytes are all 0.
    pub fn add(&mut self, page: u32, frames: Frames)
        requires room { length self.old.chunks < self.old.most }
        requires zero { frames ≡ zero_frames self.old.params.pages }
        ensures { self.new ≡ record self.old {
          chunks = self.old.chunks ++ fresh_chunk self.old.params ∷ [];
          bases =
              self.old.bases ++ page ∷ [];
        } }
    {
        let mut chunk = Chunk::new(self.shape(), page);
        chunk.map(frames);
        chunk.keeps();
        let place = place_of(&chunk, self.params.count);
        push_within(&mut self.chunks, chunk);
        self.shelf.add(place);
    }

    /// Reads some bytes of a block, unless its chunk is unmapped.
    pub fn read(&self, block: Block, off: u32, len: u32) -> Option<Piece>
        requires there { block.chunk < length self.now.chunks }
        requires within { block.index < self.now.params.count }
        requires inside { off + len ≤ self.now.params.element }
        requires few { len ≤ 32 }
        ensures some { is_some result ≡ (chunk_at self.now.chunks block.chunk).mapped }
        ensures bytes { IfSome result (λ bytes. bytes
            ≡ take len (drop (first_byte self.now.params block + off) (chunk_at self.now.chunks block.chunk).bytes)) }
    {
        let chunk = &self.chunks[block.chunk as usize];
        if chunk.mapped() {
            Some(chunk.read(block.index, off, len))
        } else {
            None
        }
    }

    /// Writes some bytes of a block, unless its chunk is unmapped.
    pub fn write(&mut self, block: Block, off: u32, bytes: &Piece) -> bool
        requires there { block.chunk < length self.old.chunks }
        requires within { block.index < self.old.params.count }
        requires inside { off + length bytes.now ≤ self.old.params.element }
        ensures mapped { result ≡ (chunk_at self.old.chunks block.chunk).mapped }
        ensures written { result ≡ true → self.new
            ≡ record self.old { chunks = with_written self.old.params block off bytes.now self.old.chunks } }
        ensures unchanged { result ≡ false → self.new ≡ self.old }
    {
        let chunk = &mut self.chunks[block.chunk as usize];
        if !chunk.mapped() {
            return false;
        }
        chunk.write(block.index, off, bytes);
        chunk.keeps();
        true
    }

    /// Sets all bytes of a block to 0.
    pub fn zero(&mut self, block: Block)
        requires mapped { (chunk_at self.old.chunks block.chunk).mapped ≡ true }
        requires within { block.index < self.old.params.count }
        ensures { self.new ≡ record self.old {
          chunks =
              with_written self.old.params block 0 (replicate self.old.params.element 0) self.old.chunks;
        } }
    {
        let chunk = &mut self.chunks[block.chunk as usize];
        chunk.zero(block.index);
        chunk.keeps();
    }

    /// The shape of each chunk.
    fn shape(&self) -> Geometry
        ensures { result ≡ shape_of self.now.params }
    {
        Geometry {
            element: self.params.element,
            count: self.params.count,
            pages: self.params.pages,
        }
    }
}

/// Where a chunk of so many elements stands.
fn place_of(chunk: &Chunk, count: u32) -> Place
    ensures { result ≡ place_of count chunk.now.state }
{
    let idle = chunk.idle();
    if !chunk.mapped() {
        Place::Gone
    } else if idle == count {
        Place::Whole
    } else if 0 < idle {
        Place::Part
    } else {
        Place::Out
    }
}

/// Puts an ordinal from one place to another.
fn settle(shelf: &mut Shelf, ordinal: u32, before: Place, after: Place)
    requires { slice_get shelf.old.places ordinal ≡ Some before }
    ensures { shelf.new ≡ record shelf.old { places = slice_set shelf.old.places ordinal after } }
{
    if before != after {
        shelf.move_to(ordinal, after);
    }
}
