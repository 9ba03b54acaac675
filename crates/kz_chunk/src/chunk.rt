//! The chunk.
ghost use Rattle.std.specs.Prelude.{◌≡◌, ◌+◌, ◌*◌, ◌%◌, ◌<◌, ◌≤◌, ◌++◌, [], true, false, length, take, drop, replicate, IfSome, IfNone};
ghost use Rattle.kz_model.specs.Zone.State.{no_chunk};
ghost use Rattle.kz_model.specs.Zone.Pick.{element_to_pick, without_idle};
ghost use Rattle.kz_model.specs.Zone.Whole.{Rises, times_idle};
ghost use Rattle.kz_model.specs.Types.Class.{IsFitGeometry};
ghost use Rattle.kz_frame.specs.Frames.{joined};
ghost use Rattle.kz_chunk.specs.Chunk.{IsInside, mapped_with, slack_of, first_of, with_idle_element, with_bytes_at};

use crate::bytes::{piece_at, zero_over};
use crate::idle::{fill, put_in_place, take_nearest};
use arrayvec::ArrayVec;
use kz_frame::{Frames, write_over};
use kz_model::{Geometry, Piece};
use std::marker::Model;
use std::mem;

/// A chunk of a zone. No call takes memory.
#[derive(Drop)]
pub struct Chunk {
    shape: Geometry,
    base: u32,
    mapped: bool,
    idle: ArrayVec<u8, 256>,
    frames: Frames,
}

impl Model for Chunk {
    ghost use Rattle.kz_chunk.specs.Chunk.{Chunk as Seen};
    ghost use Rattle.kz_chunk.specs.Kept.{seen, IsSoundChunk};

    ghost Value = { Seen };

    ghost view = { λ c. seen c.shape c.base c.mapped c.idle.items c.frames };

    ghost invariant = { λ c. IsSoundChunk c.shape c.mapped c.idle.items c.frames };
}

impl Chunk {
    /// A chunk that is not mapped, and whose first page in its submap is this one.
    pub fn new(shape: Geometry, base: u32) -> Chunk
        requires { IsFitGeometry shape }
        ensures { result ≡ record { shape = shape; base = base; state = no_chunk; slack = [] } }
    {
        Chunk {
            shape,
            base,
            mapped: false,
            idle: ArrayVec::new(),
            frames: Frames::new(),
        }
    }

    /// Maps the chunk with these frames.
    pub fn map(&mut self, frames: Frames)
        requires unmapped { self.old.state.mapped ≡ false }
        requires frames { length frames ≡ self.old.shape.pages }
        ensures { self.new ≡ record self.old {
          state = mapped_with self.old.shape frames;
          slack = slack_of self.old.shape frames;
        } }
    {
        let _ = frames.len();
        fill(&mut self.idle, self.shape.count);
        self.frames = frames;
        self.mapped = true;
    }

    /// Gives the frames away, with their bytes as they are.
    pub fn unmap(&mut self) -> Frames
        requires mapped { self.old.state.mapped ≡ true }
        requires idle { length self.old.state.idle ≡ self.old.shape.count }
        ensures unmapped { self.new ≡ record self.old { state = no_chunk; slack = [] } }
        ensures frames { length result ≡ self.old.shape.pages }
        ensures bytes { joined result ≡ self.old.state.bytes ++ self.old.slack }
    {
        self.mapped = false;
        self.idle.clear();
        mem::replace(&mut self.frames, Frames::new())
    }

    /// Takes the idle element out that stands first at or after the word's remainder, cyclically.
    pub fn take(&mut self, word: u32) -> Option<u32>
        requires { self.old.state.mapped ≡ true }
        ensures some { IfSome result (λ i. i
            ≡ element_to_pick self.old.shape.count (word % self.old.shape.count) self.old.state.idle) }
        ensures left { IfSome result (λ i. self.new ≡ record self.old { state = without_idle i self.old.state }) }
        ensures within { IfSome result (λ i. i < self.old.shape.count) }
        ensures there { IfSome result (λ i. 0 < length self.old.state.idle) }
        ensures none { IfNone result ((self.old.state.idle ≡ []) × (self.new ≡ self.old)) }
    {
        if self.idle.is_empty() {
            return None;
        }
        let start = word % self.shape.count;
        Some(take_nearest(&mut self.idle, start))
    }

    /// Makes an element idle.
    pub fn put(&mut self, index: u32)
        requires mapped { self.old.state.mapped ≡ true }
        requires within { index < self.old.shape.count }
        requires out { times_idle index self.old.state.idle ≡ 0 }
        ensures { self.new ≡ record self.old { state = with_idle_element index self.old.state } }
    {
        put_in_place(&mut self.idle, index);
    }

    /// Reads some bytes of an element.
    pub fn read(&self, index: u32, off: u32, len: u32) -> Piece
        requires mapped { self.now.state.mapped ≡ true }
        requires inside { IsInside self.now.shape index off len }
        requires few { len ≤ 32 }
        ensures { result ≡ take len (drop (first_of self.now.shape index + off) self.now.state.bytes) }
    {
        let at = index * self.shape.element + off;
        piece_at(&self.frames, at, len)
    }

    /// Writes some bytes of an element.
    pub fn write(&mut self, index: u32, off: u32, bytes: &Piece)
        requires mapped { self.old.state.mapped ≡ true }
        requires inside { IsInside self.old.shape index off (length bytes.now) }
        ensures { self.new ≡ record self.old {
          state =
              with_bytes_at (first_of self.old.shape index + off) bytes.now self.old.state;
        } }
    {
        let at = index * self.shape.element + off;
        write_over(&mut self.frames, at, bytes.as_slice());
    }

    /// Sets all bytes of an element to 0.
    pub fn zero(&mut self, index: u32)
        requires mapped { self.old.state.mapped ≡ true }
        requires within { index < self.old.shape.count }
        ensures { self.new ≡ record self.old {
          state =
              with_bytes_at (first_of self.old.shape index) (replicate self.old.shape.element 0) self.old.state;
        } }
    {
        let element = self.shape.element;
        zero_over(&mut self.frames, index * element, element);
    }

    pub fn mapped(&self) -> bool
        ensures { result ≡ self.now.state.mapped }
    {
        self.mapped
    }

    /// How many elements are idle.
    pub fn idle(&self) -> u32
        ensures idle { result ≡ length self.now.state.idle }
        ensures few { length self.now.state.idle ≤ self.now.shape.count }
    {
        self.idle.len() as u32
    }

    /// Its first page in its submap.
    pub fn base(&self) -> u32
        ensures { result ≡ self.now.base }
    {
        self.base
    }

    /// What a chunk keeps: its idle elements rise below its count, and it has its elements' bytes while it is mapped,
    /// and neither else.
    pub fn keeps(&self)
        ensures shape { IsFitGeometry self.now.shape }
        ensures rises { Rises 0 self.now.shape.count self.now.state.idle }
        ensures unmapped { self.now.state.mapped ≡ false → self.now.state ≡ no_chunk }
        ensures bytes { self.now.state.mapped ≡ true → length self.now.state.bytes
            ≡ self.now.shape.count * self.now.shape.element }
    {
        let _shape = self.shape;
    }
}
