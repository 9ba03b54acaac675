//! What the supply has left: free frames, and a cursor for each submap.
ghost use Rattle.std.specs.Prelude.{◌≡◌, ◌+◌, ◌-◌, ◌<◌, ◌≤◌, ◌++◌, length, take, All, IfOk, vec_capacity};
ghost use Rattle.kz_model.specs.declared.supply.Ask.TheVariants.{Chunk as AskChunk, Frames as AskFrames, Back};
ghost use Rattle.kz_model.specs.declared.supply.Answer.TheVariants.{Taken};
ghost use Rattle.kz_model.specs.Run.Supply.{opening_stock, answer_of, stock_after, pages_left};
ghost use Rattle.kz_frame.specs.Frames.{zero_frame, zero_frames};
ghost use Rattle.kz_supply.specs.Exchange.{chunk_answer, frames_answer};
ghost use Rattle.kz_supply.specs.Store.{IsEnough};

use crate::{Denied, Grant};
use kz_frame::{Frame, Frames};
use std::alloc::{AllocError, Global};
use std::marker::Model;

/// Free frames whose bytes are all 0, and the first page of each submap that was never handed out.
///
/// Some of the free frames may be unmade: they are counted, and no memory was taken for them.
#[derive(Drop)]
pub(crate) struct Stock {
    free: Vec<Frame>,
    cursors: [u32; 5],
    frames: u32,
    pages: u32,
    unmade: u32,
}

impl Model for Stock {
    ghost use Rattle.std.specs.Prelude.{◌+◌, length, vec_capacity};
    ghost use Rattle.kz_supply.specs.Store.{Store, IsStore};

    ghost Value = { Store };

    ghost view = { λ s. record {
      frames = s.frames;
      pages = s.pages;
      left =
          record { free = length s.free.items + s.unmade; cursors = s.cursors };
      unmade = s.unmade;
    } };

    ghost invariant = { λ s. IsStore s.frames s.pages s.unmade (vec_capacity s.free) s.free.items s.cursors };
}

impl Stock {
    /// So many free frames, of which so many are made, and so many pages in each submap.
    pub(crate) fn new(
        alloc: Global,
        frames: u32,
        made: u32,
        pages: u32,
    ) -> Result<Stock, AllocError>
        requires { made ≤ frames }
        ensures { IfOk result (λ stock. stock
            ≡ record { frames = frames; pages = pages; left = opening_stock frames; unmade = frames - made }) }
    {
        let free = new_frames(alloc, made)?;
        Ok(Stock {
            free,
            cursors: [0; 5],
            frames,
            pages,
            unmade: frames - made,
        })
    }

    /// A new chunk of so many pages of a submap.
    pub(crate) fn chunk(&mut self, submap: u32, pages: u32) -> Result<Grant, Denied>
        requires submap { submap < 5 }
        requires few { pages ≤ 8 }
        requires enough { pages ≤ pages_left self.old.pages self.old.left submap →
            IsEnough pages self.old.unmade self.old.left }
        ensures answer { chunk_answer result ≡ answer_of self.old.pages self.old.left (AskChunk submap pages) }
        ensures left { self.new ≡ record self.old {
          left =
              stock_after self.old.left (AskChunk submap pages) (chunk_answer result);
        } }
        ensures zero { IfOk result (λ grant. grant.frames ≡ zero_frames pages) }
    {
        let page = self.cursors[submap as usize];
        let left = self.pages - page;
        if left < pages {
            return Err(Denied::NoSpace { left });
        }
        let frames = self.frames(pages)?;
        self.cursors[submap as usize] = page + pages;
        Ok(Grant { page, frames })
    }

    /// Frames for so many pages.
    pub(crate) fn frames(&mut self, pages: u32) -> Result<Frames, Denied>
        requires few { pages ≤ 8 }
        requires enough { IsEnough pages self.old.unmade self.old.left }
        ensures answer { frames_answer result ≡ answer_of self.old.pages self.old.left (AskFrames pages) }
        ensures left { self.new ≡ record self.old {
          left =
              stock_after self.old.left (AskFrames pages) (frames_answer result);
        } }
        ensures zero { IfOk result (λ frames. frames ≡ zero_frames pages) }
    {
        let free = self.free.len() as u32;
        if free < pages {
            return Err(Denied::NoFrames { free });
        }
        Ok(take_frames(&mut self.free, pages))
    }

    /// Takes frames back.
    pub(crate) fn back(&mut self, frames: Frames)
        requires { self.old.left.free + length frames ≤ self.old.frames }
        ensures { self.new ≡ record self.old { left = stock_after self.old.left (Back (length frames)) Taken } }
    {
        give_back(&mut self.free, frames);
    }
}

/// So many frames whose bytes are all 0.
fn new_frames(alloc: Global, count: u32) -> Result<Vec<Frame>, AllocError>
    ensures frames { IfOk result (λ frames. frames.items ≡ zero_frames count) }
    ensures room { IfOk result (λ frames. count ≤ vec_capacity frames) }
{
    let mut frames = Vec::with_capacity(alloc, count as usize)?;
    for _made in 0..count {
        frames.push_reserved(Frame::new(alloc)?);
    }
    Ok(frames)
}

/// Moves so many of the free frames into a pack.
fn take_frames(free: &mut Vec<Frame>, count: u32) -> Frames
    requires there { count ≤ length free.old.items }
    requires few { count ≤ 8 }
    requires zero { All (λ frame. frame ≡ zero_frame) free.old.items }
    ensures taken { result ≡ zero_frames count }
    ensures left { free.new.items ≡ take (length free.old.items - count) free.old.items }
    ensures room { vec_capacity free.old ≤ vec_capacity free.new }
{
    let mut frames = Frames::new();
    for _taken in 0..count {
        let Some(frame) = free.pop() else {
            unreachable!()
        };
        frames.push(frame);
    }
    frames
}

/// Moves frames back, with all their bytes set to 0.
fn give_back(free: &mut Vec<Frame>, mut frames: Frames)
    requires { length free.old.items + length frames ≤ vec_capacity free.old }
    ensures frames { free.new.items ≡ free.old.items ++ zero_frames (length frames) }
    ensures room { vec_capacity free.old ≤ vec_capacity free.new }
{
    while let Some(mut frame) = frames.pop() {
        frame.zero();
        free.push_reserved(frame);
    }
}
