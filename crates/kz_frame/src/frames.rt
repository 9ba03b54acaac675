//! A pack of frames.
ghost use Rattle.std.specs.Prelude.{◌≡◌, ◌+◌, ◌<◌, ◌≤◌, ◌++◌, [], ◌∷◌, length, All, IfSome, IfNone, slice_index_or, slice_set};
ghost use Rattle.kz_frame.specs.Frames.{written};

use crate::Frame;
use arrayvec::ArrayVec;
use std::marker::Model;

/// At most eight frames. No call takes memory.
#[derive(Drop)]
pub struct Frames {
    frames: ArrayVec<Option<Frame>, 8>,
}

impl Model for Frames {
    ghost use Rattle.std.specs.Prelude.{List, ℕ};
    ghost use Rattle.kz_frame.specs.Frames.{present, IsPack};

    ghost Value = { List (List ℕ) };

    ghost view = { λ f. present f.frames.items };

    ghost invariant = { λ f. IsPack f.frames.items (present f.frames.items) };
}

impl Frames {
    /// A pack of no frame.
    pub fn new() -> Frames
        ensures { result ≡ [] }
    {
        Frames {
            frames: ArrayVec::new(),
        }
    }

    /// Puts a frame behind the others.
    pub fn push(&mut self, frame: Frame)
        requires { length self.old < 8 }
        ensures { self.new ≡ self.old ++ frame ∷ [] }
    {
        // A look at its bytes tells that there are 4096.
        let _ = frame.bytes();
        self.frames.push(Some(frame));
    }

    /// Takes the last frame out.
    pub fn pop(&mut self) -> Option<Frame>
        ensures some { IfSome result (λ frame. self.old ≡ self.new ++ frame ∷ []) }
        ensures none { IfNone result ((self.old ≡ []) × (self.new ≡ [])) }
    {
        self.frames.pop().flatten()
    }

    /// How many frames there are.
    pub fn len(&self) -> u32
        ensures len { result ≡ length self.now }
        ensures most { length self.now ≤ 8 }
        ensures sizes { All (λ frame. length frame ≡ 4096) self.now }
    {
        self.frames.len() as u32
    }

    /// One of the frames.
    pub(crate) fn frame(&self, which: usize) -> &Frame
        requires { which < length self.now }
        ensures frame { result.now ≡ slice_index_or self.now which [] }
        ensures sizes { All (λ frame. length frame ≡ 4096) self.now }
    {
        let Some(frame) = &self.frames.as_slice()[which] else {
            unreachable!()
        };
        frame
    }

    /// Writes these bytes over those of one frame, from here on.
    pub(crate) fn write(&mut self, which: usize, at: usize, from: &[u8])
        requires there { which < length self.old }
        requires inside { at + length from.now ≤ 4096 }
        ensures frames { self.new ≡ slice_set self.old which (written at from.now (slice_index_or self.old which [])) }
        ensures sizes { All (λ frame. length frame ≡ 4096) self.old }
    {
        let Some(place) = self.frames.get_mut(which) else {
            unreachable!()
        };
        let Some(frame) = place else { unreachable!() };
        frame.write(at, from);
    }
}
