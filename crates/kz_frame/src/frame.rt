//! One frame of memory.
ghost use Rattle.std.specs.Prelude.{◌≡◌, ◌+◌, ◌≤◌, length, IfOk};
ghost use Rattle.kz_frame.specs.Frames.{zero_frame, written};

use std::alloc::{AllocError, Global};
use std::marker::Model;

/// A frame of 4096 bytes.
#[derive(Drop)]
pub struct Frame {
    bytes: Vec<u8>,
}

impl Model for Frame {
    ghost use Rattle.std.specs.Prelude.{List, ℕ, ◌≡◌, length};

    ghost Value = { List ℕ };

    ghost view = { λ f. f.bytes.items };

    ghost invariant = { λ f. length f.bytes.items ≡ 4096 };
}

impl Frame {
    /// A frame whose bytes are all 0.
    pub fn new(alloc: Global) -> Result<Frame, AllocError>
        ensures { IfOk result (λ frame. frame ≡ zero_frame) }
    {
        let bytes = vec![in alloc; 0; 4096]?;
        Ok(Frame { bytes })
    }

    /// Sets all bytes to 0.
    pub fn zero(&mut self)
        ensures { self.new ≡ zero_frame }
    {
        self.bytes.fill(0);
    }

    /// The bytes.
    pub(crate) fn bytes(&self) -> &[u8]
        ensures bytes { result.now ≡ self.now }
        ensures size { length result.now ≡ 4096 }
    {
        self.bytes.as_slice()
    }

    /// Writes these bytes over those from here on.
    pub(crate) fn write(&mut self, at: usize, from: &[u8])
        requires { at + length from.now ≤ 4096 }
        ensures bytes { self.new ≡ written at from.now self.old }
        ensures size { length self.new ≡ 4096 }
    {
        self.bytes[at..at + from.len()].copy_from_slice(from);
    }
}
