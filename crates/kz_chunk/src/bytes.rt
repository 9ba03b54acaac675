//! The bytes of elements, in the frames of their chunk.
ghost use Rattle.std.specs.Prelude.{◌≡◌, ◌+◌, ◌*◌, ◌^◌, ◌<◌, ◌≤◌, length, take, drop, replicate};
ghost use Rattle.kz_frame.specs.Frames.{joined, written};

use kz_frame::{Frames, read_over, write_over};
use kz_model::Piece;

/// How many zeros are written at once.
const ZEROS: usize = 512;

/// Reads so many bytes, from this place on.
pub(crate) fn piece_at(frames: &Frames, at: u32, len: u32) -> Piece
    requires inside { at + len ≤ 4096 * length frames.now }
    requires few { len ≤ 32 }
    ensures { result ≡ take len (drop at (joined frames.now)) }
{
    let mut bytes = [0; 32];
    let piece = &mut bytes[..len as usize];
    read_over(frames, at, piece);
    Piece::of(piece)
}

/// Sets so many bytes to 0, from this place on.
pub(crate) fn zero_over(frames: &mut Frames, at: u32, len: u32)
    requires inside { at + len ≤ 4096 * length frames.old }
    requires small { at + len < 2 ^ 32 }
    requires whole { length (joined frames.old) ≡ 4096 * length frames.old }
    ensures bytes { joined frames.new ≡ written at (replicate len 0) (joined frames.old) }
    ensures frames { length frames.new ≡ length frames.old }
{
    let zeros = [0; ZEROS];
    let mut done = 0;
    while done < len as usize {
        let count = (len as usize - done).min(ZEROS);
        write_over(frames, at + done as u32, &zeros[..count]);
        done += count;
    }
}
