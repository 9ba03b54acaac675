//! The bytes of a pack, joined.
ghost use Rattle.std.specs.Prelude.{◌≡◌, ◌+◌, ◌*◌, ◌≤◌, length, take, drop};
ghost use Rattle.kz_frame.specs.Frames.{joined, written};

use crate::Frames;

/// The bytes of one frame.
const FRAME: usize = 4096;

/// Reads the joined bytes from this place on, as many as there is room for.
pub fn read_over(frames: &Frames, at: u32, into: &mut [u8])
    requires { at + length into.old ≤ 4096 * length frames.now }
    ensures { into.new ≡ take (length into.old) (drop at (joined frames.now)) }
{
    let mut done = 0;
    while done < into.len() {
        let place = at as usize + done;
        let offset = place % FRAME;
        let count = (into.len() - done).min(FRAME - offset);
        let bytes = frames.frame(place / FRAME).bytes();
        into[done..done + count].copy_from_slice(&bytes[offset..offset + count]);
        done += count;
    }
}

/// Writes these bytes over the joined bytes from this place on.
pub fn write_over(frames: &mut Frames, at: u32, from: &[u8])
    requires { at + length from.now ≤ 4096 * length frames.old }
    ensures bytes { joined frames.new ≡ written at from.now (joined frames.old) }
    ensures frames { length frames.new ≡ length frames.old }
{
    let mut done = 0;
    while done < from.len() {
        let place = at as usize + done;
        let offset = place % FRAME;
        let count = (from.len() - done).min(FRAME - offset);
        frames.write(place / FRAME, offset, &from[done..done + count]);
        done += count;
    }
}
