//! Writing bytes whole.
ghost use Rattle.std.specs.Prelude.{◌≡◌, ◌+◌, ◌≤◌, length, OnOk, OnErr, IsOk};
ghost use Rattle.std.specs.Io.KnownBytes.{Appends};
ghost use Rattle.kz_text.specs.Streams.{Rose, AppendsFront};

use crate::{Failed, Sink};

/// Writes all of the bytes, or a part from their front where the sink fails.
pub fn write_whole<K: Sink>(sink: &mut K, bytes: &[u8]) -> Result<(), Failed>
    ensures ok { OnOk result (Appends (K.taken sink.old) (K.taken sink.new) bytes.now) }
    ensures err { OnErr result (AppendsFront (K.taken sink.old) (K.taken sink.new) bytes.now) }

    ensures later { K.faults sink.old ≤ K.faults sink.new }
    ensures cause { OnErr result (Rose (K.faults sink.old) (K.faults sink.new)) }

    // Where the sure room suffices, no write fails, and no more than the bytes is used of it.
    ensures sure { length bytes.now ≤ K.sure_room sink.old → IsOk result × (K.faults sink.new ≡ K.faults sink.old) }
    ensures room { length bytes.now ≤ K.sure_room sink.old → K.sure_room sink.old ≤ K.sure_room sink.new
        + length bytes.now }
{
    let mut at = 0;
    while at < bytes.len() {
        match sink.write(&bytes[at..]) {
            Ok(count) => at += count,
            Err(fault) => return Err(fault),
        }
    }
    Ok(())
}
