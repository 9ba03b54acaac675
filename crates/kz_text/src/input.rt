//! Reading a source to its end.
ghost use Rattle.std.specs.Prelude.{◌≡◌, ◌≢◌, ◌+◌, ◌≤◌, ◌<◌, length, vec_len, IfSome, IfOk, IfErr, OnOk, IsTrue};
ghost use Rattle.std.specs.Io.KnownBytes.{Consumes, IsAtEnd};
ghost use Rattle.kz_text.specs.Streams.{Rose};
ghost use Rattle.kz_text.specs.Input.{HasReadAt};

use crate::Source;
use std::alloc::Global;
use thiserror::Error;

// How many bytes a read asks for at most.
const PIECE: usize = 16384;

/// Why an input was not read to its end.
#[derive(Clone, Copy, Debug, PartialEq, Eq, Error)]
pub enum InputFault {
    #[error("read fault")]
    ReadFault,
    #[error("more than {limit} bytes")]
    TooLong { limit: u64 },
    #[error("out of memory")]
    Memory,
}

/// Reads a source to its end, which is a read of 0 bytes, where it has at most `limit` bytes.
/// The first failing read is a ReadFault.
pub fn read_all<S: Source>(alloc: Global, source: &mut S, limit: u64) -> Result<Vec<u8>, InputFault>
    requires { limit ≤ 268435456 }

    ensures whole { IfOk result (λ bytes. IfSome (S.rest source.old) (λ rest. bytes.items ≡ rest)) }
    ensures at_end { OnOk result (IsAtEnd (S.rest source.new)) }
    ensures within { IfOk result (λ bytes. vec_len bytes ≤ limit) }

    // In each case what was read left the front of the rest. TooLong comes exactly where one byte
    // more than the limit was read.
    ensures ok { IfOk result (λ bytes. Consumes (S.rest source.old) (S.rest source.new) bytes.items) }
    ensures err { IfErr result (λ fault. HasReadAt fault (S.rest source.old) (S.rest source.new) limit) }
    ensures too_long { result ≡ Err (InputFault.TooLong limit) →
        IfSome (S.rest source.old) (λ rest. limit < length rest) }

    ensures later { S.faults source.old ≤ S.faults source.new }
    ensures cause { result ≡ Err InputFault.ReadFault → Rose (S.faults source.old) (S.faults source.new) }

    ensures sure_stays { S.is_sure source.new ≡ S.is_sure source.old }
    ensures sure { IsTrue (S.is_sure source.old) → (result ≢ Err InputFault.ReadFault) ×
        (S.faults source.new ≡ S.faults source.old) }
{
    let room = limit as usize + 1;
    let mut bytes = Vec::new(alloc);
    let mut piece = [0; PIECE];
    while bytes.len() < room {
        let want = (room - bytes.len()).min(PIECE);
        match source.read(&mut piece[..want]) {
            Err(_) => return Err(InputFault::ReadFault),
            Ok(0) => return Ok(bytes),
            Ok(count) => {
                if bytes.extend_from_slice(&piece[..count]).is_err() {
                    return Err(InputFault::Memory);
                }
            }
        }
    }
    Err(InputFault::TooLong { limit })
}
