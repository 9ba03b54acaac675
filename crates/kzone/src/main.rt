//! `kzone`: reads a bundle from standard input, and writes the text of its plan or the report of its replay to
//! standard output. `kzone make N` reads nothing: it writes the summary of the replay of the bundle that is made of
//! the number N.
//!
//! It alone touches the system: arguments, the three streams, and the exit status. It has no contract of its own; what
//! the program does is that of `kzone_still`.
#![tactic(auto)]

use kz_model::Items;
use kz_text::{StdSink, StdSource};
use kz_top::{Status, kzone_still};
use std::alloc::{AllocError, Global};
use std::env::{Env, FillError};
use std::process::ExitCode;

/// The room for an argument's bytes at first. It doubles until it is enough.
const FIRST_ROOM: usize = 256;

/// The bytes of the argument at this place, which need not be text; none behind the last.
fn word_at(
    rt: &(impl Env + Alloc<A = Global>),
    place: usize,
) -> Result<Option<Items<u8>>, AllocError> {
    let mut room = FIRST_ROOM;
    for _ in 0..usize::BITS {
        let mut bytes = vec![in rt.alloc(); 0; room]?;
        match rt.arg(place, bytes.as_mut_slice()) {
            Ok(count) => {
                bytes.truncate(count);
                return Ok(Some(Items::from_vec(bytes)));
            }
            Err(FillError::NotPresent) => return Ok(None),
            Err(FillError::TooLong) => room = room.saturating_mul(2),
        }
    }
    Err(AllocError)
}

/// The words of the command line after the program's own name.
fn words_of(rt: &(impl Env + Alloc<A = Global>)) -> Result<Vec<Items<u8>>, AllocError> {
    let mut words = Vec::new(rt.alloc());
    for place in 1..usize::MAX {
        match word_at(rt, place)? {
            Some(word) => words.push(word)?,
            None => break,
        }
    }
    Ok(words)
}

fn main(rt: HostRuntime) -> ExitCode {
    let Ok(words) = words_of(&rt) else {
        return ExitCode::from(Status::Memory.number());
    };
    let mut input = StdSource::new(rt.stdin());
    let mut out = StdSink::new(rt.stdout());
    let mut err = StdSink::new(rt.stderr());
    let status = kzone_still(rt.alloc(), &words, &mut input, &mut out, &mut err);
    ExitCode::from(status.number())
}
