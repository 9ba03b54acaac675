//! Calls whose streams fail, and calls with words that are no command's.
ghost use Rattle.std.specs.Prelude.{◌<◌};

use kz_model::Items;
use kz_text::{MemorySink, MemorySource, read_all};
use kz_top::{Status, kzone_still};
use std::alloc::{AllocError, Global};
use std::test::Fail;

/// A bundle of one allocation, in 118 bytes.
const BUNDLE: &[u8] = b"\
    machine 1\nseed plain\ncpus 1\nframes 8\npages 16\nbudget 2\nmagazine 2\ndepot 1\n\
    type blob { bytes 16 b }\ncpu 0\na x blob\nend\n";

const REPORT: &[u8] = b"report 1\n\
    type blob size 16 align 1 letters 22 class 16 zone 0\n\
    zone 0 data.16 element 16 count 256 pages 1 submap D types 1\n\
    cpu 0\nblock 0.1 0x50000000010\nuse blob allocs 1 frees 0 live 1\n\
    chunk 0 0 0x50000000000 mapped\nvisits 0 0 0:1\nask 0 chunk 1 base 0\nend\n";

/// How a call answers, and what it left in out and on err.
#[derive(Drop)]
struct Outcome {
    status: Status,
    out: Vec<u8>,
    err: Vec<u8>,
}

fn tokens_of(alloc: Global, words: &[&[u8]]) -> Result<Vec<Items<u8>>, AllocError> {
    let mut items = Vec::new(alloc);
    for word in words {
        items.push(Items::from_vec(Vec::from_slice(alloc, word)?))?;
    }
    Ok(items)
}

/// A replay of `BUNDLE` by streams that move ten bytes a call, whose source fails at these calls, and whose sink has
/// this room and fails at those.
fn replay(
    alloc: Global,
    source_fails: &[u64],
    room: usize,
    sink_fails: &[u64],
) -> Result<Outcome, AllocError> {
    let words = tokens_of(alloc, &[b"replay"])?;
    let input = Vec::from_slice(alloc, BUNDLE)?;
    let mut source = MemorySource::new(input, 10, source_fails.to_vec(alloc)?);
    let mut out = MemorySink::new(alloc, room, 10, sink_fails.to_vec(alloc)?)?;
    let mut err = MemorySink::new(alloc, 64, 7, Vec::new(alloc))?;
    let status = kzone_still(alloc, &words, &mut source, &mut out, &mut err);
    Ok(Outcome {
        status,
        out: Vec::from_slice(alloc, out.taken())?,
        err: Vec::from_slice(alloc, err.taken())?,
    })
}

#[test]
fn a_sound_call_is_ok(rt: HostRuntime) -> Result<(), Fail> {
    let outcome = replay(rt.alloc(), &[], 4096, &[])?;
    assert_eq!(rt; outcome.status, Status::Ok);
    assert_eq!(rt; outcome.out.as_slice(), REPORT);
    assert!(rt; outcome.err.is_empty());
    Ok(())
}

#[test]
fn a_failing_input_is_a_read_fault(rt: HostRuntime) -> Result<(), Fail> {
    for call_number in 0u64..13 {
        let outcome = replay(rt.alloc(), &[call_number], 4096, &[])?;
        assert_eq!(rt; outcome.status, Status::ReadFault);
        assert_eq!(rt; outcome.status.number(), 3);
        assert!(rt; outcome.out.is_empty());
        assert_eq!(rt; outcome.err.as_slice(), b"kzone: read fault\n".as_slice());
    }
    Ok(())
}

#[test]
fn an_out_that_takes_a_part_is_a_write_fault(rt: HostRuntime) -> Result<(), Fail> {
    for room in 0..REPORT.len() {
        let outcome = replay(rt.alloc(), &[], room, &[])?;
        assert_eq!(rt; outcome.status, Status::WriteFault);
        assert_eq!(rt; outcome.status.number(), 4);
        assert_eq!(rt; outcome.out.as_slice(), &REPORT[..room]);
        assert_eq!(rt; outcome.err.as_slice(), b"kzone: write fault\n".as_slice());
    }
    Ok(())
}

#[test]
fn an_out_that_fails_is_a_write_fault(rt: HostRuntime) -> Result<(), Fail> {
    for call_number in 0u64..26 {
        let outcome = replay(rt.alloc(), &[], 4096, &[call_number])?;
        let taken = (call_number as usize * 10).min(REPORT.len());
        assert_eq!(rt; outcome.status, Status::WriteFault);
        assert_eq!(rt; outcome.out.as_slice(), &REPORT[..taken]);
        assert_eq!(rt; outcome.err.as_slice(), b"kzone: write fault\n".as_slice());
    }
    Ok(())
}

#[test]
fn nothing_is_read_for_other_words(rt: HostRuntime) -> Result<(), Fail> {
    let words = tokens_of(rt.alloc(), &[b"replay", b"x"])?;
    let input = Vec::from_slice(rt.alloc(), BUNDLE)?;
    let mut source = MemorySource::new(input, 10, Vec::new(rt.alloc()));
    let mut out = MemorySink::new(rt.alloc(), 64, 10, Vec::new(rt.alloc()))?;
    let mut err = MemorySink::new(rt.alloc(), 64, 7, Vec::new(rt.alloc()))?;
    let status = kzone_still(rt.alloc(), &words, &mut source, &mut out, &mut err);
    assert_eq!(rt; status, Status::Usage);
    assert_eq!(rt; status.number(), 1);
    assert!(rt; out.taken().is_empty());
    assert_eq!(rt; err.taken(), b"kzone: usage\n".as_slice());
    let left = read_all(rt.alloc(), &mut source, 4096)?;
    assert_eq!(rt; left.as_slice(), BUNDLE);
    Ok(())
}
