//! Frames, chunks, and the places of chunks.
ghost use Rattle.std.specs.Prelude.{◌≡◌, true, IfOk};
ghost use Rattle.std.specs.List.{range_with_len};
ghost use Rattle.kz_frame.specs.Frames.{zero_frames};

use kz_chunk::Chunk;
use kz_frame::{Frame, Frames, read_over, write_over};
use kz_model::{Geometry, Piece};
use kz_queue::{Place, Shelf};
use std::alloc::{AllocError, Global};
use std::test::Fail;

/// A pack of two new frames.
fn two_frames(alloc: Global) -> Result<Frames, AllocError>
    ensures { IfOk result (λ frames. frames ≡ zero_frames 2) }
{
    let mut frames = Frames::new();
    frames.push(Frame::new(alloc)?);
    frames.push(Frame::new(alloc)?);
    Ok(frames)
}

#[test]
fn bytes_go_over_the_end_of_a_frame(rt: HostRuntime) -> Result<(), Fail> {
    let mut frames = two_frames(rt.alloc())?;
    write_over(&mut frames, 4094, &[1, 2, 3, 4]);
    let mut bytes = [9; 6];
    read_over(&frames, 4093, &mut bytes);
    assert_eq!(rt; bytes, [0, 1, 2, 3, 4, 0]);
    let mut last = frames.pop().ok_or("no frame")?;
    assert_eq!(rt; frames.len(), 1);
    last.zero();
    frames.push(last);
    read_over(&frames, 4093, &mut bytes);
    assert_eq!(rt; bytes, [0, 1, 2, 0, 0, 0]);
    Ok(())
}

/// A mapped chunk of three elements, the second of which lies in two frames.
fn three_elements(alloc: Global) -> Result<Chunk, AllocError>
    ensures shape { IfOk result (λ chunk. chunk.shape ≡ record { element = 2560; count = 3; pages = 2 }) }
    ensures mapped { IfOk result (λ chunk. chunk.state.mapped ≡ true) }
    ensures idle { IfOk result (λ chunk. chunk.state.idle ≡ range_with_len 0 3) }
{
    let shape = Geometry {
        element: 2560,
        count: 3,
        pages: 2,
    };
    let mut chunk = Chunk::new(shape, 5);
    chunk.map(two_frames(alloc)?);
    Ok(chunk)
}

#[test]
fn the_word_tells_the_element(rt: HostRuntime) -> Result<(), Fail> {
    let mut chunk = three_elements(rt.alloc())?;
    assert_eq!(rt; (chunk.base(), chunk.idle()), (5, 3));
    assert_eq!(rt; chunk.take(4), Some(1));
    assert_eq!(rt; chunk.take(4), Some(2));
    assert_eq!(rt; chunk.take(4), Some(0));
    assert_eq!(rt; chunk.take(4), None);
    Ok(())
}

#[test]
fn an_element_is_made_zero(rt: HostRuntime) -> Result<(), Fail> {
    let mut chunk = three_elements(rt.alloc())?;
    chunk.write(1, 1534, &Piece::of(&[1, 2, 3, 4]));
    chunk.write(0, 2559, &Piece::of(&[5]));
    let bytes = chunk.read(1, 1533, 6);
    assert_eq!(rt; bytes.as_slice(), [0, 1, 2, 3, 4, 0].as_slice());
    chunk.zero(1);
    assert_eq!(rt; chunk.read(1, 1533, 6).as_slice(), [0; 6].as_slice());
    assert_eq!(rt; chunk.read(0, 2558, 2).as_slice(), [0, 5].as_slice());
    let frames = chunk.unmap();
    assert_eq!(rt; frames.len(), 2);
    assert_eq!(rt; (chunk.mapped(), chunk.idle()), (false, 0));
    Ok(())
}

#[test]
fn the_lowest_ordinal_of_each_place(rt: HostRuntime) -> Result<(), Fail> {
    let mut shelf = Shelf::new(rt.alloc(), 5000)?;
    assert_eq!(rt; shelf.lowest(Place::Whole), None);
    shelf.add(Place::Out);
    shelf.add(Place::Out);
    shelf.add(Place::Part);
    assert_eq!(rt; shelf.lowest(Place::Out), Some(0));
    assert_eq!(rt; shelf.lowest(Place::Part), Some(2));
    shelf.move_to(1, Place::Gone);
    assert_eq!(rt; shelf.lowest(Place::Gone), Some(1));
    shelf.move_to(0, Place::Whole);
    assert_eq!(rt; shelf.lowest(Place::Out), None);
    Ok(())
}
