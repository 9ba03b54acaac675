//! A zone, its book and a CPU as they open.
ghost use Rattle.std.specs.Prelude.{◌≡◌, ◌<◌, All, length, IfOk};
ghost use Rattle.kz_zone.specs.Room.{IsFitRoom};

use crate::fixture::room;
use kz_book::Book;
use kz_cpu::Cpu;
use kz_model::{Room, Step};
use kz_supply::Want;
use kz_zone::{Depot, Pair, Zone};
use std::alloc::{AllocError, Global};
use std::test::Fail;

#[test]
fn a_new_zone_has_nothing(rt: HostRuntime) -> Result<(), Fail> {
    let mut zone = Zone::new(rt.alloc(), &room(rt.alloc())?)?;
    assert_eq!(rt; zone.chunks(), 0);
    assert_eq!(rt; zone.want(), Want::Chunk);
    assert!(rt; zone.take(1, 5).is_none());
    let depot = Depot::new(rt.alloc(), 2, 1, 1)?;
    assert!(rt; depot.is_empty());
    Ok(())
}

#[test]
fn a_new_book_has_no_visit(rt: HostRuntime) -> Result<(), Fail> {
    let book = Book::new(rt.alloc(), &room(rt.alloc())?)?;
    let pair = Pair::new(rt.alloc(), 2)?;
    assert_eq!(rt; book.visits().len(), 0);
    assert_eq!(rt; book.chunks(), 0);
    assert_eq!(rt; book.want(&pair, &Step::Alloc { name: 0 }), Want::Chunk);
    assert_eq!(rt; book.want(&pair, &Step::Flush), Want::Nothing);
    Ok(())
}

/// The room of the one zone of a CPU.
fn rooms(alloc: Global) -> Result<Vec<Room>, AllocError>
    ensures fit { IfOk result (λ rooms. All IsFitRoom rooms.items) }
    ensures cpu { IfOk result (λ rooms. All (λ room. 0 < room.params.cpus) rooms.items) }
    ensures one { IfOk result (λ rooms. length rooms.items ≡ 1) }
{
    let mut rooms = Vec::new(alloc);
    rooms.push(room(alloc)?)?;
    Ok(rooms)
}

#[test]
fn a_new_cpu_has_done_nothing(rt: HostRuntime) -> Result<(), Fail> {
    let rooms = rooms(rt.alloc())?;
    let cpu = Cpu::new(rt.alloc(), 0, &rooms, 4, 16)?;
    assert!(rt; !cpu.has_recent(0));
    assert_eq!(rt; cpu.recent(0).len(), 0);
    assert_eq!(rt; cpu.known_chunks(0), 0);
    Ok(())
}
