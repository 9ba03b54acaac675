//! What a machine opens with.
ghost use Rattle.std.specs.Prelude.{◌≡◌, ℕ, ◌*◌, ◌^◌, ◌<◌, ◌≤◌, [], length, map, All, IfOk};
ghost use Rattle.std.specs.List.{range_with_len};
ghost use Rattle.kz_model.specs.Types.Planned.{IsPlanned};
ghost use Rattle.kz_bundle.specs.Counted.{loads_of};
ghost use Rattle.kz_zone.specs.Room.{IsFitRoom};
ghost use Rattle.kz_cpu.specs.Cpu.{opened_cpu};
ghost use Rattle.kz_machine.specs.Needs.{needed, needed_rooms, most_entries, frames_in, frames_needed};
ghost use Rattle.kz_machine.specs.Opening.{AreOpened};

use kz_book::Book;
use kz_bundle::ZoneLoad;
use kz_cpu::Cpu;
use kz_model::{Bundle, Plan, RepliesSoFar, Room, Trace};
use kz_plan::plans_are_fit;
use std::alloc::{AllocError, Global};

/// A book for each zone.
pub fn books_of(alloc: Global, rooms: &[Room]) -> Result<Vec<Book>, AllocError>
    requires { All IsFitRoom rooms.now }
    ensures { IfOk result (λ books. AreOpened rooms.now books.items) }
{
    let mut books = Vec::with_capacity(alloc, rooms.len())?;
    for room in rooms {
        books.push(Book::new(alloc, room)?)?;
    }
    Ok(books)
}

/// So many CPUs, for zones of these rooms and so many names.
pub fn cpus_of(
    alloc: Global,
    cpus: u32,
    rooms: &[Room],
    names: u32,
    pages: u32,
) -> Result<Vec<Cpu>, AllocError>
    requires fit { All IsFitRoom rooms.now }
    requires cpus { All (λ room. room.params.cpus ≡ cpus) rooms.now }
    requires some { 1 ≤ pages }
    requires few { pages ≤ 4096 }
    ensures { IfOk result (λ made. made.items ≡ map (λ cpu. opened_cpu cpu rooms.now names) (range_with_len 0 cpus)) }
{
    let mut made = Vec::with_capacity(alloc, cpus as usize)?;
    for cpu in 0..cpus {
        made.push(Cpu::new(alloc, cpu, rooms, names, pages)?)?;
    }
    Ok(made)
}

/// Room for the replies to each CPU's lines.
pub fn replies_of(alloc: Global, traces: &[Trace]) -> Result<Vec<RepliesSoFar>, AllocError>
    requires { All (λ trace. length trace ≤ 1000000) traces.now }
    ensures { IfOk result (λ replies. replies.items
        ≡ map (λ trace. record { room = length trace; items = [] }) traces.now) }
{
    let mut replies = Vec::with_capacity(alloc, traces.len())?;
    for trace in traces {
        replies.push(RepliesSoFar::new(alloc, trace.len() as u32)?)?;
    }
    Ok(replies)
}

/// How many entries the supply's log may have where so many lines on each zone allocate: two for each.
pub fn entries_of(loads: &[ZoneLoad]) -> u32
    requires { most_entries (map (λ load. load.allocating) loads.now) < 2 ^ 32 }
    ensures { result ≡ most_entries (map (λ load. load.allocating) loads.now) }
{
    2 * loads.iter().map(|load| load.allocating).sum::<u32>()
}

/// No more of a zone's room than a run with so many frames can use.
fn limited(load: ZoneLoad, frames: u32) -> Room
    requires pages { 0 < load.room.params.pages }
    requires frames { frames ≤ 8192 }
    ensures { result ≡ needed frames load.allocating load.giving load.room }
{
    let ZoneLoad {
        mut room,
        allocating,
        giving,
    } = load;
    let full = frames / room.params.pages;
    room.chunks = room.chunks.min(allocating).min(full + 1);
    room.transit = giving;
    room
}

/// No more of the zones' rooms than the bundle's run can use.
pub fn limited_rooms(
    alloc: Global,
    bundle: &Bundle,
    plan: &Plan,
    loads: Vec<ZoneLoad>,
) -> Result<Vec<Room>, AllocError>
    requires planned { IsPlanned bundle.now plan.now }
    requires loads { loads.items ≡ loads_of bundle.now plan.now }
    ensures { IfOk result (λ rooms. rooms.items ≡ needed_rooms bundle.now plan.now) }
{
    plans_are_fit();
    let mut rooms = Vec::with_capacity(alloc, loads.len())?;
    for load in loads {
        rooms.push(limited(load, bundle.frames))?;
    }
    Ok(rooms)
}

/// How many frames can be out at once: those of all chunks in these rooms, and no more than the pages of five submaps.
pub fn frames_of(rooms: &[Room], pages: u32) -> u32
    requires few { frames_in rooms.now < 2 ^ 32 }
    requires pages { pages ≤ 4096 }
    ensures { result ≡ frames_needed pages rooms.now }
{
    let mut frames = 0;
    for room in rooms {
        frames += room.params.pages * room.chunks;
    }
    frames.min(5 * pages)
}
