//! Room for the record of a run.
ghost use Rattle.std.specs.Prelude.{◌≡◌, ◌≤◌, [], length, map, IfOk, vec_len, vec_capacity};
ghost use Rattle.kz_machine.specs.RecordRoom.{HasRecordRoom, HasRoomFor};

use kz_book::Book;
use kz_model::{Items, Record, Replies, RepliesSoFar, Room, Visit};
use kz_supply::ThinSupply;
use std::alloc::{AllocError, Global};
use std::marker::Model;

/// Room for the marks of a zone's chunks.
#[derive(Drop)]
struct MarkRoom {
    mapped: Vec<bool>,
}

impl Model for MarkRoom {
    ghost use Rattle.std.specs.Prelude.{◌≡◌, [], vec_capacity};
    ghost use Rattle.kz_machine.specs.RecordRoom.{MarkRoom as Seen};

    ghost Value = { Seen };

    ghost view = { λ s. record { chunks = vec_capacity s.mapped } };

    ghost invariant = { λ s. s.mapped.items ≡ [] };
}

/// Whether each chunk of a zone is mapped.
fn marks_of(book: &Book, mut into: Vec<bool>) -> Items<bool>
    requires empty { into.items ≡ [] }
    requires room { book.now.zone.most_chunks ≤ vec_capacity into }
    ensures { result ≡ map (λ chunk. chunk.mapped) book.now.zone.chunks }
{
    for chunk in 0..book.chunks() {
        into.push_reserved(book.mapped(chunk));
    }
    Items::from_vec(into)
}

/// Each CPU's replies.
fn replies_of(replies: Vec<RepliesSoFar>, mut into: Vec<Replies>) -> Items<Replies>
    requires empty { into.items ≡ [] }
    requires room { vec_len replies ≤ vec_capacity into }
    ensures { result ≡ map (λ r. r.items) replies.items }
{
    for of_cpu in replies {
        into.push_reserved(of_cpu.finish());
    }
    Items::from_vec(into)
}

/// The visits of each zone.
fn visits_of(books: Vec<Book>, mut into: Vec<Items<Visit>>) -> Items<Items<Visit>>
    requires empty { into.items ≡ [] }
    requires room { length books.items ≤ vec_capacity into }
    ensures { result ≡ map (λ book. book.visits) books.items }
{
    for book in books {
        into.push_reserved(book.into_visits());
    }
    Items::from_vec(into)
}

/// The marks of each zone's chunks.
fn mapped_of(
    mark_rooms: Vec<MarkRoom>,
    books: &[Book],
    mut into: Vec<Items<bool>>,
) -> Items<Items<bool>>
    requires empty { into.items ≡ [] }
    requires mark_rooms { HasRoomFor books.now mark_rooms.items }
    requires room { length books.now ≤ vec_capacity into }
    ensures { result ≡ map (λ book. map (λ chunk. chunk.mapped) book.zone.chunks) books.now }
{
    for mark_room in mark_rooms {
        let book = &books[into.len()];
        into.push_reserved(marks_of(book, mark_room.mapped));
    }
    Items::from_vec(into)
}

/// A record that is empty, with room for all that a run makes.
#[derive(Drop)]
pub struct RecordRoom {
    replies: Vec<Replies>,
    visits: Vec<Items<Visit>>,
    mapped: Vec<Items<bool>>,
    mark_rooms: Vec<MarkRoom>,
}

impl Model for RecordRoom {
    ghost use Rattle.std.specs.Prelude.{◌≡◌, [], vec_capacity};
    ghost use Rattle.kz_machine.specs.RecordRoom.{RecordRoom as Seen};

    ghost Value = { Seen };

    ghost view = { λ b. record {
      cpus = vec_capacity b.replies;
      visits = vec_capacity b.visits;
      mapped =
          vec_capacity b.mapped;
      mark_rooms = b.mark_rooms.items;
    } };

    ghost invariant = { λ b. (b.replies.items ≡ []) × (b.visits.items ≡ []) × (b.mapped.items ≡ []) };
}

/// Room for what a record has of each zone.
fn mark_rooms_of(alloc: Global, rooms: &[Room]) -> Result<Vec<MarkRoom>, AllocError>
    ensures { IfOk result (λ mark_rooms. mark_rooms.items ≡ map (λ room. record { chunks = room.chunks }) rooms.now) }
{
    let mut mark_rooms = Vec::with_capacity(alloc, rooms.len())?;
    for room in rooms {
        mark_rooms.push(MarkRoom {
            mapped: Vec::with_capacity(alloc, room.chunks as usize)?,
        })?;
    }
    Ok(mark_rooms)
}

impl RecordRoom {
    /// Room for the record of a run of so many CPUs, whose zones have these rooms.
    ///
    /// Visits and log need none: they are moved into the record.
    pub fn new(alloc: Global, cpus: u32, rooms: &[Room]) -> Result<RecordRoom, AllocError>
        ensures { IfOk result (λ record_room. HasRecordRoom rooms.now cpus record_room) }
    {
        Ok(RecordRoom {
            replies: Vec::with_capacity(alloc, cpus as usize)?,
            visits: Vec::with_capacity(alloc, rooms.len())?,
            mapped: Vec::with_capacity(alloc, rooms.len())?,
            mark_rooms: mark_rooms_of(alloc, rooms)?,
        })
    }

    /// The record of these replies, these zones and this supply.
    pub fn record(self, replies: Vec<RepliesSoFar>, books: Vec<Book>, supply: ThinSupply) -> Record
        requires replies { vec_len replies ≤ self.cpus }
        requires visits { length books.items ≤ self.visits }
        requires mapped { length books.items ≤ self.mapped }
        requires mark_rooms { HasRoomFor books.items self.mark_rooms }
        ensures { result ≡ record {
          replies = map (λ r. r.items) replies.items;
          visits = map (λ book. book.visits) books.items;
          mapped = map (λ book. map (λ chunk. chunk.mapped) book.zone.chunks) books.items;
          supply = supply.counted.log;
        } }
    {
        let RecordRoom {
            replies: by_cpu,
            visits,
            mapped,
            mark_rooms,
        } = self;
        let marks = mapped_of(mark_rooms, &books, mapped);
        Record {
            replies: replies_of(replies, by_cpu),
            visits: visits_of(books, visits),
            mapped: marks,
            supply: supply.into_log(),
        }
    }
}
