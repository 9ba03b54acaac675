//! The shelf.
ghost use Rattle.std.specs.Prelude.{◌≡◌, ◌<◌, ◌≤◌, ◌++◌, [], ◌∷◌, length, IfOk, slice_set};
ghost use Rattle.kz_queue.specs.Shelf.{lowest_at};

use crate::Place;
use crate::sets::Sets;
use std::alloc::{AllocError, Global};
use std::marker::Model;

/// The places of ordinals from 0 on. It takes all its memory when it is made.
#[derive(Drop)]
pub struct Shelf {
    places: Vec<Place>,
    room: u32,
    sets: Sets,
}

impl Model for Shelf {
    ghost use Rattle.std.specs.Prelude.{vec_capacity};
    ghost use Rattle.kz_queue.specs.Shelf.{Shelf as Seen};
    ghost use Rattle.kz_queue.specs.Sets.{IsShelf};

    ghost Value = { Seen };

    ghost view = { λ s. record { room = s.room; places = s.places.items } };

    ghost invariant = { λ s. IsShelf s.room (vec_capacity s.places) s.places.items s.sets };
}

impl Shelf {
    /// An empty shelf with room for so many ordinals.
    pub fn new(alloc: Global, room: u32) -> Result<Shelf, AllocError>
        ensures { IfOk result (λ shelf. shelf ≡ record { room = room; places = [] }) }
    {
        let words = (room as usize + 63) / 64;
        Ok(Shelf {
            places: Vec::with_capacity(alloc, room as usize)?,
            room,
            sets: Sets::new(alloc, words)?,
        })
    }

    /// Gives the next ordinal a place.
    pub fn add(&mut self, place: Place)
        requires { length self.old.places < self.old.room }
        ensures { self.new ≡ record self.old { places = self.old.places ++ place ∷ [] } }
    {
        self.sets.add(place, self.places.len() as u32);
        let _ = self.places.push(place);
    }

    /// The lowest ordinal that has this place.
    pub fn lowest(&self, place: Place) -> Option<u32>
        ensures { result ≡ lowest_at place self.now.places }
    {
        self.sets.lowest(place)
    }

    /// Gives an ordinal another place.
    pub fn move_to(&mut self, ordinal: u32, place: Place)
        requires { ordinal < length self.old.places }
        ensures { self.new ≡ record self.old { places = slice_set self.old.places ordinal place } }
    {
        self.sets.remove(self.places[ordinal as usize], ordinal);
        self.sets.add(place, ordinal);
        self.places[ordinal as usize] = place;
    }
}
