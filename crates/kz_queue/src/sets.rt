//! For each place the set of the ordinals that stand there.
ghost use Rattle.std.specs.Prelude.{◌≡◌, ◌*◌, ◌^◌, ◌<◌, ◌≤◌, ◌==◌, ◌&&◌, ℕ, true, false, length, if◌then◌else◌, replicate, IfOk, IfSome, IfNone};
ghost use Rattle.kz_queue.specs.declared.place.Place.{Place as ThePlace};
ghost use Rattle.kz_queue.specs.Ordinals.{has};
ghost use Rattle.kz_queue.specs.Shelf.{is_place};
ghost use Rattle.kz_queue.specs.Sets.{set_of, HaveRoom};

use crate::Place;
use crate::ordinals::Ordinals;
use std::alloc::{AllocError, Global};

#[derive(Drop)]
pub struct Sets {
    pub part: Ordinals,
    pub whole: Ordinals,
    pub out: Ordinals,
    pub gone: Ordinals,
}

impl Sets {
    /// Empty sets with room for 64 times so many ordinals.
    pub fn new(alloc: Global, words: usize) -> Result<Sets, AllocError>
        requires { words ≤ 2 ^ 26 }
        ensures { IfOk result (λ sets. (place : ThePlace) → set_of sets place ≡ replicate words 0) }
    {
        Ok(Sets {
            part: Ordinals::new(alloc, words)?,
            whole: Ordinals::new(alloc, words)?,
            out: Ordinals::new(alloc, words)?,
            gone: Ordinals::new(alloc, words)?,
        })
    }

    /// The lowest ordinal at this place.
    pub fn lowest(&self, place: Place) -> Option<u32>
        ensures some { IfSome result (λ ordinal. (has (set_of self.now place) ordinal ≡ true) ×
            ((other : ℕ) → other < ordinal → has (set_of self.now place) other ≡ false)) }
        ensures none { IfNone result ((ordinal : ℕ) → ordinal < 64 * length (set_of self.now place) →
            has (set_of self.now place) ordinal ≡ false) }
        ensures within { IfSome result (λ ordinal. ordinal < 64 * length (set_of self.now place)) }
    {
        match place {
            Place::Part => self.part.lowest(),
            Place::Whole => self.whole.lowest(),
            Place::Out => self.out.lowest(),
            Place::Gone => self.gone.lowest(),
        }
    }

    /// Puts an ordinal at this place.
    pub fn add(&mut self, place: Place, ordinal: u32)
        requires { (any : ThePlace) → ordinal < 64 * length (set_of self.old any) }
        ensures has { (any : ThePlace) (other : ℕ) → other < 64 * length (set_of self.old any) →
            has (set_of self.new any) other
            ≡ (if is_place any place && (other == ordinal) then true else has (set_of self.old any) other) }
        ensures words { (any : ThePlace) → length (set_of self.new any) ≡ length (set_of self.old any) }
    {
        match place {
            Place::Part => self.part.add(ordinal),
            Place::Whole => self.whole.add(ordinal),
            Place::Out => self.out.add(ordinal),
            Place::Gone => self.gone.add(ordinal),
        }
    }

    /// Takes an ordinal away from this place.
    pub fn remove(&mut self, place: Place, ordinal: u32)
        requires { (any : ThePlace) → ordinal < 64 * length (set_of self.old any) }
        ensures has { (any : ThePlace) (other : ℕ) → other < 64 * length (set_of self.old any) →
            has (set_of self.new any) other
            ≡ (if is_place any place && (other == ordinal) then false else has (set_of self.old any) other) }
        ensures words { (any : ThePlace) → length (set_of self.new any) ≡ length (set_of self.old any) }
    {
        match place {
            Place::Part => self.part.remove(ordinal),
            Place::Whole => self.whole.remove(ordinal),
            Place::Out => self.out.remove(ordinal),
            Place::Gone => self.gone.remove(ordinal),
        }
    }
}
