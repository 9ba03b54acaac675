//! The depot: lists of blocks, each of at most a magazine's size.
ghost use Rattle.std.specs.Prelude.{◌≡◌, ◌*◌, ◌-◌, ◌<◌, ◌≤◌, ◌++◌, [], ◌∷◌, ◌↔◌, length, take, drop, IfOk, IfSome, IfNone, IsSome, IsTrue, nat_lt, true, false, vec_len, vec_capacity};
ghost use Rattle.kz_model.specs.Zone.Rules.{newest, last_list, before_last_list};
ghost use Rattle.kz_zone.specs.Depot.{drained, row_of, with_rest};

use crate::Pair;
use crate::within::push_within;
use kz_model::Block;
use std::alloc::{AllocError, Global};
use std::marker::Model;

/// At most so many lists of blocks, the oldest list first.
///
/// The lists stand one after another in one row. They take all their memory when the depot is made.
#[derive(Drop)]
pub struct Depot {
    blocks: Vec<Block>,
    lengths: Vec<usize>,
    magazine: usize,
    room: usize,
}

impl Model for Depot {
    ghost use Rattle.std.specs.Prelude.{vec_capacity};
    ghost use Rattle.kz_zone.specs.Depot.{Depot as Seen, lists_of, IsDepot};

    ghost Value = { Seen };

    ghost view = { λ d. record {
      magazine = d.magazine;
      room = d.room;
      lists =
          lists_of d.lengths.items d.blocks.items;
    } };

    ghost invariant = { λ d. IsDepot d.magazine d.room d.lengths.items d.blocks.items (vec_capacity d.lengths)
        (vec_capacity d.blocks) };
}

impl Depot {
    /// An empty depot with room for so many lists of m blocks.
    ///
    /// Blocks are copied from stack to depot and back, so no CPU has to bring an empty magazine, and the number of CPUs
    /// takes no memory.
    pub fn new(alloc: Global, m: u32, lists: u32, _cpus: u32) -> Result<Depot, AllocError>
        requires some { 0 < m }
        requires fit { m ≤ 32 }
        ensures { IfOk result (λ depot. depot ≡ record { magazine = m; room = lists; lists = [] }) }
    {
        let magazine = m as usize;
        let room = lists as usize;
        Ok(Depot {
            blocks: Vec::with_capacity(alloc, room * magazine)?,
            lengths: Vec::with_capacity(alloc, room)?,
            magazine,
            room,
        })
    }

    /// Puts a full stack's oldest blocks in as the last list, unless there are as many lists as there can be.
    pub fn put(&mut self, from: &mut Pair) -> bool
        requires full { length from.old.blocks ≡ 2 * from.old.magazine }
        requires same_magazine { from.old.magazine ≡ self.old.magazine }
        ensures room { result ≡ nat_lt (length self.old.lists) self.old.room }
        ensures put { result ≡ true → self.new
            ≡ record self.old { lists = self.old.lists ++ take self.old.magazine from.old.blocks ∷ [] } }
        ensures left { result ≡ true → from.new ≡ record from.old { blocks = drop self.old.magazine from.old.blocks } }
        ensures unchanged { result ≡ false → (self.new ≡ self.old) × (from.new ≡ from.old) }
    {
        if self.lengths.len() == self.room {
            return false;
        }
        from.give_front(&mut self.blocks);
        push_within(&mut self.lengths, self.magazine);
        true
    }

    /// Fills an empty stack with the last list, if there is one.
    pub fn get(&mut self, into: &mut Pair) -> bool
        requires empty { into.old.blocks ≡ [] }
        requires same_magazine { into.old.magazine ≡ self.old.magazine }
        ensures some { result ≡ nat_lt 0 (length self.old.lists) }
        ensures last { result ≡ true → into.new ≡ record into.old { blocks = last_list self.old.lists } }
        ensures left { result ≡ true → self.new ≡ record self.old { lists = before_last_list self.old.lists } }
        ensures unchanged { result ≡ false → (self.new ≡ self.old) × (into.new ≡ into.old) }
    {
        let Some(length) = self.lengths.pop() else {
            return false;
        };
        let at = self.blocks.len() - length;
        into.take_all(&self.blocks[at..]);
        self.blocks.truncate(at);
        true
    }

    /// Takes the last block of the last list out. A list with no block left is gone.
    pub fn drain_one(&mut self) -> Option<Block>
        ensures some { IsSome result ↔ (0 < length self.old.lists) }
        ensures last { IfSome result (λ block. block ≡ newest (last_list self.old.lists)) }
        ensures left { IfSome result (λ block. self.new ≡ record self.old { lists = drained self.old.lists }) }
        ensures row { IfSome result (λ block. row_of self.old.lists ≡ row_of self.new.lists ++ block ∷ []) }
        ensures none { IfNone result (self.new ≡ self.old) }
    {
        let length = self.lengths.pop()?;
        push_rest(&mut self.lengths, length - 1);
        self.blocks.pop()
    }

    pub fn is_empty(&self) -> bool
        ensures { IsTrue result ↔ (self.now.lists ≡ []) }
    {
        self.lengths.is_empty()
    }
}

/// Appends the length of what is left of a list, if something is.
fn push_rest(lengths: &mut Vec<usize>, rest: usize)
    requires { vec_len lengths.old < vec_capacity lengths.old }
    ensures items { lengths.new.items ≡ with_rest lengths.old.items rest }
    ensures capacity { vec_capacity lengths.old ≤ vec_capacity lengths.new }
{
    if 0 < rest {
        push_within(lengths, rest);
    }
}
