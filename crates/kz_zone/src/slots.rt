//! Gifts in the order in which they came, each found by its CPU and name in constant time.
ghost use Rattle.std.specs.Prelude.{◌≡◌, ◌↔◌, ◌+◌, ◌<◌, ◌≤◌, ◌++◌, [], ◌∷◌, length, vec_capacity, is_some, IsFalse, IfOk, IfSome, IfNone};
ghost use Rattle.std.specs.List.{remove};
ghost use Rattle.std.specs.Option.{unwrap_or};
ghost use Rattle.kz_model.specs.Zone.Rules.{gift_place, gift_at};

use crate::within::push_within;
use kz_model::Block;
use std::alloc::{AllocError, Global};
use std::collections::HashMap;
use std::marker::Model;

/// A block in transit: the CPU that it is for, and its name there.
#[derive(Clone, Copy)]
pub struct Gift {
    pub to: u32,
    pub name: u32,
    pub block: Block,
}

impl Model for Gift {
    ghost use Rattle.kz_model.specs.Zone.State.{Gift as Seen};

    ghost Value = { Seen };

    ghost view = { λ g. record { to = g.to; name = g.name; block = g.block } };

    ghost inverse = { λ g. record { to = g.to; name = g.name; block = g.block } };
}

/// A gift, and where the next for the same name of the same CPU stands.
#[derive(Clone, Copy)]
struct Slot {
    gift: Gift,
    taken: bool,
    next: Option<u32>,
}

/// Where the gifts for one name of a CPU begin and end.
///
/// Those from the first on aren't taken. The last may be.
#[derive(Clone, Copy)]
struct Ends {
    first: Option<u32>,
    last: u32,
}

/// The gifts that came, the oldest first. One that is taken keeps its slot until all slots are cleared.
///
/// They take all their memory when they are made.
#[derive(Drop)]
pub struct Slots {
    room: u32,
    slots: Vec<Slot>,
    index: HashMap<(u32, u32), Ends>,
}

impl Model for Slots {
    ghost use Rattle.std.specs.Prelude.{vec_capacity, length};
    ghost use Rattle.std.specs.HashMap.{spare};
    ghost use Rattle.kz_zone.specs.Slots.{Slots as Seen, gifts_in, AreSlots};

    ghost Value = { Seen };

    ghost view = { λ s. record { room = s.room; used = length s.slots.items; gifts = gifts_in s.slots.items } };

    ghost invariant = { λ s. AreSlots s.room (vec_capacity s.slots) (spare s.index) s.slots.items s.index.entries };
}

impl Slots {
    /// No slot is used, and there is room for so many.
    pub fn new(alloc: Global, room: u32) -> Result<Slots, AllocError>
        ensures { IfOk result (λ slots. slots ≡ record { room = room; used = 0; gifts = [] }) }
    {
        Ok(Slots {
            room,
            slots: Vec::with_capacity(alloc, room as usize)?,
            index: HashMap::with_capacity(alloc, room as usize)?,
        })
    }

    /// As many gifts came as there is room for.
    pub fn is_full(&self) -> bool
        ensures { IsFalse result ↔ (self.now.used < self.now.room) }
    {
        self.slots.len() == self.room as usize
    }

    /// Copies the gifts that aren't taken.
    pub fn copy_to(&self, into: &mut Vec<Gift>)
        requires empty { into.old.items ≡ [] }
        requires room { self.now.room ≤ vec_capacity into.old }
        ensures items { into.new.items ≡ self.now.gifts }
        ensures capacity { vec_capacity into.old ≤ vec_capacity into.new }
    {
        for slot in &self.slots {
            if !slot.taken {
                push_within(into, slot.gift);
            }
        }
    }

    /// Lets all gifts go, and with them their slots.
    pub fn clear(&mut self)
        ensures { self.new ≡ record self.old { used = 0; gifts = [] } }
    {
        self.slots.clear();
        self.index.clear();
    }

    /// What the slots keep.
    pub fn keeps(&self)
        ensures used { self.now.used ≤ self.now.room }
        ensures gifts { length self.now.gifts ≤ self.now.used }
    {
        let _room = &self.room;
    }

    /// Puts a gift behind the others.
    pub fn put(&mut self, gift: Gift)
        requires { self.old.used < self.old.room }
        ensures { self.new ≡ record self.old { used = self.old.used + 1; gifts = self.old.gifts ++ gift ∷ [] } }
    {
        let place = self.slots.len() as u32;
        let slot = Slot {
            gift,
            taken: false,
            next: None,
        };
        push_within(&mut self.slots, slot);
        let key = (gift.to, gift.name);
        match self.index.get_mut(&key) {
            Some(ends) => {
                self.slots[ends.last as usize].next = Some(place);
                ends.last = place;
                ends.first = ends.first.or(Some(place));
            }
            None => {
                let ends = Ends {
                    first: Some(place),
                    last: place,
                };
                // There is room for a key of each slot, so this takes no memory.
                let _ = self.index.insert(key, ends);
            }
        }
    }

    /// Takes the oldest gift for a CPU and one of its names.
    pub fn take(&mut self, to: u32, name: u32) -> Option<Block>
        ensures some { is_some result ≡ is_some (gift_place to name self.old.gifts) }
        ensures block { IfSome result (λ block. block
            ≡ (gift_at self.old.gifts (unwrap_or (gift_place to name self.old.gifts) 0)).block) }
        ensures left { IfSome result (λ block. self.new
            ≡ record self.old { gifts = remove self.old.gifts (unwrap_or (gift_place to name self.old.gifts) 0) }) }
        ensures none { IfNone result (self.new ≡ self.old) }
    {
        let ends = self.index.get_mut(&(to, name))?;
        let place = ends.first? as usize;
        let Slot { gift, next, .. } = self.slots[place];
        self.slots[place].taken = true;
        ends.first = next;
        Some(gift.block)
    }
}
