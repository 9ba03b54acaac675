//! Blocks in transit from a give to a take.
ghost use Rattle.std.specs.Prelude.{◌≡◌, ◌<◌, ◌≤◌, ◌++◌, [], ◌∷◌, length, vec_capacity, is_some, IfOk, IfSome, IfNone};
ghost use Rattle.std.specs.List.{remove};
ghost use Rattle.std.specs.Option.{unwrap_or};
ghost use Rattle.kz_model.specs.Zone.Rules.{gift_place, gift_at};

use crate::slots::{Gift, Slots};
use kz_model::Block;
use std::alloc::{AllocError, Global};
use std::marker::Model;

/// The blocks in transit, the oldest first.
///
/// It takes all its memory when it is made.
#[derive(Drop)]
pub struct Transit {
    slots: Slots,
    spare: Vec<Gift>,
}

impl Model for Transit {
    ghost use Rattle.std.specs.Prelude.{◌≡◌, ◌≤◌, [], vec_capacity};
    ghost use Rattle.kz_zone.specs.Transit.{Transit as Seen};

    ghost Value = { Seen };

    ghost view = { λ t. record { room = t.slots.room; gifts = t.slots.gifts } };

    ghost invariant = { λ t. (t.spare.items ≡ []) × (t.slots.room ≤ vec_capacity t.spare) };
}

impl Transit {
    /// Nothing in transit, with room for so many gifts.
    pub fn new(alloc: Global, room: u32) -> Result<Transit, AllocError>
        ensures { IfOk result (λ transit. transit ≡ record { room = room; gifts = [] }) }
    {
        Ok(Transit {
            slots: Slots::new(alloc, room)?,
            spare: Vec::with_capacity(alloc, room as usize)?,
        })
    }

    /// Puts a gift last.
    pub fn give(&mut self, to: u32, name: u32, block: Block)
        requires { length self.old.gifts < self.old.room }
        ensures { self.new ≡ record self.old {
          gifts = self.old.gifts ++ record { to = to; name = name; block = block }
              ∷ [];
        } }
    {
        if self.slots.is_full() {
            compact(&mut self.slots, &mut self.spare);
        }
        self.slots.put(Gift { to, name, block });
    }

    /// Takes the oldest gift for a CPU and one of its names out.
    pub fn take(&mut self, to: u32, name: u32) -> Option<Block>
        ensures some { is_some result ≡ is_some (gift_place to name self.old.gifts) }
        ensures block { IfSome result (λ block. block
            ≡ (gift_at self.old.gifts (unwrap_or (gift_place to name self.old.gifts) 0)).block) }
        ensures left { IfSome result (λ block. self.new
            ≡ record self.old { gifts = remove self.old.gifts (unwrap_or (gift_place to name self.old.gifts) 0) }) }
        ensures none { IfNone result (self.new ≡ self.old) }
    {
        self.slots.take(to, name)
    }

    /// There are at most as many gifts as there is room for.
    pub fn keeps(&self)
        ensures { length self.now.gifts ≤ self.now.room }
    {
        self.slots.keeps();
    }
}

/// Lets the slots of gifts that are taken go.
fn compact(slots: &mut Slots, spare: &mut Vec<Gift>)
    requires empty { spare.old.items ≡ [] }
    requires room { slots.old.room ≤ vec_capacity spare.old }
    ensures slots { slots.new ≡ record slots.old { used = length slots.old.gifts } }
    ensures empty { spare.new.items ≡ [] }
    ensures capacity { vec_capacity spare.old ≤ vec_capacity spare.new }
{
    slots.keeps();
    slots.copy_to(spare);
    slots.clear();
    for gift in spare.iter() {
        slots.put(*gift);
    }
    spare.clear();
}
