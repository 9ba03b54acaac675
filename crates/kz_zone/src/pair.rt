//! A CPU's stack of blocks, as one list.
ghost use Rattle.std.specs.Prelude.{◌≡◌, ◌+◌, ◌*◌, ◌<◌, ◌≤◌, ◌++◌, [], ◌∷◌, ◌↔◌, length, vec_len, vec_capacity, take, drop, IfOk, IfErr, IfSome, IsErr, IsSome, OnOk, OnErr};
ghost use Rattle.kz_model.specs.Zone.Rules.{newest, below_newest};

use crate::within::{drop_front, extend_within, push_within};
use kz_model::Block;
use std::alloc::{AllocError, Global};
use std::marker::Model;

/// A stack of at most twice a magazine's size of blocks, the oldest first.
///
/// It takes all its memory when it is made.
#[derive(Drop)]
pub struct Pair {
    blocks: Vec<Block>,
    magazine: usize,
}

impl Model for Pair {
    ghost use Rattle.std.specs.Prelude.{◌*◌, ◌≤◌, ◌<◌, vec_len, vec_capacity};
    ghost use Rattle.kz_zone.specs.Pair.{Pair as Seen};

    ghost Value = { Seen };

    ghost view = { λ p. record { magazine = p.magazine; blocks = p.blocks.items } };

    ghost invariant = { λ p. (0 < p.magazine) × (p.magazine ≤ 32) × (vec_len p.blocks ≤ 2 * p.magazine) ×
        (2 * p.magazine ≤ vec_capacity p.blocks) };
}

impl Pair {
    /// An empty stack for magazines of m blocks.
    pub fn new(alloc: Global, m: u32) -> Result<Pair, AllocError>
        requires some { 0 < m }
        requires fit { m ≤ 32 }
        ensures { IfOk result (λ pair. pair ≡ record { magazine = m; blocks = [] }) }
    {
        let magazine = m as usize;
        Ok(Pair {
            blocks: Vec::with_capacity(alloc, 2 * magazine)?,
            magazine,
        })
    }

    /// Takes the newest block out.
    pub fn pop(&mut self) -> Option<Block>
        ensures some { IsSome result ↔ (0 < length self.old.blocks) }
        ensures newest { IfSome result (λ block. block ≡ newest self.old.blocks) }
        ensures left { self.new ≡ record self.old { blocks = below_newest self.old.blocks } }
        ensures last { IfSome result (λ block. self.old.blocks ≡ self.new.blocks ++ block ∷ []) }
    {
        self.blocks.pop()
    }

    /// Puts a block on top, unless the stack is full; then the block comes back.
    pub fn push(&mut self, block: Block) -> Result<(), Block>
        ensures ok { OnOk result (self.new ≡ record self.old { blocks = self.old.blocks ++ block ∷ [] }) }
        ensures refused { IsErr result ↔ (length self.old.blocks ≡ 2 * self.old.magazine) }
        ensures err { IfErr result (λ back. back ≡ block) }
        ensures unchanged { OnErr result (self.new ≡ self.old) }
    {
        if self.blocks.len() == 2 * self.magazine {
            return Err(block);
        }
        push_within(&mut self.blocks, block);
        Ok(())
    }

    pub fn len(&self) -> u32
        ensures { result ≡ length self.now.blocks }
    {
        self.blocks.len() as u32
    }

    /// Puts a block on top, where there is room.
    pub(crate) fn add(&mut self, block: Block)
        requires { length self.old.blocks < 2 * self.old.magazine }
        ensures { self.new ≡ record self.old { blocks = self.old.blocks ++ block ∷ [] } }
    {
        push_within(&mut self.blocks, block);
    }

    /// Fills an empty stack with these blocks.
    pub(crate) fn take_all(&mut self, blocks: &[Block])
        requires empty { self.old.blocks ≡ [] }
        requires few { length blocks.now ≤ 2 * self.old.magazine }
        ensures { self.new ≡ record self.old { blocks = blocks.now } }
    {
        extend_within(&mut self.blocks, blocks);
    }

    /// The oldest blocks, a magazine's size of them.
    pub(crate) fn front(&self) -> &[Block]
        requires { self.now.magazine ≤ length self.now.blocks }
        ensures { result.now ≡ take self.now.magazine self.now.blocks }
    {
        &self.blocks[..self.magazine]
    }

    /// Lets the oldest blocks go, a magazine's size of them.
    pub(crate) fn drop_front(&mut self)
        requires { self.old.magazine ≤ length self.old.blocks }
        ensures { self.new ≡ record self.old { blocks = drop self.old.magazine self.old.blocks } }
    {
        drop_front(&mut self.blocks, self.magazine);
    }

    /// Moves the oldest blocks, a magazine's size of them, to the end of a list with room for them.
    pub(crate) fn give_front(&mut self, to: &mut Vec<Block>)
        requires there { self.old.magazine ≤ length self.old.blocks }
        requires room { vec_len to.old + self.old.magazine ≤ vec_capacity to.old }
        ensures left { self.new ≡ record self.old { blocks = drop self.old.magazine self.old.blocks } }
        ensures given { to.new.items ≡ to.old.items ++ take self.old.magazine self.old.blocks }
        ensures capacity { vec_capacity to.old ≤ vec_capacity to.new }
    {
        extend_within(to, &self.blocks[..self.magazine]);
        drop_front(&mut self.blocks, self.magazine);
    }
}
