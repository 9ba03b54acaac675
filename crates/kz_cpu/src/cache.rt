//! What a CPU keeps of one zone.
ghost use Rattle.std.specs.Prelude.{ℕ, ◌≡◌, ◌+◌, ◌*◌, ◌<◌, ◌≤◌, ◌++◌, [], ◌∷◌, true, false, length, nat_lt, take, drop, Some, is_some, IfOk, IfSome, IfNone, is_none, vec_len, vec_capacity};
ghost use Rattle.std.specs.Option.{option_map};
ghost use Rattle.kz_model.specs.Zone.Rules.{newest, below_newest, block_of};
ghost use Rattle.kz_model.specs.Zone.State.{CpuPart};
ghost use Rattle.kz_zone.specs.Room.{IsFitRoom};
ghost use Rattle.kz_cpu.specs.Cpu.{opened_cache, IsTagged};
ghost use Rattle.kz_cpu.specs.OwnReply.{reply_meant};
ghost use Rattle.kz_cpu.specs.Local.{Brings, IsAnswer, bound_by};

use crate::Binding;
use crate::own_reply::OwnReply;
use crate::refusals::refused;
use kz_book::Book;
use kz_model::{Bound, RecentSteps, Room, Step, ZoneParams};
use kz_zone::Pair;
use std::alloc::{AllocError, Global};
use std::marker::Model;

/// A CPU's stack of a zone, its steps there since its last visit, and the chunks that it knows.
///
/// It takes all its memory when it is made.
#[derive(Drop)]
pub struct Cache {
    pub params: ZoneParams,
    pub most_steps: u32,
    pub most_chunks: u32,
    pub pair: Pair,
    pub recent: RecentSteps,
    pub bases: Vec<u32>,
}

impl Model for Cache {
    ghost use Rattle.std.specs.Prelude.{vec_len, vec_capacity};
    ghost use Rattle.kz_cpu.specs.Cpu.{Cache as Seen};
    ghost use Rattle.kz_cpu.specs.Cache.{IsRoomy};

    ghost Value = { Seen };

    ghost view = { λ k. record {
      params = k.params;
      most_steps = k.most_steps;
      most_chunks = k.most_chunks;
      pair =
          k.pair;
      recent = k.recent;
      bases = k.bases.items;
    } };

    ghost invariant = { λ k. IsRoomy k.pair.magazine k.params.magazine k.most_chunks (vec_len k.bases)
        (vec_capacity k.bases) };
}

/// Takes the newest block of a stack for a name, if there is one.
fn allocate(pair: &mut Pair, zone: u32, binding: &mut Option<Binding>) -> Option<OwnReply>
    ensures some { is_some result ≡ nat_lt 0 (length pair.old.blocks) }
    ensures reply { IfSome result (λ reply. reply ≡ OwnReply.Block (newest pair.old.blocks)) }
    ensures stack { IfSome result (λ reply. pair.new ≡ record pair.old { blocks = below_newest pair.old.blocks }) }
    ensures bound { IfSome result (λ reply. bound_by binding.new
        ≡ Some (record { block = newest pair.old.blocks; held = true })) }
    ensures tagged { IfSome result (λ reply. IsTagged zone binding.new) }
    ensures none { IfNone result ((pair.new ≡ pair.old) × (binding.new ≡ binding.old)) }
{
    let block = pair.pop()?;
    let bound = Bound { block, held: true };
    *binding = Some(Binding { bound, zone });
    Some(OwnReply::Block { block })
}

/// Puts the block of a held name onto a stack, if there is room.
fn free(pair: &mut Pair, magazine: u32, binding: &mut Option<Binding>) -> Option<OwnReply>
    requires there { is_none (bound_by binding.old) ≡ false }
    requires same_magazine { pair.old.magazine ≡ magazine }
    requires few { magazine ≤ 32 }
    ensures some { is_some result ≡ nat_lt (length pair.old.blocks) (2 * magazine) }
    ensures reply { IfSome result (λ reply. reply ≡ OwnReply.Done) }
    ensures stack { IfSome result (λ reply. pair.new
        ≡ record pair.old { blocks = pair.old.blocks ++ block_of (bound_by binding.old) ∷ [] }) }
    ensures bound { IfSome result (λ reply. bound_by binding.new
        ≡ Some (record { block = block_of (bound_by binding.old); held = false })) }
    ensures tagged { (zone : ℕ) → IsTagged zone binding.old → IsTagged zone binding.new }
    ensures none { IfNone result ((pair.new ≡ pair.old) × (binding.new ≡ binding.old)) }
{
    if pair.len() >= 2 * magazine {
        return None;
    }
    match binding {
        Some(Binding { bound, .. }) => {
            let _ = pair.push(bound.block);
            bound.held = false;
            Some(OwnReply::Done)
        }
        None => unreachable!(),
    }
}

/// The CPU's own answer to a step on a zone, unless the step needs a visit. `binding` is that of the step's name.
fn answer(
    params: &ZoneParams,
    pair: &mut Pair,
    zone: u32,
    binding: &mut Option<Binding>,
    step: &Step,
) -> Option<OwnReply>
    requires same_magazine { pair.old.magazine ≡ params.now.magazine }
    requires few { params.now.magazine ≤ 32 }
    ensures answers { (own : CpuPart) → Brings own step.now pair.old.blocks (bound_by binding.old) →
        IsAnswer params.now own step.now (option_map reply_meant result) pair.new.blocks (bound_by binding.new) }
    ensures none { IfNone result ((pair.new ≡ pair.old) × (binding.new ≡ binding.old)) }
    ensures tagged { IsTagged zone binding.old → IsTagged zone binding.new }
    ensures magazine { pair.new.magazine ≡ pair.old.magazine }
{
    if let Some(reply) = refused(params, binding, step) {
        return Some(reply);
    }
    match step {
        Step::Alloc { .. } => allocate(pair, zone, binding),
        Step::Free { .. } => free(pair, params.magazine, binding),
        _ => None,
    }
}

/// Learns the first pages of the chunks that are not known yet, as far as there is room.
pub fn learn(bases: &mut Vec<u32>, most_chunks: u32, book: &Book)
    requires few { vec_len bases.old ≤ most_chunks }
    requires room { most_chunks ≤ vec_capacity bases.old }
    ensures bases { bases.new.items
        ≡ bases.old.items ++ drop (length bases.old.items) (take most_chunks book.now.zone.bases) }
    ensures few { vec_len bases.new ≤ most_chunks }
    ensures capacity { most_chunks ≤ vec_capacity bases.new }
{
    let known = bases.len() as u32;
    for chunk in known..book.chunks().min(most_chunks) {
        bases.push_reserved(book.base(chunk));
    }
}

impl Cache {
    /// What a CPU has of a zone that no CPU has visited.
    pub fn new(alloc: Global, cpu: u32, room: &Room) -> Result<Cache, AllocError>
        requires fit { IsFitRoom room.now }
        requires cpu { cpu < room.now.params.cpus }
        ensures { IfOk result (λ cache. cache ≡ opened_cache cpu room.now) }
    {
        let most_steps = room.steps.as_slice()[cpu as usize];
        Ok(Cache {
            params: room.params,
            most_steps,
            most_chunks: room.chunks,
            pair: Pair::new(alloc, room.params.magazine)?,
            recent: RecentSteps::new(),
            bases: Vec::with_capacity(alloc, room.chunks as usize)?,
        })
    }

    /// Does a step on its zone by itself, unless it needs a visit. `binding` is that of the step's name.
    pub fn local(
        &mut self,
        zone: u32,
        binding: &mut Option<Binding>,
        step: &Step,
    ) -> Option<OwnReply>
        requires { length self.old.recent < self.old.most_steps }
        ensures answers { (own : CpuPart) → Brings own step.now self.old.pair.blocks (bound_by binding.old) →
            IsAnswer self.old.params own step.now (option_map reply_meant result) self.new.pair.blocks
            (bound_by binding.new) }
        ensures none { IfNone result ((self.new ≡ self.old) × (binding.new ≡ binding.old)) }
        ensures tagged { IsTagged zone binding.old → IsTagged zone binding.new }
        ensures magazine { self.new.pair.magazine ≡ self.old.pair.magazine }
        ensures kept { IfSome result (λ reply. self.new
            ≡ record self.old { pair = self.new.pair; recent = self.old.recent ++ step.now ∷ [] }) }
    {
        let reply = answer(&self.params, &mut self.pair, zone, binding, step)?;
        self.recent.push(step);
        Some(reply)
    }
}
