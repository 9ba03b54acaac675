//! The CPU.
ghost use Rattle.std.specs.Prelude.{◌≡◌, ◌+◌, ◌<◌, ◌≤◌, ◌++◌, [], ◌∷◌, List, true, nat_lt, length, map, All, IfOk, IfSome, IfNone, None, is_none, if◌then◌else◌, slice_index_or};
ghost use Rattle.kz_model.specs.Zone.State.{CpuPart};
ghost use Rattle.kz_model.specs.Zone.Local.{local_answer};
ghost use Rattle.kz_model.specs.Zone.Rules.{needs_visit, name_of as step_name};
ghost use Rattle.kz_supply.specs.Exchange.{Exchange};
ghost use Rattle.kz_zone.specs.Growth.{CanServe, chunks_of};
ghost use Rattle.kz_zone.specs.Room.{IsFitRoom};
ghost use Rattle.kz_book.specs.Book.{History, KeepsHistory, HasRoom, HasSameRoom, params_of};
ghost use Rattle.kz_book.specs.Visits.{CanTakeStep, HasUsed, Extends, Settles, has_name, own_in, visit_of, settled_of, want_at, backs_at};
ghost use Rattle.kz_cpu.specs.Cpu.{Has, IsOnZone, IsElsewhere, KnowsSame, Learns, cache_at, recent_at, opened_cache, opened_cpu};
ghost use Rattle.kz_cpu.specs.Caught.{IsCaughtUpWith};
ghost use Rattle.kz_cpu.specs.Local.{named_by, bound_by, rebound};

use crate::Binding;
use crate::cache::{Cache, learn};
use kz_book::Book;
use kz_model::{Bound, RecentSteps, Reply, Room as ZoneRoom, Step};
use kz_supply::{Pages, Want};
use std::alloc::{AllocError, Global};
use std::marker::Model;

/// One CPU's own part of all zones.
///
/// It takes all its memory when it is made.
#[derive(Drop)]
pub struct Cpu {
    cpu: u32,
    caches: Vec<Cache>,
    bindings: Vec<Option<Binding>>,
}

impl Model for Cpu {
    ghost use Rattle.kz_cpu.specs.Cpu.{Cpu as Seen};

    ghost Value = { Seen };

    ghost view = { λ c. record { cpu = c.cpu; caches = c.caches.items; bindings = c.bindings.items } };
}

/// What the CPU has of each zone before its first step there.
fn caches_of(alloc: Global, cpu: u32, rooms: &[ZoneRoom]) -> Result<Vec<Cache>, AllocError>
    requires fit { All IsFitRoom rooms.now }
    requires cpu { All (λ room. cpu < room.params.cpus) rooms.now }
    ensures { IfOk result (λ caches. caches.items ≡ map (opened_cache cpu) rooms.now) }
{
    let mut caches = Vec::with_capacity(alloc, rooms.len())?;
    for room in rooms {
        caches.push(Cache::new(alloc, cpu, room)?)?;
    }
    Ok(caches)
}

/// The name of a step that has one.
fn name_of(step: &Step) -> Option<u32>
    ensures { result ≡ named_by step.now }
{
    match step {
        Step::Alloc { name }
        | Step::AllocZero { name }
        | Step::Free { name, .. }
        | Step::Give { name, .. }
        | Step::Take { name }
        | Step::Read { name, .. }
        | Step::Write { name, .. } => Some(*name),
        Step::Flush | Step::Trim => None,
    }
}

/// What a step's name is bound to; nothing where it has no name.
fn bound_by_name(bindings: &[Option<Binding>], step: &Step) -> Option<Bound>
    requires { has_name step.now ≡ true → step_name step.now < length bindings.now }
    ensures { result ≡ (if has_name step.now then bound_by (slice_index_or bindings.now (step_name step.now) None)
        else None) }
{
    let name = name_of(step)?;
    match bindings[name as usize] {
        Some(binding) => Some(binding.bound),
        None => None,
    }
}

/// Binds a step's name, if it has one, as a step on this zone leaves it.
fn bind(bindings: &mut [Option<Binding>], zone: u32, step: &Step, bound: Option<Bound>)
    requires { has_name step.now ≡ true → step_name step.now < length bindings.old }
    ensures { bindings.new ≡ rebound zone step.now bound bindings.old }
{
    if let Some(name) = name_of(step) {
        bindings[name as usize] = match bound {
            Some(bound) => Some(Binding { bound, zone }),
            None => None,
        };
    }
}

impl Cpu {
    /// A CPU that has done nothing: an empty stack for each zone, no steps, no chunk known, and no name bound.
    pub fn new(
        alloc: Global,
        cpu: u32,
        rooms: &[ZoneRoom],
        names: u32,
        _pages: u32,
    ) -> Result<Cpu, AllocError>
        requires fit { All IsFitRoom rooms.now }
        requires cpu { All (λ room. cpu < room.params.cpus) rooms.now }
        requires some { 1 ≤ _pages }
        requires few { _pages ≤ 4096 }
        ensures { IfOk result (λ c. c ≡ opened_cpu cpu rooms.now names) }
    {
        Ok(Cpu {
            cpu,
            caches: caches_of(alloc, cpu, rooms)?,
            bindings: vec![in alloc; None; names as usize]?,
        })
    }

    /// Does a step by itself, unless it needs a visit.
    pub fn local(&mut self, zone: u32, step: &Step) -> Option<Reply>
        requires here { IsOnZone self.old zone step.now }
        requires room { length (recent_at self.old zone) < (cache_at self.old zone).most_steps }

        // None exactly where the step needs a visit; then nothing changes.
        ensures needs { (own : CpuPart) → Has self.old zone own → is_none result
            ≡ needs_visit (cache_at self.old zone).params own step.now }
        ensures none { IfNone result (self.new ≡ self.old) }

        // Else the CPU has what the step leaves, and the step joins the recent ones.
        ensures reply { IfSome result (λ reply. (own : CpuPart) → Has self.old zone own →
            reply ≡ (local_answer (cache_at self.old zone).params own step.now).reply) }
        ensures has { IfSome result (λ reply. (own : CpuPart) → Has self.old zone own →
            Has self.new zone (local_answer (cache_at self.old zone).params own step.now).own) }
        ensures recent { IfSome result (λ reply. recent_at self.new zone ≡ recent_at self.old zone ++ step.now ∷ []) }
        ensures elsewhere { IsElsewhere self.old self.new zone step.now }
        ensures knows { KnowsSame (cache_at self.old zone) (cache_at self.new zone) }
    {
        let name = name_of(step)?;
        let binding = &mut self.bindings[name as usize];
        let own = self.caches[zone as usize].local(zone, binding, step)?;
        Some(own.reply())
    }

    /// Does a step that needs a visit, in one visit that carries the recent steps too.
    pub fn slow<P: Pages>(
        &mut self,
        round: u32,
        zone: u32,
        step: &Step,
        book: &mut Book,
        pages: &mut P,
    ) -> Reply
        requires here { IsOnZone self.old zone step.now }
        requires cpu { self.old.cpu < (params_of book.old).cpus }
        requires same_params { params_of book.old ≡ (cache_at self.old zone).params }
        requires at { (j : History) × KeepsHistory book.old j × IsCaughtUpWith self.old zone j ×
            (needs_visit (params_of book.old) (own_in (params_of book.old) j self.old.cpu (recent_at self.old zone))
            step.now ≡ true) }
        requires room { HasRoom book.old self.old.cpu (length (recent_at self.old zone) + 1) }
        requires step { CanTakeStep book.old.zone step.now }
        requires serves { CanServe (P.seen pages.old) (chunks_of book.old.zone)
            (want_at book.old.zone (cache_at self.old zone).pair.blocks step.now) (backs_at book.old.zone step.now) }

        ensures visits { book.new.visits ≡ book.old.visits ++ visit_of round self.old.cpu (recent_at self.old zone)
            ∷ [] }
        ensures same { HasSameRoom book.old book.new }

        // The zone asked for what the step asks, and keeps the history with this visit, which the CPU has caught up
        // with.
        ensures keeps { (exchanges : List Exchange) ×
            HasUsed book.old.zone book.new.zone (P.seen pages.old) (P.seen pages.new) exchanges ×
            ((j : History) → KeepsHistory book.old j → IsCaughtUpWith self.old zone j →
            (after : History) × KeepsHistory book.new after ×
            Extends (params_of book.old) self.old.cpu j after (recent_at self.old zone) step.now result exchanges ×
            IsCaughtUpWith self.new zone after) }
        ensures recent { recent_at self.new zone ≡ [] }
        ensures elsewhere { IsElsewhere self.old self.new zone step.now }
        ensures learns { Learns (cache_at self.old zone) (cache_at self.new zone) book.new.zone.bases }
    {
        let mut bound = bound_by_name(&self.bindings, step);
        let cpu = self.cpu;
        let cache = &mut self.caches[zone as usize];
        let reply = book.visit(
            round,
            cpu,
            &cache.recent,
            &mut cache.pair,
            &mut bound,
            step,
            pages,
        );
        cache.recent.clear();
        learn(&mut cache.bases, cache.most_chunks, book);
        bind(&mut self.bindings, zone, step, bound);
        reply
    }

    /// What a visit of this step will ask for.
    pub fn want(&self, zone: u32, step: &Step, book: &Book) -> Want
        requires { zone < length self.now.caches }
        ensures { result ≡ want_at book.now.zone (cache_at self.now zone).pair.blocks step.now }
    {
        let cache = &self.caches[zone as usize];
        book.want(&cache.pair, step)
    }

    /// Writes the recent steps down in the zone's book, as a settled visit.
    pub fn settle(&mut self, round: u32, zone: u32, book: &mut Book)
        requires zone { zone < length self.old.caches }
        requires cpu { self.old.cpu < (params_of book.old).cpus }
        requires same_params { params_of book.old ≡ (cache_at self.old zone).params }
        requires some { 0 < length (recent_at self.old zone) }
        requires at { (j : History) × KeepsHistory book.old j × IsCaughtUpWith self.old zone j }
        requires room { HasRoom book.old self.old.cpu (length (recent_at self.old zone)) }
        ensures visits { book.new
            ≡ record book.old {
              visits = book.old.visits ++ settled_of round self.old.cpu (recent_at self.old zone)
                  ∷ [];
            } }
        ensures keeps { (j : History) → KeepsHistory book.old j → IsCaughtUpWith self.old zone j →
            (after : History) × KeepsHistory book.new after ×
            Settles (params_of book.old) self.old.cpu j after (recent_at self.old zone) ×
            IsCaughtUpWith self.new zone after }
        ensures recent { recent_at self.new zone ≡ [] }
        ensures elsewhere { IsElsewhere self.old self.new zone Step.Flush }
        ensures knows { KnowsSame (cache_at self.old zone) (cache_at self.new zone) }
    {
        let cpu = self.cpu;
        let late = &mut self.caches[zone as usize];
        book.settle(round, cpu, &late.recent);
        late.recent.clear();
    }

    /// Whether it has steps on the zone since its last visit there.
    pub fn has_recent(&self, zone: u32) -> bool
        requires { zone < length self.now.caches }
        ensures { result ≡ nat_lt 0 (length (recent_at self.now zone)) }
    {
        let cache = &self.caches[zone as usize];
        cache.recent.len() > 0
    }

    /// Its steps on the zone since its last visit there.
    pub fn recent(&self, zone: u32) -> &RecentSteps
        requires { zone < length self.now.caches }
        ensures { result.now ≡ recent_at self.now zone }
    {
        let cache = &self.caches[zone as usize];
        &cache.recent
    }

    /// How many chunks of the zone it knows.
    pub fn known_chunks(&self, zone: u32) -> u32
        requires { zone < length self.now.caches }
        ensures { result ≡ length (cache_at self.now zone).bases }
    {
        let cache = &self.caches[zone as usize];
        cache.bases.len() as u32
    }
}
