//! The book of a zone.
ghost use Rattle.std.specs.Prelude.{◌≡◌, ◌+◌, ◌^◌, ◌<◌, ◌≤◌, ◌++◌, [], ◌∷◌, List, length, sum, slice_index, IfOk, vec_len, vec_capacity};
ghost use Rattle.kz_model.specs.Zone.State.{cpu_part, chunk_at};
ghost use Rattle.kz_model.specs.Zone.Late.{NeedNone};
ghost use Rattle.kz_supply.specs.Exchange.{Exchange};
ghost use Rattle.kz_zone.specs.Growth.{CanServe, chunks_of};
ghost use Rattle.kz_zone.specs.Room.{IsFitRoom};
ghost use Rattle.kz_zone.specs.Zone.{IsSoundZone};
ghost use Rattle.kz_book.specs.Acts.{HasEffectInEachState, scene};
ghost use Rattle.kz_book.specs.Book.{History, KeepsHistory, HasRoom, HasSameRoom, AreWithinRoom, params_of};
ghost use Rattle.kz_book.specs.Visits.{IsAtVisit, CanTakeStep, HasUsed, Extends, Settles, visit_of, settled_of, want_at, backs_at, bound_there};

use crate::acts::act;
use kz_model::{Bound, Items, RecentSteps, Reply, Room, Step, Visit};
use kz_supply::{Pages, Want};
use kz_zone::{Pair, Zone};
use std::alloc::{AllocError, Global};
use std::marker::Model;

/// A zone with the visits that were made to it.
///
/// It takes all its memory when it is made.
#[derive(Drop)]
pub struct Book {
    room: Room,
    zone: Zone,
    visits: Vec<Visit>,
}

impl Model for Book {
    ghost use Rattle.std.specs.Prelude.{vec_capacity};
    ghost use Rattle.kz_book.specs.Book.{Book as Seen, IsWithin};

    ghost Value = { Seen };

    ghost view = { λ b. record { room = b.room; zone = b.zone; visits = b.visits.items } };

    ghost invariant = { λ b. IsWithin b.room b.visits.items (vec_capacity b.visits) };
}

/// A room for the same.
fn copy_of(alloc: Global, room: &Room) -> Result<Room, AllocError>
    ensures { IfOk result (λ copy. copy ≡ room.now) }
{
    Ok(Room {
        params: room.params,
        chunks: room.chunks,
        transit: room.transit,
        steps: Items::from_slice(alloc, room.steps.as_slice())?,
    })
}

/// How many steps of all CPUs there can be.
fn total(steps: &[u32]) -> u32
    requires { sum steps.now ≤ 2 ^ 30 }
    ensures { result ≡ sum steps.now }
{
    steps.iter().sum()
}

impl Book {
    /// The book of a zone that no CPU has visited.
    pub fn new(alloc: Global, room: &Room) -> Result<Book, AllocError>
        requires { IsFitRoom room.now }
        ensures room { IfOk result (λ book. book.room ≡ room.now) }
        ensures visits { IfOk result (λ book. book.visits ≡ []) }
        ensures chunks { IfOk result (λ book. book.zone.chunks ≡ []) }
        ensures bases { IfOk result (λ book. book.zone.bases ≡ []) }
        ensures most_chunks { IfOk result (λ book. book.zone.most_chunks ≡ room.now.chunks) }
        ensures most_gifts { IfOk result (λ book. book.zone.most_gifts ≡ room.now.transit) }
        ensures keeps { IfOk result (λ book. (j : History) × KeepsHistory book j × (j.steps ≡ []) × (j.answers ≡ [])) }
    {
        Ok(Book {
            room: copy_of(alloc, room)?,
            zone: Zone::new(alloc, room)?,
            visits: Vec::with_capacity(alloc, total(room.steps.as_slice()) as usize)?,
        })
    }

    /// A visit of a CPU: its recent steps, which needed none, and a step that needs one. `pair` is its stack, and
    /// `bound` what the step's name is bound to.
    pub fn visit<P: Pages>(
        &mut self,
        round: u32,
        cpu: u32,
        recent: &RecentSteps,
        pair: &mut Pair,
        bound: &mut Option<Bound>,
        step: &Step,
        pages: &mut P,
    ) -> Reply
        requires cpu { cpu < (params_of self.old).cpus }
        requires same_magazine { pair.old.magazine ≡ (params_of self.old).magazine }
        requires at { (j : History) × KeepsHistory self.old j ×
            IsAtVisit (params_of self.old) (cpu_part j.made.end cpu) recent.now pair.old.blocks bound.old step.now }
        requires room { HasRoom self.old cpu (length recent.now + 1) }
        requires step { CanTakeStep self.old.zone step.now }
        requires serves { CanServe (P.seen pages.old) (chunks_of self.old.zone)
            (want_at self.old.zone pair.old.blocks step.now) (backs_at self.old.zone step.now) }
        ensures visits { self.new.visits ≡ self.old.visits ++ visit_of round cpu recent.now ∷ [] }
        ensures same { HasSameRoom self.old self.new }
        ensures magazine { pair.new.magazine ≡ pair.old.magazine }

        // The zone asked for what the step asks, and keeps the history with this visit.
        ensures keeps { (exchanges : List Exchange) ×
            HasUsed self.old.zone self.new.zone (P.seen pages.old) (P.seen pages.new) exchanges ×
            ((j : History) → KeepsHistory self.old j →
            IsAtVisit (params_of self.old) (cpu_part j.made.end cpu) recent.now pair.old.blocks bound.old step.now →
            (after : History) × KeepsHistory self.new after ×
            Extends (params_of self.old) cpu j after recent.now step.now result exchanges
            × (pair.new.blocks ≡ (cpu_part after.made.end cpu).stack) ×
            (bound.new ≡ bound_there (cpu_part after.made.end cpu) step.now)) }

        // In each state that the zone stood for, the step had its effect.
        ensures does { HasEffectInEachState (scene self.old.zone pair.old.blocks bound.old)
            (scene self.new.zone pair.new.blocks bound.new) cpu step.now result (P.seen pages.old) (P.seen pages.new) }
    {
        let reply = act(&mut self.zone, cpu, pair, bound, step, pages);
        self.visits.push_reserved(Visit {
            round,
            cpu,
            count: recent.len() + 1,
            settled: false,
        });
        reply
    }

    /// Writes a CPU's late steps down, which needed no visit, as a settled visit.
    pub fn settle(&mut self, round: u32, cpu: u32, recent: &RecentSteps)
        requires cpu { cpu < (params_of self.old).cpus }
        requires some { 0 < length recent.now }
        requires at { (j : History) × KeepsHistory self.old j ×
            NeedNone (params_of self.old) (cpu_part j.made.end cpu) recent.now }
        requires room { HasRoom self.old cpu (length recent.now) }
        ensures visits { self.new
            ≡ record self.old { visits = self.old.visits ++ settled_of round cpu recent.now ∷ [] } }
        ensures keeps { (j : History) → KeepsHistory self.old j →
            NeedNone (params_of self.old) (cpu_part j.made.end cpu) recent.now →
            (after : History) × KeepsHistory self.new after × Settles (params_of self.old) cpu j after recent.now }
    {
        self.visits.push_reserved(Visit {
            round,
            cpu,
            count: recent.len(),
            settled: true,
        });
    }

    /// What a visit of this step will ask for, with this stack.
    pub fn want(&self, pair: &Pair, step: &Step) -> Want
        ensures { result ≡ want_at self.now.zone pair.now.blocks step.now }
    {
        match step {
            Step::Alloc { .. } | Step::AllocZero { .. } if pair.len() == 0 => self.zone.want(),
            _ => Want::Nothing,
        }
    }

    /// How many chunks the zone has.
    pub fn chunks(&self) -> u32
        ensures chunks { result ≡ length self.now.zone.chunks }
        ensures kept { IsSoundZone self.now.zone }
    {
        self.zone.chunks()
    }

    /// The first page of a chunk in the zone's submap.
    pub fn base(&self, chunk: u32) -> u32
        requires { chunk < length self.now.zone.chunks }
        ensures { result ≡ slice_index self.now.zone.bases chunk }
    {
        self.zone.base(chunk)
    }

    pub fn mapped(&self, chunk: u32) -> bool
        requires { chunk < length self.now.zone.chunks }
        ensures { result ≡ (chunk_at self.now.zone.chunks chunk).mapped }
    {
        self.zone.mapped(chunk)
    }

    /// The visits so far.
    pub fn visits(&self) -> &[Visit]
        ensures is { result.now ≡ self.now.visits }
        ensures within { AreWithinRoom self.now.room result.now }
        ensures few { length result.now ≤ sum self.now.room.steps }
    {
        &self.visits
    }

    /// All visits, moved out. The zone is let go.
    pub fn into_visits(self) -> Items<Visit>
        ensures is { result ≡ self.visits }
        ensures within { AreWithinRoom self.room result }
        ensures few { length result ≤ sum self.room.steps }
    {
        Items::from_vec(self.visits)
    }

    /// The zone as the journal leaves it.
    pub fn zone(&self) -> &Zone
        ensures { result.now ≡ self.now.zone }
    {
        &self.zone
    }
}
