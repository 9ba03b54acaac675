//! The machine.
ghost use Rattle.std.specs.Prelude.{◌≡◌, ◌<◌, length, map, IfOk};
ghost use Rattle.kz_model.specs.declared.bundle.Bundle.{Bundle as BundleSeen};
ghost use Rattle.kz_model.specs.declared.record.Plan.{Plan as PlanSeen};
ghost use Rattle.kz_model.specs.Types.Planned.{IsPlanned};
ghost use Rattle.kz_laws.specs.Play.{Play, opening_play, play_after_step, effect_there, play_after_round, record_of};
ghost use Rattle.kz_laws.specs.PlayedAt.{IsPlaySound};
ghost use Rattle.kz_machine.specs.Machine.{replies_at};
ghost use Rattle.kz_machine.specs.Stands.{StandsForPlay, IsTurn, IsRoundsEnd};

use crate::opening::{books_of, cpus_of, entries_of, frames_of, limited_rooms, replies_of};
use crate::record_room::RecordRoom;
use crate::settling::settle;
use crate::stepping::one_step;
use kz_book::Book;
use kz_bundle::zone_loads;
use kz_cpu::Cpu;
use kz_model::{Bundle, Plan, Record, RepliesSoFar, Reply, Room, Step};
use kz_plan::plans_are_fit;
use kz_supply::ThinSupply;
use std::alloc::{AllocError, Global};
use std::marker::Model;

/// All CPUs, the books of all zones and the one supply, in a round.
///
/// It takes all its memory when it boots.
#[derive(Drop)]
pub struct Machine {
    cpus: Vec<Cpu>,
    books: Vec<Book>,
    rooms: Vec<Room>,
    supply: ThinSupply,
    replies: Vec<RepliesSoFar>,
    round: u32,
    record_room: RecordRoom,
}

impl Model for Machine {
    ghost use Rattle.kz_machine.specs.Machine.{Machine as Seen};

    ghost Value = { Seen };

    ghost view = { λ m. record {
      cpus = m.cpus.items;
      books = m.books.items;
      rooms = m.rooms.items;
      supply =
          m.supply;
      replies = m.replies.items;
      round = m.round;
      record_room = m.record_room;
    } };
}

impl Machine {
    /// The machine of a bundle before its first line.
    pub fn boot(alloc: Global, bundle: &Bundle, plan: &Plan) -> Result<Machine, AllocError>
        requires { IsPlanned bundle.now plan.now }
        ensures { IfOk result (λ machine. StandsForPlay bundle.now plan.now machine (opening_play bundle.now plan.now)) }
    {
        plans_are_fit();
        let loads = zone_loads(alloc, bundle, plan)?;
        let entries = entries_of(&loads);
        let rooms = limited_rooms(alloc, bundle, plan, loads)?;
        let frames = frames_of(&rooms, bundle.pages);
        let names = bundle.names.len() as u32;
        Ok(Machine {
            cpus: cpus_of(alloc, bundle.cpus, &rooms, names, bundle.pages.max(1))?,
            books: books_of(alloc, &rooms)?,
            supply: ThinSupply::new(alloc, bundle.frames, frames, bundle.pages, entries)?,
            replies: replies_of(alloc, bundle.traces.as_slice())?,
            round: 0,
            record_room: RecordRoom::new(alloc, bundle.cpus, &rooms)?,
            rooms,
        })
    }

    /// How many of a CPU's lines have a reply.
    pub fn replied(&self, cpu: u32) -> usize
        requires { cpu < length self.now.replies }
        ensures { result ≡ length (replies_at self.now.replies cpu).items }
    {
        self.replies[cpu as usize].len()
    }

    /// A CPU's next line: its step on a zone.
    pub fn step(&mut self, cpu: u32, zone: u32, step: &Step) -> Reply
        requires { (b : BundleSeen) × (plan : PlanSeen) × (s : Play) × StandsForPlay b plan self.old s ×
            IsTurn b plan s cpu zone step.now }
        ensures plays { (b : BundleSeen) (plan : PlanSeen) (s : Play) → StandsForPlay b plan self.old s →
            IsTurn b plan s cpu zone step.now →
            StandsForPlay b plan self.new (play_after_step b plan s cpu zone step.now) }
        ensures reply { (b : BundleSeen) (plan : PlanSeen) (s : Play) → StandsForPlay b plan self.old s →
            IsTurn b plan s cpu zone step.now → result ≡ (effect_there b plan s cpu zone step.now).reply }
    {
        one_step(
            &mut self.cpus[cpu as usize],
            &mut self.books[zone as usize],
            &mut self.supply,
            self.round,
            &self.rooms[zone as usize].params,
            step,
            &mut self.replies[cpu as usize],
        )
    }

    /// The end of a round, in which no CPU has a line left: each settles on each zone.
    pub fn end_round(&mut self)
        requires { (b : BundleSeen) × (plan : PlanSeen) × (s : Play) × StandsForPlay b plan self.old s ×
            IsRoundsEnd b plan s }
        ensures { (b : BundleSeen) (plan : PlanSeen) (s : Play) → StandsForPlay b plan self.old s →
            IsRoundsEnd b plan s → StandsForPlay b plan self.new (play_after_round b s) }
    {
        settle(&mut self.cpus, &mut self.books, self.round);
        self.round += 1;
    }

    /// The record of the run.
    pub fn finish(self) -> Record
        requires { (b : BundleSeen) × (plan : PlanSeen) × (s : Play) × StandsForPlay b plan self s ×
            IsPlaySound b plan s }
        ensures { (b : BundleSeen) (plan : PlanSeen) (s : Play) → StandsForPlay b plan self s → IsPlaySound b plan s →
            result ≡ record_of s }
    {
        let Machine {
            cpus: _,
            books,
            rooms: _,
            supply,
            replies,
            round: _,
            record_room,
        } = self;
        record_room.record(replies, books, supply)
    }
}
