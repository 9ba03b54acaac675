//! The turn, its passes and its holds.
ghost use Rattle.std.specs.Prelude.{◌≡◌, ◌<◌, ◌++◌, ◌∷◌, ◌↔◌, [], ℕ, All, IfOk, IsPermutation, IsTrue, true};
ghost use Rattle.kz_turn.specs.Journal.{entries_of};
ghost use Rattle.kz_turn.specs.Passes.{PassView, AreNew, HasNumber, AddsEntry, IsSameSeat, hold_from, is_live};

use crate::kept::Kept;
use crate::plays::{Draw, EndSeat, Look, NewSeat, Raise};
use crate::rule::{Opening, TurnSeat, TurnTable};
use atomic_table::Table;
use std::alloc::{AllocError, Global};
use std::marker::Model;
use std::snapshot::Snapshot;
use std::sync::Wait;
use std::thread;

/// A seat of a turn, outside. `close` wants those of all seats back.
#[derive(Drop)]
pub struct Pass<T: Kept> {
    number: u32,
    seat: TurnSeat<T>,
    ghost live: { is_live seat.me.0 ≡ true },
}

impl<T: Kept> Model for Pass<T> {
    ghost use Rattle.kz_turn.specs.Passes.{PassView, pass_of, sitting_of, IsResting};

    ghost Value = { PassView T.Base T.Entry };

    ghost view = { λ p. pass_of p.seat.table_id (sitting_of p.seat.me.0 p.live) };

    ghost invariant = { λ p. IsResting p.seat.me.1 (sitting_of p.seat.me.0 p.live) p.number };
}

impl<T: Kept> Pass<T> {
    ghost use Rattle.kz_turn.specs.declared.view.Sitting.{Sitting};
    ghost use Rattle.kz_turn.specs.declared.view.Stage.TheVariants.{Idle};
    ghost use Rattle.kz_turn.specs.declared.view.View.TheVariants.{Sits};
    ghost use Rattle.kz_turn.specs.Passes.{pass_of};

    fn new(number: u32, seat: TurnSeat<T>) -> Pass<T>
        requires { (a : Sitting T.Base T.Entry)
            × (seat.me ≡ (Sits a, [])) × (a.stage ≡ Idle) × (a.number ≡ number) }
        ensures { (a : Sitting T.Base T.Entry)
            → seat.me ≡ (Sits a, []) → result ≡ pass_of seat.table_id a }
    {
        Pass { number, seat }
    }

    fn is_zeroth(&self) -> bool
        ensures { IsTrue result ↔ (self.now.number ≡ 0) }
    {
        self.number == 0
    }
}

/// A seat of a turn, inside: the value is out with it.
/// It is not `Drop`, and `leave` alone takes it. So an early return that lets it go, as by `?`, is refused.
pub struct Held<T: Kept> {
    number: u32,
    seat: TurnSeat<T>,
    ghost live: { is_live seat.me.0 ≡ true },
}

impl<T: Kept> Model for Held<T> {
    ghost use Rattle.kz_turn.specs.Passes.{HeldView, hold_of, sitting_of, IsStaying};

    ghost Value = { HeldView T.Base T.Entry };

    ghost view = { λ h. hold_of h.seat.table_id (sitting_of h.seat.me.0 h.live) };

    ghost invariant = { λ h. IsStaying h.seat.me.1 (sitting_of h.seat.me.0 h.live) h.number };
}

/// A value that one seat at a time takes out, under a ticket lock.
#[derive(Drop)]
pub struct Turn<T: Kept> {
    table: TurnTable<T>,
    ghost sized: { (table.shared.table_id.words ≡ 2) × (table.shared.table_id.slots ≡ 1) },
    ghost some_seat: { 0 < table.shared.key.seats },
}

/// Takes the pass of seat 0 out of the list.
fn take_zeroth<T: Kept>(passes: &mut Vec<Pass<T>>) -> Pass<T>
    requires { HasNumber passes.old.items 0 }
    ensures zeroth { result.number ≡ 0 }
    ensures others { IsPermutation passes.old.items (result ∷ passes.new.items) }
{
    for place in 0..passes.len() {
        if passes[place].is_zeroth() {
            return passes.swap_remove(place);
        }
    }
    unreachable!()
}

impl<T: Kept> Turn<T> {
    ghost use Rattle.kz_turn.specs.Turns.{turn_name, turn_seats};

    /// Puts the value behind a new turn. The passes are those of its seats, in order.
    /// Where there is no memory the value is dropped.
    pub fn open(alloc: Global, value: T, seats: u32) -> Result<(Turn<T>, Vec<Pass<T>>), AllocError>
    where
        T: Drop,
        requires seats { 0 < seats }
        requires empty { T.journal value ≡ [] }
        ensures seats { IfOk result (λ r. turn_seats r.0 ≡ seats) }
        ensures passes { IfOk result (λ r. AreNew (turn_name r.0) seats (T.base value) r.1.items) }
    {
        let opening = Opening {
            start: Snapshot::of(&value),
            seats,
        };
        let mut slots = Vec::new(alloc);
        slots.push(Some(value))?;
        let Ok((table, mut first)) = Table::new(alloc, &[0, 0], slots, &opening) else {
            return Err(AllocError);
        };
        let mut passes = Vec::new(alloc);
        for number in 1..seats {
            let seat = table.shared.split_seat::<NewSeat>(&mut first);
            let pass = Pass::new(number, seat);
            passes.push(pass)?;
        }
        let zeroth = Pass::new(0, first);
        passes.insert(0, zeroth)?;
        Ok((Turn { table }, passes))
    }

    /// Waits until the seat's ticket is served, and takes the value out. The turn stays taken until `leave`.
    /// The value may be taken apart in between. No clause says that the ticket is ever served.
    pub fn enter<R: Wait>(&self, rt: &R, pass: Pass<T>) -> (Held<T>, T)
        requires { pass.name ≡ turn_name self.now }
        ensures held { result.0 ≡ hold_from pass (T.journal result.1) }
        ensures base { T.base result.1 ≡ pass.base }
        ensures own { entries_of pass.number (T.journal result.1) ≡ pass.own }
    {
        let Pass { number, mut seat } = pass;
        let shared = &self.table.shared;
        let ticket = shared.fetch_add::<Draw>(&mut seat, 0, 1);
        for _ in rt.forever() {
            if shared.load::<Look<T>>(&mut seat, 1) == ticket {
                let Some(value) = shared.exchange(&mut seat, 0, None) else {
                    unreachable!()
                };
                return (Held { number, seat }, value);
            }
            thread::yield_now();
        }
        unreachable!()
    }

    /// Puts the value back, with one more entry in its journal, of this seat's number.
    pub fn leave(&self, held: Held<T>, value: T) -> Pass<T>
        requires turn { held.name ≡ turn_name self.now }
        requires base { T.base value ≡ held.base }
        requires entry { (e : T.Entry) × AddsEntry (T.journal value) held e }
        ensures seat { IsSameSeat held result }
        ensures own { (e : T.Entry)
            → AddsEntry (T.journal value) held e → result.own ≡ held.own ++ e ∷ [] }
    {
        let Held { number, mut seat } = held;
        let shared = &self.table.shared;
        let nothing = shared.exchange(&mut seat, 0, Some(value));
        let None = nothing else { unreachable!() };
        shared.fetch_add::<Raise<T>>(&mut seat, 1, 1);
        Pass { number, seat }
    }

    /// Takes the value out for good. The passes of all seats come back, in any order.
    /// Together `own` and `numbers` say that the journal is the passes' lists, each in its order, and nothing else.
    pub fn close(self, mut passes: Vec<Pass<T>>) -> T
        requires turn { All (λ p. p.name ≡ turn_name self) passes.items }
        requires seats { (n : ℕ) → n < turn_seats self → HasNumber passes.items n }
        ensures base { All (λ p. T.base result ≡ p.base) passes.items }
        ensures own { All (λ p. entries_of p.number (T.journal result) ≡ p.own) passes.items }
        ensures numbers { All (λ x. HasNumber passes.items x.0) (T.journal result) }
    {
        let Turn { table } = self;
        let zeroth = take_zeroth(&mut passes);
        let Pass {
            number: _,
            seat: mut first,
        } = zeroth;
        while let Some(pass) = passes.pop() {
            let Pass { number: _, seat } = pass;
            table.shared.join_seat::<EndSeat>(&mut first, seat);
        }
        passes.destroy_empty();
        let mut closed = table.close_with(first);
        let slot = closed.take(0);
        closed.free();
        let Some(value) = slot else { unreachable!() };
        value
    }
}
