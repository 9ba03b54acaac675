//! A zone behind its turn, with the pass by which it asks the supply.
ghost use Rattle.std.specs.Prelude.{◌≡◌, ◌^◌, ◌<◌, ◌≤◌, length};
ghost use Rattle.kz_locked.specs.Zone.{IsLockedZone, stays_since, zone_start};

use crate::supply::{LockedSupply, SupplyStart};
use kz_book::Book;
use kz_laws::Stay;
use kz_model::{Bundle, Plan, Room};
use kz_supply::ReadyPages;
use kz_turn::{Kept, Pass};
use std::collections::LinkedList;
use std::marker::{Model, PhantomData};
use std::snapshot::Snapshot;

/// The name of a turn. No value of it is made.
pub struct TurnName {
    marker: PhantomData<u8>,
}

impl Model for TurnName {
    ghost use Rattle.atomic_table.specs.Seated.{TableId, table_id_coded};
    ghost use Rattle.kz_locked.specs.TurnNames.{no_name};

    ghost Value = { TableId };

    ghost coded = { table_id_coded };

    ghost view = { λ _. no_name };
}

/// A zone as its turn was opened. Clauses alone see it: no value of it is made.
pub struct ZoneStart {
    /// The supply's turn.
    pub turn: TurnName,
    pub supply: SupplyStart,
    pub zone: u32,
    pub bundle: Bundle,
    pub plan: Plan,
    pub room: Room,
    pub stays: LinkedList<Stay>,
}

/// A zone that CPUs visit in turn, behind a turn whose seats are numbered by CPU.
#[derive(Drop)]
pub struct LockedZone {
    book: Book,
    pages: ReadyPages,
    pass: Pass<LockedSupply>,
    bundle: Snapshot<Bundle>,
    plan: Snapshot<Plan>,
    /// How many visits there were as the turn was opened.
    opened: usize,
    ghost kept: { ∥ IsLockedZone bundle.value plan.value book pages pass ∥₁ },
    ghost since: { opened ≤ length book.visits },
    ghost short: { length (stays_since opened bundle.value plan.value book.visits pass) < 2 ^ 62 },
}

impl Kept for LockedZone {
    type Base = ZoneStart;

    type Entry = Stay;

    ghost base = { λ z. zone_start z.opened z.bundle.value z.plan.value z.book z.pass };

    ghost journal = { λ z. stays_since z.opened z.bundle.value z.plan.value z.book.visits z.pass };

    ghost short = { λ z. z.short };
}

impl LockedZone {
    /// The zone as it is now. What its CPUs did before are the stays that its base has.
    pub fn new(
        book: Book,
        pages: ReadyPages,
        pass: Pass<LockedSupply>,
        bundle: &Bundle,
        plan: &Plan,
    ) -> LockedZone
        requires { ∥ IsLockedZone bundle.now plan.now book pages pass ∥₁ }
        ensures book { result.book ≡ book }
        ensures pages { result.pages ≡ pages }
        ensures pass { result.pass ≡ pass }
        ensures of { (result.bundle.value ≡ bundle.now) × (result.plan.value ≡ plan.now) }
        ensures opened { result.opened ≡ length book.visits }
    {
        let opened = book.visits().len();
        LockedZone {
            book,
            pages,
            pass,
            bundle: Snapshot::of(bundle),
            plan: Snapshot::of(plan),
            opened,
        }
    }

    /// The zone's parts, when the turn is closed.
    pub fn into_parts(self) -> (Book, ReadyPages, Pass<LockedSupply>)
        ensures parts { result ≡ (self.book, self.pages, self.pass) }
        ensures kept { ∥ IsLockedZone self.bundle.value self.plan.value result.0 result.1 result.2 ∥₁ }
    {
        let LockedZone {
            book,
            pages,
            pass,
            bundle: _,
            plan: _,
            opened: _,
        } = self;
        (book, pages, pass)
    }
}
