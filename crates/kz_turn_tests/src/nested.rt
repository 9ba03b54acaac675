//! A value behind one turn, which keeps the one pass of another turn beside its journal.
ghost use Rattle.std.specs.Prelude.{◌≡◌, ◌<◌, ◌+◌, ◌^◌, ◌++◌, ◌∷◌, [], All, IfOk, length, map};
ghost use Rattle.kz_turn.specs.Journal.{entries_of};
ghost use Rattle.kz_turn.specs.Turns.{turn_name};

use crate::seats::{close_one, close_two, open_one, open_two};
use crate::tally::Tally;
use kz_turn::{Kept, Pass, Turn};
use std::alloc::{AllocError, Global};
use std::marker::{Model, PhantomData};
use std::process::Abort;
use std::sync::Wait;
use std::test::Fail;
use std::thread::{Threads, join};

/// What stays of the kept pass. No value of it is made.
struct InnerSeat {
    marker: PhantomData<u8>,
}

impl Model for InnerSeat {
    ghost use Rattle.kz_turn_tests.specs.Nested.{Inner, no_inner, inner_code};

    ghost Value = { Inner };

    ghost coded = { inner_code };

    ghost view = { λ _. no_inner };
}

/// The inner pass made the entries that this journal has, in their order.
#[derive(Drop)]
struct Ledger {
    pass: Pass<Tally>,
    log: Vec<(u64, u64)>,
    ghost short: { length log.items < 2 ^ 62 },
    ghost mirrored: { pass.own ≡ map (λ x. x.1) log.items },
}

impl Kept for Ledger {
    type Base = InnerSeat;

    type Entry = u64;

    ghost base = { λ l. record { turn = l.pass.name; number = l.pass.number } };

    ghost journal = { λ l. l.log.items };

    ghost short = { λ l. l.short };
}

// One stay at the outer turn, which has one at the inner turn inside.
fn stay<R: Wait + Abort>(
    rt: &R,
    outer: &Turn<Ledger>,
    inner: &Turn<Tally>,
    pass: Pass<Ledger>,
    number: u64,
    entry: u64,
) -> Pass<Ledger>
    requires outer { pass.name ≡ turn_name outer.now }
    requires inner { (pass.base.turn ≡ turn_name inner.now) × (pass.base.number ≡ 0) }
    requires number { pass.number ≡ number }
    ensures seat { (result.name ≡ pass.name) × (result.number ≡ pass.number) × (result.base ≡ pass.base) }
    ensures own { result.own ≡ pass.own ++ entry ∷ [] }
{
    let (held, ledger) = outer.enter(rt, pass);
    let Ledger {
        pass: kept,
        mut log,
    } = ledger;
    let (hold, tally) = inner.enter(rt, kept);
    let tally = tally.add(rt, 0, entry);
    let kept = inner.leave(hold, tally);
    assert!(rt; log.len() < 1 << 61, "the log is full");
    log.push((number, entry)).expect(rt, "memory");
    outer.leave(held, Ledger { pass: kept, log })
}

fn work<R: Wait + Abort>(
    rt: &R,
    outer: &Turn<Ledger>,
    inner: &Turn<Tally>,
    pass: Pass<Ledger>,
    number: u64,
    times: u64,
) -> Pass<Ledger>
    requires outer { pass.name ≡ turn_name outer.now }
    requires inner { (pass.base.turn ≡ turn_name inner.now) × (pass.base.number ≡ 0) }
    requires number { pass.number ≡ number }
    ensures seat { (result.name ≡ pass.name) × (result.number ≡ pass.number) × (result.base ≡ pass.base) }
{
    let mut pass = pass;
    for count in 0..times {
        pass = stay(rt, outer, inner, pass, number, count);
    }
    pass
}

// The outer journal and the inner one, after both turns are closed.
fn both<R: Threads + Wait + Abort + Sync>(
    rt: &R,
    alloc: Global,
    times: u64,
) -> Result<(Vec<(u64, u64)>, Tally), AllocError>
    ensures order { IfOk result (λ r. entries_of 0 r.1.log.items ≡ map (λ x. x.1) r.0.items) }
    ensures others { IfOk result (λ r. All (λ x. x.0 ≡ 0) r.1.log.items) }
{
    let (inner, pass) = open_one(alloc, Tally::new(alloc, 3))?;
    let ledger = Ledger {
        pass,
        log: Vec::new(alloc),
    };
    let (outer, zero, one) = open_two(alloc, ledger)?;
    let (zero, one) = join(
        rt,
        || work(rt, &outer, &inner, zero, 0, times),
        || work(rt, &outer, &inner, one, 1, times),
    );
    let Ledger { pass, log } = close_two(alloc, outer, zero, one)?;
    let tally = close_one(alloc, inner, pass)?;
    Ok((log, tally))
}

#[test]
fn an_inner_turn_keeps_the_order_of_the_outer(rt: HostRuntime) -> Result<(), Fail> {
    let (outer, inner) = both(&rt, rt.alloc(), 1000)?;
    assert!(rt; outer.len() == 2000 && inner.log.len() == 2000 && inner.start == 3);
    for ((_, entry), (by, same)) in outer.iter().zip(&inner.log) {
        assert!(rt; *by == 0 && entry == same);
    }
    for number in 0..2 {
        let mut next = 0;
        for (by, entry) in &outer {
            if *by == number {
                assert!(rt; *entry == next && next < 1000);
                next += 1;
            }
        }
        assert!(rt; next == 1000);
    }
    Ok(())
}
