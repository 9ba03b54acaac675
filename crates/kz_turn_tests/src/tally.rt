//! A journal behind one turn, which two threads write.
ghost use Rattle.std.specs.Prelude.{◌≡◌, ◌<◌, ◌+◌, ◌^◌, ◌++◌, ◌∷◌, [], All, IfOk, length};
ghost use Rattle.std.specs.List.{range_with_len};
ghost use Rattle.kz_turn.specs.Journal.{entries_of};
ghost use Rattle.kz_turn.specs.Turns.{turn_name};

use crate::seats::{close_two, open_two};
use kz_turn::{Kept, Pass, Turn};
use std::alloc::{AllocError, Global};
use std::process::Abort;
use std::sync::Wait;
use std::test::Fail;
use std::thread::{Threads, join};

#[derive(Drop)]
pub struct Tally {
    pub start: u64,
    pub log: Vec<(u64, u64)>,
    ghost short: { length log.items < 2 ^ 62 },
}

impl Kept for Tally {
    type Base = u64;

    type Entry = u64;

    ghost base = { λ t. t.start };

    ghost journal = { λ t. t.log.items };

    ghost short = { λ t. t.short };
}

impl Tally {
    pub fn new(alloc: Global, start: u64) -> Tally
        ensures { (result.start ≡ start) × (result.log.items ≡ []) }
    {
        Tally {
            start,
            log: Vec::new(alloc),
        }
    }

    pub fn add<R: Abort>(self, rt: &R, number: u64, entry: u64) -> Tally
        ensures start { result.start ≡ self.start }
        ensures log { result.log.items ≡ self.log.items ++ (number, entry) ∷ [] }
    {
        let Tally { start, mut log } = self;
        assert!(rt; log.len() < 1 << 61, "the log is full");
        log.push((number, entry)).expect(rt, "memory");
        Tally { start, log }
    }
}

// Enters and leaves so many times. The entries are the count, from 0 on.
fn work<R: Wait + Abort>(
    rt: &R,
    turn: &Turn<Tally>,
    pass: Pass<Tally>,
    number: u64,
    times: u64,
) -> Pass<Tally>
    requires turn { pass.name ≡ turn_name turn.now }
    requires number { pass.number ≡ number }
    requires fresh { pass.own ≡ [] }
    ensures seat { (result.name ≡ pass.name) × (result.number ≡ pass.number) × (result.base ≡ pass.base) }
    ensures own { result.own ≡ range_with_len 0 times }
{
    let mut pass = pass;
    for count in 0..times {
        let (held, tally) = turn.enter(rt, pass);
        let tally = tally.add(rt, number, count);
        pass = turn.leave(held, tally);
    }
    pass
}

// The value after both threads are done.
fn both<R: Threads + Wait + Abort + Sync>(
    rt: &R,
    alloc: Global,
    times: u64,
) -> Result<Tally, AllocError>
    ensures zero { IfOk result (λ t. entries_of 0 t.log.items ≡ range_with_len 0 times) }
    ensures one { IfOk result (λ t. entries_of 1 t.log.items ≡ range_with_len 0 times) }
    ensures others { IfOk result (λ t. All (λ x. x.0 < 2) t.log.items) }
    ensures start { IfOk result (λ t. t.start ≡ 7) }
{
    let (turn, zero, one) = open_two(alloc, Tally::new(alloc, 7))?;
    let (zero, one) = join(
        rt,
        || work(rt, &turn, zero, 0, times),
        || work(rt, &turn, one, 1, times),
    );
    close_two(alloc, turn, zero, one)
}

#[test]
fn two_threads_take_turns(rt: HostRuntime) -> Result<(), Fail> {
    let tally = both(&rt, rt.alloc(), 1000)?;
    assert!(rt; tally.start == 7 && tally.log.len() == 2000);
    for number in 0..2 {
        let mut next = 0;
        for (by, entry) in &tally.log {
            if *by == number {
                assert!(rt; *entry == next && next < 1000);
                next += 1;
            }
        }
        assert!(rt; next == 1000);
    }
    Ok(())
}
