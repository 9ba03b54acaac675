//! Each zone asks for frames once, and gives them back.
ghost use Rattle.std.specs.Prelude.{◌≡◌, ◌<◌, [], IfOk};
ghost use Rattle.kz_turn.specs.Turns.{turn_name};
ghost use Rattle.kz_locked.specs.Supply.{start_of, entries_since};
ghost use Rattle.kz_locked_tests.specs.Sharing.{start, unused};

use kz_locked::{LockedSupply, Share, hand_back, make_ready};
use kz_model::{Answer, Ask, Seed, ZoneParams};
use kz_supply::{Pages, ReadyPages, ThinSupply, Want};
use kz_turn::{Pass, Turn};
use kz_turn_tests::seats::{close_two, open_two};
use std::alloc::{AllocError, Global};
use std::sync::Wait;
use std::test::Fail;
use std::thread::{Threads, join};

fn params(zone: u32) -> ZoneParams
    ensures zone { result.zone ≡ zone }
    ensures size { (result.pages ≡ 4) × (result.submap ≡ 1) }
{
    ZoneParams {
        zone,
        element: 16,
        count: 1024,
        pages: 4,
        cpus: 1,
        magazine: 2,
        depot: 1,
        seed: Seed::Plain,
        submap: 1,
    }
}

fn work<R: Wait>(
    rt: &R,
    turn: &Turn<LockedSupply>,
    pass: Pass<LockedSupply>,
    params: &ZoneParams,
    pages: ReadyPages,
) -> Pass<LockedSupply>
    requires turn { pass.name ≡ turn_name turn.now }
    requires seat { pass.number ≡ params.now.zone }
    requires zone { params.now.zone < 2 }
    requires size { (params.now.pages ≡ 4) × (params.now.submap ≡ 1) }
    requires base { pass.base ≡ start }
    requires fresh { pass.own ≡ [] }
    requires pages { pages ≡ unused params.now 1 }
    ensures seat { (result.name ≡ pass.name) × (result.number ≡ pass.number) × (result.base ≡ pass.base) }
{
    let mut pages = pages;
    let pass = make_ready(rt, turn, pass, params, Want::Frames, &mut pages);
    match pages.frames() {
        Ok(frames) => {
            pages.back(frames);
            hand_back(rt, turn, pass, params, &mut pages)
        }
        Err(_) => pass,
    }
}

fn opened(alloc: Global) -> Result<LockedSupply, AllocError>
    ensures base { IfOk result (λ s. start_of s.shares.items s.opened s.supply ≡ start) }
    ensures journal { IfOk result (λ s. entries_since s.opened s.supply ≡ []) }
{
    let supply = ThinSupply::new(alloc, 8, 8, 16, 4)?;
    let share = Share {
        entries: 2,
        frames: 4,
    };
    let mut shares = Vec::new(alloc);
    shares.push(share)?;
    shares.push(share)?;
    Ok(LockedSupply::new(supply, shares))
}

fn both<R: Threads + Wait + Sync>(rt: &R, alloc: Global) -> Result<ThinSupply, AllocError> {
    let (turn, zero, one) = open_two(alloc, opened(alloc)?)?;
    let (first, second) = (params(0), params(1));
    let first_pages = ReadyPages::new(alloc, &first, 1)?;
    let second_pages = ReadyPages::new(alloc, &second, 1)?;
    let (zero, one) = join(
        rt,
        || work(rt, &turn, zero, &first, first_pages),
        || work(rt, &turn, one, &second, second_pages),
    );
    Ok(close_two(alloc, turn, zero, one)?.into_parts().0)
}

#[test]
fn two_zones_ask_and_give_back(rt: HostRuntime) -> Result<(), Fail> {
    let supply = both(&rt, rt.alloc())?;
    let log = supply.log();
    assert!(rt; log.len() == 4);
    for zone in 0..2 {
        let mut own = 0;
        for entry in log {
            if entry.zone == zone {
                let (ask, answer) = if own == 0 {
                    (Ask::Frames { pages: 4 }, Answer::Given)
                } else {
                    (Ask::Back { pages: 4 }, Answer::Taken)
                };
                assert!(rt; own < 2 && entry.ask == ask && entry.answer == answer);
                own += 1;
            }
        }
        assert!(rt; own == 2);
    }
    Ok(())
}
