//! The supply, and what a zone sees of it.
ghost use Rattle.std.specs.Prelude.{◌≡◌, [], ◌∷◌, if◌then◌else◌, is_ok, IfOk, IsTrue};
ghost use Rattle.kz_frame.specs.Frames.{zero_frames};
ghost use Rattle.kz_supply.specs.Exchange.{ask_for_chunk, chunk_answer};
ghost use Rattle.kz_supply.specs.Pages.{IsUsed};

use crate::fixture::params;
use kz_frame::{read_over, write_over};
use kz_model::{Answer, Ask};
use kz_supply::{Denied, Grant, Pages, ReadyPages, SoloPages, Supply, ThinSupply};
use std::test::Fail;

/// A value that may go to another thread.
fn sent<T: Send>(value: T) -> T
    ensures { result ≡ value }
{
    value
}

/// A visit to a zone that asks for a chunk.
fn visit<P: Pages>(pages: &mut P) -> Result<Grant, Denied>
    requires { IsTrue (P.seen pages.old).can_chunk }
    ensures used { IsUsed (P.seen pages.old) (P.seen pages.new)
        ((ask_for_chunk (P.seen pages.old).params, chunk_answer result) ∷ []) 0 (if is_ok result then 1 else 0) }
    ensures zero { IfOk result (λ grant. grant.frames ≡ zero_frames (P.seen pages.old).params.pages) }
{
    pages.chunk()
}

#[test]
fn frames_come_back_zeroed(rt: HostRuntime) -> Result<(), Fail> {
    let mut supply = Supply::new(rt.alloc(), 1, 4, 3)?;
    let Ok(mut grant) = supply.chunk(0, 2, 1) else {
        return Err(Fail::from("no chunk"));
    };
    assert_eq!(rt; grant.page, 0);
    write_over(&mut grant.frames, 4095, &[5]);
    supply.back(0, grant.frames);
    let Ok(frames) = supply.frames(0, 1) else {
        return Err(Fail::from("no frames"));
    };
    let mut bytes = [9];
    read_over(&frames, 4095, &mut bytes);
    assert_eq!(rt; bytes, [0]);
    let log = supply.into_log();
    assert_eq!(rt; log.len(), 3);
    assert_eq!(rt; log.as_slice()[2].answer, Answer::Given);
    Ok(())
}

#[test]
fn fewer_frames_are_made_than_there_are(rt: HostRuntime) -> Result<(), Fail> {
    let mut supply = ThinSupply::new(rt.alloc(), 8192, 1, 16, 8)?;
    assert!(rt; supply.log().is_empty());
    let Ok(grant) = supply.chunk(3, 1, 1) else {
        return Err(Fail::from("no chunk"));
    };
    supply.back(3, grant.frames);
    let log = supply.into_log();
    assert_eq!(rt; log.len(), 2);
    assert_eq!(rt; log.as_slice()[1].answer, Answer::Taken);
    Ok(())
}

#[test]
fn a_zone_has_the_supply_alone(rt: HostRuntime) -> Result<(), Fail> {
    let mut supply = sent(Supply::new(rt.alloc(), 1, 4, 4)?);
    let params = params();
    let mut pages = SoloPages::new(&mut supply, &params);
    let Ok(grant) = visit(&mut pages) else {
        return Err(Fail::from("no chunk"));
    };
    pages.back(grant.frames);
    assert!(rt; pages.frames().is_ok());
    Ok(())
}

#[test]
fn a_ready_answer_is_given_once(rt: HostRuntime) -> Result<(), Fail> {
    let mut supply = Supply::new(rt.alloc(), 1, 4, 4)?;
    let params = params();
    let mut pages = sent(ReadyPages::new(rt.alloc(), &params, 2)?);
    pages.start();
    pages.ready_chunk(supply.chunk(3, 1, 1));
    let Ok(grant) = visit(&mut pages) else {
        return Err(Fail::from("no chunk"));
    };
    pages.back(grant.frames);
    let back = (Ask::Back { pages: 1 }, Answer::Taken);
    assert_eq!(rt; pages.exchanges().len(), 2);
    assert_eq!(rt; pages.exchanges()[1], back);
    let frames = pages.next_back().ok_or("no frames")?;
    assert!(rt; pages.next_back().is_none());
    supply.back(3, frames);
    pages.start();
    pages.ready_frames(supply.frames(3, 1));
    assert!(rt; pages.frames().is_ok());
    Ok(())
}
