//! Made bundles against those of two other programs, and a summary.
use kz_make::{make_bundle, summary_text};
use kz_model::{Block, Items, Record, RepliesSoFar, Reply};
use std::test::Fail;

const FRONT: &[u8] =
    b"machine 1\nseed 1\ncpus 4\nframes 2048\npages 1024\nbudget 24\nmagazine 8\ndepot 4\n";

const SUMMARY: &[u8] = b"make 7\nbytes 100\nsteps 7\nblocks 2\nrefused 2\ntrimmed 5\nend\n";

/// A sum over bytes in which each place counts.
fn check_sum(bytes: &[u8]) -> u64 {
    let mut sum: u64 = 0xcbf2_9ce4_8422_2325;
    for byte in bytes {
        sum = (sum ^ u64::from(*byte)).wrapping_mul(0x100_0000_01b3);
    }
    sum
}

#[test]
fn first_and_greatest_number(rt: HostRuntime) -> Result<(), Fail> {
    let first = make_bundle(rt.alloc(), 1)?;
    assert_eq!(rt; first.len(), 1093838);
    assert!(rt; first.as_slice().starts_with(FRONT));
    assert_eq!(rt; check_sum(first.as_slice()), 0xe2d8_bdc8_c4e2_0e4d);
    let greatest = make_bundle(rt.alloc(), u64::MAX)?;
    assert_eq!(rt; greatest.len(), 1096183);
    assert_eq!(rt; check_sum(greatest.as_slice()), 0xa543_cf32_4cc4_f1e0);
    Ok(())
}

#[test]
fn replies_of_two_cpus(rt: HostRuntime) -> Result<(), Fail> {
    let alloc = rt.alloc();
    let block = Block { chunk: 0, index: 0 };
    let mut first = RepliesSoFar::new(alloc, 3)?;
    first.push(&Reply::Block { block });
    first.push(&Reply::Done);
    first.push(&Reply::Trimmed { pages: 3 });
    let mut second = RepliesSoFar::new(alloc, 4)?;
    second.push(&Reply::NoSpace { left: 0 });
    second.push(&Reply::Block { block });
    second.push(&Reply::Trimmed { pages: 2 });
    second.push(&Reply::NoFrames { free: 1 });
    let replies = vec![in alloc; first.finish(), second.finish()]?;
    let made = Record {
        replies: Items::from_vec(replies),
        visits: Items::from_vec(Vec::new(alloc)),
        mapped: Items::from_vec(Vec::new(alloc)),
        supply: Items::from_vec(Vec::new(alloc)),
    };
    let text = summary_text(alloc, 7, 100, &made)?;
    assert_eq!(rt; text.as_slice(), SUMMARY);
    Ok(())
}
