//! Picks of idle elements.
ghost use Rattle.std.specs.Prelude.{◌≡◌, ◌+◌, ◌*◌, ◌≤◌, ◌++◌, length, IfSome, IfNone};
ghost use Rattle.std.specs.Option.{option_map};
ghost use Rattle.kz_model.specs.Zone.Words.{rest_of};
ghost use Rattle.kz_model.specs.Zone.Pick.{chunk_to_pick};
ghost use Rattle.kz_zone.specs.Picks.{block_by, without_block, picked};

use crate::Pair;
use crate::chunks::Chunks;
use kz_model::{Block, Words};

/// Picks up to so many idle elements onto a stack, with a word for each.
pub fn pick_onto(chunks: &mut Chunks, words: &mut Words, picks: u32, into: &mut Pair)
    requires { length into.old.blocks + picks ≤ 2 * into.old.magazine }
    ensures blocks { into.new
        ≡ record into.old {
          blocks = into.old.blocks
              ++ (picked chunks.old.params.count picks chunks.old.chunks words.old).blocks;
        } }
    ensures chunks { chunks.new
        ≡ record chunks.old { chunks = (picked chunks.old.params.count picks chunks.old.chunks words.old).chunks } }
    ensures words { words.new ≡ (picked chunks.old.params.count picks chunks.old.chunks words.old).words }
{
    for _turn in 0..picks {
        match pick_one(chunks, words) {
            Some(block) => into.add(block),
            None => break,
        }
    }
}

/// Picks an idle element, if there is one.
fn pick_one(chunks: &mut Chunks, words: &mut Words) -> Option<Block>
    ensures block { result ≡ option_map (block_by chunks.old.params.count chunks.old.chunks words.old)
        (chunk_to_pick chunks.old.params.count chunks.old.chunks) }
    ensures chunks { IfSome result (λ block. chunks.new
        ≡ record chunks.old { chunks = without_block block chunks.old.chunks }) }
    ensures words { IfSome result (λ block. words.new ≡ rest_of words.old) }
    ensures none { IfNone result ((chunks.new ≡ chunks.old) × (words.new ≡ words.old)) }
{
    let ordinal = chunks.to_pick()?;
    let index = chunks.pick(ordinal, words.next());
    Some(Block {
        chunk: ordinal,
        index,
    })
}
