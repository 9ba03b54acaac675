//! Blocks that become idle.
ghost use Rattle.std.specs.Prelude.{◌≡◌, []};
ghost use Rattle.kz_model.specs.Zone.Rules.{all_idle};
ghost use Rattle.kz_zone.specs.Depot.{row_of};
ghost use Rattle.kz_zone.specs.Out.{AreOut};

use crate::chunks::Chunks;
use crate::{Depot, Pair};
use kz_model::Block;

/// Makes blocks idle, none of which is.
pub fn put_all(chunks: &mut Chunks, blocks: &[Block])
    requires { AreOut chunks.old.params chunks.old.chunks blocks.now }
    ensures { chunks.new ≡ record chunks.old { chunks = all_idle blocks.now chunks.old.chunks } }
{
    for block in blocks {
        chunks.put(*block);
    }
}

/// Makes all blocks of a stack idle.
pub fn empty_stack(chunks: &mut Chunks, from: &mut Pair)
    requires { AreOut chunks.old.params chunks.old.chunks from.old.blocks }
    ensures chunks { chunks.new ≡ record chunks.old { chunks = all_idle from.old.blocks chunks.old.chunks } }
    ensures left { from.new ≡ record from.old { blocks = [] } }
{
    while let Some(block) = from.pop() {
        chunks.put(block);
    }
}

/// Makes all blocks of the depot idle.
pub fn empty_depot(chunks: &mut Chunks, depot: &mut Depot)
    requires { AreOut chunks.old.params chunks.old.chunks (row_of depot.old.lists) }
    ensures chunks { chunks.new ≡ record chunks.old { chunks = all_idle (row_of depot.old.lists) chunks.old.chunks } }
    ensures left { depot.new ≡ record depot.old { lists = [] } }
{
    while let Some(block) = depot.drain_one() {
        chunks.put(block);
    }
}
