//! Chunks that are unmapped.
ghost use Rattle.std.specs.Prelude.{◌≡◌, ◌≤◌, replicate};
ghost use Rattle.kz_model.specs.declared.supply.Ask.TheVariants.{Back};
ghost use Rattle.kz_model.specs.declared.supply.Answer.TheVariants.{Taken};
ghost use Rattle.kz_model.specs.Zone.Rules.{count_whole};
ghost use Rattle.kz_supply.specs.Pages.{IsUsed};
ghost use Rattle.kz_zone.specs.Growth.{CanServe};
ghost use Rattle.kz_zone.specs.Unmapping.{unmapped_chunks};

use crate::chunks::Chunks;
use kz_supply::{Pages, Want};

/// Unmaps each chunk that is wholly idle, the lowest ordinal first, and gives its frames back. It tells how many it
/// unmapped.
pub fn unmap_whole<P: Pages>(chunks: &mut Chunks, pages: &mut P) -> u32
    requires serves { CanServe (P.seen pages.old) chunks.old Want.Nothing
        (count_whole chunks.old.params chunks.old.chunks) }
    ensures count { result ≡ count_whole chunks.old.params chunks.old.chunks }
    ensures few { result ≤ 4096 }
    ensures chunks { chunks.new
        ≡ record chunks.old { chunks = unmapped_chunks chunks.old.params.count chunks.old.chunks } }
    ensures used { IsUsed (P.seen pages.old) (P.seen pages.new)
        (replicate (count_whole chunks.old.params chunks.old.chunks) (Back chunks.old.params.pages, Taken)) 0 0 }
{
    chunks.keeps();
    let mut unmapped = 0;
    while let Some(ordinal) = chunks.whole() {
        pages.back(chunks.unmap(ordinal));
        unmapped += 1;
    }
    unmapped
}
