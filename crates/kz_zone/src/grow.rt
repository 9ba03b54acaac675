//! Growing by what the supply grants.
ghost use Rattle.std.specs.Prelude.{◌≡◌, [], ◌∷◌, ◌++◌, Some, OnOk, OnErr, slice_set};
ghost use Rattle.kz_model.specs.Zone.Pick.{unmapped_place, fresh_chunk, ask_to_grow};
ghost use Rattle.kz_supply.specs.Exchange.{ask_for_chunk, ask_for_frames};
ghost use Rattle.kz_zone.specs.Growing.{with_chunks, grown_chunks, readied_chunks, asks_for, want_for, growth_want, Stays};
ghost use Rattle.kz_zone.specs.Growth.{CanServe, HasAsked};

use crate::chunks::Chunks;
use kz_supply::{Denied, Pages, Want};

/// Grows once where no element is idle.
pub fn ready<P: Pages>(chunks: &mut Chunks, pages: &mut P) -> Result<(), Denied>
    requires serves { CanServe (P.seen pages.old) chunks.old (want_for chunks.old.chunks) 0 }
    ensures ready { OnOk result (chunks.new.chunks ≡ readied_chunks chunks.old.params chunks.old.chunks) }
    ensures unchanged { OnErr result (chunks.new ≡ chunks.old) }
    ensures stays { Stays chunks.old chunks.new }
    ensures asked { HasAsked (asks_for chunks.old.params chunks.old.chunks) chunks.old chunks.new result
        (P.seen pages.old) (P.seen pages.new) }
{
    if chunks.has_idle() {
        return Ok(());
    }
    grow(chunks, pages)
}

/// Grows once: by frames for the unmapped chunk of the lowest ordinal, else by a new chunk.
fn grow<P: Pages>(chunks: &mut Chunks, pages: &mut P) -> Result<(), Denied>
    requires serves { CanServe (P.seen pages.old) chunks.old (growth_want chunks.old.chunks) 0 }
    ensures grown { OnOk result (chunks.new.chunks ≡ grown_chunks chunks.old.params chunks.old.chunks) }
    ensures unchanged { OnErr result (chunks.new ≡ chunks.old) }
    ensures stays { Stays chunks.old chunks.new }
    ensures asked { HasAsked (ask_to_grow chunks.old.params (with_chunks chunks.old.chunks)
        ∷ []) chunks.old chunks.new result (P.seen pages.old) (P.seen pages.new) }
{
    match chunks.unmapped() {
        Some(ordinal) => map_again(chunks, ordinal, pages),
        None => map_new(chunks, pages),
    }
}

/// Maps an unmapped chunk with frames of the supply.
fn map_again<P: Pages>(chunks: &mut Chunks, ordinal: u32, pages: &mut P) -> Result<(), Denied>
    requires serves { CanServe (P.seen pages.old) chunks.old Want.Frames 0 }
    requires unmapped { unmapped_place chunks.old.chunks ≡ Some ordinal }
    ensures mapped { OnOk result (chunks.new.chunks
        ≡ slice_set chunks.old.chunks ordinal (fresh_chunk chunks.old.params)) }
    ensures unchanged { OnErr result (chunks.new ≡ chunks.old) }
    ensures stays { Stays chunks.old chunks.new }
    ensures asked { HasAsked (ask_for_frames chunks.old.params ∷ []) chunks.old chunks.new result (P.seen pages.old)
        (P.seen pages.new) }
{
    let frames = pages.frames()?;
    chunks.remap(ordinal, frames);
    Ok(())
}

/// Maps a new chunk of the supply.
fn map_new<P: Pages>(chunks: &mut Chunks, pages: &mut P) -> Result<(), Denied>
    requires serves { CanServe (P.seen pages.old) chunks.old Want.Chunk 0 }
    ensures mapped { OnOk result (chunks.new.chunks ≡ chunks.old.chunks ++ fresh_chunk chunks.old.params ∷ []) }
    ensures unchanged { OnErr result (chunks.new ≡ chunks.old) }
    ensures stays { Stays chunks.old chunks.new }
    ensures asked { HasAsked (ask_for_chunk chunks.old.params ∷ []) chunks.old chunks.new result (P.seen pages.old)
        (P.seen pages.new) }
{
    let grant = pages.chunk()?;
    chunks.add(grant.page, grant.frames);
    Ok(())
}
