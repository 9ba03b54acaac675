//! The step of a visit, by its kind.
ghost use Rattle.std.specs.Prelude.{ℕ, ◌≡◌, ◌+◌, ◌*◌, ◌<◌, ◌≤◌, ◌++◌, [], ◌∷◌, ◌==◌, true, false, length, take, drop, Some, is_none, if◌then◌else◌, OnOk, OnErr};
ghost use Rattle.std.specs.List.{remove};
ghost use Rattle.std.specs.Option.{unwrap_or};
ghost use Rattle.kz_model.specs.Zone.Rules.{newest, below_newest, ready, after_spill, block_of as block_named, gift_place, gift_at, with_bytes, bytes_at};
ghost use Rattle.kz_model.specs.Zone.Whole.{AreAway};
ghost use Rattle.kz_model.specs.Zone.State.{Shared, chunk_at};
ghost use Rattle.kz_supply.specs.Exchange.{denied_reply};
ghost use Rattle.kz_zone.specs.Growth.{CanServe, HasAsked, chunks_of};
ghost use Rattle.kz_zone.specs.Zone.{StandsFor, IsSame, IsSettled, IsBlock, shared_of, want_of};
ghost use Rattle.kz_book.specs.Acts.{IsOrderly, HasEffectInEachState, filling_asks, scene};
ghost use Rattle.kz_book.specs.Visits.{CanTakeStep, want_at, backs_at};
ghost use Rattle.kz_model.specs.declared.step.Step.TheVariants.{Alloc as AllocStep, AllocZero as AllocZeroStep};

use kz_model::{Block, Bound, Piece, Reply, Step};
use kz_supply::{Denied, Pages, Want};
use kz_zone::{Pair, Zone};

/// The block that a name is bound to.
fn block_of(bound: Option<Bound>) -> Block
    requires { is_none bound ≡ false }
    ensures { result ≡ block_named bound }
{
    match bound {
        Some(bound) => bound.block,
        None => unreachable!(),
    }
}

/// The reply where the supply refuses.
fn refused(denied: Denied) -> Reply
    ensures { result ≡ denied_reply denied }
{
    match denied {
        Denied::NoSpace { left } => Reply::NoSpace { left },
        Denied::NoFrames { free } => Reply::NoFrames { free },
    }
}

/// Takes the newest block of a stack for a name.
fn pop(pair: &mut Pair, bound: &mut Option<Bound>) -> Block
    requires { 0 < length pair.old.blocks }
    ensures block { result ≡ newest pair.old.blocks }
    ensures stack { pair.new ≡ record pair.old { blocks = below_newest pair.old.blocks } }
    ensures bound { bound.new ≡ Some (record { block = newest pair.old.blocks; held = true }) }
{
    match pair.pop() {
        Some(block) => {
            *bound = Some(Bound { block, held: true });
            block
        }
        None => unreachable!(),
    }
}

/// Puts the block of a held name onto a full stack, whose oldest blocks the zone takes first.
fn free(zone: &mut Zone, pair: &mut Pair, bound: &mut Option<Bound>) -> Reply
    requires there { is_none bound.old ≡ false }
    requires full { length pair.old.blocks ≡ 2 * pair.old.magazine }
    requires same_magazine { pair.old.magazine ≡ zone.old.params.magazine }
    requires some { 0 < pair.old.magazine }
    requires away { AreAway zone.old.params (shared_of zone.old) pair.old.blocks }
    ensures reply { result ≡ Reply.Done }
    ensures shows { (s : Shared) → StandsFor zone.old s →
        StandsFor zone.new (after_spill zone.old.params (take pair.old.magazine pair.old.blocks) s) }
    ensures stack { pair.new ≡ record pair.old {
      blocks = drop pair.old.magazine pair.old.blocks
          ++ block_named bound.old ∷ [];
    } }
    ensures bound { bound.new ≡ Some (record { block = block_named bound.old; held = false }) }
    ensures same { IsSettled zone.old zone.new }
{
    let block = block_of(*bound);
    zone.spill(pair);
    let _ = pair.push(block);
    *bound = Some(Bound { block, held: false });
    Reply::Done
}

/// Puts the block of a held name into transit.
fn give(zone: &mut Zone, bound: &mut Option<Bound>, name: u32, to: u32) -> Reply
    requires there { is_none bound.old ≡ false }
    requires room { length zone.old.transit < zone.old.most_gifts }
    ensures reply { result ≡ Reply.Done }
    ensures shows { (s : Shared) → StandsFor zone.old s →
        StandsFor zone.new (record s {
          transit = s.transit
              ++ record { to = to; name = name; block = block_named bound.old } ∷ [];
        }) }
    ensures bound { bound.new ≡ Some (record { block = block_named bound.old; held = false }) }
    ensures same { IsSettled zone.old zone.new }
{
    let block = block_of(*bound);
    zone.give(to, name, block);
    *bound = Some(Bound { block, held: false });
    Reply::Done
}

/// Takes the oldest gift for a CPU and one of its names.
fn take(zone: &mut Zone, bound: &mut Option<Bound>, cpu: u32, name: u32) -> Reply
    ensures reply { result ≡ (if is_none (gift_place cpu name zone.old.transit) then Reply.NotGiven else Reply.Done) }
    ensures shows { is_none (gift_place cpu name zone.old.transit) ≡ false → (s : Shared) → StandsFor zone.old s →
        StandsFor zone.new (record s { transit = remove s.transit (unwrap_or (gift_place cpu name s.transit) 0) }) }
    ensures bound { is_none (gift_place cpu name zone.old.transit) ≡ false → bound.new
        ≡ Some (record {
          block = (gift_at zone.old.transit (unwrap_or (gift_place cpu name zone.old.transit) 0)).block;
          held = true;
        }) }
    ensures unchanged { is_none (gift_place cpu name zone.old.transit) ≡ true → (zone.new ≡ zone.old) ×
        (bound.new ≡ bound.old) }
    ensures same { IsSettled zone.old zone.new }
{
    match zone.take(cpu, name) {
        Some(gift) => {
            *bound = Some(Bound {
                block: gift,
                held: true,
            });
            Reply::Done
        }
        None => Reply::NotGiven,
    }
}

/// Reads some bytes of a name's block.
fn read(zone: &Zone, bound: Option<Bound>, off: u32, len: u32) -> Reply
    requires named { is_none bound ≡ false }
    requires there { IsBlock zone.now (block_named bound) }
    requires inside { off + len ≤ zone.now.params.element }
    requires few { len ≤ 32 }
    ensures { result ≡ (if (chunk_at zone.now.chunks (block_named bound).chunk).mapped
        then Reply.Bytes (bytes_at zone.now.params (block_named bound) off len (shared_of zone.now))
        else Reply.Unmapped) }
{
    match zone.read(block_of(bound), off, len) {
        Some(bytes) => Reply::Bytes { bytes },
        None => Reply::Unmapped,
    }
}

/// Writes some bytes of a name's block.
fn write(zone: &mut Zone, bound: Option<Bound>, off: u32, bytes: &Piece) -> Reply
    requires named { is_none bound ≡ false }
    requires there { IsBlock zone.old (block_named bound) }
    requires inside { off + length bytes.now ≤ zone.old.params.element }
    ensures reply { result ≡ (if (chunk_at zone.old.chunks (block_named bound).chunk).mapped then Reply.Done
        else Reply.Unmapped) }
    ensures shows { (chunk_at zone.old.chunks (block_named bound).chunk).mapped ≡ true → (s : Shared) →
        StandsFor zone.old s → StandsFor zone.new (with_bytes zone.old.params (block_named bound) off bytes.now s) }
    ensures unchanged { (chunk_at zone.old.chunks (block_named bound).chunk).mapped ≡ false → zone.new ≡ zone.old }
    ensures same { IsSettled zone.old zone.new }
{
    if zone.write(block_of(bound), off, bytes) {
        Reply::Done
    } else {
        Reply::Unmapped
    }
}

/// Fills a stack if it is empty.
fn fill<P: Pages>(zone: &mut Zone, pair: &mut Pair, pages: &mut P) -> Result<(), Denied>
    requires same_magazine { pair.old.magazine ≡ zone.old.params.magazine }
    requires serves { CanServe (P.seen pages.old) (chunks_of zone.old) (if length pair.old.blocks == 0
        then want_of zone.old else Want.Nothing) 0 }
    ensures shows { OnOk result ((s : Shared) → StandsFor zone.old s →
        StandsFor zone.new (ready zone.old.params s pair.old.blocks).1) }
    ensures stack { OnOk result ((s : Shared) → StandsFor zone.old s → pair.new
        ≡ record pair.old { blocks = (ready zone.old.params s pair.old.blocks).0 }) }
    ensures some { OnOk result (0 < length pair.new.blocks) }
    ensures unchanged { OnErr result ((zone.new ≡ zone.old) × (pair.new ≡ pair.old)) }
    ensures same { IsSame zone.old zone.new }
    ensures asked { HasAsked (filling_asks zone.old.params (shared_of zone.old) pair.old.blocks) (chunks_of zone.old)
        (chunks_of zone.new) result (P.seen pages.old) (P.seen pages.new) }
{
    if pair.len() > 0 {
        return Ok(());
    }
    zone.refill(pair, pages)
}

/// An allocation that needs a visit.
fn allocate<P: Pages>(
    zone: &mut Zone,
    pair: &mut Pair,
    bound: &mut Option<Bound>,
    pages: &mut P,
) -> Reply
    requires same_magazine { pair.old.magazine ≡ zone.old.params.magazine }
    requires at { (cpu name : ℕ) × IsOrderly (scene zone.old pair.old.blocks bound.old) cpu (AllocStep name) }
    requires serves { CanServe (P.seen pages.old) (chunks_of zone.old) (want_at zone.old pair.old.blocks (AllocStep 0))
        0 }
    ensures acts { (cpu name : ℕ) →
        HasEffectInEachState (scene zone.old pair.old.blocks bound.old) (scene zone.new pair.new.blocks bound.new) cpu
        (AllocStep name) result (P.seen pages.old) (P.seen pages.new) }
    ensures same { IsSame zone.old zone.new }
    ensures magazine { pair.new.magazine ≡ pair.old.magazine }
{
    match fill(zone, pair, pages) {
        Ok(()) => Reply::Block {
            block: pop(pair, bound),
        },
        Err(denied) => refused(denied),
    }
}

/// An allocation of a block whose bytes are all 0.
fn allocate_zero<P: Pages>(
    zone: &mut Zone,
    pair: &mut Pair,
    bound: &mut Option<Bound>,
    pages: &mut P,
) -> Reply
    requires same_magazine { pair.old.magazine ≡ zone.old.params.magazine }
    requires at { (cpu name : ℕ) × IsOrderly (scene zone.old pair.old.blocks bound.old) cpu (AllocZeroStep name) }
    requires serves { CanServe (P.seen pages.old) (chunks_of zone.old)
        (want_at zone.old pair.old.blocks (AllocZeroStep 0)) 0 }
    ensures acts { (cpu name : ℕ) →
        HasEffectInEachState (scene zone.old pair.old.blocks bound.old) (scene zone.new pair.new.blocks bound.new) cpu
        (AllocZeroStep name) result (P.seen pages.old) (P.seen pages.new) }
    ensures same { IsSame zone.old zone.new }
    ensures magazine { pair.new.magazine ≡ pair.old.magazine }
{
    match fill(zone, pair, pages) {
        Ok(()) => {
            let block = pop(pair, bound);
            zone.zero(block);
            Reply::Block { block }
        }
        Err(denied) => refused(denied),
    }
}

/// Does a step that needs a visit.
pub fn act<P: Pages>(
    zone: &mut Zone,
    cpu: u32,
    pair: &mut Pair,
    bound: &mut Option<Bound>,
    step: &Step,
    pages: &mut P,
) -> Reply
    requires same_magazine { pair.old.magazine ≡ zone.old.params.magazine }
    requires at { IsOrderly (scene zone.old pair.old.blocks bound.old) cpu step.now }
    requires step { CanTakeStep zone.old step.now }
    requires serves { CanServe (P.seen pages.old) (chunks_of zone.old) (want_at zone.old pair.old.blocks step.now)
        (backs_at zone.old step.now) }
    ensures acts { HasEffectInEachState (scene zone.old pair.old.blocks bound.old)
        (scene zone.new pair.new.blocks bound.new) cpu step.now result (P.seen pages.old) (P.seen pages.new) }
    ensures same { IsSame zone.old zone.new }
    ensures magazine { pair.new.magazine ≡ pair.old.magazine }
{
    match step {
        Step::Alloc { .. } => allocate(zone, pair, bound, pages),
        Step::AllocZero { .. } => allocate_zero(zone, pair, bound, pages),
        Step::Free { .. } => free(zone, pair, bound),
        Step::Give { name, to } => give(zone, bound, *name, *to),
        Step::Take { name } => take(zone, bound, cpu, *name),
        Step::Read { off, len, .. } => read(zone, *bound, *off, *len),
        Step::Write { off, bytes, .. } => write(zone, *bound, *off, bytes),
        Step::Flush => {
            zone.flush(pair);
            Reply::Done
        }
        Step::Trim => Reply::Trimmed {
            pages: zone.trim(pages),
        },
    }
}
