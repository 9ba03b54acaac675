//! A step of a CPU on a zone.
ghost use Rattle.std.specs.Prelude.{◌≡◌, ◌<◌, ◌++◌, [], ◌∷◌, true, List, length};
ghost use Rattle.kz_supply.specs.Exchange.{Exchange};
ghost use Rattle.kz_book.specs.Book.{History, KeepsHistory};
ghost use Rattle.kz_cpu.specs.Caught.{IsCaughtUpWith};
ghost use Rattle.kz_machine.specs.Steps.{IsReady, IsStepDone, parties, needs_here};

use kz_book::Book;
use kz_cpu::Cpu;
use kz_model::{RepliesSoFar, Reply, Step, ZoneParams};
use kz_supply::{ThinPages, ThinSupply};

/// A visit to the zone, in which the supply answers it alone.
///
/// It stands out of line, so that a step which needs none pays nothing for it.
#[inline(never)]
fn visit(
    cpu: &mut Cpu,
    book: &mut Book,
    supply: &mut ThinSupply,
    round: u32,
    params: &ZoneParams,
    step: &Step,
) -> Reply
    requires ready { IsReady params.now (parties cpu.old book.old supply.old) step.now }
    requires needs { (j : History) → KeepsHistory book.old j → IsCaughtUpWith cpu.old params.now.zone j →
        needs_here params.now (parties cpu.old book.old supply.old) j step.now ≡ true }
    ensures { (j : History) → KeepsHistory book.old j → IsCaughtUpWith cpu.old params.now.zone j →
        (after : History) × (exchanges : List Exchange) ×
        IsStepDone params.now round (parties cpu.old book.old supply.old)
        (parties cpu.new book.new supply.new) step.now result j after exchanges }
{
    let mut pages = ThinPages::new(supply, params);
    cpu.slow(round, params.zone, step, book, &mut pages)
}

/// A step on a zone: by the CPU itself, or in a visit where it needs one. Its reply is put down.
pub fn one_step(
    cpu: &mut Cpu,
    book: &mut Book,
    supply: &mut ThinSupply,
    round: u32,
    params: &ZoneParams,
    step: &Step,
    replies: &mut RepliesSoFar,
) -> Reply
    requires ready { IsReady params.now (parties cpu.old book.old supply.old) step.now }
    requires room { length replies.old.items < replies.old.room }
    ensures does { (j : History) → KeepsHistory book.old j → IsCaughtUpWith cpu.old params.now.zone j →
        (after : History) × (exchanges : List Exchange) ×
        IsStepDone params.now round (parties cpu.old book.old supply.old)
        (parties cpu.new book.new supply.new) step.now result j after exchanges }
    ensures items { replies.new.items ≡ replies.old.items ++ result ∷ [] }
    ensures room { replies.new.room ≡ replies.old.room }
{
    // Each reply is put down where it is known: the CPU's own never has bytes.
    match cpu.local(params.zone, step) {
        Some(own) => {
            replies.push(&own);
            own
        }
        None => {
            let reply = visit(cpu, book, supply, round, params, step);
            replies.push(&reply);
            reply
        }
    }
}
