//! CPUs that settle at a round's end.
ghost use Rattle.std.specs.Prelude.{◌≡◌, ◌<◌, ◌^◌, ℕ, List, length};
ghost use Rattle.kz_model.specs.declared.bundle.Bundle.{Bundle};
ghost use Rattle.kz_model.specs.declared.record.Plan.{Plan};
ghost use Rattle.kz_model.specs.declared.supply.SupplyEntry.{SupplyEntry};
ghost use Rattle.kz_laws.specs.Play.{ZonePlay, Play};
ghost use Rattle.kz_laws.specs.PlayedAt.{IsPlaySound};
ghost use Rattle.kz_machine.specs.Settling.{AreSettledBelow, AreSettled};

use kz_book::Book;
use kz_cpu::Cpu;

/// The CPUs settle on a zone, one after the other.
fn settle_zone(cpus: &mut [Cpu], book: &mut Book, round: u32, zone: u32)
    requires { (b : Bundle) × (plan : Plan) × (log : List SupplyEntry) × (z : ZonePlay) ×
        AreSettledBelow b plan log round zone z cpus.old 0 cpus.old book.old }
    ensures { (b : Bundle) (plan : Plan) (log : List SupplyEntry) (z : ZonePlay) →
        AreSettledBelow b plan log round zone z cpus.old 0 cpus.old book.old →
        AreSettledBelow b plan log round zone z cpus.old b.cpus cpus.new book.new }
{
    for cpu in cpus.iter_mut() {
        if cpu.has_recent(zone) {
            cpu.settle(round, zone, book);
        }
    }
}

/// The CPUs settle on each zone.
pub fn settle(cpus: &mut [Cpu], books: &mut [Book], round: u32)
    requires few { length books.old < 2 ^ 32 }
    requires at { (b : Bundle) × (plan : Plan) × (s : Play) × (s.round ≡ round) × IsPlaySound b plan s ×
        AreSettled b plan s 0 cpus.old books.old }
    ensures { (b : Bundle) (plan : Plan) (s : Play) → s.round ≡ round → IsPlaySound b plan s →
        AreSettled b plan s 0 cpus.old books.old → AreSettled b plan s (length books.old) cpus.new books.new }
{
    for zone in 0..books.len() {
        settle_zone(cpus, &mut books[zone], round, zone as u32);
    }
}
