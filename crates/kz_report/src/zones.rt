//! The lines of zones: their chunks and their visits.
ghost use Rattle.std.specs.Prelude.{if◌then◌else◌, ◌≡◌, ◌<◌, ◌≤◌, ◌++◌, [], length, map, codes, decimal, All, None, OnOk, slice_index, slice_index_or};
ghost use Rattle.std.specs.List.{enumerate_from, flat_map, range_with_len};
ghost use Rattle.kz_model.specs.Text.Report.{chunk_line, zone_chunks, zone_visits_lines};
ghost use Rattle.kz_model.specs.Run.Journal.{bases};
ghost use Rattle.kz_model.specs.Text.Lines.{text_of_lines, visit_text};
ghost use Rattle.kz_report.specs.Lines.{IsReportable, mapped_line, before_visit, end_of_open, visits_after, visits_begin};

use crate::addresses::{address_of, zone_row};
use crate::numbers::{push_address, push_number};
use crate::pages::{Given, page_at};
use kz_model::{Bundle, Plan, Record, Visit, ZoneRow};
use std::alloc::AllocError;

/// The chunks of all zones.
pub fn write_all_chunks(
    out: &mut Vec<u8>,
    given: &Given<'_>,
    made: &Record,
) -> Result<(), AllocError>
    requires record { IsReportable given.now.bundle.now given.now.plan.now made.now }
    requires pages { given.now.pages.now
        ≡ map (λ zone. bases zone made.now.supply) (range_with_len 0 (length given.now.plan.now.zones)) }
    ensures { OnOk result (out.new.items
        ≡ out.old.items ++ text_of_lines
        (flat_map (λ zone. map (chunk_line given.now.bundle.now given.now.plan.now made.now.supply zone)
        (enumerate_from 0 (zone_chunks given.now.bundle.now given.now.plan.now made.now.visits made.now.supply zone)))
        (range_with_len 0 (length given.now.plan.now.zones)))) }
{
    for zone in 0..given.plan.zones.len() as u32 {
        let row = zone_row(given.plan, zone);
        let mapped = made.mapped.as_slice()[zone as usize].as_slice();
        write_chunks(out, zone, row, given.pages.of_zone(zone), mapped)?;
    }
    Ok(())
}

/// The chunks of a zone.
pub fn write_chunks(
    out: &mut Vec<u8>,
    zone: u32,
    row: ZoneRow,
    pages: &[u32],
    mapped: &[bool],
) -> Result<(), AllocError>
    requires submap { row.submap < 5 }
    requires element { row.shape.element ≤ 8192 }
    ensures { OnOk result (out.new.items
        ≡ out.old.items ++ text_of_lines (map (mapped_line zone row pages.now) (enumerate_from 0 mapped.now))) }
{
    for (chunk, is_mapped) in mapped.iter().enumerate() {
        write_chunk(out, zone, row, pages, chunk, *is_mapped)?;
    }
    Ok(())
}

fn write_chunk(
    out: &mut Vec<u8>,
    zone: u32,
    row: ZoneRow,
    pages: &[u32],
    chunk: usize,
    is_mapped: bool,
) -> Result<(), AllocError>
    requires submap { row.submap < 5 }
    requires element { row.shape.element ≤ 8192 }
    ensures { OnOk result (out.new.items ≡ out.old.items ++ (mapped_line zone row pages.now (chunk, is_mapped) ++ codes "\n")) }
{
    push_number(out, b"chunk ", u64::from(zone))?;
    push_number(out, b" ", chunk as u64)?;
    out.extend_from_slice(b" ")?;
    push_address(out, address_of(row, page_at(pages, chunk), 0))?;
    write_state(out, is_mapped)
}

fn write_state(out: &mut Vec<u8>, is_mapped: bool) -> Result<(), AllocError>
    ensures { OnOk result (out.new.items ≡ out.old.items ++ ((if is_mapped then codes " mapped" else codes " unmapped") ++ codes "\n")) }
{
    if is_mapped {
        out.extend_from_slice(b" mapped\n")
    } else {
        out.extend_from_slice(b" unmapped\n")
    }
}

/// The visits of all zones.
pub fn write_all_visits(
    out: &mut Vec<u8>,
    bundle: &Bundle,
    plan: &Plan,
    made: &Record,
) -> Result<(), AllocError>
    requires { IsReportable bundle.now plan.now made.now }
    ensures { OnOk result (out.new.items
        ≡ out.old.items ++ text_of_lines
        (flat_map (λ zone. zone_visits_lines bundle.now zone (slice_index_or made.now.visits zone []))
        (range_with_len 0 (length plan.now.zones)))) }
{
    for zone in 0..plan.zones.len() as u32 {
        write_visits(out, zone, made.visits.as_slice()[zone as usize].as_slice())?;
    }
    Ok(())
}

/// The visits of a zone, those of each round on a line.
pub fn write_visits(out: &mut Vec<u8>, zone: u32, visits: &[Visit]) -> Result<(), AllocError>
    ensures { OnOk result (out.new.items ≡ out.old.items ++ visits_after zone None visits.now) }
{
    let mut begun = None;
    for visit in visits {
        write_before_visit(out, zone, begun, visit.round)?;
        write_visit(out, *visit)?;
        begun = Some(visit.round);
    }
    write_end(out, begun)
}

/// What stands before a visit, after a line of a round that may be begun.
fn write_before_visit(
    out: &mut Vec<u8>,
    zone: u32,
    begun: Option<u32>,
    round: u32,
) -> Result<(), AllocError>
    ensures { OnOk result (out.new.items ≡ out.old.items ++ before_visit zone begun round) }
{
    match begun {
        None => begin_line(out, b"visits ", zone, round),
        Some(begun) if begun == round => Ok(()),
        Some(_) => begin_line(out, b"\nvisits ", zone, round),
    }
}

fn begin_line(out: &mut Vec<u8>, words: &[u8], zone: u32, round: u32) -> Result<(), AllocError>
    ensures { OnOk result (out.new.items ≡ out.old.items ++ (words.now ++ decimal zone ++ codes " " ++ decimal round)) }
{
    push_number(out, words, u64::from(zone))?;
    push_number(out, b" ", u64::from(round))
}

fn write_visit(out: &mut Vec<u8>, visit: Visit) -> Result<(), AllocError>
    ensures { OnOk result (out.new.items ≡ out.old.items ++ visit_text visit) }
{
    push_number(out, b" ", u64::from(visit.cpu))?;
    push_number(out, b":", u64::from(visit.count))?;
    if visit.settled {
        out.extend_from_slice(b"*")
    } else {
        Ok(())
    }
}

/// The end of a line that is begun.
fn write_end(out: &mut Vec<u8>, begun: Option<u32>) -> Result<(), AllocError>
    ensures { OnOk result (out.new.items ≡ out.old.items ++ end_of_open begun) }
{
    match begun {
        None => Ok(()),
        Some(_) => out.extend_from_slice(b"\n"),
    }
}
