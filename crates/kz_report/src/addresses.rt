//! The zone of a line, and the address of a block.
ghost use Rattle.std.specs.Prelude.{◌≡◌, ◌<◌, ◌≤◌, Some, slice_index};
ghost use Rattle.kz_model.specs.Run.Journal.{zone_row as row_of_zone, zone_of_type as zone_at, type_of_name as type_at, addressed};
ghost use Rattle.kz_model.specs.Run.Supply.{address};

use kz_model::{Act, Bundle, Geometry, Plan, ZoneRow};

/// The row of a zone of the plan.
pub fn zone_row(plan: &Plan, zone: u32) -> ZoneRow
    ensures { result ≡ row_of_zone plan.now zone }
{
    match plan.zones.get(zone as usize) {
        Some(row) => *row,
        None => ZoneRow {
            bucket: None,
            submap: 0,
            shape: Geometry {
                element: 0,
                count: 0,
                pages: 0,
            },
            types: 0,
        },
    }
}

fn zone_of_type(plan: &Plan, of: u32) -> u32
    ensures { result ≡ zone_at plan.now of }
{
    match plan.of_type.get(of as usize) {
        Some(zone) => *zone,
        None => 0,
    }
}

pub fn type_of_name(bundle: &Bundle, name: u32) -> u32
    ensures { result ≡ type_at bundle.now name }
{
    if (name as usize) < bundle.names.len() {
        bundle.names.of(name as usize)
    } else {
        0
    }
}

/// The zone that a line is addressed to: that of its name's type, or of the type that it flushes or trims.
pub fn zone_of_act(bundle: &Bundle, plan: &Plan, act: &Act) -> u32
    ensures { result ≡ (addressed bundle.now plan.now act.now).0 }
{
    match act {
        Act::Alloc { name, .. }
        | Act::AllocZero { name, .. }
        | Act::Free { name, .. }
        | Act::Give { name, .. }
        | Act::Take { name }
        | Act::Read { name, .. }
        | Act::Write { name, .. } => zone_of_type(plan, type_of_name(bundle, *name)),
        Act::Flush { of } | Act::Trim { of } => zone_of_type(plan, *of),
    }
}

/// The bytes between the starts of two submaps.
const SUBMAP: u64 = 0x100_0000_0000;

const PAGE: u64 = 4096;

/// The address of the element of this index, in a chunk that begins at this page of its zone's submap.
pub fn address_of(row: ZoneRow, page: u32, index: u32) -> u64
    requires submap { row.submap < 5 }
    requires element { row.shape.element ≤ 8192 }
    ensures { result ≡ address row.submap page row.shape.element (record { chunk = 0; index = index }) }
{
    let start = SUBMAP * (u64::from(row.submap) + 1);
    let chunk = start + PAGE * u64::from(page);
    chunk + u64::from(index) * u64::from(row.shape.element)
}
