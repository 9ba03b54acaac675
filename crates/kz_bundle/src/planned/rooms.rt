//! The rooms of a bundle's zones.
ghost use Rattle.std.specs.Prelude.{◌≡◌, ◌+◌, ◌<◌, ◌^◌, length, sum, IfOk};
ghost use Rattle.kz_model.specs.Run.Journal.{params_of, trace_of};
ghost use Rattle.kz_model.specs.Types.Planned.{IsPlanned};
ghost use Rattle.kz_model.specs.Run.Rooms.{rooms_of};
ghost use Rattle.kz_bundle.specs.Counted.{counted_on, load_of, loads_of};

use crate::planned::counts::{ZoneLines, count_lines};
use kz_model::{Bundle, Plan, Room, ZoneParams};
use std::alloc::{AllocError, Global};

/// A zone's room, and how many lines on the zone allocate and how many give a block away.
#[derive(Debug, Drop)]
pub struct ZoneLoad {
    pub room: Room,
    pub allocating: u32,
    pub giving: u32,
}

/// How many lines there are in these counts.
fn total(counts: &[u32]) -> u32
    requires { sum counts.now < 2 ^ 32 }
    ensures { result ≡ sum counts.now }
{
    counts.iter().sum()
}

/// The parameters of a zone.
fn params_of(bundle: &Bundle, plan: &Plan, zone: u32) -> ZoneParams
    requires { zone < length plan.now.zones }
    ensures { result ≡ params_of bundle.now plan.now zone }
{
    let row = plan.zones.as_slice()[zone as usize];
    ZoneParams {
        zone,
        element: row.shape.element,
        count: row.shape.count,
        pages: row.shape.pages,
        cpus: bundle.cpus,
        magazine: bundle.magazine,
        depot: bundle.depot,
        seed: bundle.seed,
        submap: row.submap,
    }
}

/// The load of a zone, on which there are these lines.
fn load_of(bundle: &Bundle, plan: &Plan, zone: u32, lines: ZoneLines) -> ZoneLoad
    requires planned { IsPlanned bundle.now plan.now }
    requires zone { zone < length plan.now.zones }
    requires lines { lines ≡ counted_on bundle.now plan.now (trace_of bundle.now) zone }
    ensures { result ≡ load_of bundle.now plan.now zone }
{
    let ZoneLines {
        by_cpu,
        allocating,
        giving,
    } = lines;
    let params = params_of(bundle, plan, zone);
    let room = Room {
        params,
        chunks: bundle.pages / params.pages,
        transit: total(by_cpu.as_slice()),
        steps: by_cpu,
    };
    ZoneLoad {
        room,
        allocating,
        giving,
    }
}

/// The room of each zone, and how many lines on the zone allocate and how many give a block away.
pub fn zone_loads(alloc: Global, bundle: &Bundle, plan: &Plan) -> Result<Vec<ZoneLoad>, AllocError>
    requires { IsPlanned bundle.now plan.now }
    ensures { IfOk result (λ loads. loads.items ≡ loads_of bundle.now plan.now) }
{
    let mut loads = Vec::with_capacity(alloc, plan.zones.len())?;
    for lines in count_lines(alloc, bundle, plan)? {
        let zone = loads.len() as u32;
        loads.push(load_of(bundle, plan, zone, lines))?;
    }
    Ok(loads)
}

/// The room of each zone: its parameters, and for how many chunks, gifts and steps of each CPU there has to be room.
pub fn rooms(alloc: Global, bundle: &Bundle, plan: &Plan) -> Result<Vec<Room>, AllocError>
    requires { IsPlanned bundle.now plan.now }
    ensures { IfOk result (λ rooms. rooms.items ≡ rooms_of bundle.now plan.now) }
{
    let mut rooms = Vec::with_capacity(alloc, plan.zones.len())?;
    for load in zone_loads(alloc, bundle, plan)? {
        rooms.push(load.room)?;
    }
    Ok(rooms)
}
