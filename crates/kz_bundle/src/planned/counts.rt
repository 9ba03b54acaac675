//! The lines that are addressed to each zone, counted in one walk over the traces.
ghost use Rattle.std.specs.Prelude.{◌≡◌, ◌+◌, ◌<◌, ◌≤◌, length, replicate, slice_index, IfOk};
ghost use Rattle.kz_model.specs.Run.Journal.{trace_of};
ghost use Rattle.kz_model.specs.Types.Planned.{IsPlanned};
ghost use Rattle.kz_bundle.specs.Counted.{counted, lines_before, no_lines, one_more};

use crate::planned::addressing::addressed;
use kz_model::{Bundle, Items, Plan, Step};
use std::alloc::{AllocError, Global};

/// How many lines of each CPU are addressed to a zone, and how many of them allocate and how many give a block away.
#[derive(Debug, Drop)]
pub struct ZoneLines {
    pub by_cpu: Items<u32>,
    pub allocating: u32,
    pub giving: u32,
}

impl ZoneLines {
    /// No line of so many CPUs.
    fn none(alloc: Global, cpus: usize) -> Result<ZoneLines, AllocError>
        ensures { IfOk result (λ lines. lines ≡ no_lines cpus) }
    {
        let by_cpu = vec![in alloc; 0; cpus]?;
        Ok(ZoneLines {
            by_cpu: Items::from_vec(by_cpu),
            allocating: 0,
            giving: 0,
        })
    }

    /// Counts one more line of a CPU, which does this step on the zone.
    fn count(&mut self, cpu: u32, step: &Step)
        requires cpu { cpu < length self.old.by_cpu }
        requires few { slice_index self.old.by_cpu cpu ≤ 1000000 }
        requires few_allocating { self.old.allocating ≤ 1000000 }
        requires few_giving { self.old.giving ≤ 1000000 }
        ensures { self.new ≡ one_more cpu step.now self.old }
    {
        let at = cpu as usize;
        let lines = self.by_cpu.as_slice()[at];
        self.by_cpu.set(at, lines + 1);
        match step {
            Step::Alloc { .. } | Step::AllocZero { .. } => self.allocating += 1,
            Step::Give { .. } => self.giving += 1,
            _ => {}
        }
    }
}

/// For each of so many zones, no line of so many CPUs.
fn none_by_zone(alloc: Global, zones: usize, cpus: usize) -> Result<Vec<ZoneLines>, AllocError>
    ensures { IfOk result (λ table. table.items ≡ replicate zones (no_lines cpus)) }
{
    let mut table = Vec::with_capacity(alloc, zones)?;
    for _zone in 0..zones {
        table.push(ZoneLines::none(alloc, cpus)?)?;
    }
    Ok(table)
}

/// Counts the line of a CPU at this place, after those before it.
fn count_line(bundle: &Bundle, plan: &Plan, cpu: u32, at: u32, table: &mut [ZoneLines])
    requires planned { IsPlanned bundle.now plan.now }
    requires cpu { cpu < bundle.now.cpus }
    requires line { at < length (trace_of bundle.now cpu) }
    requires before { table.old ≡ counted bundle.now plan.now (lines_before bundle.now cpu at) }
    ensures { table.new ≡ counted bundle.now plan.now (lines_before bundle.now cpu (at + 1)) }
{
    let (zone, step) = addressed(bundle, plan, cpu, at);
    table[zone as usize].count(cpu, &step);
}

/// Counts the lines of a CPU, after those of the CPUs before it.
fn count_trace(bundle: &Bundle, plan: &Plan, cpu: u32, table: &mut [ZoneLines])
    requires planned { IsPlanned bundle.now plan.now }
    requires cpu { cpu < bundle.now.cpus }
    requires before { table.old ≡ counted bundle.now plan.now (lines_before bundle.now cpu 0) }
    ensures { table.new ≡ counted bundle.now plan.now (lines_before bundle.now (cpu + 1) 0) }
{
    let trace = &bundle.traces.as_slice()[cpu as usize];
    for at in 0..trace.len() {
        count_line(bundle, plan, cpu, at as u32, table);
    }
}

/// The lines of the traces on each zone.
pub fn count_lines(
    alloc: Global,
    bundle: &Bundle,
    plan: &Plan,
) -> Result<Vec<ZoneLines>, AllocError>
    requires { IsPlanned bundle.now plan.now }
    ensures { IfOk result (λ table. table.items ≡ counted bundle.now plan.now (trace_of bundle.now)) }
{
    let mut table = none_by_zone(alloc, plan.zones.len(), bundle.cpus as usize)?;
    for cpu in 0..bundle.cpus {
        count_trace(bundle, plan, cpu, &mut table);
    }
    Ok(table)
}
