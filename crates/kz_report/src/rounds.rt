//! The replies to each CPU's lines, by rounds.
ghost use Rattle.std.specs.Prelude.{◌≡◌, ◌+◌, ◌-◌, ◌≤◌, ◌∷◌, ◌++◌, length, drop, take, map, codes, decimal, All, OnOk};
ghost use Rattle.std.specs.List.{flat_map, range_with_len};
ghost use Rattle.kz_model.specs.Types.Planned.{IsFitRow};
ghost use Rattle.kz_model.specs.Text.Report.{cpu_lines};
ghost use Rattle.kz_model.specs.Run.Journal.{bases};
ghost use Rattle.kz_model.specs.Text.Lines.{text_of_lines};
ghost use Rattle.kz_report.specs.Lines.{IsReportable, answered_line, said, count_in_front, break_lines, rounds_left};

use crate::numbers::push_number;
use crate::pages::Given;
use crate::replies::write_reply;
use kz_model::{Record, Replies, Trace};
use std::alloc::AllocError;

/// The sections of all CPUs.
pub fn write_cpus(out: &mut Vec<u8>, given: &Given<'_>, made: &Record) -> Result<(), AllocError>
    requires record { IsReportable given.now.bundle.now given.now.plan.now made.now }
    requires pages { given.now.pages.now
        ≡ map (λ zone. bases zone made.now.supply) (range_with_len 0 (length given.now.plan.now.zones)) }
    ensures { OnOk result (out.new.items
        ≡ out.old.items ++ text_of_lines
        (flat_map (cpu_lines given.now.bundle.now given.now.plan.now made.now.visits made.now.supply)
        (range_with_len 0 given.now.bundle.now.cpus))) }
{
    for cpu in 0..given.bundle.cpus {
        let trace = &given.bundle.traces.as_slice()[cpu as usize];
        let replies = &made.replies.as_slice()[cpu as usize];
        push_number(out, b"cpu ", u64::from(cpu))?;
        out.extend_from_slice(b"\n")?;
        write_rounds(out, given, trace, replies)?;
    }
    Ok(())
}

/// The replies to a CPU's lines, with a line `--` between two rounds.
pub fn write_rounds(
    out: &mut Vec<u8>,
    given: &Given<'_>,
    trace: &Trace,
    replies: &Replies,
) -> Result<(), AllocError>
    requires rows { All IsFitRow given.now.plan.now.zones }
    requires replies { length replies.now ≡ length trace.now }
    ensures { OnOk result (out.new.items
        ≡ out.old.items ++ text_of_lines
        (rounds_left given.now.bundle.now given.now.plan.now given.now.pages.now 0 given.now.bundle.now.rounds
        trace.now replies.now)) }
{
    let mut from = 0;
    for round in 0..given.bundle.rounds {
        let end = end_of_round(trace, round, from);
        write_lines(out, given, trace, replies, from, end)?;
        write_break(out, round + 1 < given.bundle.rounds)?;
        from = end;
    }
    Ok(())
}

/// The line between two rounds, where one more follows.
fn write_break(out: &mut Vec<u8>, more: bool) -> Result<(), AllocError>
    ensures { OnOk result (out.new.items ≡ out.old.items ++ text_of_lines (break_lines more)) }
{
    if more {
        out.extend_from_slice(b"--\n")
    } else {
        Ok(())
    }
}

/// The place behind the lines of a round, which begin at this place.
fn end_of_round(trace: &Trace, round: u32, from: usize) -> usize
    requires { from ≤ length trace.now }
    ensures end { result ≡ from + count_in_front round (drop from trace.now) }
    ensures within { result ≤ length trace.now }
{
    for at in from..trace.len() {
        if trace.round(at) != round {
            return at;
        }
    }
    trace.len()
}

/// The replies to the lines of these places.
fn write_lines(
    out: &mut Vec<u8>,
    given: &Given<'_>,
    trace: &Trace,
    replies: &Replies,
    from: usize,
    end: usize,
) -> Result<(), AllocError>
    requires rows { All IsFitRow given.now.plan.now.zones }
    requires replies { length replies.now ≡ length trace.now }
    requires from { from ≤ end }
    requires end { end ≤ length trace.now }
    ensures { OnOk result (out.new.items
        ≡ out.old.items ++ text_of_lines
        (map (answered_line given.now.plan.now given.now.pages.now)
        (said given.now.bundle.now given.now.plan.now (take (end - from) (drop from trace.now))
        (drop from replies.now)))) }
{
    for at in from..end {
        write_reply(out, given, trace, at, replies.reply(at))?;
    }
    Ok(())
}
