//! The run of a bundle's order.
ghost use Rattle.std.specs.Prelude.{◌≡◌, ◌+◌, ◌<◌, ℕ, List, [], ◌∷◌, ◌++◌, None, length, replicate, IfOk};
ghost use Rattle.kz_model.specs.declared.bundle.OrderLine.{OrderLine as OrderLineSeen};
ghost use Rattle.kz_model.specs.declared.bundle.OrderLine.TheVariants.{Cpu as CpuLine};
ghost use Rattle.kz_laws.specs.Isolation.{IsIsolated};
ghost use Rattle.kz_model.specs.Run.Journal.{trace_of};
ghost use Rattle.kz_model.specs.Run.Order.{order_of, default_round};
ghost use Rattle.kz_model.specs.Types.Planned.{IsPlanned};
ghost use Rattle.kz_model.specs.Run.Recorded.{IsOfOrder};
ghost use Rattle.kz_machine.specs.Left.{IsLeft, IsRest, has_line_at, turns_from, rounds_after};
ghost use Rattle.kz_machine.specs.Machine.{replies_at};

use crate::Machine;
use kz_bundle::addressed;
use kz_model::{Bundle, OrderLine, Plan, Record};
use std::alloc::{AllocError, Global};

/// A CPU's next line.
fn play(machine: &mut Machine, bundle: &Bundle, plan: &Plan, cpu: u32)
    requires { (rest : List OrderLineSeen) × IsLeft bundle.now plan.now machine.old (CpuLine cpu ∷ rest) }
    ensures { (rest : List OrderLineSeen) → IsLeft bundle.now plan.now machine.old (CpuLine cpu ∷ rest) →
        IsLeft bundle.now plan.now machine.new rest }
{
    let at = machine.replied(cpu) as u32;
    let (zone, step) = addressed(bundle, plan, cpu, at);
    machine.step(cpu, zone, &step);
}

/// The lines of an order.
fn follow(machine: &mut Machine, bundle: &Bundle, plan: &Plan, lines: &[OrderLine])
    requires { IsLeft bundle.now plan.now machine.old lines.now }
    ensures { IsLeft bundle.now plan.now machine.new [] }
{
    for line in lines {
        match *line {
            OrderLine::Cpu { cpu } => play(machine, bundle, plan, cpu),
            OrderLine::Round => machine.end_round(),
        }
    }
}

/// Whether a CPU's next line is of this round.
fn has_line(machine: &Machine, bundle: &Bundle, cpu: u32, round: u32) -> bool
    requires replies { cpu < length machine.now.replies }
    requires traces { cpu < length bundle.now.traces }
    ensures { result ≡ has_line_at (trace_of bundle.now cpu) (length (replies_at machine.now.replies cpu).items) round }
{
    let trace = &bundle.traces.as_slice()[cpu as usize];
    let at = machine.replied(cpu);
    at < trace.len() && trace.round(at) == round
}

/// A CPU's lines of a round.
fn play_lines(machine: &mut Machine, bundle: &Bundle, plan: &Plan, cpu: u32, round: u32)
    requires { (n : ℕ) × (rest : List OrderLineSeen) ×
        IsLeft bundle.now plan.now machine.old (replicate n (CpuLine cpu) ++ rest) × IsRest bundle.now cpu round rest }
    ensures { (n : ℕ) (rest : List OrderLineSeen) →
        IsLeft bundle.now plan.now machine.old (replicate n (CpuLine cpu) ++ rest) → IsRest bundle.now cpu round rest →
        IsLeft bundle.now plan.now machine.new rest }
{
    while has_line(machine, bundle, cpu, round) {
        play(machine, bundle, plan, cpu);
    }
}

/// A round of the default order: CPU 0 does its lines, then CPU 1, and so on.
fn play_round(machine: &mut Machine, bundle: &Bundle, plan: &Plan, round: u32)
    requires order { bundle.now.order ≡ None }
    requires round { round < bundle.now.rounds }
    requires left { IsLeft bundle.now plan.now machine.old (default_round bundle.now round
        ++ rounds_after bundle.now (round + 1)) }
    ensures { IsLeft bundle.now plan.now machine.new (rounds_after bundle.now (round + 1)) }
{
    for cpu in 0..bundle.cpus {
        play_lines(machine, bundle, plan, cpu, round);
    }
}

/// The rounds of the default order.
fn play_rounds(machine: &mut Machine, bundle: &Bundle, plan: &Plan)
    requires order { bundle.now.order ≡ None }
    requires left { IsLeft bundle.now plan.now machine.old (order_of bundle.now) }
    ensures { IsLeft bundle.now plan.now machine.new [] }
{
    play_round(machine, bundle, plan, 0);
    for round in 1..bundle.rounds {
        machine.end_round();
        play_round(machine, bundle, plan, round);
    }
}

/// All lines in the bundle's order.
fn play_order(machine: &mut Machine, bundle: &Bundle, plan: &Plan)
    requires { IsLeft bundle.now plan.now machine.old (order_of bundle.now) }
    ensures { IsLeft bundle.now plan.now machine.new [] }
{
    match &bundle.order {
        Some(lines) => follow(machine, bundle, plan, lines.as_slice()),
        None => play_rounds(machine, bundle, plan),
    }
}

/// Runs the lines of a bundle in its order; without one in each round CPU 0 does its lines, then CPU 1, and so on.
///
/// What the zones did is told apart: each answers as it does alone, no block is live twice, and no address is of two
/// blocks.
pub fn replay(alloc: Global, bundle: &Bundle, plan: &Plan) -> Result<Record, AllocError>
    requires { IsPlanned bundle.now plan.now }
    ensures order { IfOk result (λ made. IsOfOrder bundle.now plan.now made) }
    ensures isolated { IfOk result (λ made. IsIsolated bundle.now plan.now made.visits made.supply) }
{
    let mut machine = Machine::boot(alloc, bundle, plan)?;
    play_order(&mut machine, bundle, plan);
    machine.end_round();
    Ok(machine.finish())
}
