//! The zone that a line is addressed to, and its step there.
ghost use Rattle.std.specs.Prelude.{◌≡◌, ◌<◌, length, slice_index_or};
ghost use Rattle.kz_model.specs.Run.Journal.{addressed as there, trace_of, type_of_name, zone_of_name, zone_of_type};
ghost use Rattle.kz_model.specs.Types.Planned.{IsPlanned};
ghost use Rattle.kz_model.specs.Store.Traces.{AreNumbered};
ghost use Rattle.kz_model.specs.Run.Journal.{no_step};
ghost use Rattle.kz_bundle.specs.Counted.{AreZoned};

use kz_model::{Act, Bundle, Plan, Step};

/// The zone of a type.
fn zone_of_type(plan: &Plan, of: u32) -> u32
    requires { of < length plan.now.of_type }
    ensures { result ≡ zone_of_type plan.now of }
{
    plan.of_type.as_slice()[of as usize]
}

/// The zone of a name.
fn zone_of_name(bundle: &Bundle, plan: &Plan, name: u32) -> u32
    requires name { name < length bundle.now.names }
    requires of { type_of_name bundle.now name < length plan.now.of_type }
    ensures { result ≡ zone_of_name bundle.now plan.now name }
{
    zone_of_type(plan, bundle.names.of(name as usize))
}

/// The zone that an act is addressed to, and its step there.
fn addressed_act(bundle: &Bundle, plan: &Plan, act: Act) -> (u32, Step)
    requires zoned { AreZoned bundle.now plan.now }
    requires within { AreNumbered (length bundle.now.names) (length bundle.now.types) act }
    ensures { result ≡ there bundle.now plan.now act }
{
    match act {
        Act::Alloc { name, .. } => (zone_of_name(bundle, plan, name), Step::Alloc { name }),
        Act::AllocZero { name, .. } => (zone_of_name(bundle, plan, name), Step::AllocZero { name }),
        Act::Free { name, of: None } => (
            zone_of_name(bundle, plan, name),
            Step::Free { name, zone: None },
        ),
        Act::Free { name, of: Some(of) } => {
            let zone = Some(zone_of_type(plan, of));
            (zone_of_name(bundle, plan, name), Step::Free { name, zone })
        }
        Act::Give { name, to } => (zone_of_name(bundle, plan, name), Step::Give { name, to }),
        Act::Take { name } => (zone_of_name(bundle, plan, name), Step::Take { name }),
        Act::Read { name, off, len } => (
            zone_of_name(bundle, plan, name),
            Step::Read { name, off, len },
        ),
        Act::Write { name, off, bytes } => (
            zone_of_name(bundle, plan, name),
            Step::Write { name, off, bytes },
        ),
        Act::Flush { of } => (zone_of_type(plan, of), Step::Flush),
        Act::Trim { of } => (zone_of_type(plan, of), Step::Trim),
    }
}

/// The zone that a CPU's line is addressed to, and its step there.
#[inline(always)]
pub fn addressed(bundle: &Bundle, plan: &Plan, cpu: u32, at: u32) -> (u32, Step)
    requires planned { IsPlanned bundle.now plan.now }
    requires cpu { cpu < bundle.now.cpus }
    requires line { at < length (trace_of bundle.now cpu) }
    ensures { result ≡ there bundle.now plan.now (slice_index_or (trace_of bundle.now cpu) at no_step).act }
{
    let trace = &bundle.traces.as_slice()[cpu as usize];
    addressed_act(bundle, plan, trace.step(at as usize).act)
}
