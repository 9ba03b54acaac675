//! The refusals that a CPU answers from what it has itself.
ghost use Rattle.std.specs.Prelude.{◌≡◌, ◌+◌, nat_lt, not, is_none};
ghost use Rattle.std.specs.Option.{option_map};
ghost use Rattle.kz_model.specs.declared.step.Reply.TheVariants.{NoName, NameBusy, NotHeld, OutOfBlock};
ghost use Rattle.kz_model.specs.Zone.Rules.{is_held as held, other_zone, refused_if, else_refused, refused_here};
ghost use Rattle.kz_cpu.specs.Local.{bound_by};
ghost use Rattle.kz_cpu.specs.OwnReply.{reply_meant};

use crate::Binding;
use crate::own_reply::OwnReply;
use kz_model::{Step, ZoneParams};

fn is_held(binding: &Option<Binding>) -> bool
    ensures { result ≡ held (bound_by binding.now) }
{
    match binding {
        Some(binding) => binding.bound.held,
        None => false,
    }
}

/// Where the name has to be free.
fn busy(binding: &Option<Binding>) -> Option<OwnReply>
    ensures { option_map reply_meant result ≡ refused_if (held (bound_by binding.now)) NameBusy }
{
    if is_held(binding) {
        Some(OwnReply::NameBusy)
    } else {
        None
    }
}

/// Where the name has to hold a block of this zone.
fn not_held(owner: u32, asked: Option<u32>, binding: &Option<Binding>) -> Option<OwnReply>
    ensures { option_map reply_meant result
        ≡ else_refused (refused_if (is_none (bound_by binding.now)) NoName)
        (else_refused (other_zone owner asked) (refused_if (not (held (bound_by binding.now))) NotHeld)) }
{
    match (binding, asked) {
        (None, _) => Some(OwnReply::NoName),
        (_, Some(asked)) if asked != owner => Some(OwnReply::WrongZone { asked, owner }),
        (Some(binding), _) if !binding.bound.held => Some(OwnReply::NotHeld),
        _ => None,
    }
}

/// Where the name has to have a block, and these bytes have to lie in it.
fn outside(element: u32, binding: &Option<Binding>, off: u32, len: usize) -> Option<OwnReply>
    ensures { option_map reply_meant result
        ≡ else_refused (refused_if (is_none (bound_by binding.now)) NoName)
        (refused_if (nat_lt element (off + len)) OutOfBlock) }
{
    if binding.is_none() {
        Some(OwnReply::NoName)
    } else if off > element || len > (element - off) as usize {
        Some(OwnReply::OutOfBlock)
    } else {
        None
    }
}

/// The first of the refusals that the CPU can tell, if one holds.
pub fn refused(params: &ZoneParams, binding: &Option<Binding>, step: &Step) -> Option<OwnReply>
    ensures { option_map reply_meant result ≡ refused_here params.now (bound_by binding.now) step.now }
{
    match step {
        Step::Alloc { .. } | Step::AllocZero { .. } | Step::Take { .. } => busy(binding),
        Step::Free { zone, .. } => not_held(params.zone, *zone, binding),
        Step::Give { .. } => not_held(params.zone, None, binding),
        Step::Read { off, len, .. } => outside(params.element, binding, *off, *len as usize),
        Step::Write { off, bytes, .. } => {
            outside(params.element, binding, *off, bytes.as_slice().len())
        }
        Step::Flush | Step::Trim => None,
    }
}
