//! The lines of types: how many blocks were given and how many were freed.
ghost use Rattle.std.specs.Prelude.{◌≡◌, ◌+◌, ◌<◌, ◌≤◌, ◌++◌, length, map, replicate, slice_index_or, codes, All, IfOk, OnOk, IsAscii};
ghost use Rattle.std.specs.List.{range_with_len};
ghost use Rattle.kz_model.specs.Text.Report.{use_line, all_answered_lines};
ghost use Rattle.kz_model.specs.Text.Lines.{text_of_lines};
ghost use Rattle.kz_model.specs.Run.Journal.{no_step};
ghost use Rattle.kz_report.specs.Lines.{IsReportable};
ghost use Rattle.kz_model.specs.Text.Report.{type_given as given_type, type_freed as freed_type};
ghost use Rattle.kz_report.specs.Uses.{no_uses as nothing, one_given, one_freed, changed_at, counted, counted_all, counted_cpus, AreFew, use_text};

use crate::addresses::type_of_name;
use crate::numbers::push_number;
use kz_model::{Act, Bundle, Plan, Record, Replies, Reply, Trace};
use std::alloc::{AllocError, Global};

/// How many of a type's blocks were given and how many were freed.
#[derive(Clone, Copy)]
pub struct Uses {
    pub allocs: u32,
    pub frees: u32,
}

/// The lines of all types.
pub fn write_uses(
    out: &mut Vec<u8>,
    alloc: Global,
    bundle: &Bundle,
    plan: &Plan,
    made: &Record,
) -> Result<(), AllocError>
    requires { IsReportable bundle.now plan.now made.now }
    ensures { OnOk result (out.new.items
        ≡ out.old.items ++ text_of_lines
        (map (use_line bundle.now (all_answered_lines bundle.now plan.now made.now.visits made.now.supply))
        (range_with_len 0 (length bundle.now.types)))) }
{
    let uses = uses_of(alloc, bundle, made)?;
    for of in 0..bundle.types.len() {
        write_use(out, bundle.types.name(of), uses[of])?;
    }
    Ok(())
}

/// The numbers by type.
fn uses_of(alloc: Global, bundle: &Bundle, made: &Record) -> Result<Vec<Uses>, AllocError>
    requires traces { length bundle.now.traces ≡ bundle.now.cpus }
    requires replies { length made.now.replies ≡ bundle.now.cpus }
    requires cpus { bundle.now.cpus ≤ 16 }
    requires few { All (λ trace. length trace ≤ 1000000) bundle.now.traces }
    ensures { IfOk result (λ uses. uses.items
        ≡ counted_cpus bundle.now made.now.replies 0 bundle.now.cpus (replicate (length bundle.now.types) nothing)) }
{
    let mut uses = no_uses(alloc, bundle.types.len())?;
    for cpu in 0..bundle.cpus {
        let trace = &bundle.traces.as_slice()[cpu as usize];
        let replies = &made.replies.as_slice()[cpu as usize];
        count_trace(&mut uses, bundle, trace, replies);
    }
    Ok(uses)
}

/// Zeros for so many types.
fn no_uses(alloc: Global, types: usize) -> Result<Vec<Uses>, AllocError>
    ensures { IfOk result (λ uses. uses.items ≡ replicate types nothing) }
{
    let nothing = Uses {
        allocs: 0,
        frees: 0,
    };
    let mut uses = Vec::new(alloc);
    for _ in 0..types {
        uses.push(nothing)?;
    }
    Ok(uses)
}

/// Counts the lines of a CPU.
pub fn count_trace(uses: &mut Vec<Uses>, bundle: &Bundle, trace: &Trace, replies: &Replies)
    requires few { AreFew 15000000 uses.old.items }
    requires lines { length trace.now ≤ 1000000 }
    ensures { uses.new.items ≡ counted_all bundle.now trace.now replies.now uses.old.items }
{
    for at in 0..trace.len().min(replies.len()) {
        count_line(uses, bundle, trace, at, &replies.reply(at));
    }
}

/// Counts a line. No act counts where the reply is neither a block nor `done`.
fn count_line(uses: &mut Vec<Uses>, bundle: &Bundle, trace: &Trace, at: usize, reply: &Reply)
    requires few { AreFew 16000000 uses.old.items }
    requires at { at < length trace.now }
    ensures { uses.new.items ≡ counted bundle.now (slice_index_or trace.now at no_step).act reply.now uses.old.items }
{
    match reply {
        Reply::Block { .. } | Reply::Done => {
            count_act(uses, bundle, &trace.step(at).act, reply);
        }
        _ => {}
    }
}

fn count_act(uses: &mut Vec<Uses>, bundle: &Bundle, act: &Act, reply: &Reply)
    requires { AreFew 16000000 uses.old.items }
    ensures { uses.new.items ≡ counted bundle.now act.now reply.now uses.old.items }
{
    if let Some(of) = type_given(bundle, act, reply) {
        count_given(uses, of);
    }
    if let Some(of) = type_freed(bundle, act, reply) {
        count_freed(uses, of);
    }
}

fn count_given(uses: &mut Vec<Uses>, of: u32)
    requires { AreFew 16000000 uses.old.items }
    ensures { uses.new.items ≡ changed_at one_given (Some of) uses.old.items }
{
    let of = of as usize;
    if of < uses.len() {
        let Uses { allocs, frees } = uses[of];
        uses[of] = Uses {
            allocs: allocs + 1,
            frees,
        };
    }
}

fn count_freed(uses: &mut Vec<Uses>, of: u32)
    requires { AreFew 16000000 uses.old.items }
    ensures { uses.new.items ≡ changed_at one_freed (Some of) uses.old.items }
{
    let of = of as usize;
    if of < uses.len() {
        let Uses { allocs, frees } = uses[of];
        uses[of] = Uses {
            allocs,
            frees: frees + 1,
        };
    }
}

/// The type of the block that the line was given.
fn type_given(bundle: &Bundle, act: &Act, reply: &Reply) -> Option<u32>
    ensures { result ≡ given_type bundle.now act.now reply.now }
{
    match act {
        Act::Alloc { name, .. } | Act::AllocZero { name, .. } => match reply {
            Reply::Block { .. } => Some(type_of_name(bundle, *name)),
            _ => None,
        },
        _ => None,
    }
}

/// The type of the block that the line freed.
fn type_freed(bundle: &Bundle, act: &Act, reply: &Reply) -> Option<u32>
    ensures { result ≡ freed_type bundle.now act.now reply.now }
{
    match act {
        Act::Free { name, .. } => match reply {
            Reply::Done => Some(type_of_name(bundle, *name)),
            _ => None,
        },
        _ => None,
    }
}

pub fn write_use(out: &mut Vec<u8>, name: &[u8], uses: Uses) -> Result<(), AllocError>
    ensures { OnOk result (out.new.items ≡ out.old.items ++ (use_text name.now uses ++ codes "\n")) }
{
    let allocs = uses.allocs;
    let frees = uses.frees;
    out.extend_from_slice(b"use ")?;
    out.extend_from_slice(name)?;
    push_number(out, b" allocs ", u64::from(allocs))?;
    push_number(out, b" frees ", u64::from(frees))?;
    push_number(out, b" live ", u64::from(allocs.saturating_sub(frees)))?;
    out.extend_from_slice(b"\n")
}
