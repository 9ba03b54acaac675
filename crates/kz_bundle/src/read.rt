//! The bundle of a text.
ghost use Rattle.std.specs.Prelude.{◌≡◌, ◌≤◌, Ok, Err, Some, None, length, map, All, IfOk};
ghost use Rattle.kz_model.specs.declared.grammar.Refusal.{Refusal as TheRefusal};
ghost use Rattle.kz_model.specs.Store.Traces.{renumbered_step};
ghost use Rattle.kz_model.specs.Grammar.Stages.{read, later_fault, bundle_of as bundle_of_draft};
ghost use Rattle.kz_model.specs.Grammar.Spelling.{Spells, IsSpelled, IsFirstFault};
ghost use Rattle.kz_model.specs.Types.Layouts.{layouts_of};
ghost use Rattle.kz_model.specs.Grammar.Valid.{IsValid, layouts_in};
ghost use Rattle.kz_layout.specs.Laid.{IsSize};
ghost use Rattle.kz_bundle.specs.Parts.{IsPart, AreParts, draft_of};
ghost use Rattle.kz_bundle.specs.Numbers.{AreNumbers};

use crate::ReadBundleFault;
use crate::form::parts::{Part, Parts};
use crate::form::read_form;
use crate::stages::numbers::{Numbers, read_names};
use crate::stages::rounds::rounds_fault;
use crate::stages::typing::read_types;
use kz_model::{Bundle, Items, Layout, Refusal, Trace};
use std::alloc::{AllocError, Global};

/// The sections' steps, with these numbers for their names and types.
fn traces_of(
    alloc: Global,
    sections: Vec<Part>,
    names: &[u32],
    types: &[u32],
) -> Result<Vec<Trace>, AllocError>
    requires { All (IsPart (length names.now) (length types.now)) sections.items }
    ensures { IfOk result (λ traces. traces.items
        ≡ map (λ part. map (renumbered_step names.now types.now) part.steps) sections.items) }
{
    let mut traces = Vec::new(alloc);
    for section in sections {
        let mut steps = section.steps;
        steps.renumber(names, types);
        traces.push(steps)?;
    }
    Ok(traces)
}

fn bundle_of(alloc: Global, parts: Parts<'_>, numbers: Numbers) -> Result<Bundle, AllocError>
    requires parts { AreParts parts }
    requires numbers { AreNumbers parts numbers }
    ensures { IfOk result (λ b. b ≡ bundle_of_draft (draft_of parts.entry)) }
{
    let last = parts.sections.len() - 1;
    let rounds = parts.sections[last].breaks + 1;
    let traces = traces_of(
        alloc,
        parts.sections,
        numbers.names.as_slice(),
        numbers.types.as_slice(),
    )?;
    let header = parts.header;
    Ok(Bundle {
        machine: header.machine,
        seed: header.seed,
        cpus: header.cpus,
        frames: header.frames,
        pages: header.pages,
        budget: header.budget,
        magazine: header.magazine,
        depot: header.depot,
        types: parts.types,
        names: numbers.rows,
        rounds,
        traces: Items::from_vec(traces),
        order: parts.order,
    })
}

/// A refusal, if there is one.
fn pass(fault: Option<Refusal>) -> Result<(), ReadBundleFault>
    ensures ok { IfOk result (λ _. fault ≡ None) }
    ensures refused { (refusal : TheRefusal) → result ≡ Err (ReadBundleFault.Refused refusal) → fault ≡ Some refusal }
{
    match fault {
        None => Ok(()),
        Some(refusal) => Err(ReadBundleFault::Refused(refusal)),
    }
}

/// The bundle that the parts say with its layouts, or their first fault: of types, of names, of rounds or of the order.
fn judge(alloc: Global, parts: Parts<'_>) -> Result<(Bundle, Vec<Layout>), ReadBundleFault>
    requires { AreParts parts }
    ensures faultless { IfOk result (λ _. later_fault (draft_of parts.entry) ≡ None) }
    ensures bundle { IfOk result (λ read. read.0 ≡ bundle_of_draft (draft_of parts.entry)) }
    ensures layouts { IfOk result (λ read. layouts_of (draft_of parts.entry).types ≡ Ok read.1.items) }
    ensures few { IfOk result (λ read. length read.1.items ≤ 1024) }
    ensures sizes { IfOk result (λ read. All IsSize read.1.items) }
    ensures refused { (refusal : TheRefusal) → result ≡ Err (ReadBundleFault.Refused refusal) →
        later_fault (draft_of parts.entry) ≡ Some refusal }
{
    let layouts = read_types(alloc, parts.header.budget, &parts.types)?;
    let numbers = read_names(alloc, &parts)?;
    pass(rounds_fault(alloc, &parts)?)?;
    Ok((bundle_of(alloc, parts, numbers)?, layouts))
}

/// The bundle that a text spells, with the layouts of its types.
///
/// A refusal names the first fault: of the form, line by line; then of the types, of the names, and of the rounds and
/// the order.
pub fn read_with_layouts(
    alloc: Global,
    bytes: &[u8],
) -> Result<(Bundle, Vec<Layout>), ReadBundleFault>
    requires { length bytes.now ≤ 33554432 }
    ensures spells { IfOk result (λ read. Spells bytes.now read.0) }
    ensures read { IfOk result (λ found. read bytes.now ≡ Ok found.0) }
    ensures spelled { IfOk result (λ read. IsSpelled read.0) }
    ensures valid { IfOk result (λ read. IsValid read.0) }
    ensures layouts { IfOk result (λ read. read.1.items ≡ layouts_in read.0) }
    ensures few { IfOk result (λ read. length read.1.items ≤ 1024) }
    ensures sizes { IfOk result (λ read. All IsSize read.1.items) }
    ensures refused { (refusal : TheRefusal) → result ≡ Err (ReadBundleFault.Refused refusal) →
        IsFirstFault bytes.now refusal }
{
    let parts = read_form(alloc, bytes)?;
    judge(alloc, parts)
}

/// The bundle that a text spells; or its first fault, as `read_with_layouts` has it.
pub fn read_bundle(alloc: Global, bytes: &[u8]) -> Result<Bundle, ReadBundleFault>
    requires { length bytes.now ≤ 33554432 }
    ensures spells { IfOk result (λ b. Spells bytes.now b) }
    ensures read { IfOk result (λ b. read bytes.now ≡ Ok b) }
    ensures spelled { IfOk result IsSpelled }
    ensures valid { IfOk result IsValid }
    ensures refused { (refusal : TheRefusal) → result ≡ Err (ReadBundleFault.Refused refusal) →
        IsFirstFault bytes.now refusal }
{
    let (bundle, _) = read_with_layouts(alloc, bytes)?;
    Ok(bundle)
}
