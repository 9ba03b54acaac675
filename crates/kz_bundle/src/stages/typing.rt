//! The stage of types: their layouts, read from the lines that declare them, and the classes that a budget has to
//! serve.
ghost use Rattle.kz_model.specs.declared.grammar.Refusal.{Refusal as TheRefusal};
ghost use Rattle.std.specs.Prelude.{◌≡◌, ◌≢◌, ◌+◌, ◌<◌, ◌≤◌, All, Ok, Err, Some, None, IfOk, IfErr, length, take, slice_index_or};
ghost use Rattle.kz_model.specs.Store.TypeLines.{no_decl};
ghost use Rattle.kz_model.specs.Types.Layouts.{layouts_of, names_of, IsSoundField};
ghost use Rattle.kz_model.specs.Grammar.Stages.{budget_fault as short_budget, cause_of, fault_of_layouts};
ghost use Rattle.kz_model.specs.Grammar.Spelling.{IsSpelled};
ghost use Rattle.kz_model.specs.Grammar.Valid.{layouts_in};
ghost use Rattle.kz_layout.specs.Laid.{HasLaidOut, IsSize};

use crate::ReadBundleFault;
use crate::form::body::read_type;
use crate::stages::numbers::type_names;
use kz_layout::Layouter;
use kz_model::{Bundle, Cause, Layout, LayoutCause, LayoutFault, Refusal, TypeDecl, Types};
use kz_plan::general_classes;
use std::alloc::{AllocError, Global};

/// The number of the line `budget`.
const BUDGET_LINE: u32 = 6;

/// The number of the first type line.
const FIRST_TYPE_LINE: u32 = 9;

/// The declaration at this place, read from its line.
fn decl_at(alloc: Global, types: &Types, at: usize) -> Result<TypeDecl, AllocError>
    requires { at < length types.now }
    ensures decl { IfOk result (λ decl. decl ≡ slice_index_or types.now at no_decl) }
    ensures sound { IfOk result (λ decl. All (IsSoundField 8) decl.fields) }
{
    match read_type(alloc, types.line(at))? {
        Some(decl) => Ok(decl),
        None => unreachable!(),
    }
}

/// Lays out the declaration at this place, after those before it.
fn add_line(
    alloc: Global,
    layouter: &mut Layouter<'_>,
    types: &Types,
    at: usize,
) -> Result<(), LayoutCause>
    requires place { at < length types.now }
    requires named { layouter.old.names ≡ names_of types.now }
    requires laid { HasLaidOut layouter.old (take at types.now) }
    ensures names { layouter.new.names ≡ layouter.old.names }
    ensures ok { IfOk result (λ _. HasLaidOut layouter.new (take (at + 1) types.now)) }
    ensures fault { IfErr result (λ cause. cause ≢ LayoutCause.Memory → layouts_of types.now
        ≡ Err (record { at = at; cause = cause })) }
{
    let decl = decl_at(alloc, types, at)?;
    layouter.add(&decl)
}

fn no_memory() -> LayoutFault
    ensures at { result.at ≡ 0 }
    ensures cause { result.cause ≡ LayoutCause.Memory }
{
    LayoutFault {
        at: 0,
        cause: LayoutCause::Memory,
    }
}

/// The layouts of declarations that are kept as their lines.
fn layouts_of_lines(alloc: Global, types: &Types) -> Result<Vec<Layout>, LayoutFault>
    requires { length types.now ≤ 1024 }
    ensures ok { IfOk result (λ all. layouts_of types.now ≡ Ok all.items) }
    ensures sizes { IfOk result (λ all. All IsSize all.items) }
    // The first fault, with its place; want of memory may be answered instead.
    ensures fault { IfErr result (λ f. f.cause ≢ LayoutCause.Memory → layouts_of types.now ≡ Err f) }
    ensures place { IfErr result (λ f. f.at ≤ 1024) }
{
    let Ok(names) = type_names(alloc, types) else {
        return Err(no_memory());
    };
    let Ok(mut layouter) = Layouter::new(alloc, names) else {
        return Err(no_memory());
    };
    for at in 0..types.len() {
        if let Err(cause) = add_line(alloc, &mut layouter, types, at) {
            return Err(LayoutFault {
                at: at as u32,
                cause,
            });
        }
    }
    let Ok(layouts) = layouter.finish(alloc) else {
        return Err(no_memory());
    };
    Ok(layouts)
}

/// Why types are refused whose layouts have this fault. Want of memory refuses nothing.
fn refused_cause(cause: LayoutCause) -> Result<Cause, AllocError>
    ensures told { IfOk result (λ refused. refused ≡ cause_of cause) }
    ensures memory { IfOk result (λ refused. cause ≢ LayoutCause.Memory) }
{
    match cause {
        LayoutCause::SameName => Ok(Cause::SameName),
        LayoutCause::UnknownType => Ok(Cause::UnknownType),
        LayoutCause::ForwardUse => Ok(Cause::ForwardUse),
        LayoutCause::Empty => Ok(Cause::Empty),
        LayoutCause::TooLarge { size } => Ok(Cause::TooLarge { size }),
        LayoutCause::Memory => Err(AllocError),
    }
}

/// A budget that is below the classes.
fn budget_fault(budget: u32, classes: u32) -> Option<Refusal>
    ensures { result ≡ short_budget budget classes }
{
    if budget < classes {
        Some(Refusal {
            line: BUDGET_LINE,
            cause: Cause::BudgetShort { classes },
        })
    } else {
        None
    }
}

/// The layouts of the types, if neither they nor the budget for their classes has a fault.
pub fn read_types(alloc: Global, budget: u32, types: &Types) -> Result<Vec<Layout>, ReadBundleFault>
    requires { length types.now ≤ 1024 }
    ensures faultless { IfOk result (λ all. fault_of_layouts budget (layouts_of types.now) ≡ None) }
    ensures layouts { IfOk result (λ all. layouts_of types.now ≡ Ok all.items) }
    ensures few { IfOk result (λ all. length all.items ≤ 1024) }
    ensures sizes { IfOk result (λ all. All IsSize all.items) }
    ensures refused { (refusal : TheRefusal) → result ≡ Err (ReadBundleFault.Refused refusal) →
        fault_of_layouts budget (layouts_of types.now) ≡ Some refusal }
{
    match layouts_of_lines(alloc, types) {
        Ok(layouts) => match budget_fault(budget, general_classes(&layouts)) {
            None => Ok(layouts),
            Some(refusal) => Err(ReadBundleFault::Refused(refusal)),
        },
        Err(fault) => Err(ReadBundleFault::Refused(Refusal {
            line: FIRST_TYPE_LINE + fault.at,
            cause: refused_cause(fault.cause)?,
        })),
    }
}

/// The layouts of a bundle's types.
pub fn bundle_layouts(alloc: Global, bundle: &Bundle) -> Result<Vec<Layout>, AllocError>
    requires { IsSpelled bundle.now }
    ensures layouts { IfOk result (λ all. all.items ≡ layouts_in bundle.now) }
    ensures few { IfOk result (λ all. length all.items ≤ 1024) }
    ensures sizes { IfOk result (λ all. All IsSize all.items) }
{
    // The types of such a bundle have layouts, so that only memory can be short.
    match layouts_of_lines(alloc, &bundle.types) {
        Ok(layouts) => Ok(layouts),
        Err(_) => Err(AllocError),
    }
}
