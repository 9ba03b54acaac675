//! The layouts of declarations.
ghost use Rattle.std.specs.Prelude.{◌≡◌, ◌≢◌, All, Ok, Err, IfOk, IfErr};
ghost use Rattle.kz_model.specs.Types.Layouts.{layouts_of, names_of, AreInRange};
ghost use Rattle.kz_layout.specs.Laid.{IsSize};
ghost use Rattle.kz_model.specs.Grammar.Tokens.{texts};

use crate::layouter::Layouter;
use kz_model::{Layout, LayoutCause, LayoutFault, TypeDecl};
use std::alloc::{AllocError, Global};

/// A fault of the declaration at this place; want of memory has none.
fn fault_at(at: u32, cause: LayoutCause) -> LayoutFault
    ensures memory { cause ≡ LayoutCause.Memory → result.at ≡ 0 }
    ensures place { cause ≢ LayoutCause.Memory → result.at ≡ at }
    ensures cause { result.cause ≡ cause }
{
    match cause {
        LayoutCause::Memory => LayoutFault { at: 0, cause },
        _ => LayoutFault { at, cause },
    }
}

fn no_memory() -> LayoutFault
    ensures at { result.at ≡ 0 }
    ensures cause { result.cause ≡ LayoutCause.Memory }
{
    LayoutFault {
        at: 0,
        cause: LayoutCause::Memory,
    }
}

fn type_names(alloc: Global, types: &[TypeDecl]) -> Result<Vec<&[u8]>, AllocError>
    ensures { IfOk result (λ v. texts v.items ≡ names_of types.now) }
{
    let mut names = Vec::new(alloc);
    for decl in types {
        names.push(decl.name.as_slice())?;
    }
    Ok(names)
}

/// The layouts of these types, in their order.
pub fn layouts(alloc: Global, types: &[TypeDecl]) -> Result<Vec<Layout>, LayoutFault>
    requires { AreInRange types.now }
    ensures ok { IfOk result (λ all. layouts_of types.now ≡ Ok all.items) }
    ensures sizes { IfOk result (λ all. All IsSize all.items) }
    // The first fault, with its place; want of memory may be answered instead.
    ensures fault { IfErr result (λ f. f.cause ≢ LayoutCause.Memory → layouts_of types.now ≡ Err f) }
    ensures memory { IfErr result (λ f. f.cause ≡ LayoutCause.Memory → f.at ≡ 0) }
{
    let Ok(names) = type_names(alloc, types) else {
        return Err(no_memory());
    };
    let Ok(mut layouter) = Layouter::new(alloc, names) else {
        return Err(no_memory());
    };
    for (at, decl) in types.iter().enumerate() {
        if let Err(cause) = layouter.add(decl) {
            return Err(fault_at(at as u32, cause));
        }
    }
    let Ok(layouts) = layouter.finish(alloc) else {
        return Err(no_memory());
    };
    Ok(layouts)
}
