//! The stage of names.
ghost use Rattle.std.specs.Prelude.{◌≡◌, ◌≤◌, Some, None, length, IfOk};
ghost use Rattle.kz_model.specs.declared.grammar.Refusal.{Refusal as TheRefusal};
ghost use Rattle.kz_model.specs.Types.Layouts.{names_of};
ghost use Rattle.kz_model.specs.Grammar.Stages.{names_fault as names_fault_of};
ghost use Rattle.kz_model.specs.Grammar.Tokens.{texts};
ghost use Rattle.kz_bundle.specs.Parts.{draft_of, AreParts};
ghost use Rattle.kz_bundle.specs.Naming.{AreDeclared};
ghost use Rattle.kz_bundle.specs.Rows.{ArePlacesOf};
ghost use Rattle.kz_bundle.specs.Numbers.{rows_in, AreNumbers};

use crate::ReadBundleFault;
use crate::form::parts::Parts;
use crate::stages::entry::{Rows, placed_or};
use crate::stages::scan::{all_rows, sections_fault};
use kz_layout::Places;
use kz_model::{NameRows, Refusal, Types};
use std::alloc::{AllocError, Global};

/// The names of a bundle, and the numbers that names and types have in it, by those that they have in the parts of its
/// text.
#[derive(Drop)]
pub struct Numbers {
    pub rows: NameRows,
    pub names: Vec<u32>,
    pub types: Vec<u32>,
}

/// The names of the types, in their order.
pub fn type_names(alloc: Global, types: &Types) -> Result<Vec<&[u8]>, AllocError>
    ensures names { IfOk result (λ names. texts names.items ≡ names_of types.now) }
    ensures length { IfOk result (λ names. length names.items ≡ length types.now) }
{
    let mut names = Vec::new(alloc);
    for at in 0..types.len() {
        names.push(types.name(at))?;
    }
    Ok(names)
}

/// For each word its place among the types, where it is one of their names.
fn declared_places(
    alloc: Global,
    types: &Types,
    words: &[&[u8]],
) -> Result<Vec<Option<u32>>, AllocError>
    requires { length types.now ≤ 1024 }
    ensures { IfOk result (λ places. AreDeclared (names_of types.now) (texts words.now) places.items) }
{
    let places = Places::of(alloc, type_names(alloc, types)?)?;
    let mut found = Vec::new(alloc);
    for word in words {
        found.push(places.place(word))?;
    }
    Ok(found)
}

/// The first fault of names, by the rows of all lines.
fn names_fault(
    alloc: Global,
    parts: &Parts<'_>,
    declared: &[Option<u32>],
    all: &Rows<'_>,
) -> Result<Option<Refusal>, AllocError>
    requires parts { AreParts parts.now }
    requires declared { AreDeclared (names_of parts.now.types) (texts parts.now.words.items) declared.now }
    requires all { all.now ≡ rows_in parts.now }
    ensures { IfOk result (λ fault. names_fault_of (draft_of parts.now) ≡ fault) }
{
    let mut rows = Rows::new(alloc, parts.names.as_slice(), parts.words.as_slice())?;
    sections_fault(declared, all, &mut rows, parts.sections.as_slice())
}

/// The numbers of names and types, if no name has a fault.
pub fn read_names(alloc: Global, parts: &Parts<'_>) -> Result<Numbers, ReadBundleFault>
    requires { AreParts parts.now }
    ensures faultless { IfOk result (λ _. names_fault_of (draft_of parts.now) ≡ None) }
    ensures numbers { IfOk result (λ numbers. AreNumbers parts.now numbers) }
    ensures refused { (refusal : TheRefusal) → result ≡ Err (ReadBundleFault.Refused refusal) →
        names_fault_of (draft_of parts.now) ≡ Some refusal }
{
    let declared = declared_places(alloc, &parts.types, parts.words.as_slice())?;
    let all = all_rows(
        alloc,
        parts.names.as_slice(),
        parts.words.as_slice(),
        parts.sections.as_slice(),
    )?;
    match names_fault(alloc, parts, declared.as_slice(), &all)? {
        Some(refusal) => Err(ReadBundleFault::Refused(refusal)),
        None => {
            let types = placed_or(alloc, declared.as_slice(), parts.types.len() as u32)?;
            let rows = all.name_rows(alloc, types.as_slice())?;
            let names = all.numbers(alloc)?;
            Ok(Numbers { rows, names, types })
        }
    }
}
