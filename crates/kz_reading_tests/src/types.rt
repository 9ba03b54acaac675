//! Classes, layouts, the division of a budget, and the words of a seed.
ghost use Rattle.std.specs.Prelude.{All, IfOk};
ghost use Rattle.kz_model.specs.Types.Layouts.{AreInRange, IsSoundField, IsSoundKind};

use kz_class::ClassTable;
use kz_layout::{LayoutCause, layouts};
use kz_model::{Field, Geometry, Items, Kind, Name, Seed, TypeDecl, Words};
use kz_plan::{PlanFault, share};
use std::alloc::{AllocError, Global};
use std::test::Fail;

#[test]
fn a_table_of_three(rt: HostRuntime) {
    let table = ClassTable::new([24, 1000, 5120]);
    assert_eq!(rt; table.class_of(0), Some(0));
    assert_eq!(rt; table.class_of(25), Some(1));
    assert_eq!(rt; table.class_of(1001), Some(2));
    assert_eq!(rt; table.class_of(5121), None);
    let want = Geometry {
        element: 1000,
        count: 4,
        pages: 1,
    };
    assert_eq!(rt; table.geometry(1), want);
}

/// Three of a kind.
fn field(kind: Kind) -> Field
    requires { IsSoundKind 8 kind }
    ensures { IsSoundField 8 result }
{
    Field {
        kind,
        name: Name::of(b"a"),
        count: 3,
    }
}

/// A type of one field.
fn decl(alloc: Global, field: Field) -> Result<TypeDecl, AllocError>
    requires { IsSoundField 8 field }
    ensures { IfOk result (λ decl. All (IsSoundField 8) decl.fields) }
{
    let mut fields = Vec::new(alloc);
    fields.push(field)?;
    Ok(TypeDecl {
        name: Name::of(b"t"),
        fields: Items::from_vec(fields),
    })
}

/// That type alone.
fn types(alloc: Global, decl: TypeDecl) -> Result<Vec<TypeDecl>, AllocError>
    requires { All (IsSoundField 8) decl.fields }
    ensures { IfOk result (λ types. AreInRange types.items) }
{
    let mut types = Vec::new(alloc);
    types.push(decl)?;
    Ok(types)
}

/// The size of a type of three of a kind, or what is wrong with it.
fn size_of_three(alloc: Global, kind: Kind) -> Result<Result<u32, LayoutCause>, Fail>
    requires { IsSoundKind 8 kind }
{
    let types = types(alloc, decl(alloc, field(kind))?)?;
    match layouts(alloc, &types) {
        Ok(all) => Ok(Ok(all.first().ok_or("no layout")?.size)),
        Err(fault) => Ok(Err(fault.cause)),
    }
}

#[test]
fn layouts_of_one_type(rt: HostRuntime) -> Result<(), Fail> {
    assert_eq!(rt; size_of_three(rt.alloc(), Kind::U16)?, Ok(6));
    let itself = Kind::Struct { of: Name::of(b"t") };
    assert_eq!(rt;
        size_of_three(rt.alloc(), itself)?,
        Err(LayoutCause::ForwardUse)
    );
    Ok(())
}

#[test]
fn divisions(rt: HostRuntime) -> Result<(), Fail> {
    let later = share(rt.alloc(), &[2, 5], 4)?;
    assert_eq!(rt; later.as_slice(), [1, 3].as_slice());
    let tie = share(rt.alloc(), &[4, 4], 3)?;
    assert_eq!(rt; tie.as_slice(), [2, 1].as_slice());
    let unused = share(rt.alloc(), &[5, 1], 10)?;
    assert_eq!(rt; unused.as_slice(), [5, 1].as_slice());
    let short = share(rt.alloc(), &[1, 1], 1).err();
    assert_eq!(rt; short, Some(PlanFault::BudgetShort { classes: 2 }));
    Ok(())
}

#[test]
fn words_of_a_stream(rt: HostRuntime) {
    let mut words = Words::new(Seed::Number(42), 54);
    assert_eq!(rt; words.next(), 0xa15c02b7);
    assert_eq!(rt; words.next(), 0x7b47f409);
    assert_eq!(rt; words.next(), 0xba1d3330);
}
