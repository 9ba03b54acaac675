//! The fields in some braces, one after the other.
ghost use Rattle.std.specs.Prelude.{◌≤◌, ℕ, All, List, IfOk};
ghost use Rattle.kz_model.specs.Types.Cover.{Covered};
ghost use Rattle.kz_model.specs.Types.Layouts.{Inside, no_fields, whole as whole_by_fields, own_cover, inner_of as inner_by_kind, fields_from, IsSoundKind, IsSoundField};
ghost use Rattle.kz_layout.specs.Gives.{Gives};
ghost use Rattle.kz_layout.specs.Granules.{AllStand, Stands};
ghost use Rattle.kz_layout.specs.Shown.{ShowsInside, types_at, with_own};

use crate::body::{AUTHENTICATED, Body, DATA, Fields, POINTER};
use crate::places::Places;
use kz_model::{Field, Kind, LayoutCause};
use std::alloc::Global;
use std::collections::BTreeSet;

/// Braces that hold a field, as a whole.
pub fn whole(fields: Fields) -> Result<Body, LayoutCause>
    ensures { (inside : Inside) → ShowsInside fields inside → Gives Stands result (whole_by_fields inside) }
{
    if fields.is_empty() {
        return Err(LayoutCause::Empty);
    }
    Ok(fields.rounded())
}

/// What a kind is by itself; `inner` are a union's fields.
fn own_body(
    alloc: Global,
    names: &Places<'_>,
    earlier: &[Body],
    kind: &Kind,
    inner: Fields,
) -> Result<Body, LayoutCause>
    requires sound { (deep : ℕ) × IsSoundKind deep kind.now }
    ensures { (covers : List Covered) (inside : Inside) → AllStand earlier.now covers → ShowsInside inner inside →
        Gives Stands result (own_cover (types_at names.now covers) inside kind.now) }
{
    match kind {
        Kind::Ptr => Ok(Body::plain(alloc, 8, 8, POINTER)?),
        Kind::Auth => Ok(Body::plain(alloc, 8, 8, AUTHENTICATED)?),
        Kind::U8 => Ok(Body::plain(alloc, 1, 1, DATA)?),
        Kind::U16 => Ok(Body::plain(alloc, 2, 2, DATA)?),
        Kind::U32 => Ok(Body::plain(alloc, 4, 4, DATA)?),
        Kind::U64 => Ok(Body::plain(alloc, 8, 8, DATA)?),
        Kind::Bytes { size } => Ok(Body::plain(alloc, *size, 1, DATA)?),
        Kind::Struct { of } => match names.place(of.as_slice()) {
            None => Err(LayoutCause::UnknownType),
            Some(place) => match earlier.get(place as usize) {
                None => Err(LayoutCause::ForwardUse),
                Some(body) => Ok(body.copy(alloc)?),
            },
        },
        Kind::Union { .. } => whole(inner),
    }
}

/// These fields with one more; `inner` are its union's fields.
fn with_one(
    alloc: Global,
    names: &Places<'_>,
    earlier: &[Body],
    in_union: bool,
    fields: Fields,
    field: &Field,
    inner: Fields,
) -> Result<Fields, LayoutCause>
    requires sound { (deep : ℕ) × IsSoundField deep field.now }
    ensures gives { (covers : List Covered) (inside : Inside) (before : Covered) → AllStand earlier.now covers →
        ShowsInside inner inside → Stands fields before →
        Gives Stands result (with_own in_union before field.now.count
        (own_cover (types_at names.now covers) inside field.now.kind)) }
    ensures some { IfOk result (λ more. 1 ≤ more.size) }
{
    let part = own_body(alloc, names, earlier, &field.kind, inner)?;
    fields.with_field(in_union, field.count, &part)
}

/// The fields of a union; another kind has none.
#[cycle(fields)]
fn inner_of(
    alloc: Global,
    names: &Places<'_>,
    earlier: &[Body],
    kind: &Kind,
) -> Result<Fields, LayoutCause>
    requires { (deep : ℕ) × IsSoundKind deep kind.now }
    ensures { (covers : List Covered) → AllStand earlier.now covers →
        Gives ShowsInside result (inner_by_kind (types_at names.now covers) kind.now) }
{
    match kind {
        Kind::Union { fields } => { fields_of(alloc, names, earlier, true, fields.as_slice()) }
        Kind::Ptr => Ok(Fields::new(alloc)),
        Kind::Auth => Ok(Fields::new(alloc)),
        Kind::U8 => Ok(Fields::new(alloc)),
        Kind::U16 => Ok(Fields::new(alloc)),
        Kind::U32 => Ok(Fields::new(alloc)),
        Kind::U64 => Ok(Fields::new(alloc)),
        Kind::Bytes { .. } => Ok(Fields::new(alloc)),
        Kind::Struct { .. } => Ok(Fields::new(alloc)),
    }
}

/// The fields in some braces.
#[cycle(fields)]
pub fn fields_of(
    alloc: Global,
    names: &Places<'_>,
    earlier: &[Body],
    in_union: bool,
    fields: &[Field],
) -> Result<Fields, LayoutCause>
    requires { (deep : ℕ) × All (IsSoundField deep) fields.now }
    ensures { (covers : List Covered) → AllStand earlier.now covers →
        Gives ShowsInside result (fields_from (types_at names.now covers) in_union no_fields fields.now) }
{
    let mut seen = BTreeSet::new(alloc);
    let mut so_far = Fields::new(alloc);
    for field in fields {
        let inner = inner_of(alloc, names, earlier, &field.kind)?;
        let Ok(is_new) = seen.insert(field.name.as_slice()) else {
            return Err(LayoutCause::Memory);
        };
        if !is_new {
            return Err(LayoutCause::SameName);
        }
        so_far = with_one(alloc, names, earlier, in_union, so_far, field, inner)?;
    }
    Ok(so_far)
}
