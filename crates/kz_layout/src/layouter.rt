//! A layouter, which takes one declaration at a time.
ghost use Rattle.std.specs.Prelude.{◌≡◌, ◌≢◌, ◌≤◌, All, List, Ok, Err, [], ◌∷◌, ◌++◌, map, length, IfOk, IfErr};
ghost use Rattle.kz_model.specs.declared.bundle.TypeDecl.{TypeDecl};
ghost use Rattle.kz_model.specs.Types.Cover.{Covered};
ghost use Rattle.kz_model.specs.Types.Layouts.{is_earlier, layouts_of, names_of, place_of, type_cover, IsSoundField};
ghost use Rattle.kz_layout.specs.Gives.{Gives};
ghost use Rattle.kz_layout.specs.Granules.{layout_by_codes, AllStand, Stands};
ghost use Rattle.kz_layout.specs.Laid.{HasLaidOut, IsSize};
ghost use Rattle.kz_layout.specs.Shown.{types_at};
ghost use Rattle.kz_model.specs.Grammar.Tokens.{texts};

use crate::body::{Body, layout_of};
use crate::braces::{fields_of, whole};
use crate::places::Places;
use kz_model::{Layout, LayoutCause, Name, TypeDecl};
use std::alloc::{AllocError, Global};
use std::marker::Model;

/// Whether one of this many first declarations has the name.
fn is_taken(names: &Places<'_>, earlier: usize, name: &Name) -> bool
    ensures { result ≡ is_earlier earlier (place_of name.now names.now) }
{
    match names.place(name.as_slice()) {
        None => false,
        Some(place) => (place as usize) < earlier,
    }
}

/// The body of the declaration that follows the earlier ones.
fn type_body(
    alloc: Global,
    names: &Places<'_>,
    earlier: &[Body],
    decl: &TypeDecl,
) -> Result<Body, LayoutCause>
    requires { All (IsSoundField 8) decl.now.fields }
    ensures { (covers : List Covered) → AllStand earlier.now covers →
        Gives Stands result (type_cover (types_at names.now covers) decl.now) }
{
    if is_taken(names, earlier.len(), &decl.name) {
        return Err(LayoutCause::SameName);
    }
    whole(fields_of(alloc, names, earlier, false, decl.fields.as_slice())?)
}

fn layouts_of_all(alloc: Global, bodies: &[Body]) -> Result<Vec<Layout>, AllocError>
    ensures items { IfOk result (λ v. v.items ≡ map layout_by_codes bodies.now) }
    ensures sizes { IfOk result (λ v. All IsSize v.items) }
{
    let mut layouts = Vec::new(alloc);
    for body in bodies {
        layouts.push(layout_of(alloc, body)?)?;
    }
    Ok(layouts)
}

/// Lays declarations out one after the other.
///
/// It borrows the names, and nothing of a declaration that it was given.
#[derive(Drop)]
pub struct Layouter<'a> {
    alloc: Global,
    names: Places<'a>,
    bodies: Vec<Body>,
}

impl<'a> Model for Layouter<'a> {
    ghost use Rattle.kz_layout.specs.Laid.{Laid};

    ghost Value = { Laid };

    ghost view = { λ l. record { names = l.names; bodies = l.bodies.items } };
}

impl<'a> Layouter<'a> {
    /// A layouter for declarations of these names, in this order, which has laid out none.
    pub fn new(alloc: Global, names: Vec<&'a [u8]>) -> Result<Layouter<'a>, AllocError>
        requires { length names.items ≤ 1024 }
        ensures none { IfOk result (λ l. HasLaidOut l []) }
        ensures names { IfOk result (λ l. l.names ≡ texts names.entry.items) }
    {
        Ok(Layouter {
            alloc,
            names: Places::of(alloc, names)?,
            bodies: Vec::new(alloc),
        })
    }

    /// Lays out the next declaration.
    ///
    /// A fault is the first one of all declarations, whichever follow.
    pub fn add(&mut self, decl: &TypeDecl) -> Result<(), LayoutCause>
        requires { All (IsSoundField 8) decl.now.fields }
        ensures names { self.new.names ≡ self.old.names }
        ensures ok { IfOk result (λ _. (decls : List TypeDecl) → HasLaidOut self.old decls →
            HasLaidOut self.new (decls ++ decl.now ∷ [])) }
        ensures unchanged { IfErr result (λ _. self.new ≡ self.old) }
        ensures fault { IfErr result (λ cause. cause ≢ LayoutCause.Memory → (decls more : List TypeDecl) →
            HasLaidOut self.old decls → names_of (decls ++ decl.now ∷ more) ≡ self.old.names →
            layouts_of (decls ++ decl.now ∷ more) ≡ Err (record { at = length decls; cause = cause })) }
    {
        let body = type_body(self.alloc, &self.names, self.bodies.as_slice(), decl)?;
        if self.bodies.push(body).is_err() {
            return Err(LayoutCause::Memory);
        }
        Ok(())
    }

    /// The layouts, once all declarations were laid out.
    pub fn finish(self, alloc: Global) -> Result<Vec<Layout>, AllocError>
        ensures ok { IfOk result (λ all. (decls : List TypeDecl) → HasLaidOut self.entry decls → names_of decls
            ≡ self.entry.names → layouts_of decls ≡ Ok all.items) }
        ensures sizes { IfOk result (λ all. All IsSize all.items) }
    {
        layouts_of_all(alloc, self.bodies.as_slice())
    }
}
