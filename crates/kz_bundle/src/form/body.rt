//! Type lines, with their fields.
ghost use Rattle.std.specs.Prelude.{◌≡◌, IfOk, IsTrue};
ghost use Rattle.std.specs.Option.{option_map};
ghost use Rattle.kz_model.specs.Grammar.Tokens.{tokens_of, is_name as name_form};
ghost use Rattle.kz_model.specs.Grammar.TypeLine.{type_line};
ghost use Rattle.kz_bundle.specs.Bodies.{label_as, words_in};
ghost use Rattle.kz_bundle.specs.Outlines.{IsNamed, UnionOpens, UnionCloses, LabelIs, event_as, no_outline};
ghost use Rattle.kz_bundle.specs.Walks.{no_fields, with_event as event_told, fields_after, decl_alone};

use crate::form::label::Label;
use crate::form::outline::{Event, Next, Walk};
use crate::form::tokens::{cut, is, is_name, name_of};
use kz_model::{Field, Items, Kind, TypeDecl};
use std::alloc::{AllocError, Global};

/// The fields of a body so far: of the innermost that is open, of those around it, the innermost
/// last, and the kind of the field that was begun.
#[derive(Drop)]
struct Fields {
    outer: Items<Items<Field>>,
    inner: Items<Field>,
    kind: Kind,
}

impl Fields {
    fn new(alloc: Global) -> Fields
        ensures { result ≡ no_fields }
    {
        Fields {
            outer: Items::new(alloc),
            inner: Items::new(alloc),
            kind: Kind::Ptr,
        }
    }

    /// A union's fields begin.
    fn in_union(self, alloc: Global) -> Result<Fields, AllocError>
        ensures { IfOk result (λ more. more ≡ event_told self UnionOpens) }
    {
        let Fields {
            mut outer,
            inner,
            kind,
        } = self;
        outer.push(inner)?;
        Ok(Fields {
            outer,
            inner: Items::new(alloc),
            kind,
        })
    }

    /// A union's fields end.
    fn after_union(self) -> Fields
        ensures { result ≡ event_told self UnionCloses }
    {
        let Fields {
            mut outer,
            inner,
            kind,
        } = self;
        match outer.pop() {
            None => Fields { outer, inner, kind },
            Some(last) => Fields {
                outer,
                inner: last,
                kind: Kind::Union { fields: inner },
            },
        }
    }

    /// A field ends with this label.
    fn with_label(self, label: Label<'_>) -> Result<Fields, AllocError>
        requires { IsTrue (name_form label.name.now) }
        ensures { IfOk result (λ more. more ≡ event_told self (LabelIs (label_as label.entry))) }
    {
        let Fields {
            outer,
            mut inner,
            kind,
        } = self;
        inner.push(Field {
            kind,
            name: name_of(label.name),
            count: label.count,
        })?;
        Ok(Fields {
            outer,
            inner,
            kind: Kind::Ptr,
        })
    }

    /// What one more word says.
    fn with_event(self, alloc: Global, event: Event<'_>) -> Result<Fields, AllocError>
        requires { IsNamed event }
        ensures { IfOk result (λ more. more ≡ event_told self (event_as event.entry)) }
    {
        match event {
            Event::Nothing => Ok(self),
            Event::KindIs(kind) => Ok(Fields { kind, ..self }),
            Event::UnionOpens => self.in_union(alloc),
            Event::UnionCloses => Ok(self.after_union()),
            Event::LabelIs(label) => self.with_label(label),
        }
    }
}

/// The fields of a body. None where the words are no body.
fn fields_of(alloc: Global, words: Option<&[u8]>) -> Result<Option<Items<Field>>, AllocError>
    ensures { IfOk result (λ found. found ≡ fields_after no_outline no_fields (words_in words.entry)) }
{
    let mut fields = Fields::new(alloc);
    let mut walk = Walk::over(words);
    loop {
        match walk.next() {
            Next::Word(event) => fields = fields.with_event(alloc, event)?,
            Next::End(_) => return Ok(Some(fields.inner)),
            Next::NoForm => return Ok(None),
        }
    }
}

/// The declaration of a type line. None where the line has no form.
pub fn read_type(alloc: Global, line: &[u8]) -> Result<Option<TypeDecl>, AllocError>
    ensures { IfOk result (λ found. found ≡ option_map decl_alone (type_line (tokens_of line.now))) }
{
    let (first, rest) = cut(line);
    let Some(rest) = rest else {
        return Ok(None);
    };
    let (name, rest) = cut(rest);
    if !is(first, b"type") || !is_name(name) {
        return Ok(None);
    }
    match fields_of(alloc, rest)? {
        None => Ok(None),
        Some(fields) => Ok(Some(TypeDecl {
            name: name_of(name),
            fields,
        })),
    }
}
