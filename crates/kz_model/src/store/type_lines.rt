//! Declarations of types, each kept as its line, since a line is shorter than the tree that it spells.
ghost use Rattle.std.specs.Prelude.{◌≡◌, ◌+◌, ◌<◌, ◌≤◌, [], ◌∷◌, ◌++◌, length, OnOk, OnErr, slice_index_or};
ghost use Rattle.kz_model.specs.declared.bundle.TypeDecl.{TypeDecl};
ghost use Rattle.kz_model.specs.Store.TypeLines.{IsTypeLine, no_decl};

use crate::{Items, Name};
use std::alloc::{AllocError, Global};
use std::marker::Model;

/// A declaration's name, and its line.
#[derive(Debug, Drop)]
struct TypeLine {
    name: Name,
    line: Items<u8>,
}

/// Declarations of types, in their order.
#[derive(Debug, Drop)]
pub struct Types {
    lines: Vec<TypeLine>,
}

impl Model for Types {
    ghost use Rattle.std.specs.Prelude.{List, map, All};
    ghost use Rattle.kz_model.specs.declared.bundle.TypeDecl.{TypeDecl};
    ghost use Rattle.kz_model.specs.contracts.bundle.Kind as kind;
    ghost use Rattle.std.specs.Coded.{codes};
    ghost use Rattle.kz_model.specs.Store.TypeLines.{decl_of, IsNamedLine};

    ghost Value = { List TypeDecl };

    ghost coded = { Prim.hlevel (codes, kind.the_row.coded) };

    ghost view = { λ t. map (λ l. decl_of l.line) t.lines.items };

    ghost invariant = { λ t. All (λ l. IsNamedLine l.line l.name) t.lines.items };
}

impl Types {
    pub fn new(alloc: Global) -> Types
        ensures { result ≡ [] }
    {
        Types {
            lines: Vec::new(alloc),
        }
    }

    /// One more declaration, by its name and its line without the line's end.
    pub fn push(&mut self, alloc: Global, name: Name, line: &[u8]) -> Result<(), AllocError>
        requires { (decl : TypeDecl) × IsTypeLine line.now decl × (name ≡ decl.name) }
        ensures ok { OnOk result ((decl : TypeDecl) → IsTypeLine line.now decl → self.new ≡ self.old ++ decl ∷ []) }
        ensures err { OnErr result (self.new ≡ self.old) }
    {
        let line = Items::from_vec(Vec::from_slice(alloc, line)?);
        self.lines.push(TypeLine { name, line })?;
        Ok(())
    }

    pub fn len(&self) -> usize
        ensures { result ≡ length self.now }
    {
        self.lines.len()
    }

    /// The line of the declaration at this place.
    pub fn line(&self, at: usize) -> &[u8]
        requires { at < length self.now }
        ensures { IsTypeLine result.now (slice_index_or self.now at no_decl) }
    {
        self.lines[at].line.as_slice()
    }

    /// The name of the declaration at this place.
    pub fn name(&self, at: usize) -> &[u8]
        requires { at < length self.now }
        ensures { result.now ≡ (slice_index_or self.now at no_decl).name }
    {
        self.lines[at].name.as_slice()
    }
}
