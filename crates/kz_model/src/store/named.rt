//! The names of a bundle as they are kept. Their types stand apart from their texts, so that a look at a type touches
//! few bytes.
ghost use Rattle.std.specs.Prelude.{◌≡◌, ◌<◌, ◌++◌, [], ◌∷◌, length, IfOk, OnOk, OnErr, slice_index_or};
ghost use Rattle.kz_model.specs.Store.NameTable.{no_row};

use crate::{Name, NameRow};
use std::alloc::{AllocError, Global};
use std::marker::Model;

/// Names with their types, in their order.
#[derive(Debug, Drop)]
pub struct NameRows {
    names: Vec<Name>,
    types: Vec<u32>,
}

impl Model for NameRows {
    ghost use Rattle.std.specs.Prelude.{List, ◌≡◌, length};
    ghost use Rattle.kz_model.specs.declared.bundle.NameRow.{NameRow};
    ghost use Rattle.kz_model.specs.Store.NameTable.{rows_meant};

    ghost Value = { List NameRow };

    ghost view = { λ r. rows_meant r.names.items r.types.items };

    ghost invariant = { λ r. length r.types.items ≡ length r.names.items };
}

impl NameRows {
    /// No name, with room for so many.
    pub fn with_capacity(alloc: Global, names: usize) -> Result<NameRows, AllocError>
        ensures { IfOk result (λ rows. rows ≡ []) }
    {
        Ok(NameRows {
            names: Vec::with_capacity(alloc, names)?,
            types: Vec::with_capacity(alloc, names)?,
        })
    }

    pub fn len(&self) -> usize
        ensures { result ≡ length self.now }
    {
        self.names.len()
    }

    /// One more name.
    pub fn push(&mut self, row: NameRow) -> Result<(), AllocError>
        ensures ok { OnOk result (self.new ≡ self.old ++ row ∷ []) }
        ensures err { OnErr result (self.new ≡ self.old) }
    {
        self.names.reserve(1)?;
        self.types.reserve(1)?;
        self.names.push_reserved(row.name);
        self.types.push_reserved(row.of);
        Ok(())
    }

    /// The name at this place.
    pub fn name(&self, at: usize) -> &Name
        requires { at < length self.now }
        ensures { result.now ≡ (slice_index_or self.now at no_row).name }
    {
        &self.names[at]
    }

    /// The type of the name at this place.
    pub fn of(&self, at: usize) -> u32
        requires { at < length self.now }
        ensures { result ≡ (slice_index_or self.now at no_row).of }
    {
        self.types[at]
    }
}
