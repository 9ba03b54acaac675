//! Where each type is declared first.
ghost use Rattle.std.specs.Prelude.{◌≡◌, ◌≤◌, length, IfOk};
ghost use Rattle.kz_model.specs.Types.Layouts.{place_of};
ghost use Rattle.kz_model.specs.Grammar.Tokens.{texts};

use std::alloc::{AllocError, Global};
use std::collections::BTreeMap;
use std::marker::Model;

/// The names of all declarations, and the place of the first declaration of each name.
#[derive(Drop)]
pub struct Places<'a> {
    names: Vec<&'a [u8]>,
    places: BTreeMap<&'a [u8], u32>,
}

impl<'a> Model for Places<'a> {
    ghost use Rattle.kz_model.specs.Types.Layouts.{Text};
    ghost use Rattle.std.specs.Prelude.{List};
    ghost use Rattle.kz_model.specs.Grammar.Tokens.{texts};

    ghost Value = { List Text };

    ghost view = { λ p. texts p.names.items };

    ghost use Rattle.kz_layout.specs.Tables.{ArePlaces};

    ghost invariant = { λ p. ArePlaces p.places (texts p.names.items) };
}

impl<'a> Places<'a> {
    pub fn of(alloc: Global, names: Vec<&'a [u8]>) -> Result<Places<'a>, AllocError>
        requires { length names.items ≤ 1024 }
        ensures { IfOk result (λ p. p ≡ texts names.entry.items) }
    {
        let mut places = BTreeMap::new(alloc);
        for (place, name) in names.iter().enumerate() {
            if !places.contains_key(*name) {
                places.insert(*name, place as u32)?;
            }
        }
        Ok(Places { names, places })
    }

    pub fn place(&self, name: &[u8]) -> Option<u32>
        ensures { result ≡ place_of name.now self.now }
    {
        self.places.get(name).copied()
    }
}
