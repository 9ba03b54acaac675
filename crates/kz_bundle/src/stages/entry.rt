//! Names by their first `a` or `z` lines.
ghost use Rattle.std.specs.Prelude.{◌≡◌, ◌<◌, ◌≤◌, ◌^◌, ℕ, List, [], length, map, replicate, unwrap_or, slice_index, All, Some, None, MatchOption, IfOk, OnOk, OnErr};
ghost use Rattle.kz_model.specs.Grammar.Spelling.{text_at};
ghost use Rattle.kz_model.specs.Grammar.Stages.{row_of, row_names, with_bound};
ghost use Rattle.kz_model.specs.Grammar.Tokens.{texts};
ghost use Rattle.kz_bundle.specs.Parts.{AreOnce};
ghost use Rattle.kz_bundle.specs.Rows.{name_row, numbered_row, ArePlacesOf};

use kz_model::{Name, NameRow, NameRows};
use std::alloc::{AllocError, Global};
use std::marker::Model;

/// A name's first `a` or `z` line: the numbers of its name and of its type, and the CPU.
#[derive(Clone, Copy, Debug, PartialEq, Eq)]
pub struct Entry {
    pub name: u32,
    pub of: u32,
    pub cpu: u32,
}

/// The names that are bound so far, in the order of their first `a` or `z` line.
#[derive(Drop)]
pub struct Rows<'a> {
    names: &'a [&'a [u8]],
    words: &'a [&'a [u8]],
    entries: Vec<Entry>,
    places: Vec<Option<u32>>,
}

impl<'a> Model for Rows<'a> {
    ghost use Rattle.kz_bundle.specs.Rows.{Rows as Seen, rows_meant, AreEntries};
    ghost use Rattle.kz_model.specs.Grammar.Tokens.{texts};
    ghost use Rattle.kz_bundle.specs.Parts.{AreOnce};
    ghost use Rattle.std.specs.Prelude.{length, ◌<◌, ◌^◌};

    ghost Value = { Seen };

    ghost view = { λ r. record {
      names = texts r.names.now;
      words = texts r.words.now;
      rows =
          rows_meant (texts r.names.now) (texts r.words.now) r.entries.items;
    } };

    ghost invariant = { λ r. AreOnce (texts r.names.now) ×
        AreEntries (texts r.names.now) (texts r.words.now) r.entries.items r.places.items ×
        (length r.names.now < 2 ^ 32) };
}

fn no_places(alloc: Global, names: usize) -> Result<Vec<Option<u32>>, AllocError>
    ensures none { IfOk result (λ places. places.items ≡ replicate names None) }
    ensures len { IfOk result (λ places. length places.items ≡ names) }
{
    vec![in alloc; None; names]
}

/// These places, and another number where there is none.
pub fn placed_or(alloc: Global, places: &[Option<u32>], other: u32) -> Result<Vec<u32>, AllocError>
    ensures { IfOk result (λ numbers. numbers.items ≡ map (λ place. unwrap_or place other) places.now) }
{
    places
        .iter()
        .map(|place| place.unwrap_or(other))
        .collect(alloc)
}

/// The rows of these entries, with the numbers of their types.
fn rows_of(
    alloc: Global,
    names: &[&[u8]],
    entries: &[Entry],
    types: &[u32],
) -> Result<NameRows, AllocError>
    requires names { All (λ entry. entry.name < length names.now) entries.now }
    requires types { All (λ entry. entry.of < length types.now) entries.now }
    requires short { All (λ name. length name.now ≤ 32) names.now }
    ensures { IfOk result (λ rows. rows ≡ map (numbered_row (texts names.now) types.now) entries.now) }
{
    let mut rows = NameRows::with_capacity(alloc, entries.len())?;
    for entry in entries {
        rows.push(NameRow {
            name: Name::of(names[entry.name as usize]),
            of: types[entry.of as usize],
        })?;
    }
    Ok(rows)
}

impl<'a> Rows<'a> {
    pub fn new(
        alloc: Global,
        names: &'a [&'a [u8]],
        words: &'a [&'a [u8]],
    ) -> Result<Rows<'a>, AllocError>
        requires once { AreOnce (texts names.now) }
        requires few { length names.now < 2 ^ 32 }
        ensures { IfOk result (λ rows. rows ≡ record { names = texts names.now; words = texts words.now; rows = [] }) }
    {
        let places = no_places(alloc, names.len())?;
        Ok(Rows {
            names,
            words,
            entries: Vec::new(alloc),
            places,
        })
    }

    pub fn len(&self) -> usize
        ensures { result ≡ length self.now.rows }
    {
        self.entries.len()
    }

    /// The name's first line.
    pub fn get(&self, name: u32) -> Option<Entry>
        requires { name < length self.now.names }
        ensures { MatchOption result (row_of (text_at self.now.names name) self.now.rows ≡ None)
            (λ entry. (row_of (text_at self.now.names name) self.now.rows
            ≡ Some (record {
              name = text_at self.now.names name;
              of = text_at self.now.words entry.of;
              cpu =
                  entry.cpu;
            })) × (entry.of < length self.now.words)) }
    {
        match self.places[name as usize] {
            None => None,
            Some(place) => Some(self.entries[place as usize]),
        }
    }

    /// A name's first line, where it has none yet.
    pub fn bind(&mut self, entry: Entry) -> Result<(), AllocError>
        requires name { entry.name < length self.old.names }
        requires word { entry.of < length self.old.words }
        ensures ok { OnOk result (self.new
            ≡ record self.old {
              rows =
                  with_bound self.old.rows entry.cpu
                  (Some (text_at self.old.names entry.name, text_at self.old.words entry.of));
            }) }
        ensures err { OnErr result (self.new ≡ self.old) }
    {
        let at = entry.name as usize;
        if self.places[at].is_none() {
            let place = self.entries.len() as u32;
            self.entries.push(entry)?;
            self.places[at] = Some(place);
        }
        Ok(())
    }

    /// The place of each name's row, by the name's number; for a name without one how many rows there are.
    pub fn numbers(&self, alloc: Global) -> Result<Vec<u32>, AllocError>
        ensures { IfOk result (λ numbers. ArePlacesOf (row_names self.now.rows) self.now.names numbers.items) }
    {
        placed_or(alloc, &self.places, self.entries.len() as u32)
    }

    /// The rows, with the numbers of their types by those of their words.
    pub fn name_rows(&self, alloc: Global, types: &[u32]) -> Result<NameRows, AllocError>
        requires short { All (λ name. length name ≤ 32) self.now.names }
        requires types { length types.now ≡ length self.now.words }
        ensures { IfOk result (λ rows. (declared : List (List ℕ)) → ArePlacesOf declared self.now.words types.now →
            rows ≡ map (name_row declared) self.now.rows) }
    {
        rows_of(alloc, self.names, &self.entries, types)
    }
}
