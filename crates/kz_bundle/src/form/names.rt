//! A table from texts to their numbers.
ghost use Rattle.std.specs.Prelude.{◌≡◌, ◌≤◌, ◌<◌, ◌++◌, ◌∷◌, [], length, None, IfOk, OnOk, OnErr, vec_len, vec_capacity};
ghost use Rattle.kz_model.specs.Grammar.Stages.{place_of};
ghost use Rattle.kz_model.specs.Grammar.Spelling.{text_at};
ghost use Rattle.kz_model.specs.Grammar.Tokens.{texts};
ghost use Rattle.kz_bundle.specs.Parts.{AreOnce};
ghost use Rattle.kz_bundle.specs.Table.{with_text, number_of};

use crate::form::index::Index;
use std::alloc::{AllocError, Global};
use std::marker::Model;

/// Texts in the order in which they came, each once.
#[derive(Drop)]
pub struct Names<'a> {
    numbers: Index<'a>,
    table: Vec<&'a [u8]>,
}

impl<'a> Model for Names<'a> {
    ghost use Rattle.std.specs.Prelude.{ℕ, List};
    ghost use Rattle.kz_model.specs.Grammar.Tokens.{texts};
    ghost use Rattle.kz_bundle.specs.Parts.{AreOnce};
    ghost use Rattle.kz_bundle.specs.Table.{FindsTexts};

    ghost Value = { List (List ℕ) };

    ghost view = { λ n. texts n.table.items };

    ghost invariant = { λ n. FindsTexts n.numbers (texts n.table.items) × AreOnce (texts n.table.items) };
}

/// Appends where there is room.
fn put<'a>(table: &mut Vec<&'a [u8]>, text: &'a [u8])
    requires { vec_len table.old < vec_capacity table.old }
    ensures { texts table.new.items ≡ texts table.old.items ++ text.now ∷ [] }
{
    let _ = table.push(text);
}

impl<'a> Names<'a> {
    pub fn new(alloc: Global) -> Names<'a>
        ensures { result ≡ [] }
    {
        Names {
            numbers: Index::new(alloc),
            table: Vec::new(alloc),
        }
    }

    /// A text that isn't there yet is added.
    #[inline(never)]
    fn add(&mut self, text: &'a [u8]) -> Result<u32, AllocError>
        requires few { length self.old ≤ 1000000 }
        requires absent { number_of text.now self.old ≡ None }
        ensures number { IfOk result (λ number. number ≡ place_of text.now self.new) }
        ensures within { IfOk result (λ number. number < length self.new) }
        ensures text { IfOk result (λ number. text_at self.new number ≡ text.now) }
        ensures names { OnOk result (self.new ≡ with_text text.now self.old) }
        ensures err { OnErr result (self.new ≡ self.old) }
    {
        let number = self.table.len() as u32;
        self.table.reserve(1)?;
        self.numbers.insert(text, number)?;
        put(&mut self.table, text);
        Ok(number)
    }

    /// The number of a text, which is added where it is not there yet.
    pub fn number(&mut self, text: &'a [u8]) -> Result<u32, AllocError>
        requires { length self.old ≤ 1000000 }
        ensures number { IfOk result (λ number. number ≡ place_of text.now self.new) }
        ensures within { IfOk result (λ number. number < length self.new) }
        ensures text { IfOk result (λ number. text_at self.new number ≡ text.now) }
        ensures names { OnOk result (self.new ≡ with_text text.now self.old) }
        ensures err { OnErr result (self.new ≡ self.old) }
    {
        match self.numbers.get(text) {
            Some(number) => Ok(number),
            None => self.add(text),
        }
    }

    /// The texts by their numbers.
    pub fn into_texts(self) -> Vec<&'a [u8]>
        ensures texts { texts result.items ≡ self.entry }
        ensures once { AreOnce self.entry }
    {
        self.table
    }
}
