//! A set of ordinals, as bits.
ghost use Rattle.std.specs.Prelude.{◌≡◌, ◌≢◌, ◌+◌, ◌*◌, ◌/◌, ◌^◌, ◌<◌, ◌≤◌, ℕ, true, false, length, slice_index, ◌==◌, if◌then◌else◌, IfOk, IfSome, IfNone, replicate};
ghost use Rattle.std.specs.Int.{bit_at};
ghost use Rattle.kz_queue.specs.Ordinals.{has, IsFirstWord, IsLowest};

use std::alloc::{AllocError, Global};
use std::marker::Model;

/// The word with a bit set.
fn with_bit(word: u64, bit: u32) -> u64
    requires { bit < 64 }
    ensures set { bit_at result bit ≡ 1 }
    ensures others { (other : ℕ) → other ≢ bit → bit_at result other ≡ bit_at word other }
    ensures some { 0 < result }
{
    word | (1 << bit)
}

/// The word with a bit cleared.
fn without_bit(word: u64, bit: u32) -> u64
    requires { bit < 64 }
    ensures cleared { bit_at result bit ≡ 0 }
    ensures others { (other : ℕ) → other < 64 → other ≢ bit → bit_at result other ≡ bit_at word other }
    ensures less { result ≤ word }
{
    word & !(1 << bit)
}

/// Takes an ordinal into a set.
fn take_in(words: &mut Vec<u64>, ordinal: u32)
    requires { ordinal < 64 * length words.old.items }
    ensures has { (other : ℕ) → other < 64 * length words.old.items → has words.new.items other
        ≡ (if other == ordinal then true else has words.old.items other) }
    ensures words { length words.new.items ≡ length words.old.items }
    ensures others { (word : ℕ) → word ≢ ordinal / 64 →
        slice_index words.new.items word ≡ slice_index words.old.items word }
    ensures some { 0 < slice_index words.new.items (ordinal / 64) }
{
    let word = ordinal as usize / 64;
    words[word] = with_bit(words[word], ordinal % 64);
}

/// Lets an ordinal of a set go.
fn let_go(words: &mut Vec<u64>, ordinal: u32)
    requires { ordinal < 64 * length words.old.items }
    ensures has { (other : ℕ) → other < 64 * length words.old.items → has words.new.items other
        ≡ (if other == ordinal then false else has words.old.items other) }
    ensures words { length words.new.items ≡ length words.old.items }
    ensures others { (word : ℕ) → word ≢ ordinal / 64 →
        slice_index words.new.items word ≡ slice_index words.old.items word }
    ensures less { slice_index words.new.items (ordinal / 64) ≤ slice_index words.old.items (ordinal / 64) }
{
    let word = ordinal as usize / 64;
    words[word] = without_bit(words[word], ordinal % 64);
}

/// The place of the first word that isn't 0.
fn first_word(words: &[u64]) -> Option<usize>
    ensures some { IfSome result (λ word. IsFirstWord words.now word) }
    ensures none { IfNone result ((word : ℕ) → word < length words.now → slice_index words.now word ≡ 0) }
{
    words.iter().position(|word| 0 < *word)
}

/// The lowest ordinal of a set whose first word that isn't 0 stands here.
fn lowest_at(words: &[u64], word: usize) -> usize
    requires few { length words.now ≤ 2 ^ 26 }
    requires first { IsFirstWord words.now word }
    ensures { IsLowest words.now result }
{
    64 * word + words[word].trailing_zeros() as usize
}

/// Ordinals, as many as 64 times the words. Bit k of word g is ordinal 64 g + k. The summary is such a set too, of the
/// numbers of the words that aren't 0.
#[derive(Drop)]
pub struct Ordinals {
    words: Vec<u64>,
    summary: Vec<u64>,
}

impl Model for Ordinals {
    ghost use Rattle.std.specs.Prelude.{List, ℕ};
    ghost use Rattle.kz_queue.specs.Ordinals.{IsSummed};

    ghost Value = { List ℕ };

    ghost view = { λ o. o.words.items };

    ghost invariant = { λ o. IsSummed o.words.items o.summary.items };
}

impl Ordinals {
    /// None of the ordinals below 64 times so many.
    pub fn new(alloc: Global, words: usize) -> Result<Ordinals, AllocError>
        requires { words ≤ 2 ^ 26 }
        ensures { IfOk result (λ ordinals. ordinals ≡ replicate words 0) }
    {
        Ok(Ordinals {
            words: vec![in alloc; 0; words]?,
            summary: vec![in alloc; 0; (words + 63) / 64]?,
        })
    }

    /// The lowest one.
    pub fn lowest(&self) -> Option<u32>
        ensures some { IfSome result (λ ordinal. (has self.now ordinal ≡ true) ×
            ((other : ℕ) → other < ordinal → has self.now other ≡ false)) }
        ensures within { IfSome result (λ ordinal. ordinal < 64 * length self.now) }
        ensures none { IfNone result ((ordinal : ℕ) → ordinal < 64 * length self.now → has self.now ordinal ≡ false) }
    {
        let first = first_word(self.summary.as_slice())?;
        let word = lowest_at(self.summary.as_slice(), first);
        Some(lowest_at(self.words.as_slice(), word) as u32)
    }

    /// Takes an ordinal in.
    pub fn add(&mut self, ordinal: u32)
        requires { ordinal < 64 * length self.old }
        ensures has { (other : ℕ) → other < 64 * length self.old → has self.new other
            ≡ (if other == ordinal then true else has self.old other) }
        ensures words { length self.new ≡ length self.old }
    {
        take_in(&mut self.words, ordinal);
        take_in(&mut self.summary, ordinal / 64);
    }

    /// Lets an ordinal go.
    pub fn remove(&mut self, ordinal: u32)
        requires { ordinal < 64 * length self.old }
        ensures has { (other : ℕ) → other < 64 * length self.old → has self.new other
            ≡ (if other == ordinal then false else has self.old other) }
        ensures words { length self.new ≡ length self.old }
    {
        let word = ordinal / 64;
        let_go(&mut self.words, ordinal);
        if self.words[word as usize] == 0 {
            let_go(&mut self.summary, word);
        }
    }
}
