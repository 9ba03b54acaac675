//! The numbers of texts, found by hashing.
ghost use Rattle.std.specs.Prelude.{◌≡◌, ◌≤◌, ℕ, List, [], Some, cond, length, OnOk, OnErr};
ghost use Rattle.std.specs.Str.{bytes_eq};
ghost use Rattle.std.specs.Map.{lookup};
ghost use Rattle.kz_bundle.specs.Table.{key_of as packed, AreBytes, found};

use std::alloc::{AllocError, Global};
use std::collections::HashMap;

/// The most bytes that a key packs.
const MOST_PACKED: usize = 7;

/// Finds the number of a text.
///
/// A short text is packed into its key. So its entry has the text in itself, and a look-up reads no byte that the entry
/// points to.
#[derive(Drop)]
pub struct Index<'a> {
    short: HashMap<u64, u32>,
    long: HashMap<&'a [u8], u32>,
}

/// The key of a short text.
fn key_of(text: &[u8]) -> u64
    requires { length text.now ≤ 7 }
    ensures { result ≡ packed text.now }
{
    match *text {
        [] => u64::from_le_bytes([1, 0, 0, 0, 0, 0, 0, 0]),
        [a] => u64::from_le_bytes([a, 1, 0, 0, 0, 0, 0, 0]),
        [a, b] => u64::from_le_bytes([a, b, 1, 0, 0, 0, 0, 0]),
        [a, b, c] => u64::from_le_bytes([a, b, c, 1, 0, 0, 0, 0]),
        [a, b, c, d] => u64::from_le_bytes([a, b, c, d, 1, 0, 0, 0]),
        [a, b, c, d, e] => u64::from_le_bytes([a, b, c, d, e, 1, 0, 0]),
        [a, b, c, d, e, f] => u64::from_le_bytes([a, b, c, d, e, f, 1, 0]),
        [a, b, c, d, e, f, g, ..] => u64::from_le_bytes([a, b, c, d, e, f, g, 1]),
    }
}

impl<'a> Index<'a> {
    pub fn new(alloc: Global) -> Index<'a>
        ensures short { result.short.entries ≡ [] }
        ensures long { result.long.entries ≡ [] }
    {
        Index {
            short: HashMap::new(alloc),
            long: HashMap::new(alloc),
        }
    }

    pub fn get(&self, text: &[u8]) -> Option<u32>
        ensures { result ≡ found self.now text.now }
    {
        if text.len() <= MOST_PACKED {
            self.short.get(&key_of(text)).copied()
        } else {
            self.get_long(text)
        }
    }

    #[inline(never)]
    fn get_long(&self, text: &[u8]) -> Option<u32>
        ensures { result ≡ lookup (λ key. bytes_eq text.now key.now) self.now.long.entries }
    {
        self.long.get(text).copied()
    }

    /// From now on the text has this number.
    pub fn insert(&mut self, text: &'a [u8], number: u32) -> Result<(), AllocError>
        ensures ok { OnOk result ((other : List ℕ) → AreBytes other → found self.new other
            ≡ cond (bytes_eq text.now other) (Some number) (found self.old other)) }
        ensures err { OnErr result ((other : List ℕ) → found self.new other ≡ found self.old other) }
    {
        if text.len() <= MOST_PACKED {
            self.short.insert(key_of(text), number)?;
        } else {
            self.long.insert(text, number)?;
        }
        Ok(())
    }
}
