//! Step lines, by their words.
ghost use Rattle.std.specs.Prelude.{◌≡◌, Some, None, if◌then◌else◌};
ghost use Rattle.kz_model.specs.Grammar.Tokens.{is_hex as hex_form, bytes_of_hex};

use kz_model::Piece;
use kz_text::read_hex;

/// What a step line says. Names and types are words of the text.
#[derive(Drop)]
pub enum NamedStep<'a> {
    Alloc {
        name: &'a [u8],
        of: &'a [u8],
    },
    AllocZero {
        name: &'a [u8],
        of: &'a [u8],
    },
    Free {
        name: &'a [u8],
    },
    FreeAs {
        name: &'a [u8],
        of: &'a [u8],
    },
    Give {
        name: &'a [u8],
        to: u32,
    },
    Take {
        name: &'a [u8],
    },
    Read {
        name: &'a [u8],
        off: u32,
        len: u32,
    },
    Write {
        name: &'a [u8],
        off: u32,
        bytes: Piece,
    },
    Flush {
        of: &'a [u8],
    },
    Trim {
        of: &'a [u8],
    },
}

/// The bytes that HEX writes.
pub fn piece_of(word: &[u8]) -> Option<Piece>
    ensures { result ≡ (if hex_form word.now then Some (bytes_of_hex word.now) else None) }
{
    let mut bytes = [0; 32];
    match read_hex(word, &mut bytes) {
        None => None,
        Some(count) => Some(Piece::of(&bytes[..count])),
    }
}
