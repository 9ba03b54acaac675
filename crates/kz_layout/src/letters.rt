//! The letters of granules.
ghost use Rattle.std.specs.Prelude.{◌≡◌, map, IfOk};
ghost use Rattle.kz_model.specs.Types.Cover.{glyph as glyph_by_code};

use std::alloc::{AllocError, Global};

const DIGITS: [u8; 16] = *b"0123456789abcdef";

fn glyph(code: u8) -> u8
    ensures { result ≡ glyph_by_code code }
{
    DIGITS.get(usize::from(code)).copied().unwrap_or(0)
}

pub fn letters_of(alloc: Global, codes: &[u8]) -> Result<Vec<u8>, AllocError>
    ensures { IfOk result (λ v. v.items ≡ map glyph_by_code codes.now) }
{
    codes.iter().map(|code| glyph(*code)).collect(alloc)
}
