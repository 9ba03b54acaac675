//! Numbers and bytes as they are written.
ghost use Rattle.std.specs.Prelude.{◌≡◌, ◌<◌, ◌++◌, false, decimal, OnOk};
ghost use Rattle.std.specs.Fmt.{digit_glyph};
ghost use Rattle.kz_model.specs.Text.Lines.{hex_bytes, hex_of_byte};

use itoa::Buffer;
use std::alloc::AllocError;

/// The digits of a hexadecimal number.
static GLYPHS: [u8; 16] = *b"0123456789abcdef";

/// A hexadecimal digit.
#[inline(always)]
pub fn glyph(digit: u64) -> u8
    requires { digit < 16 }
    ensures { result ≡ digit_glyph false digit }
{
    GLYPHS[digit as usize]
}

/// A number in decimal.
#[inline(always)]
pub fn push_decimal(out: &mut Vec<u8>, number: u64) -> Result<(), AllocError>
    ensures { OnOk result (out.new.items ≡ out.old.items ++ decimal number) }
{
    if number < 10 {
        return out.extend_from_slice(&[b'0' + number as u8]);
    }
    let mut digits = Buffer::new();
    out.extend_from_slice(digits.format(number).as_bytes())
}

/// Each byte as two hexadecimal digits.
pub fn push_hex(out: &mut Vec<u8>, bytes: &[u8]) -> Result<(), AllocError>
    ensures { OnOk result (out.new.items ≡ out.old.items ++ hex_bytes bytes.now) }
{
    for byte in bytes {
        push_byte(out, u64::from(*byte))?;
    }
    Ok(())
}

fn push_byte(out: &mut Vec<u8>, byte: u64) -> Result<(), AllocError>
    requires { byte < 256 }
    ensures { OnOk result (out.new.items ≡ out.old.items ++ hex_of_byte byte) }
{
    out.extend_from_slice(&[glyph(byte / 16), glyph(byte % 16)])
}
