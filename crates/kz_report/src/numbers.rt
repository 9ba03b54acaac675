//! Numbers as they are written.
ghost use Rattle.std.specs.Prelude.{◌≡◌, ◌+◌, ◌<◌, ◌≤◌, ◌++◌, false, length, drop, decimal, OnOk};
ghost use Rattle.std.specs.Fmt.{digits};
ghost use Rattle.kz_model.specs.Text.Lines.{hex};

use kz_text::{glyph, push_decimal};
use std::alloc::AllocError;

/// The most digits of a hexadecimal number.
const HEX_DIGITS: usize = 16;

/// The words, and behind them a number in decimal.
#[inline(always)]
pub fn push_number(out: &mut Vec<u8>, words: &[u8], number: u64) -> Result<(), AllocError>
    ensures { OnOk result (out.new.items ≡ out.old.items ++ (words.now ++ decimal number)) }
{
    out.extend_from_slice(words)?;
    push_decimal(out, number)
}

/// Writes the hexadecimal digits so that they end at `end`, and returns where they start.
pub fn hexadecimal_before(text: &mut [u8], end: usize, number: u64) -> usize
    requires room { 16 ≤ end }
    requires end { end ≤ length text.old }
    ensures start { result ≤ end }
    ensures few { end ≤ result + 16 }
    ensures written { drop result text.new ≡ digits 16 false number ++ drop end text.old }
    ensures length { length text.new ≡ length text.old }
{
    let mut left = number;
    let mut at = end;
    while left >= 16 {
        at -= 1;
        text[at] = glyph(left % 16);
        left /= 16;
    }
    at -= 1;
    text[at] = glyph(left);
    at
}

/// Writes the bytes so that they end at `end`, and returns where they start.
pub fn bytes_before(text: &mut [u8], end: usize, bytes: &[u8]) -> usize
    requires room { length bytes.now ≤ end }
    requires end { end ≤ length text.old }
    ensures start { result + length bytes.now ≡ end }
    ensures written { drop result text.new ≡ bytes.now ++ drop end text.old }
    ensures length { length text.new ≡ length text.old }
{
    let start = end - bytes.len();
    text[start..end].copy_from_slice(bytes);
    start
}

/// An address.
pub fn push_address(out: &mut Vec<u8>, address: u64) -> Result<(), AllocError>
    ensures { OnOk result (out.new.items ≡ out.old.items ++ hex address) }
{
    let mut digits = [0; HEX_DIGITS];
    let start = hexadecimal_before(&mut digits, HEX_DIGITS, address);
    out.extend_from_slice(b"0x")?;
    out.extend_from_slice(&digits[start..])
}
