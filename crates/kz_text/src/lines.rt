//! A text line by line.
ghost use Rattle.std.specs.Prelude.{◌≡◌, ◌≢◌, ◌+◌, ◌^◌, ◌<◌, ◌==◌, length, IfNone, IfSome};
ghost use Rattle.std.specs.List.{All};
ghost use Rattle.kz_text.specs.Lines.{TakesLine, EndsAt};

use std::marker::Model;
use std::simd::prelude::*;

/// A line without its end, and its number, from 1.
#[derive(Clone, Copy, Debug)]
pub struct Line<'a> {
    pub number: u32,
    pub text: &'a [u8],
}

/// The lines of a text, one after the other. A line ends with byte 0A.
#[derive(Drop)]
pub struct Lines<'a> {
    rest: &'a [u8],
    number: u32,
}

impl<'a> Model for Lines<'a> {
    ghost use Rattle.std.specs.Prelude.{◌+◌, ◌^◌, ◌<◌, length};
    ghost use Rattle.kz_text.specs.Lines.{Lines as Seen};

    ghost Value = { Seen };

    ghost view = { λ l. record { rest = l.rest.now; number = l.number } };

    ghost invariant = { λ l. l.number + length l.rest.now < 2 ^ 32 };
}

impl<'a> Lines<'a> {
    /// The lines of these bytes, from number 1 on.
    pub fn new(bytes: &'a [u8]) -> Lines<'a>
        requires { length bytes.now < 2 ^ 32 }
        ensures { result ≡ record { rest = bytes.now; number = 0 } }
    {
        Lines {
            rest: bytes,
            number: 0,
        }
    }

    /// The next line that is ended. Where no end is left it is None, and nothing changes.
    pub fn next(&mut self) -> Option<Line<'a>>
        ensures some { IfSome result (λ line. TakesLine self.old self.new line.text.now line.number) }
        ensures none { IfNone result (All (λ byte. byte ≢ 10) self.old.rest) }
        ensures unchanged { IfNone result (self.new ≡ self.old) }
    {
        let Some(at) = end_of_line(self.rest) else {
            return None;
        };
        let text = &self.rest[..at];
        self.rest = &self.rest[at + 1..];
        self.number += 1;
        Some(Line {
            number: self.number,
            text,
        })
    }

    /// What stands after the last line given.
    pub fn rest(&self) -> &'a [u8]
        ensures { result.now ≡ self.now.rest }
    {
        self.rest
    }
}

/// How many bytes are looked at in one go.
const WIDE: usize = 32;

/// The place of the first end.
fn end_of_line(bytes: &[u8]) -> Option<usize>
    ensures none { IfNone result (All (λ byte. byte ≢ 10) bytes.now) }
    ensures some { IfSome result (λ at. EndsAt bytes.now at) }
{
    if WIDE <= bytes.len() {
        let ends = u8x32::from_slice(bytes)
            .simd_eq(u8x32::splat(b'\n'))
            .to_bitmask();
        if ends != 0 {
            return Some(ends.trailing_zeros() as usize);
        }
    }
    later_end(bytes)
}

/// The same, byte by byte.
#[inline(never)]
fn later_end(bytes: &[u8]) -> Option<usize>
    ensures none { IfNone result (All (λ byte. byte ≢ 10) bytes.now) }
    ensures some { IfSome result (λ at. EndsAt bytes.now at) }
{
    bytes.iter().position(|byte| *byte == b'\n')
}
