//! The step lines.
ghost use Rattle.std.specs.Prelude.{◌≡◌, ◌%◌, ◌<◌, ◌++◌, codes, OnOk};
ghost use Rattle.kz_model.specs.Text.Made.{name_text, type_of_made, four_bytes, named_step_by, named_step_made};
ghost use Rattle.kz_model.specs.Grammar.Spelling.{named_step_text, spaced};
ghost use Rattle.kz_model.specs.Text.Lines.{hex_bytes};

use crate::write::{CPUS, NAMES, write_name, write_type_of};
use kz_text::{push_decimal, push_hex};
use std::alloc::AllocError;

/// A step on a name.
pub(crate) fn write_on_name(
    out: &mut Vec<u8>,
    letter: &[u8],
    cpu: u32,
    k: u32,
) -> Result<(), AllocError>
    ensures { OnOk result (out.new.items ≡ out.old.items ++ spaced letter.now (name_text cpu k)) }
{
    out.extend_from_slice(letter)?;
    out.extend_from_slice(b" ")?;
    write_name(out, cpu, k)
}

/// A step on the type of a name.
pub(crate) fn write_on_type(
    out: &mut Vec<u8>,
    word: &[u8],
    cpu: u32,
    k: u32,
) -> Result<(), AllocError>
    requires cpu { cpu < 4 }
    requires k { k < 250 }
    ensures { OnOk result (out.new.items ≡ out.old.items ++ spaced word.now (type_of_made cpu k)) }
{
    out.extend_from_slice(word)?;
    out.extend_from_slice(b" ")?;
    write_type_of(out, cpu, k)
}

/// A step on a name and its type.
pub(crate) fn write_on_both(
    out: &mut Vec<u8>,
    letter: &[u8],
    cpu: u32,
    k: u32,
) -> Result<(), AllocError>
    requires cpu { cpu < 4 }
    requires k { k < 250 }
    ensures { OnOk result (out.new.items
        ≡ out.old.items ++ spaced letter.now (spaced (name_text cpu k) (type_of_made cpu k))) }
{
    write_on_name(out, letter, cpu, k)?;
    out.extend_from_slice(b" ")?;
    write_type_of(out, cpu, k)
}

/// A word as eight digits.
fn write_word(out: &mut Vec<u8>, word: u32) -> Result<(), AllocError>
    ensures { OnOk result (out.new.items ≡ out.old.items ++ hex_bytes (four_bytes word)) }
{
    let bytes = [
        (word / 0x100_0000 % 256) as u8,
        (word / 0x1_0000 % 256) as u8,
        (word / 0x100 % 256) as u8,
        (word % 256) as u8,
    ];
    push_hex(out, &bytes)
}

/// The step of this number on the CPU's name k.
fn write_said(out: &mut Vec<u8>, cpu: u32, k: u32, word: u32, number: u32) -> Result<(), AllocError>
    requires cpu { cpu < 4 }
    requires k { k < 250 }
    ensures { OnOk result (out.new.items ≡ out.old.items ++ named_step_text (named_step_by cpu k word number)) }
{
    match number {
        0..=5 => write_on_both(out, b"a", cpu, k),
        6..=9 => write_on_name(out, b"f", cpu, k),
        10 => write_on_both(out, b"z", cpu, k),
        11 => {
            write_on_name(out, b"r", cpu, k)?;
            out.extend_from_slice(b" 0 8")
        }
        12 => {
            write_on_name(out, b"w", cpu, k)?;
            out.extend_from_slice(b" 0 ")?;
            write_word(out, word)
        }
        13 => {
            write_on_name(out, b"g", cpu, k)?;
            out.extend_from_slice(b" ")?;
            push_decimal(out, u64::from((cpu + 1) % CPUS))
        }
        14 => write_on_name(out, b"t", (cpu + 3) % CPUS, k),
        _ => match word % 32 {
            0 => write_on_type(out, b"trim", cpu, k),
            1 => write_on_type(out, b"flush", cpu, k),
            _ => write_on_both(out, b"f", cpu, k),
        },
    }
}

/// The line of a drawn step, by its three words.
pub(crate) fn write_step(
    out: &mut Vec<u8>,
    cpu: u32,
    u: u32,
    v: u32,
    w: u32,
) -> Result<(), AllocError>
    requires { cpu < 4 }
    ensures { OnOk result (out.new.items ≡ out.old.items ++ (named_step_text (named_step_made cpu u v w) ++ codes "\n")) }
{
    write_said(out, cpu, u % NAMES, w, v % 16)?;
    out.extend_from_slice(b"\n")
}
