//! The fields of a type.
ghost use Rattle.std.specs.Prelude.{◌≡◌, ℕ, ◌+◌, ◌*◌, ◌%◌, ◌<◌, ◌≤◌, ◌++◌, codes, OnOk};
ghost use Rattle.kz_model.specs.Text.Made.{drawn, kind_by, field_made, fields_made};
ghost use Rattle.kz_model.specs.Grammar.Spelling.{kind_text, field_text, fields_text};
ghost use Rattle.kz_make.specs.Writing.{words_at, IsWritten};

use kz_model::Words;
use kz_text::push_decimal;
use std::alloc::AllocError;

/// A field's kind by its number.
fn write_kind(out: &mut Vec<u8>, word: u32, number: u32) -> Result<(), AllocError>
    requires { number < 6 }
    ensures { OnOk result (out.new.items ≡ out.old.items ++ kind_text (kind_by word number)) }
{
    match number {
        0 => out.extend_from_slice(b"ptr"),
        1 => out.extend_from_slice(b"auth"),
        2 => out.extend_from_slice(b"u64"),
        3 => out.extend_from_slice(b"u32"),
        4 => out.extend_from_slice(b"u8"),
        _ => {
            out.extend_from_slice(b"bytes ")?;
            push_decimal(out, u64::from(1 + word % 200))
        }
    }
}

/// Field i, by its two words.
fn write_field(out: &mut Vec<u8>, i: u32, b: u32, c: u32) -> Result<(), AllocError>
    ensures { OnOk result (out.new.items ≡ out.old.items ++ field_text (field_made i b c)) }
{
    write_kind(out, c, b % 6)?;
    out.extend_from_slice(b" f")?;
    push_decimal(out, u64::from(i))
}

/// Field i, by the next two words.
fn write_next(out: &mut Vec<u8>, words: &mut Words, i: u32) -> Result<(), AllocError>
    ensures { (number j : ℕ) → words.old ≡ words_at number j
        → OnOk result (IsWritten number (j + 2) words.new out.old.items
        (field_text (field_made i (drawn number j) (drawn number (j + 1)))) out.new.items) }
{
    let b = words.next();
    let c = words.next();
    write_field(out, i, b, c)
}

/// So many fields.
pub(crate) fn write_fields(
    out: &mut Vec<u8>,
    words: &mut Words,
    count: u32,
) -> Result<(), AllocError>
    requires { 1 ≤ count }
    ensures { (number j : ℕ) → words.old ≡ words_at number j
        → OnOk result (IsWritten number (j + 2 * count) words.new out.old.items
        (fields_text (fields_made number j 0 count)) out.new.items) }
{
    out.extend_from_slice(b" ")?;
    write_next(out, words, 0)?;
    for i in 1..count {
        out.extend_from_slice(b"; ")?;
        write_next(out, words, i)?;
    }
    Ok(())
}
