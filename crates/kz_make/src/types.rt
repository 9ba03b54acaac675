//! The type lines.
ghost use Rattle.std.specs.Prelude.{◌≡◌, ℕ, ◌+◌, ◌*◌, ◌%◌, ◌<◌, ◌++◌, codes, map, OnOk};
ghost use Rattle.kz_bundle.specs.Printing.{lines_text};
ghost use Rattle.kz_model.specs.Grammar.Form.{Declares};
ghost use Rattle.kz_model.specs.Text.Made.{types_count, fields_of_type, type_made, types_made, after_types};
ghost use Rattle.kz_model.specs.Grammar.Spelling.{line_text};
ghost use Rattle.kz_make.specs.Writing.{words_at, IsWritten};

use crate::fields::write_fields;
use crate::write::{TYPES, write_type};
use kz_model::Words;
use std::alloc::AllocError;

/// The line of type t.
fn write_declaration(out: &mut Vec<u8>, words: &mut Words, t: u32) -> Result<(), AllocError>
    ensures { (number j : ℕ) → words.old ≡ words_at number j
        → OnOk result (IsWritten number (j + 1 + 2 * fields_of_type number j) words.new out.old.items (line_text (Declares (type_made number j t)) ++ codes "\n") out.new.items) }
{
    out.extend_from_slice(b"type ")?;
    write_type(out, t)?;
    out.extend_from_slice(b" {")?;
    let count = 1 + words.next() % 6;
    write_fields(out, words, count)?;
    out.extend_from_slice(b" }\n")
}

/// All type lines.
pub(crate) fn write_types(out: &mut Vec<u8>, words: &mut Words) -> Result<(), AllocError>
    ensures { (number j : ℕ) → words.old ≡ words_at number j
        → OnOk result (IsWritten number (after_types number j types_count) words.new out.old.items
        (lines_text (map Declares (types_made number j 0 types_count))) out.new.items) }
{
    for t in 0..TYPES {
        write_declaration(out, words, t)?;
    }
    Ok(())
}
