//! The sections of the CPUs.
ghost use Rattle.std.specs.Prelude.{◌≡◌, ℕ, ◌+◌, ◌*◌, ◌<◌, ◌++◌, codes, map, OnOk};
ghost use Rattle.kz_bundle.specs.Printing.{lines_text};
ghost use Rattle.kz_model.specs.Grammar.Form.{Does};
ghost use Rattle.kz_model.specs.Text.Made.{names_count, drawn_count, later_count, steps_drawn, names_allocated, rounds_drawn, later_lines, section_made, sections_made};
ghost use Rattle.kz_make.specs.Writing.{words_at, IsWritten};

use crate::steps::{write_on_both, write_step};
use crate::write::{CPUS, DRAWN, LATER, NAMES};
use kz_model::Words;
use kz_text::push_decimal;
use std::alloc::AllocError;

/// Each of a CPU's names is allocated once.
fn write_allocations(out: &mut Vec<u8>, cpu: u32) -> Result<(), AllocError>
    requires { cpu < 4 }
    ensures { OnOk result (out.new.items ≡ out.old.items ++ lines_text (map Does (names_allocated cpu 0 names_count))) }
{
    for k in 0..NAMES {
        write_on_both(out, b"a", cpu, k)?;
        out.extend_from_slice(b"\n")?;
    }
    Ok(())
}

/// The drawn steps of a round.
fn write_drawn(out: &mut Vec<u8>, words: &mut Words, cpu: u32) -> Result<(), AllocError>
    requires { cpu < 4 }
    ensures { (number j : ℕ) → words.old ≡ words_at number j
        → OnOk result (IsWritten number (j + 15000) words.new out.old.items
        (lines_text (map Does (steps_drawn number cpu j drawn_count))) out.new.items) }
{
    for _ in 0..DRAWN {
        let u = words.next();
        let v = words.next();
        let w = words.next();
        write_step(out, cpu, u, v, w)?;
    }
    Ok(())
}

/// The rounds after the first.
fn write_later_rounds(out: &mut Vec<u8>, words: &mut Words, cpu: u32) -> Result<(), AllocError>
    requires { cpu < 4 }
    ensures { (number j : ℕ) → words.old ≡ words_at number j
        → OnOk result (IsWritten number (j + 45000) words.new out.old.items
        (lines_text (later_lines (rounds_drawn number cpu j later_count))) out.new.items) }
{
    for _ in 0..LATER {
        out.extend_from_slice(b"--\n")?;
        write_drawn(out, words, cpu)?;
    }
    Ok(())
}

fn write_section(out: &mut Vec<u8>, words: &mut Words, cpu: u32) -> Result<(), AllocError>
    requires { cpu < 4 }
    ensures { (number j : ℕ) → words.old ≡ words_at number j
        → OnOk result (IsWritten number (j + 60000) words.new out.old.items
        (lines_text (section_made number cpu j)) out.new.items) }
{
    out.extend_from_slice(b"cpu ")?;
    push_decimal(out, u64::from(cpu))?;
    out.extend_from_slice(b"\n")?;
    write_allocations(out, cpu)?;
    write_drawn(out, words, cpu)?;
    write_later_rounds(out, words, cpu)
}

/// The sections of all CPUs.
pub(crate) fn write_sections(out: &mut Vec<u8>, words: &mut Words) -> Result<(), AllocError>
    ensures { (number j : ℕ) → words.old ≡ words_at number j
        → OnOk result (IsWritten number (j + 240000) words.new out.old.items
        (lines_text (sections_made number 0 j 4)) out.new.items) }
{
    for cpu in 0..CPUS {
        write_section(out, words, cpu)?;
    }
    Ok(())
}
