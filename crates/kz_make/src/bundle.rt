//! The bundle of a number.
ghost use Rattle.std.specs.Prelude.{◌≡◌, ◌≤◌, ◌++◌, length, codes, IfOk, OnOk};
ghost use Rattle.kz_bundle.specs.Printing.{lines_text};
ghost use Rattle.kz_model.specs.Text.Made.{header_made, made_text};
ghost use Rattle.kz_model.specs.Grammar.Spelling.{numbered};

use crate::order::write_order;
use crate::sections::write_sections;
use crate::types::write_types;
use kz_model::{Seed, Words};
use kz_text::push_decimal;
use std::alloc::{AllocError, Global};

/// The stream whose words make a bundle.
const STREAM: u64 = 1000;

/// Room for a made bundle: those that were measured have some 1,095,000 bytes.
const ROOM: usize = 1_300_000;

/// A line of a word and a number.
fn write_setting(out: &mut Vec<u8>, word: &[u8], number: u64) -> Result<(), AllocError>
    ensures { OnOk result (out.new.items ≡ out.old.items ++ (numbered word.now number ++ codes "\n")) }
{
    out.extend_from_slice(word)?;
    out.extend_from_slice(b" ")?;
    push_decimal(out, number)?;
    out.extend_from_slice(b"\n")
}

fn write_header(out: &mut Vec<u8>, number: u64) -> Result<(), AllocError>
    ensures { OnOk result (out.new.items ≡ out.old.items ++ lines_text (header_made number)) }
{
    write_setting(out, b"machine", 1)?;
    write_setting(out, b"seed", number)?;
    write_setting(out, b"cpus", 4)?;
    write_setting(out, b"frames", 2048)?;
    write_setting(out, b"pages", 1024)?;
    write_setting(out, b"budget", 24)?;
    write_setting(out, b"magazine", 8)?;
    write_setting(out, b"depot", 4)
}

/// The bytes of the bundle that is made of a number: 40 types, and four CPUs with four rounds each.
pub fn make_bundle(alloc: Global, number: u64) -> Result<Vec<u8>, AllocError>
    ensures text { IfOk result (λ text. text.items ≡ made_text number) }
    ensures few { IfOk result (λ text. length text.items ≤ 33554432) }
{
    let mut out = Vec::with_capacity(alloc, ROOM)?;
    let mut words = Words::new(Seed::Number(number), STREAM);
    write_header(&mut out, number)?;
    write_types(&mut out, &mut words)?;
    write_sections(&mut out, &mut words)?;
    write_order(&mut out)?;
    out.extend_from_slice(b"end\n")?;
    Ok(out)
}
