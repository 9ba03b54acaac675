//! The lines of the supply's log.
ghost use Rattle.std.specs.Prelude.{◌≡◌, ◌++◌, map, codes, decimal, OnOk};
ghost use Rattle.kz_model.specs.declared.supply.Ask.TheVariants as ask;
ghost use Rattle.kz_model.specs.Text.Lines.{ask_line, ask_text, text_of_lines};

use crate::numbers::push_number;
use kz_model::{Answer, Ask, SupplyEntry};
use std::alloc::AllocError;

/// Each ask with its answer.
pub fn write_asks(out: &mut Vec<u8>, log: &[SupplyEntry]) -> Result<(), AllocError>
    ensures { OnOk result (out.new.items ≡ out.old.items ++ text_of_lines (map ask_line log.now)) }
{
    for entry in log {
        write_entry(out, *entry)?;
    }
    Ok(())
}

fn write_entry(out: &mut Vec<u8>, entry: SupplyEntry) -> Result<(), AllocError>
    ensures { OnOk result (out.new.items ≡ out.old.items ++ (ask_line entry ++ codes "\n")) }
{
    push_number(out, b"ask ", u64::from(entry.zone))?;
    out.extend_from_slice(b" ")?;
    write_ask(out, entry.ask, entry.answer)?;
    out.extend_from_slice(b"\n")
}

fn write_ask(out: &mut Vec<u8>, ask: Ask, answer: Answer) -> Result<(), AllocError>
    ensures { OnOk result (out.new.items ≡ out.old.items ++ ask_text ask answer) }
{
    match ask {
        Ask::Chunk { pages, .. } => write_chunk_ask(out, pages, answer),
        Ask::Frames { pages } => write_frames_ask(out, pages, answer),
        Ask::Back { pages } => {
            push_number(out, b"back ", u64::from(pages))?;
            out.extend_from_slice(b" taken")
        }
    }
}

fn write_chunk_ask(out: &mut Vec<u8>, pages: u32, answer: Answer) -> Result<(), AllocError>
    ensures { OnOk result (out.new.items ≡ out.old.items ++ ask_text (ask.Chunk 0 pages) answer) }
{
    match answer {
        Answer::Base { page } => write_two(out, b"chunk ", pages, b" base ", page),
        Answer::NoSpace { left } => write_two(out, b"chunk ", pages, b" no space ", left),
        Answer::NoFrames { free } => write_two(out, b"chunk ", pages, b" no frames ", free),
        _ => Ok(()),
    }
}

fn write_frames_ask(out: &mut Vec<u8>, pages: u32, answer: Answer) -> Result<(), AllocError>
    ensures { OnOk result (out.new.items ≡ out.old.items ++ ask_text (ask.Frames pages) answer) }
{
    match answer {
        Answer::Given => {
            push_number(out, b"frames ", u64::from(pages))?;
            out.extend_from_slice(b" given")
        }
        Answer::NoFrames { free } => write_two(out, b"frames ", pages, b" no frames ", free),
        _ => Ok(()),
    }
}

/// Two numbers, each behind its words.
fn write_two(
    out: &mut Vec<u8>,
    words: &[u8],
    number: u32,
    more: &[u8],
    other: u32,
) -> Result<(), AllocError>
    ensures { OnOk result (out.new.items ≡ out.old.items ++ (words.now ++ decimal number ++ more.now ++ decimal other)) }
{
    push_number(out, words, u64::from(number))?;
    push_number(out, more, u64::from(other))
}
