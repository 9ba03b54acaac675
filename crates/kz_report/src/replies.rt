//! The line of a reply.
ghost use Rattle.std.specs.Prelude.{◌≡◌, ◌<◌, ◌≤◌, ◌++◌, length, drop, slice_index_or, codes, decimal, All, OnOk};
ghost use Rattle.kz_model.specs.declared.step.Reply.TheVariants as reply;
ghost use Rattle.kz_model.specs.Run.Journal.{addressed};
ghost use Rattle.kz_model.specs.Types.Planned.{IsFitRow};
ghost use Rattle.kz_model.specs.Text.Lines.{hex, hex_bytes, reply_line};
ghost use Rattle.kz_model.specs.Run.Journal.{no_step};
ghost use Rattle.kz_report.specs.Lines.{answered_line, params_with};

use crate::addresses::{address_of, zone_of_act, zone_row};
use crate::numbers::{bytes_before, hexadecimal_before, push_number};
use crate::pages::{Given, page_at};
use itoa::write_digits;
use kz_model::{Act, Block, Reply, Trace, ZoneRow};
use kz_text::push_hex;
use std::alloc::AllocError;

/// The line of the reply to the step of this place. Only a block's line needs the step's zone.
pub fn write_reply(
    out: &mut Vec<u8>,
    given: &Given<'_>,
    trace: &Trace,
    at: usize,
    reply: Reply,
) -> Result<(), AllocError>
    requires rows { All IsFitRow given.now.plan.now.zones }
    requires at { at < length trace.now }
    ensures { let act = (slice_index_or trace.now at no_step).act in OnOk result (out.new.items ≡ out.old.items ++ (answered_line given.now.plan.now given.now.pages.now (record { act = act; zone = (addressed given.now.bundle.now given.now.plan.now act).0; reply = reply }) ++ codes "\n")) }
{
    match reply {
        Reply::Block { block } => write_given(out, given, &trace.step(at).act, block),
        Reply::Done => out.extend_from_slice(b"done\n"),
        Reply::NoName => out.extend_from_slice(b"no name\n"),
        Reply::NameBusy => out.extend_from_slice(b"busy\n"),
        Reply::WrongZone { asked, owner } => write_wrong_zone(out, asked, owner),
        Reply::NotHeld => out.extend_from_slice(b"not held\n"),
        Reply::NotGiven => out.extend_from_slice(b"not given\n"),
        Reply::OutOfBlock => out.extend_from_slice(b"out of block\n"),
        Reply::Unmapped => out.extend_from_slice(b"unmapped\n"),
        Reply::Bytes { bytes } => write_bytes(out, bytes.as_slice()),
        Reply::Trimmed { pages } => write_number(out, b"trimmed ", pages),
        Reply::NoSpace { left } => write_number(out, b"no space ", left),
        Reply::NoFrames { free } => write_number(out, b"no frames ", free),
    }
}

/// The line of a block that an act was given.
fn write_given(
    out: &mut Vec<u8>,
    given: &Given<'_>,
    act: &Act,
    block: Block,
) -> Result<(), AllocError>
    requires { All IsFitRow given.now.plan.now.zones }
    ensures { OnOk result (out.new.items ≡ out.old.items ++ (answered_line given.now.plan.now given.now.pages.now (record { act = act.now; zone = (addressed given.now.bundle.now given.now.plan.now act.now).0; reply = reply.Block block }) ++ codes "\n")) }
{
    let zone = zone_of_act(given.bundle, given.plan, act);
    let page = page_at(given.pages.of_zone(zone), block.chunk as usize);
    write_block(out, zone_row(given.plan, zone), page, block)
}

/// The most bytes of a block's line.
const BLOCK_LINE: usize = 48;

/// The line of a block of the zone of this row, whose chunk begins at this page.
fn write_block(out: &mut Vec<u8>, row: ZoneRow, page: u32, block: Block) -> Result<(), AllocError>
    requires submap { row.submap < 5 }
    requires element { row.shape.element ≤ 8192 }
    ensures { OnOk result (out.new.items ≡ out.old.items ++ (reply_line (params_with row) page (reply.Block block) ++ codes "\n")) }
{
    let mut line = [b'\n'; BLOCK_LINE];
    let start = block_before(&mut line, block, address_of(row, page, block.index));
    out.extend_from_slice(&line[start..])
}

/// Writes a block and its address so that they end before the last byte, and returns where they start.
fn block_before(line: &mut [u8; BLOCK_LINE], block: Block, address: u64) -> usize
    ensures start { result ≤ 47 }
    ensures written { drop result line.new ≡ (codes "block " ++ decimal block.chunk ++ codes "." ++ decimal block.index ++ codes " " ++ hex address) ++ drop 47 line.old }
{
    let at = hexadecimal_before(line, BLOCK_LINE - 1, address);
    let at = bytes_before(line, at, b" 0x");
    let at = write_digits(u64::from(block.index), line, at);
    let at = bytes_before(line, at, b".");
    let at = write_digits(u64::from(block.chunk), line, at);
    bytes_before(line, at, b"block ")
}

fn write_wrong_zone(out: &mut Vec<u8>, asked: u32, owner: u32) -> Result<(), AllocError>
    ensures { OnOk result (out.new.items ≡ out.old.items ++ ((codes "wrong zone " ++ decimal asked ++ codes " " ++ decimal owner) ++ codes "\n")) }
{
    push_number(out, b"wrong zone ", u64::from(asked))?;
    write_number(out, b" ", owner)
}

/// A line that ends with a number.
fn write_number(out: &mut Vec<u8>, words: &[u8], number: u32) -> Result<(), AllocError>
    ensures { OnOk result (out.new.items ≡ out.old.items ++ ((words.now ++ decimal number) ++ codes "\n")) }
{
    push_number(out, words, u64::from(number))?;
    out.extend_from_slice(b"\n")
}

fn write_bytes(out: &mut Vec<u8>, bytes: &[u8]) -> Result<(), AllocError>
    ensures { OnOk result (out.new.items ≡ out.old.items ++ ((codes "bytes " ++ hex_bytes bytes.now) ++ codes "\n")) }
{
    out.extend_from_slice(b"bytes ")?;
    push_hex(out, bytes)?;
    out.extend_from_slice(b"\n")
}
