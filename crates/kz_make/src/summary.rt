//! What is told of the run of a made bundle.
ghost use Rattle.std.specs.Prelude.{◌≡◌, ℕ, ◌+◌, ◌^◌, ◌<◌, [], ◌∷◌, ◌++◌, List, length, decimal, codes, IfOk, OnOk};
ghost use Rattle.std.specs.List.{flat_map};
ghost use Rattle.kz_model.specs.declared.step.Reply.{Reply as TheReply};
ghost use Rattle.kz_model.specs.Text.Summary.{is_block, is_refusal, pages_trimmed, summary_text as text_of_summary};
ghost use Rattle.kz_make.specs.Totals.{replies_in, IsWithin, AreTotals};

use crate::totals::Totals;
use kz_model::{Record, Replies};
use kz_text::push_decimal;
use std::alloc::{AllocError, Global};

fn add_replies(totals: &mut Totals, replies: &Replies)
    requires few { totals.old.steps + length replies.now < 2 ^ 32 }
    requires within { IsWithin totals.old }
    ensures steps { totals.new.steps ≡ totals.old.steps + length replies.now }
    ensures within { IsWithin totals.new }
    ensures more { (before : List TheReply) → AreTotals totals.old before →
        AreTotals totals.new (before ++ replies.now) }
{
    for at in 0..replies.len() {
        totals.add(&replies.reply(at));
    }
}

fn totals_of(all: &[Replies]) -> Totals
    requires { length (replies_in all.now) < 2 ^ 32 }
    ensures { AreTotals result (replies_in all.now) }
{
    let mut totals = Totals::none();
    for replies in all {
        add_replies(&mut totals, replies);
    }
    totals
}

/// A line of a word and a number.
fn write_line(out: &mut Vec<u8>, word: &[u8], number: u64) -> Result<(), AllocError>
    ensures { OnOk result (out.new.items ≡ out.old.items ++ ((word.now ++ decimal number) ++ codes "\n")) }
{
    out.extend_from_slice(word)?;
    push_decimal(out, number)?;
    out.extend_from_slice(b"\n")
}

/// The summary of a run with these replies: the number, the bundle's length, and how many steps, blocks, refusals of
/// the supply and trimmed pages there were.
pub fn summary_text(
    alloc: Global,
    number: u64,
    bytes: u64,
    made: &Record,
) -> Result<Vec<u8>, AllocError>
    requires { length (replies_in made.now.replies) < 2 ^ 32 }
    ensures { IfOk result (λ text. text.items ≡ text_of_summary number bytes (replies_in made.now.replies)) }
{
    let totals = totals_of(made.replies.as_slice());
    let mut out = Vec::new(alloc);
    write_line(&mut out, b"make ", number)?;
    write_line(&mut out, b"bytes ", bytes)?;
    write_line(&mut out, b"steps ", totals.steps)?;
    write_line(&mut out, b"blocks ", totals.blocks)?;
    write_line(&mut out, b"refused ", totals.refused)?;
    write_line(&mut out, b"trimmed ", totals.trimmed)?;
    out.extend_from_slice(b"end\n")?;
    Ok(out)
}
