//! The form of a text, by its lines one after the other.
ghost use Rattle.std.specs.Prelude.{◌≡◌, ◌≤◌, Ok, Err, length, IfOk, IfErr};
ghost use Rattle.kz_model.specs.declared.grammar.Refusal.{Refusal};
ghost use Rattle.kz_model.specs.Grammar.Form.{form_of};
ghost use Rattle.kz_bundle.specs.Parts.{AreParts, draft_of};
ghost use Rattle.kz_bundle.specs.Reading.{Forms};

pub(crate) mod body;
mod check;
mod index;
mod label;
mod lines;
mod names;
mod outline;
pub(crate) mod parts;
mod reader;
mod steps;
mod tables;
mod tokens;

use crate::ReadBundleFault;
use crate::form::parts::Parts;
use crate::form::reader::Reader;
use kz_text::Lines;
use std::alloc::Global;

/// What the lines of a text say, or the first line that has no form.
pub fn read_form<'a>(alloc: Global, bytes: &'a [u8]) -> Result<Parts<'a>, ReadBundleFault>
    requires { length bytes.now ≤ 33554432 }
    ensures form { IfOk result (λ parts. form_of bytes.now ≡ Ok (draft_of parts)) }
    ensures parts { IfOk result (λ parts. AreParts parts) }
    ensures refused { IfErr result (λ fault. (refusal : Refusal) → fault ≡ ReadBundleFault.Refused refusal →
        form_of bytes.now ≡ Err refusal) }
{
    let mut reader = Reader::new(alloc);
    let mut lines = Lines::new(bytes);
    let mut number = 1;
    loop {
        match lines.next() {
            None => return reader.finish(number, lines.rest()),
            Some(line) => match reader.line(alloc, line.number, line.text) {
                Ok(()) => number = line.number + 1,
                Err(fault) => return Err(fault.at(line.number)),
            },
        }
    }
}
