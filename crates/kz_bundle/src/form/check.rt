//! Type lines, checked without their fields.
ghost use Rattle.std.specs.Prelude.{◌≡◌};
ghost use Rattle.std.specs.Option.{option_map};
ghost use Rattle.kz_model.specs.Grammar.Tokens.{tokens_of};
ghost use Rattle.kz_model.specs.Grammar.TypeLine.{type_line};
ghost use Rattle.kz_bundle.specs.Bodies.{words_in};
ghost use Rattle.kz_bundle.specs.Outlines.{no_outline};
ghost use Rattle.kz_bundle.specs.Walks.{mark_after, name_and_mark};

use crate::form::outline::{Next, Walk};
use crate::form::tokens::{cut, is, is_name, name_of};
use kz_model::{Mark, Name};

/// What is wrong with the numbers of a body. None where the words are no body.
fn mark_of(words: Option<&[u8]>) -> Option<Mark>
    ensures { result ≡ mark_after no_outline (words_in words.entry) }
{
    let mut walk = Walk::over(words);
    loop {
        match walk.next() {
            Next::Word(_) => {}
            Next::End(mark) => return Some(mark),
            Next::NoForm => return None,
        }
    }
}

/// The name of the type that a line declares, with what is wrong with its numbers. None where the
/// line has no form.
pub fn check_type(line: &[u8]) -> Option<(Name, Mark)>
    ensures { result ≡ option_map name_and_mark (type_line (tokens_of line.now)) }
{
    let (first, rest) = cut(line);
    let (name, rest) = cut(rest?);
    if !is(first, b"type") || !is_name(name) {
        return None;
    }
    let mark = mark_of(rest)?;
    Some((name_of(name), mark))
}
