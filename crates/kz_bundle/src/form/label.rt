//! The label of a field.
ghost use Rattle.std.specs.Prelude.{◌≡◌, ◌==◌, ◌≤◌, false, true, length, IsTrue, IfSome, IfNone, MatchOption};
ghost use Rattle.std.specs.Option.{option_map};
ghost use Rattle.std.specs.List.{list_any, before_first, after_first};
ghost use Rattle.kz_model.specs.Grammar.Tokens.{is_name as name_form};
ghost use Rattle.kz_model.specs.Grammar.TypeLine.{ends_with, without_last, label as label_form};
ghost use Rattle.kz_bundle.specs.Bodies.{HasNoBracket, IsFirstBracket, label_as};

use crate::form::tokens::{is_name, is_run, small_in};
use kz_model::Mark;

/// A field's name and its count, with what is wrong with the count.
#[derive(Clone, Copy)]
pub struct Label<'a> {
    pub name: &'a [u8],
    pub count: u32,
    pub mark: Mark,
}

/// What stands before this last byte. None where the text does not end with it.
pub fn before_last(text: &[u8], last: u8) -> Option<&[u8]>
    ensures { MatchOption result (ends_with last text.now ≡ false) (λ rest. (ends_with last text.now ≡ true) ×
        (rest.now ≡ without_last text.now)) }
{
    match text.split_last() {
        Some((end, rest)) => { if *end == last { Some(rest) } else { None } }
        None => None,
    }
}

fn first_bracket(word: &[u8]) -> Option<usize>
    ensures none { IfNone result (HasNoBracket word.now) }
    ensures some { IfSome result (λ at. IsFirstBracket word.now at) }
{
    word.iter().position(|byte| *byte == b'[')
}

/// What stands before the first `[`, and what stands after it.
fn at_bracket(word: &[u8]) -> Option<(&[u8], &[u8])>
    ensures { MatchOption result (list_any (λ b. b == 91) word.now ≡ false)
        (λ parts. (list_any (λ b. b == 91) word.now ≡ true) × (parts.0.now ≡ before_first (λ b. b == 91) word.now) ×
        (parts.1.now ≡ after_first (λ b. b == 91) word.now)) }
{
    match first_bracket(word) {
        None => None,
        Some(at) => Some((&word[..at], &word[at + 1..])),
    }
}

/// `NAME`, or `NAME[N]`.
pub fn label_of(word: &[u8]) -> Option<Label<'_>>
    ensures given { option_map label_as result ≡ label_form word.now }
    ensures named { IfSome result (λ label. IsTrue (name_form label.name.now)) }
{
    match at_bracket(word) {
        None => {
            if !is_name(word) {
                return None;
            }
            Some(Label {
                name: word,
                count: 1,
                mark: Mark::Fine,
            })
        }
        Some((name, rest)) => {
            let number = before_last(rest, b']')?;
            if !is_name(name) || !is_run(number) {
                return None;
            }
            let (count, mark) = small_in(2, 8192, number);
            Some(Label { name, count, mark })
        }
    }
}
