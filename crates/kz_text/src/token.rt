//! A line token by token.
ghost use Rattle.std.specs.Prelude.{◌≡◌, ◌≢◌, ◌+◌, ◌^◌, ◌<◌, ◌≤◌, length, map, IfOk, IfNone, IfSome};
ghost use Rattle.std.specs.List.{All};
ghost use Rattle.kz_model.specs.Grammar.Tokens.{tokens_of};
ghost use Rattle.kz_text.specs.Tokens.{text_of, tokens_from, SpaceAt};

use crate::Line;
use std::alloc::{AllocError, Global};

/// A token of a line: the line's number, and the places of the line's text from `from` to before
/// `to`.
#[derive(Clone, Copy, Debug, PartialEq, Eq)]
pub struct Token {
    pub line: u32,
    pub from: u32,
    pub to: u32,
}

/// The tokens of a line, which is cut at each space. A token is empty where two spaces stand side
/// by side, or one at an end, or where the line is empty.
pub fn tokens(alloc: Global, line: &Line) -> Result<Vec<Token>, AllocError>
    requires { length line.now.text.now < 2 ^ 32 }

    // Each token begins one byte after the one before it ends.
    ensures spans { IfOk result (λ tokens. tokens.items ≡ tokens_from line.now.number 0 (tokens_of line.now.text.now)) }
    ensures texts { IfOk result (λ tokens. map (text_of line.now.text.now) tokens.items ≡ tokens_of line.now.text.now) }
    ensures within { IfOk result
        (λ tokens. All (λ token. (token.from ≤ token.to) × (token.to ≤ length line.now.text.now)) tokens.items) }
{
    let mut tokens = Vec::new(alloc);
    let mut from = 0;
    let mut rest = line.text;
    while let Some(at) = first_space(rest) {
        tokens.push(token_of(line.number, from, from + at))?;
        from += at + 1;
        rest = &rest[at + 1..];
    }
    tokens.push(token_of(line.number, from, from + rest.len()))?;
    Ok(tokens)
}

fn token_of(line: u32, from: usize, to: usize) -> Token
    requires rising { from ≤ to }
    requires small { to < 2 ^ 32 }
    ensures { result ≡ record { line = line; from = from; to = to } }
{
    Token {
        line,
        from: from as u32,
        to: to as u32,
    }
}

// The place of the first space.
fn first_space(bytes: &[u8]) -> Option<usize>
    ensures none { IfNone result (All (λ byte. byte ≢ 32) bytes.now) }
    ensures some { IfSome result (λ at. SpaceAt bytes.now at) }
{
    bytes.iter().position(|byte| *byte == b' ')
}
