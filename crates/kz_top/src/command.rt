//! The commands: one word, or `make` and a number.
ghost use Rattle.std.specs.Prelude.{◌∷◌, [], MatchOption};
ghost use Rattle.kz_top.specs.Call.{Asks, AskNothing};

use kz_model::Items;
use kz_text::read_u64;

/// What is made of a bundle.
#[derive(Clone, Copy, Debug, PartialEq, Eq)]
pub enum Command {
    /// The plan of its zones.
    Plan,
    /// The report of the run of its order.
    Replay,
    /// The summary of the run of the bundle that is made of a number. No input is read.
    Make { number: u64 },
}

/// The command that the words ask for.
pub fn command_of(words: &[Items<u8>]) -> Option<Command>
    ensures { MatchOption result (AskNothing words.now) (λ command. Asks words.now command) }
{
    match words {
        [word] => command_named(word.as_slice()),
        [word, number] => command_with(word.as_slice(), number.as_slice()),
        _ => None,
    }
}

fn command_named(word: &[u8]) -> Option<Command>
    ensures { MatchOption result (AskNothing (word.now ∷ [])) (λ command. Asks (word.now ∷ []) command) }
{
    if word == b"plan".as_slice() {
        Some(Command::Plan)
    } else if word == b"replay".as_slice() {
        Some(Command::Replay)
    } else {
        None
    }
}

fn command_with(word: &[u8], number: &[u8]) -> Option<Command>
    ensures { MatchOption result (AskNothing (word.now ∷ number.now ∷ []))
        (λ command. Asks (word.now ∷ number.now ∷ []) command) }
{
    if word == b"make".as_slice() {
        let number = read_u64(number)?;
        Some(Command::Make { number })
    } else {
        None
    }
}
