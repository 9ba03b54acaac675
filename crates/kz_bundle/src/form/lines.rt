//! What a line says, by its words.
ghost use Rattle.std.specs.Prelude.{◌≡◌, ◌≤◌, ◌+◌, ◌==◌, ◌≢◌, ℕ, [], ◌∷◌, length, IfSome};
ghost use Rattle.kz_model.specs.declared.grammar.Mark.TheVariants.{Fine};
ghost use Rattle.kz_model.specs.Grammar.Steps.{number_line as number_form};
ghost use Rattle.kz_model.specs.Grammar.Form.{Draft, is_last as last_form, seed_line as seed_form, header_line as header_form, cpu_line as cpu_form, line_of_steps as steps_form, line_of_order as order_form};
ghost use Rattle.kz_bundle.specs.Cut.{list_of};
ghost use Rattle.kz_bundle.specs.NamedSteps.{found_as};
ghost use Rattle.kz_bundle.specs.Lines.{line_as, FitsHeader, FitsTypes, FitsSteps, FitsOrder};

use crate::form::tokens::{LineTokens, is, is_run, number_in, small_in};
use kz_model::{Mark, Name, Seed};

/// What a line says.
#[derive(Drop)]
pub enum Line<'a> {
    Machine(u32),
    SeedOf(Seed),
    Cpus(u32),
    Frames(u32),
    Pages(u32),
    Budget(u32),
    Magazine(u32),
    Depot(u32),
    /// A type, by its name and its whole line.
    Declares(Name, &'a [u8]),
    Opens(u32),
    Break,
    Orders,
    Turns(u32),
    Ends,
}

/// `WORD N`, with N from `low` to `high`.
fn number_line(word: &[u8], low: u32, high: u32, words: LineTokens<'_>) -> Option<(u32, Mark)>
    ensures given { result ≡ number_form word.now low high (list_of words.entry) }
    ensures range { IfSome result (λ found. found.1 ≡ Fine → (low ≤ found.0) × (found.0 ≤ high)) }
{
    match words {
        LineTokens::Two(first, number) => {
            if is(first, word) && is_run(number) {
                Some(small_in(low, high, number))
            } else {
                None
            }
        }
        LineTokens::One(_) | LineTokens::Three(..) | LineTokens::Four(..) | LineTokens::More(_) =>
            None,
    }
}

/// `seed plain` or `seed N`.
fn seed_line(words: LineTokens<'_>) -> Option<(Seed, Mark)>
    ensures { result ≡ seed_form (list_of words.entry) }
{
    match words {
        LineTokens::Two(first, number) => {
            if is(first, b"seed") && is_run(number) {
                if is(number, b"plain") {
                    Some((Seed::Plain, Mark::Fine))
                } else {
                    let (seed, mark) = number_in(0, u64::MAX, number);
                    Some((Seed::Number(seed), mark))
                }
            } else {
                None
            }
        }
        LineTokens::One(_) | LineTokens::Three(..) | LineTokens::Four(..) | LineTokens::More(_) =>
            None,
    }
}

/// The line of the header at this place.
pub fn header_line<'a>(at: u32, words: LineTokens<'_>) -> Option<(Line<'a>, Mark)>
    ensures given { found_as line_as result ≡ header_form at (list_of words.entry) }
    ensures fits { IfSome result (λ found. found.1 ≡ Fine → FitsHeader at found.0) }
{
    macro_rules! numbered {
        ($line:path: $word:literal, $low:literal, $high:literal) => {
            number_line($word, $low, $high, words).map(|(number, mark)| ($line(number), mark))
        };
    }
    match at {
        0 => numbered!(Line::Machine: b"machine", 1, 1),
        1 => seed_line(words).map(|(seed, mark)| (Line::SeedOf(seed), mark)),
        2 => numbered!(Line::Cpus: b"cpus", 1, 16),
        3 => numbered!(Line::Frames: b"frames", 1, 8192),
        4 => numbered!(Line::Pages: b"pages", 1, 4096),
        5 => numbered!(Line::Budget: b"budget", 1, 128),
        6 => numbered!(Line::Magazine: b"magazine", 1, 32),
        _ => numbered!(Line::Depot: b"depot", 0, 16),
    }
}

/// `cpu N` for this CPU alone.
pub fn cpu_line<'a>(cpu: u32, words: LineTokens<'_>) -> Option<(Line<'a>, Mark)>
    ensures given { found_as line_as result ≡ cpu_form cpu (list_of words.entry) }
    ensures first { IfSome result (λ found. FitsTypes found.0) }
    ensures later { IfSome result (λ found. (cpus sections : ℕ) → sections + 1 ≢ cpus →
        FitsSteps cpus sections found.0) }
{
    match number_line(b"cpu", cpu, cpu, words) {
        None => None,
        Some((number, mark)) => Some((Line::Opens(number), mark)),
    }
}

/// A line of one word in a section, where `is_last` tells whether that is the last CPU's.
pub fn mark_line<'a>(is_last: bool, word: &[u8]) -> Option<(Line<'a>, Mark)>
    ensures given { (d : Draft) → last_form d ≡ is_last → found_as line_as result ≡ steps_form d (word.now ∷ []) }
    ensures fits { (cpus sections : ℕ) → is_last ≡ (sections + 1 == cpus) →
        IfSome result (λ found. FitsSteps cpus sections found.0) }
{
    if is(word, b"--") {
        Some((Line::Break, Mark::Fine))
    } else if is(word, b"end") && is_last {
        Some((Line::Ends, Mark::Fine))
    } else if is(word, b"order") && is_last {
        Some((Line::Orders, Mark::Fine))
    } else {
        None
    }
}

/// A line of the order section.
pub fn line_of_order<'a>(cpus: u32, words: LineTokens<'_>) -> Option<(Line<'a>, Mark)>
    ensures given { (d : Draft) → d.header.cpus ≡ cpus → found_as line_as result ≡ order_form d (list_of words.entry) }
    ensures fits { IfSome result (λ found. found.1 ≡ Fine → FitsOrder cpus found.0) }
{
    match words {
        LineTokens::One(word) => {
            if is(word, b"--") {
                Some((Line::Break, Mark::Fine))
            } else if is(word, b"end") {
                Some((Line::Ends, Mark::Fine))
            } else if is_run(word) {
                let (cpu, mark) = small_in(0, cpus.saturating_sub(1), word);
                Some((Line::Turns(cpu), mark))
            } else {
                None
            }
        }
        LineTokens::Two(..) | LineTokens::Three(..) | LineTokens::Four(..) | LineTokens::More(_) =>
            None,
    }
}
