//! The words of a line, by the bytes that they are made of.
ghost use Rattle.std.specs.Prelude.{◌≡◌, ◌+◌, ◌≤◌, ◌<◌, ◌^◌, [], ◌∷◌, length, take, slice_index, false, IfNone, IfSome, IsTrue, MatchOption};
ghost use Rattle.std.specs.List.{list_all};
ghost use Rattle.kz_model.specs.Grammar.Tokens.{tokens_of as all_words, is as is_text, is_small as small, is_digit as digit, is_name_byte as name_byte, is_name as name_form, is_plain as plain, is_run as run_form, number_in as number_within, worse as worse_form};
ghost use Rattle.kz_bundle.specs.Cut.{AreWords, SpaceAt, HasNoSpace, AreNameBytes, HasNoName};

use kz_model::{Mark, Name};
use kz_text::read_u64;

/// The words of a line, where it has four at most.
#[derive(Clone, Copy)]
pub enum LineTokens<'a> {
    One(&'a [u8]),
    Two(&'a [u8], &'a [u8]),
    Three(&'a [u8], &'a [u8], &'a [u8]),
    Four(&'a [u8], &'a [u8], &'a [u8], &'a [u8]),
    /// The first of five or more.
    More(&'a [u8]),
}

#[inline(never)]
fn first_space(text: &[u8]) -> Option<usize>
    ensures none { IfNone result (HasNoSpace text.now) }
    ensures some { IfSome result (λ at. SpaceAt text.now at) }
{
    text.iter().position(|byte| *byte == b' ')
}

/// The first word, often of one letter, and what stands after the space behind it.
pub fn cut(text: &[u8]) -> (&[u8], Option<&[u8]>)
    ensures words { MatchOption result.1 (all_words text.now ≡ result.0.now ∷ []) (λ rest. all_words text.now
        ≡ result.0.now ∷ all_words rest.now) }
    ensures shorter { IfSome result.1 (λ rest. length rest.now < length text.now) }
{
    if 1 < text.len() && text[0] != b' ' && text[1] == b' ' {
        return (&text[..1], Some(&text[2..]));
    }
    match first_space(text) {
        None => (text, None),
        Some(at) => (&text[..at], Some(&text[at + 1..])),
    }
}

/// The words of a line.
pub fn tokens_of(line: &[u8]) -> LineTokens
    ensures { AreWords result (all_words line.now) }
{
    let (first, rest) = cut(line);
    let Some(rest) = rest else {
        return LineTokens::One(first);
    };
    let (second, rest) = cut(rest);
    let Some(rest) = rest else {
        return LineTokens::Two(first, second);
    };
    let (third, rest) = cut(rest);
    let Some(rest) = rest else {
        return LineTokens::Three(first, second, third);
    };
    match cut(rest) {
        (fourth, None) => LineTokens::Four(first, second, third, fourth),
        (_, Some(_)) => LineTokens::More(first),
    }
}

/// The word is this text.
pub fn is(word: &[u8], text: &[u8]) -> bool
    ensures { result ≡ is_text text.now word.now }
{
    word == text
}

fn is_small(byte: u8) -> bool
    ensures { result ≡ small byte }
{
    97 <= byte && byte <= 122
}

fn is_digit(byte: u8) -> bool
    ensures { result ≡ digit byte }
{
    48 <= byte && byte <= 57
}

fn is_name_byte(byte: u8) -> bool
    ensures { result ≡ name_byte byte }
{
    is_small(byte) || is_digit(byte) || byte == b'_'
}

fn is_plain(byte: u8) -> bool
    ensures { result ≡ plain byte }
{
    !(byte == b';' || byte == b'[' || byte == b']' || byte == b'{' || byte == b'}')
}

/// The first byte that stands in no NAME.
fn other_byte(text: &[u8]) -> Option<usize>
    ensures none { IfNone result (AreNameBytes text.now) }
    ensures some { IfSome result (λ at. (at < length text.now) × AreNameBytes (take at text.now) ×
        (name_byte (slice_index text.now at) ≡ false)) }
{
    text.iter().position(|byte| !is_name_byte(*byte))
}

/// These bytes of names are a NAME.
fn may_be_name(word: &[u8]) -> bool
    requires { AreNameBytes word.now }
    ensures { result ≡ name_form word.now }
{
    match word {
        [] => false,
        [first, rest @ ..] => is_small(*first) && rest.len() <= 31,
    }
}

/// The same of a text with this first byte that stands in no NAME.
fn cut_name_at(text: &[u8], at: usize) -> Option<(&[u8], Option<&[u8]>)>
    requires within { at < length text.now }
    requires before { AreNameBytes (take at text.now) }
    requires other { name_byte (slice_index text.now at) ≡ false }
    ensures words { IfSome result
        (λ found. MatchOption found.1 (all_words text.now ≡ found.0.now ∷ []) (λ rest. all_words text.now
        ≡ found.0.now ∷ all_words rest.now)) }
    ensures name { IfSome result (λ found. IsTrue (name_form found.0.now)) }
    ensures none { IfNone result (HasNoName (all_words text.now)) }
{
    if text[at] != b' ' {
        return None;
    }
    let word = &text[..at];
    if may_be_name(word) {
        Some((word, Some(&text[at + 1..])))
    } else {
        None
    }
}

/// The first word, where it is a NAME, and what stands after the space behind it.
pub fn cut_name(text: &[u8]) -> Option<(&[u8], Option<&[u8]>)>
    ensures words { IfSome result
        (λ found. MatchOption found.1 (all_words text.now ≡ found.0.now ∷ []) (λ rest. all_words text.now
        ≡ found.0.now ∷ all_words rest.now)) }
    ensures name { IfSome result (λ found. IsTrue (name_form found.0.now)) }
    ensures none { IfNone result (HasNoName (all_words text.now)) }
{
    match other_byte(text) {
        None => {
            if may_be_name(text) {
                Some((text, None))
            } else {
                None
            }
        }
        Some(at) => cut_name_at(text, at),
    }
}

fn all_name_bytes(word: &[u8]) -> bool
    ensures { result ≡ list_all name_byte word.now }
{
    word.iter().all(|byte| is_name_byte(*byte))
}

fn all_plain(word: &[u8]) -> bool
    ensures { result ≡ list_all plain word.now }
{
    word.iter().all(|byte| is_plain(*byte))
}

/// The word is a NAME.
pub fn is_name(word: &[u8]) -> bool
    ensures { result ≡ name_form word.now }
{
    match word {
        [] => false,
        [first, rest @ ..] => is_small(*first) && all_name_bytes(rest) && rest.len() <= 31,
    }
}

/// A NAME as it is kept.
pub fn name_of(word: &[u8]) -> Name
    requires { IsTrue (name_form word.now) }
    ensures { result ≡ word.now }
{
    Name::of(word)
}

/// The word may stand in a number's place.
pub fn is_run(word: &[u8]) -> bool
    ensures { result ≡ run_form word.now }
{
    0 < word.len() && all_plain(word)
}

/// The number in a place that wants one from `low` to `high`, with what is wrong with it.
pub fn number_in(low: u64, high: u64, word: &[u8]) -> (u64, Mark)
    ensures given { result ≡ number_within low high word.now }
    ensures high { result.0 ≤ high }
{
    match read_u64(word) {
        None => (0, Mark::BadNumber),
        Some(number) => {
            if low <= number && number <= high {
                (number, Mark::Fine)
            } else {
                (0, Mark::OutOfRange)
            }
        }
    }
}

/// A number of 32 bits, as `number_in` has it.
pub fn small_in(low: u32, high: u32, word: &[u8]) -> (u32, Mark)
    ensures given { result ≡ number_within low high word.now }
    ensures high { result.0 ≤ high }
{
    let (number, mark) = number_in(low as u64, high as u64, word);
    (number as u32, mark)
}

/// The worse of two marks.
pub fn worse(mark: Mark, other: Mark) -> Mark
    ensures { result ≡ worse_form mark other }
{
    match (mark, other) {
        (Mark::BadNumber, _) => Mark::BadNumber,
        (Mark::OutOfRange, Mark::BadNumber) => Mark::BadNumber,
        (Mark::OutOfRange, _) => Mark::OutOfRange,
        (Mark::Fine, other) => other,
    }
}
