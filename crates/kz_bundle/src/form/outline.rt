//! The words of a body, one after the other: which are allowed, and what each says of its fields.
ghost use Rattle.std.specs.Prelude.{◌≡◌, IfSome};
ghost use Rattle.std.specs.Option.{option_map};
ghost use Rattle.kz_model.specs.Grammar.Tokens.{number_in as number_within};
ghost use Rattle.kz_bundle.specs.Outlines.{IsNamed, found_as, no_outline, silent, with_kind, kinded as first_taken};
ghost use Rattle.kz_bundle.specs.Outlines.{closed as closed_form, labelled as label_taken, sized as sized_form};
ghost use Rattle.kz_bundle.specs.Outlines.{next_word, is_done};
ghost use Rattle.kz_bundle.specs.Walks.{walk_over, KeepsMark, KeepsFields, IsShorter, HasName};

use crate::form::label::{Label, before_last, label_of};
use crate::form::tokens::{cut, is, is_name, is_run, name_of, small_in, worse};
use kz_model::{Kind, Mark};

/// Which words are allowed next.
#[derive(Clone, Copy)]
enum Allowed {
    /// `{`.
    Open,
    /// A field's kind, or `}`.
    First,
    /// A field's kind.
    More,
    /// The number of `bytes`.
    Size,
    /// The NAME of `struct`.
    Of,
    /// The label of a field.
    Label,
    /// `}`.
    Close,
    /// None.
    Done,
}

/// What a word says of the fields of a body.
#[derive(Drop)]
pub enum Event<'a> {
    /// Nothing: it is a brace, or the first of a kind's two words.
    Nothing,
    /// The kind of a field, whose label follows.
    KindIs(Kind),
    /// The fields of a union begin.
    UnionOpens,
    /// The fields of a union end; its label follows.
    UnionCloses,
    /// The label of a field, which ends with it.
    LabelIs(Label<'a>),
}

/// The words of a body so far, without its fields: how many unions are open, and what is wrong with
/// the numbers.
#[derive(Clone, Copy)]
struct Outline {
    depth: u32,
    mark: Mark,
    next: Allowed,
}

impl Outline {
    fn new() -> Outline
        ensures { result ≡ no_outline }
    {
        Outline {
            depth: 0,
            mark: Mark::Fine,
            next: Allowed::Open,
        }
    }

    /// A word that says nothing of the fields.
    fn silent<'a>(self, next: Allowed) -> (Outline, Event<'a>)
        ensures { found_as result ≡ silent self next }
    {
        (Outline { next, ..self }, Event::Nothing)
    }

    /// A word that ends the kind of a field.
    fn with_kind<'a>(self, kind: Kind) -> (Outline, Event<'a>)
        ensures given { found_as result ≡ with_kind self kind }
        ensures named { IsNamed result.1 }
    {
        let outline = Outline {
            next: Allowed::Label,
            ..self
        };
        (outline, Event::KindIs(kind))
    }

    /// The first word of a field.
    fn kinded<'a>(self, word: &[u8]) -> Option<(Outline, Event<'a>)>
        ensures given { option_map found_as result ≡ first_taken self word.now }
        ensures named { IfSome result (λ found. IsNamed found.1) }
    {
        macro_rules! by_word {
            ($($text:literal => $found:expr;)*) => {
                $(if is(word, $text) { Some($found) } else)*
                if is(word, b"union") && self.depth < 8 {
                    let outline = Outline { depth: self.depth + 1, next: Allowed::Open, ..self };
                    Some((outline, Event::UnionOpens))
                } else {
                    None
                }
            };
        }
        by_word! {
            b"ptr" => self.with_kind(Kind::Ptr);
            b"auth" => self.with_kind(Kind::Auth);
            b"u8" => self.with_kind(Kind::U8);
            b"u16" => self.with_kind(Kind::U16);
            b"u32" => self.with_kind(Kind::U32);
            b"u64" => self.with_kind(Kind::U64);
            b"bytes" => self.silent(Allowed::Size);
            b"struct" => self.silent(Allowed::Of);
        }
    }

    /// `}` ends the innermost body.
    fn closed<'a>(self) -> (Outline, Event<'a>)
        ensures given { found_as result ≡ closed_form self }
        ensures named { IsNamed result.1 }
    {
        if self.depth == 0 {
            return self.silent(Allowed::Done);
        }
        let outline = Outline {
            depth: self.depth - 1,
            next: Allowed::Label,
            ..self
        };
        (outline, Event::UnionCloses)
    }

    /// The label of a field, and `;` where a field follows.
    fn labelled(self, word: &[u8]) -> Option<(Outline, Event<'_>)>
        ensures given { option_map found_as result ≡ label_taken self word.now }
        ensures named { IfSome result (λ found. IsNamed found.1) }
    {
        let (text, next) = match before_last(word, b';') {
            Some(text) => (text, Allowed::More),
            None => (word, Allowed::Close),
        };
        let label = label_of(text)?;
        let outline = Outline {
            mark: worse(self.mark, label.mark),
            next,
            ..self
        };
        Some((outline, Event::LabelIs(label)))
    }

    /// The number of `bytes`.
    fn sized<'a>(self, word: &[u8]) -> (Outline, Event<'a>)
        ensures given { found_as result ≡ sized_form self (number_within 1 8192 word.now) }
        ensures named { IsNamed result.1 }
    {
        let (size, mark) = small_in(1, 8192, word);
        let outline = Outline {
            mark: worse(self.mark, mark),
            ..self
        };
        outline.with_kind(Kind::Bytes { size })
    }

    /// One more word. None where its place does not allow it.
    fn with_word(self, word: &[u8]) -> Option<(Outline, Event<'_>)>
        ensures given { option_map found_as result ≡ next_word self.next self word.now }
        ensures named { IfSome result (λ found. IsNamed found.1) }
    {
        match self.next {
            Allowed::Open if is(word, b"{") => Some(self.silent(Allowed::First)),
            Allowed::First | Allowed::Close if is(word, b"}") => Some(self.closed()),
            Allowed::First | Allowed::More => self.kinded(word),
            Allowed::Size if is_run(word) => Some(self.sized(word)),
            Allowed::Of if is_name(word) => {
                Some(self.with_kind(Kind::Struct { of: name_of(word) }))
            }
            Allowed::Label => self.labelled(word),
            Allowed::Open | Allowed::Size | Allowed::Of | Allowed::Close | Allowed::Done => None,
        }
    }

    /// Whether the body is whole.
    fn is_whole(self) -> bool
        ensures { result ≡ is_done self.next }
    {
        matches!(self.next, Allowed::Done)
    }
}

/// A body that is gone over word by word: what is left of it.
#[derive(Drop)]
pub struct Walk<'a> {
    outline: Outline,
    left: Option<&'a [u8]>,
}

/// What is next in a body.
#[derive(Drop)]
pub enum Next<'a> {
    /// A word that says this.
    Word(Event<'a>),
    /// The end of a whole body, with what is wrong with its numbers.
    End(Mark),
    /// Neither: the words are no body.
    NoForm,
}

impl<'a> Walk<'a> {
    pub fn over(words: Option<&'a [u8]>) -> Walk<'a>
        ensures { result ≡ walk_over words.entry }
    {
        Walk {
            outline: Outline::new(),
            left: words,
        }
    }

    pub fn next(&mut self) -> Next<'a>
        ensures mark { KeepsMark self.old self.new result }
        ensures fields { KeepsFields self.old self.new result }
        ensures shorter { IsShorter self.old self.new result }
        ensures named { HasName result }
    {
        let Some(text) = self.left else {
            if self.outline.is_whole() {
                return Next::End(self.outline.mark);
            }
            return Next::NoForm;
        };
        let (word, left) = cut(text);
        match self.outline.with_word(word) {
            Some((outline, event)) => {
                self.outline = outline;
                self.left = left;
                Next::Word(event)
            }
            None => Next::NoForm,
        }
    }
}
