//! What the lines of a text say, taken one after the other.
ghost use Rattle.std.specs.Prelude.{◌≡◌, ◌≢◌, ◌≤◌, ◌+◌, ◌-◌, ℕ, [], ◌∷◌, length, Some, None, if◌then◌else◌, IfOk, IfSome, IsTrue, OnOk};
ghost use Rattle.kz_model.specs.declared.grammar.Mark.TheVariants.{Fine};
ghost use Rattle.kz_model.specs.declared.bundle.OrderLine.{OrderLine};
ghost use Rattle.kz_model.specs.Grammar.Tokens.{tokens_of as all_words, is_name as name_form, is_hex as hex_form, number_in as number_within};
ghost use Rattle.kz_model.specs.Grammar.Steps.{step_of_2 as two_form, step_of_3 as three_form, step_of_4 as four_form, gives as gives_form, reads as reads_form, writes as writes_form};
ghost use Rattle.kz_model.specs.Store.TypeLines.{IsTypeLine, decl_of};
ghost use Rattle.kz_model.specs.Grammar.Form.{as_line, Does as does_as, line_of_steps as steps_form, empty_draft, line_of_types as types_form, with_header as header_said, with_type as type_said, with_section as section_said, with_step as step_said, with_turn as turn_said, with_break as break_said, with_line, judged, line_at, after_line, rest_at, turns_of};
ghost use Rattle.kz_bundle.specs.Parts.{IsTurnWithin, AreParts, draft_of};
ghost use Rattle.kz_bundle.specs.Cut.{list_of};
ghost use Rattle.kz_bundle.specs.NamedSteps.{found_as, named_step_as, IsNamed};
ghost use Rattle.kz_bundle.specs.Lines.{line_as, FitsTypes};
ghost use Rattle.kz_bundle.specs.Reading.{cpu_said, so_far, IsReading, Takes, Forms, fault_at, FitsAt, FoundFits, IsHeaderPlace, MayOpen};

use crate::ReadBundleFault;
use crate::form::check::check_type;
use crate::form::lines::{Line, cpu_line, header_line, line_of_order, mark_line};
use crate::form::names::Names;
use crate::form::parts::{Part, Parts};
use crate::form::steps::{NamedStep, piece_of};
use crate::form::tables::Tables;
use crate::form::tokens::{
    LineTokens, cut, cut_name, is, is_name, is_run, small_in, tokens_of, worse,
};
use kz_model::{
    Cause, Counted, Header, Items, Mark, Name, OrderLine, Place, Refusal, Seed, Trace, Types,
};
use std::alloc::{AllocError, Global};
use std::mem;

/// Why a line was not taken.
#[derive(Clone, Copy, Debug, PartialEq, Eq)]
pub enum Fault {
    Refused(Cause),
    Memory,
}

impl Fault {
    /// The fault of the line of this number.
    pub fn at(self, line: u32) -> ReadBundleFault
        ensures { result ≡ fault_at line self }
    {
        match self {
            Fault::Refused(cause) => ReadBundleFault::Refused(Refusal { line, cause }),
            Fault::Memory => ReadBundleFault::Memory,
        }
    }
}

impl From<AllocError> for Fault {
    ghost use Rattle.std.specs.Prelude.{◌≡◌};
    ghost use Rattle.kz_bundle.specs.declared.form.reader.Fault.TheVariants.{Memory};

    ghost from_gives = { λ _ fault. fault ≡ Memory };

    fn from(_: AllocError) -> Fault {
        Fault::Memory
    }
}

/// What the lines so far say. The newest section stands beside those that are before it.
#[derive(Drop)]
pub struct Reader<'a> {
    place: Place,
    header: Header,
    types: Types,
    tables: Tables<'a>,
    before: Vec<Part>,
    section: Part,
    steps: u32,
    order: Option<Items<OrderLine>>,
    order_at: u32,
}

fn too_many(what: Counted) -> Fault
    ensures { result ≡ Fault.Refused (Cause.TooMany what) }
{
    Fault::Refused(Cause::TooMany { what })
}

/// A section that begins at this line.
fn new_part(alloc: Global, line: u32) -> Part
    ensures { result ≡ record { line = line; breaks = 0; steps = [] } }
{
    Part {
        line,
        breaks: 0,
        steps: Trace::new(alloc),
    }
}

/// A line where types stand: one more of them, or the first `cpu` line.
fn line_of_types(text: &[u8]) -> Option<(Line<'_>, Mark)>
    ensures given { found_as line_as result ≡ types_form (all_words text.now) }
    ensures fits { IfSome result (λ found. found.1 ≡ Fine → FitsTypes found.0) }
{
    let (first, _) = cut(text);
    if !is(first, b"type") {
        return cpu_line(0, tokens_of(text));
    }
    let (name, mark) = check_type(text)?;
    Some((Line::Declares(name, text), mark))
}

impl<'a> Reader<'a> {
    /// Before the first line.
    pub fn new(alloc: Global) -> Reader<'a>
        ensures nothing { so_far result ≡ empty_draft }
        ensures sound { IsReading result }
    {
        Reader {
            place: Place::Header { at: 0 },
            header: Header {
                machine: 0,
                seed: Seed::Plain,
                cpus: 0,
                frames: 0,
                pages: 0,
                budget: 0,
                magazine: 0,
                depot: 0,
            },
            types: Types::new(alloc),
            tables: Tables {
                names: Names::new(alloc),
                words: Names::new(alloc),
            },
            before: Vec::new(alloc),
            section: new_part(alloc, 0),
            steps: 0,
            order: None,
            order_at: 0,
        }
    }

    fn with_header(&mut self, header: Header)
        requires sound { IsReading self.old }
        requires next { IsHeaderPlace self.old.place header.cpus }
        ensures takes { so_far self.new ≡ header_said (so_far self.old) header }
        ensures sound { IsReading self.new }
    {
        if let Place::Header { at } = self.place {
            self.place = if at == 7 {
                Place::Types
            } else {
                Place::Header { at: at + 1 }
            };
        }
        self.header = header;
    }

    fn with_type(&mut self, alloc: Global, name: Name, text: &[u8]) -> Result<(), Fault>
        requires sound { IsReading self.old }
        requires fits { IsTypeLine text.now (decl_of text.now) }
        requires named { name ≡ (decl_of text.now).name }
        ensures takes { Takes result (so_far self.new) (type_said (so_far self.old) (decl_of text.now)) }
        ensures sound { OnOk result (IsReading self.new) }
    {
        if self.types.len() == 1024 {
            return Err(too_many(Counted::Types));
        }
        self.types.push(alloc, name, text)?;
        Ok(())
    }

    /// The section of the next CPU begins.
    fn with_section(&mut self, alloc: Global, line: u32) -> Result<(), Fault>
        requires sound { IsReading self.old }
        requires opens { MayOpen self.old.place self.old.header.cpus (length self.old.before.items) }
        ensures takes { Takes result (so_far self.new) (Ok (section_said self.old.place (so_far self.old) line)) }
        ensures sound { OnOk result (IsReading self.new) }
    {
        let section = mem::replace(&mut self.section, new_part(alloc, line));
        if let Place::Types = self.place {
            self.place = Place::Steps;
        } else if self.before.push(section).is_err() {
            return Err(Fault::Memory);
        }
        Ok(())
    }

    /// One more step.
    #[inline(always)]
    fn with_step(&mut self, line: u32, said: NamedStep<'a>) -> Result<(), Fault>
        requires sound { IsReading self.old }
        requires place { self.old.place ≡ Place.Steps }
        requires named { IsNamed said }
        ensures takes { Takes result (so_far self.new) (step_said (so_far self.old) line (named_step_as said.entry)) }
        ensures sound { OnOk result (IsReading self.new) }
    {
        if self.steps == 1_000_000 {
            return Err(too_many(Counted::Steps));
        }
        let round = self.section.breaks;
        let act = self.tables.act_of(said)?;
        self.section.steps.put(line, round, act)?;
        self.steps += 1;
        Ok(())
    }

    /// One more line of the order section.
    fn with_turn(&mut self, turn: OrderLine) -> Result<(), Fault>
        requires sound { IsReading self.old }
        requires place { self.old.place ≡ Place.Order }
        requires within { IsTurnWithin self.old.header.cpus turn }
        ensures takes { Takes result (so_far self.new) (Ok (turn_said (so_far self.old) turn)) }
        ensures sound { OnOk result (IsReading self.new) }
    {
        if let Some(turns) = &mut self.order {
            turns.push(turn)?;
        }
        Ok(())
    }

    /// One more round, of the order or of the newest section.
    fn with_break(&mut self) -> Result<(), Fault>
        requires sound { IsReading self.old }
        requires fits { FitsAt self.old Line.Break }
        ensures takes { Takes result (so_far self.new) (break_said self.old.place (so_far self.old)) }
        ensures sound { OnOk result (IsReading self.new) }
    {
        if let Place::Order = self.place {
            return self.with_turn(OrderLine::Round);
        }
        if self.section.breaks == 999 {
            return Err(too_many(Counted::Rounds));
        }
        self.section.breaks += 1;
        Ok(())
    }

    /// The order section begins.
    fn with_order(&mut self, alloc: Global, line: u32)
        requires sound { IsReading self.old }
        requires fits { FitsAt self.old Line.Orders }
        requires early { line ≤ 33554432 }
        ensures takes { with_line (so_far self.old) line (line_as Line.Orders) ≡ Ok (so_far self.new) }
        ensures sound { IsReading self.new }
    {
        self.place = Place::Order;
        self.order = Some(Items::new(alloc));
        self.order_at = line;
    }

    /// What a line says, added to what is said.
    fn take(&mut self, alloc: Global, number: u32, line: Line<'a>) -> Result<(), Fault>
        requires sound { IsReading self.old }
        requires fits { FitsAt self.old line }
        requires early { number ≤ 33554432 }
        ensures takes { Takes result (so_far self.new) (with_line (so_far self.old) number (line_as line.entry)) }
        ensures sound { OnOk result (IsReading self.new) }
    {
        let header = self.header;
        match line {
            Line::Machine(machine) => self.with_header(Header { machine, ..header }),
            Line::SeedOf(seed) => self.with_header(Header { seed, ..header }),
            Line::Cpus(cpus) => self.with_header(Header { cpus, ..header }),
            Line::Frames(frames) => self.with_header(Header { frames, ..header }),
            Line::Pages(pages) => self.with_header(Header { pages, ..header }),
            Line::Budget(budget) => self.with_header(Header { budget, ..header }),
            Line::Magazine(magazine) => self.with_header(Header { magazine, ..header }),
            Line::Depot(depot) => self.with_header(Header { depot, ..header }),
            Line::Declares(name, text) => return self.with_type(alloc, name, text),
            Line::Opens(_) => return self.with_section(alloc, number),
            Line::Break => return self.with_break(),
            Line::Turns(cpu) => return self.with_turn(OrderLine::Cpu { cpu }),
            Line::Orders => self.with_order(alloc, number),
            Line::Ends => self.place = Place::Ended,
        }
        Ok(())
    }

    /// What is found in a line, added where it has a form and its numbers are fine.
    fn judge(
        &mut self,
        alloc: Global,
        number: u32,
        found: Option<(Line<'a>, Mark)>,
    ) -> Result<(), Fault>
        requires sound { IsReading self.old }
        requires fits { FoundFits self.old found }
        requires early { number ≤ 33554432 }
        ensures takes { Takes result (so_far self.new) (judged (so_far self.old) number (found_as line_as found.entry)) }
        ensures sound { OnOk result (IsReading self.new) }
    {
        match found {
            None => Err(Fault::Refused(Cause::BadLine)),
            Some((_, Mark::BadNumber)) => Err(Fault::Refused(Cause::BadNumber)),
            Some((_, Mark::OutOfRange)) => Err(Fault::Refused(Cause::OutOfRange)),
            Some((line, Mark::Fine)) => self.take(alloc, number, line),
        }
    }

    /// What is found in a step line, added where its numbers are fine.
    #[inline(always)]
    fn judge_step(&mut self, number: u32, said: NamedStep<'a>, mark: Mark) -> Result<(), Fault>
        requires sound { IsReading self.old }
        requires place { self.old.place ≡ Place.Steps }
        requires named { IsNamed said }
        ensures takes { Takes result (so_far self.new)
            (judged (so_far self.old) number (Some (does_as (named_step_as said.entry), mark))) }
        ensures sound { OnOk result (IsReading self.new) }
    {
        match mark {
            Mark::BadNumber => Err(Fault::Refused(Cause::BadNumber)),
            Mark::OutOfRange => Err(Fault::Refused(Cause::OutOfRange)),
            Mark::Fine => self.with_step(number, said),
        }
    }

    /// `g NAME N`.
    fn give(&mut self, number: u32, name: &'a [u8], to: &[u8]) -> Result<(), Fault>
        requires sound { IsReading self.old }
        requires place { self.old.place ≡ Place.Steps }
        requires named { IsTrue (name_form name.now) }
        ensures takes { Takes result (so_far self.new)
            (judged (so_far self.old) number
            (as_line does_as (Some (gives_form name.now (number_within 0 (self.old.header.cpus - 1) to.now))))) }
        ensures sound { OnOk result (IsReading self.new) }
    {
        let (to, mark) = small_in(0, self.header.cpus.saturating_sub(1), to);
        self.judge_step(number, NamedStep::Give { name, to }, mark)
    }

    /// `r NAME OFF LEN`.
    fn read(&mut self, number: u32, name: &'a [u8], off: &[u8], len: &[u8]) -> Result<(), Fault>
        requires sound { IsReading self.old }
        requires place { self.old.place ≡ Place.Steps }
        requires named { IsTrue (name_form name.now) }
        ensures takes { Takes result (so_far self.new)
            (judged (so_far self.old) number
            (as_line does_as (Some (reads_form name.now (number_within 0 8191 off.now) (number_within 1 32 len.now))))) }
        ensures sound { OnOk result (IsReading self.new) }
    {
        let (off, off_mark) = small_in(0, 8191, off);
        let (len, len_mark) = small_in(1, 32, len);
        self.judge_step(
            number,
            NamedStep::Read { name, off, len },
            worse(off_mark, len_mark),
        )
    }

    /// `w NAME OFF HEX`, where the bytes have that form.
    #[inline(never)]
    fn write(&mut self, number: u32, name: &'a [u8], off: &[u8], bytes: &[u8]) -> Result<(), Fault>
        requires sound { IsReading self.old }
        requires place { self.old.place ≡ Place.Steps }
        requires named { IsTrue (name_form name.now) }
        ensures takes { Takes result (so_far self.new)
            (judged (so_far self.old) number
            (as_line does_as (if hex_form bytes.now
            then Some (writes_form name.now (number_within 0 8191 off.now) bytes.now) else None))) }
        ensures sound { OnOk result (IsReading self.new) }
    {
        let Some(bytes) = piece_of(bytes) else {
            return Err(Fault::Refused(Cause::BadLine));
        };
        let (off, mark) = small_in(0, 8191, off);
        self.judge_step(number, NamedStep::Write { name, off, bytes }, mark)
    }

    /// A step line of two words.
    fn step_of_two(&mut self, number: u32, word: &[u8], x: &'a [u8]) -> Result<(), Fault>
        requires sound { IsReading self.old }
        requires place { self.old.place ≡ Place.Steps }
        requires named { IsTrue (name_form x.now) }
        ensures takes { Takes result (so_far self.new)
            (judged (so_far self.old) number (as_line does_as (two_form word.now x.now))) }
        ensures sound { OnOk result (IsReading self.new) }
    {
        // A line for each kind: its word, the forms of what follows the name, and what is taken.
        macro_rules! by_word {
            ($($text:literal $(if $fits:expr)? => $taken:expr;)*) => {
                $(if is(word, $text) $(&& $fits)? { $taken } else)* { Err(Fault::Refused(Cause::BadLine)) }
            };
        }
        by_word! {
            b"f" => self.judge_step(number, NamedStep::Free { name: x }, Mark::Fine);
            b"t" => self.judge_step(number, NamedStep::Take { name: x }, Mark::Fine);
            b"flush" => self.judge_step(number, NamedStep::Flush { of: x }, Mark::Fine);
            b"trim" => self.judge_step(number, NamedStep::Trim { of: x }, Mark::Fine);
        }
    }

    /// A step line of three words.
    fn step_of_three(
        &mut self,
        number: u32,
        word: &[u8],
        x: &'a [u8],
        y: &'a [u8],
    ) -> Result<(), Fault>
        requires sound { IsReading self.old }
        requires place { self.old.place ≡ Place.Steps }
        requires named { IsTrue (name_form x.now) }
        ensures takes { Takes result (so_far self.new)
            (judged (so_far self.old) number (as_line does_as (three_form self.old.header.cpus word.now x.now y.now))) }
        ensures sound { OnOk result (IsReading self.new) }
    {
        // A line for each kind: its word, the forms of what follows the name, and what is taken.
        macro_rules! by_word {
            ($($text:literal $(if $fits:expr)? => $taken:expr;)*) => {
                $(if is(word, $text) $(&& $fits)? { $taken } else)* { Err(Fault::Refused(Cause::BadLine)) }
            };
        }
        by_word! {
            b"a" if is_name(y) => self.judge_step(number, NamedStep::Alloc { name: x, of: y }, Mark::Fine);
            b"z" if is_name(y) => self.judge_step(number, NamedStep::AllocZero { name: x, of: y }, Mark::Fine);
            b"f" if is_name(y) => self.judge_step(number, NamedStep::FreeAs { name: x, of: y }, Mark::Fine);
            b"g" if is_run(y) => self.give(number, x, y);
        }
    }

    /// A step line of four words.
    fn step_of_four(
        &mut self,
        number: u32,
        word: &[u8],
        x: &'a [u8],
        y: &[u8],
        v: &[u8],
    ) -> Result<(), Fault>
        requires sound { IsReading self.old }
        requires place { self.old.place ≡ Place.Steps }
        requires named { IsTrue (name_form x.now) }
        ensures takes { Takes result (so_far self.new)
            (judged (so_far self.old) number (as_line does_as (four_form word.now x.now y.now v.now))) }
        ensures sound { OnOk result (IsReading self.new) }
    {
        // A line for each kind: its word, the forms of what follows the name, and what is taken.
        macro_rules! by_word {
            ($($text:literal $(if $fits:expr)? => $taken:expr;)*) => {
                $(if is(word, $text) $(&& $fits)? { $taken } else)* { Err(Fault::Refused(Cause::BadLine)) }
            };
        }
        by_word! {
            b"r" if is_run(y) && is_run(v) => self.read(number, x, y, v);
            b"w" if is_run(y) => self.write(number, x, y, v);
        }
    }

    /// A line of one word in the newest section.
    #[inline(never)]
    fn mark(&mut self, alloc: Global, number: u32, word: &[u8]) -> Result<(), Fault>
        requires sound { IsReading self.old }
        requires place { self.old.place ≡ Place.Steps }
        requires early { number ≤ 33554432 }
        ensures takes { Takes result (so_far self.new)
            (judged (so_far self.old) number (steps_form (so_far self.old) (word.now ∷ []))) }
        ensures sound { OnOk result (IsReading self.new) }
    {
        let is_last = self.before.len() as u32 + 1 == self.header.cpus;
        let found = mark_line(is_last, word);
        self.judge(alloc, number, found)
    }

    /// `cpu N`, where the section of the next CPU begins.
    #[inline(never)]
    fn next_cpu(&mut self, alloc: Global, number: u32, words: LineTokens<'_>) -> Result<(), Fault>
        requires sound { IsReading self.old }
        requires place { self.old.place ≡ Place.Steps }
        requires early { number ≤ 33554432 }
        ensures takes { Takes result (so_far self.new)
            (judged (so_far self.old) number (cpu_said (so_far self.old) (list_of words.entry))) }
        ensures sound { OnOk result (IsReading self.new) }
    {
        let next = self.before.len() as u32 + 1;
        if next == self.header.cpus {
            return Err(Fault::Refused(Cause::BadLine));
        }
        let found = cpu_line(next, words);
        self.judge(alloc, number, found)
    }

    /// A line of the newest section.
    fn line_of_steps(&mut self, alloc: Global, number: u32, text: &'a [u8]) -> Result<(), Fault>
        requires sound { IsReading self.old }
        requires place { self.old.place ≡ Place.Steps }
        requires early { number ≤ 33554432 }
        ensures takes { Takes result (so_far self.new)
            (judged (so_far self.old) number (steps_form (so_far self.old) (all_words text.now))) }
        ensures sound { OnOk result (IsReading self.new) }
    {
        let (word, rest) = cut(text);
        let Some(rest) = rest else {
            return self.mark(alloc, number, word);
        };
        if is(word, b"cpu") {
            return self.next_cpu(alloc, number, tokens_of(text));
        }
        let Some((x, rest)) = cut_name(rest) else {
            return Err(Fault::Refused(Cause::BadLine));
        };
        let Some(rest) = rest else {
            return self.step_of_two(number, word, x);
        };
        let (y, rest) = cut(rest);
        let Some(rest) = rest else {
            return self.step_of_three(number, word, x, y);
        };
        match cut(rest) {
            (v, None) => self.step_of_four(number, word, x, y, v),
            (_, Some(_)) => Err(Fault::Refused(Cause::BadLine)),
        }
    }

    /// The form of a line, with what is wrong with its numbers.
    fn form(&self, text: &'a [u8]) -> Option<(Line<'a>, Mark)>
        requires sound { IsReading self.now }
        requires place { self.now.place ≢ Place.Steps }
        ensures given { found_as line_as result ≡ line_at self.now.place (so_far self.now) (all_words text.now) }
        ensures fits { FoundFits self.now result }
    {
        let cpus = self.header.cpus;
        match self.place {
            Place::Header { at } => header_line(at, tokens_of(text)),
            Place::Types => line_of_types(text),
            Place::Steps => None,
            Place::Order => line_of_order(cpus, tokens_of(text)),
            Place::Ended => None,
        }
    }

    /// One more line that stands in no section.
    #[inline(never)]
    fn other_line(&mut self, alloc: Global, number: u32, text: &'a [u8]) -> Result<(), Fault>
        requires sound { IsReading self.old }
        requires place { self.old.place ≢ Place.Steps }
        requires early { number ≤ 33554432 }
        ensures takes { Takes result (so_far self.new)
            (judged (so_far self.old) number (line_at self.old.place (so_far self.old) (all_words text.now))) }
        ensures sound { OnOk result (IsReading self.new) }
    {
        let found = self.form(text);
        self.judge(alloc, number, found)
    }

    /// One more line.
    pub fn line(&mut self, alloc: Global, number: u32, text: &'a [u8]) -> Result<(), Fault>
        requires sound { IsReading self.old }
        requires early { number ≤ 33554432 }
        ensures takes { Takes result (so_far self.new)
            (after_line self.old.place (so_far self.old) number (all_words text.now)) }
        ensures sound { OnOk result (IsReading self.new) }
    {
        if let Place::Ended = self.place {
            return Err(Fault::Refused(Cause::Trailing));
        }
        if let Place::Steps = self.place {
            return self.line_of_steps(alloc, number, text);
        }
        self.other_line(alloc, number, text)
    }

    fn into_parts(self) -> Result<Parts<'a>, AllocError>
        requires sound { IsReading self }
        requires place { self.place ≡ Place.Ended }
        requires few_turns { length (turns_of self.order) ≤ 33554432 }
        ensures form { IfOk result (λ parts. draft_of parts ≡ so_far self.entry) }
        ensures parts { IfOk result (λ parts. AreParts parts) }
    {
        let mut sections = self.before;
        sections.push(self.section)?;
        Ok(Parts {
            header: self.header,
            types: self.types,
            names: self.tables.names.into_texts(),
            words: self.tables.words.into_texts(),
            sections,
            order: self.order,
            order_at: self.order_at,
        })
    }

    /// What all lines say, where `rest` is what follows the last line that is ended, and has this
    /// number.
    pub fn finish(self, number: u32, rest: &[u8]) -> Result<Parts<'a>, ReadBundleFault>
        requires sound { IsReading self }
        requires few_turns { length (turns_of self.order) ≤ 33554432 }
        ensures form { Forms result (rest_at self.entry.place (so_far self.entry) number rest.now) }
        ensures parts { IfOk result (λ parts. AreParts parts) }
    {
        match self.place {
            Place::Ended => {
                if !rest.is_empty() {
                    return Err(Fault::Refused(Cause::Trailing).at(number));
                }
                Ok(self.into_parts()?)
            }
            _ => Err(Fault::Refused(Cause::Truncated).at(number)),
        }
    }
}
