//! How the program ended, and the line that says so.
ghost use Rattle.std.specs.Prelude.{◌≡◌, ◌+◌, ◌≤◌, ◌++◌, [], length, decimal};
ghost use Rattle.arrayvec.specs.ArrayVec.{array_vec_len};
ghost use Rattle.kz_top.specs.Call.{refusal_line, status_line, cause_text, counted_text, status_number};

use arrayvec::ArrayVec;
use itoa::Buffer;
use kz_model::{Cause, Counted, Refusal};

/// How the program ended.
#[derive(Clone, Copy, Debug, PartialEq, Eq)]
pub enum Status {
    Ok,
    Usage,
    Refused(Refusal),
    ReadFault,
    WriteFault,
    Memory,
}

impl Status {
    /// The number that the process ends with.
    pub fn number(self) -> u8
        ensures { result ≡ status_number self }
    {
        match self {
            Status::Ok => 0,
            Status::Usage => 1,
            Status::Refused(_) => 2,
            Status::ReadFault => 3,
            Status::WriteFault => 4,
            Status::Memory => 5,
        }
    }
}

/// The line on err, in a buffer of its own.
pub fn line_of(status: Status) -> ArrayVec<u8, 64>
    ensures { result.items ≡ status_line status }
{
    let mut line = ArrayVec::new();
    match status {
        Status::Ok => {}
        Status::Usage => append(&mut line, b"kzone: usage\n"),
        Status::Refused(refusal) => append_refusal(&mut line, refusal),
        Status::ReadFault => append(&mut line, b"kzone: read fault\n"),
        Status::WriteFault => append(&mut line, b"kzone: write fault\n"),
        Status::Memory => append(&mut line, b"kzone: out of memory\n"),
    }
    line
}

// Appends where there is room.
fn append(line: &mut ArrayVec<u8, 64>, bytes: &[u8])
    requires { array_vec_len line.old + length bytes.now ≤ 64 }
    ensures items { line.new.items ≡ line.old.items ++ bytes.now }
    ensures len { array_vec_len line.new ≡ array_vec_len line.old + length bytes.now }
{
    let _ = line.try_extend_from_slice(bytes);
}

fn counted(what: Counted) -> &'static [u8]
    ensures text { result.now ≡ counted_text what }
    ensures few { length result.now ≤ 6 }
{
    match what {
        Counted::Types => b"types",
        Counted::Steps => b"steps",
        Counted::Names => b"names",
        Counted::Rounds => b"rounds",
    }
}

// Appends words, and a number behind them.
fn append_numbered(line: &mut ArrayVec<u8, 64>, words: &[u8], number: u32)
    requires { array_vec_len line.old + length words.now ≤ 50 }
    ensures items { line.new.items ≡ line.old.items ++ (words.now ++ decimal number) }
    ensures len { array_vec_len line.new ≤ array_vec_len line.old + length words.now + 10 }
{
    let mut digits = Buffer::new();
    append(line, words);
    append(line, digits.format(number).as_bytes());
}

fn append_cause(line: &mut ArrayVec<u8, 64>, cause: Cause)
    requires { array_vec_len line.old ≤ 30 }
    ensures items { line.new.items ≡ line.old.items ++ cause_text cause }
    ensures len { array_vec_len line.new ≤ array_vec_len line.old + 30 }
{
    match cause {
        Cause::BadLine => append(line, b"bad line"),
        Cause::BadNumber => append(line, b"bad number"),
        Cause::OutOfRange => append(line, b"out of range"),
        Cause::TooMany { what } => {
            append(line, b"too many ");
            append(line, counted(what));
        }
        Cause::SameName => append(line, b"same name"),
        Cause::UnknownType => append(line, b"unknown type"),
        Cause::ForwardUse => append(line, b"forward use"),
        Cause::Empty => append(line, b"empty type"),
        Cause::TooLarge { size } => append_numbered(line, b"too large ", size),
        Cause::BudgetShort { classes } => append_numbered(line, b"budget short ", classes),
        Cause::UnknownName => append(line, b"unknown name"),
        Cause::NameOfTwoCpus => append(line, b"name of two cpus"),
        Cause::NameOfTwoTypes => append(line, b"name of two types"),
        Cause::GiveToSelf => append(line, b"give to self"),
        Cause::RoundsDiffer => append(line, b"rounds differ"),
        Cause::BadOrder => append(line, b"bad order"),
        Cause::Truncated => append(line, b"truncated"),
        Cause::Trailing => append(line, b"trailing"),
        Cause::TooLong => append(line, b"too long"),
    }
}

fn append_refusal(line: &mut ArrayVec<u8, 64>, refusal: Refusal)
    requires { line.old.items ≡ [] }
    ensures { line.new.items ≡ refusal_line refusal }
{
    append_numbered(line, b"kzone: line ", refusal.line);
    append(line, b": ");
    append_cause(line, refusal.cause);
    append(line, b"\n");
}
