//! What the reader of bundles speaks of: where a line stands, what is wrong with it, and why a text spells no bundle.
use crate::Seed;

/// What is wrong with the numbers of a line, the worst of them.
#[derive(Clone, Copy, Debug, PartialEq, Eq)]
pub enum Mark {
    Fine,
    OutOfRange,
    BadNumber,
}

/// Where in a text a line stands: which forms are allowed there.
#[derive(Clone, Copy, Debug, PartialEq, Eq)]
pub enum Place {
    /// The header, by how many of its lines stand before.
    Header { at: u32 },
    /// Type lines, and `cpu 0`.
    Types,
    /// The lines of the newest CPU's section, and what may follow it.
    Steps,
    /// The lines of the order section.
    Order,
    /// Nothing.
    Ended,
}

/// What the header says.
#[derive(Clone, Copy, Debug, PartialEq, Eq)]
pub struct Header {
    pub machine: u32,
    pub seed: Seed,
    pub cpus: u32,
    pub frames: u32,
    pub pages: u32,
    pub budget: u32,
    pub magazine: u32,
    pub depot: u32,
}

/// What there are too many of.
#[derive(Clone, Copy, Debug, PartialEq, Eq)]
pub enum Counted {
    Types,
    Steps,
    Names,
    Rounds,
}

/// Why an input is refused.
#[derive(Clone, Copy, Debug, PartialEq, Eq)]
pub enum Cause {
    BadLine,
    BadNumber,
    OutOfRange,
    TooMany { what: Counted },
    SameName,
    UnknownType,
    ForwardUse,
    Empty,
    TooLarge { size: u32 },
    BudgetShort { classes: u32 },
    UnknownName,
    NameOfTwoCpus,
    NameOfTwoTypes,
    GiveToSelf,
    RoundsDiffer,
    BadOrder,
    Truncated,
    Trailing,
    /// The input has more than 33,554,432 bytes.
    TooLong,
}

/// A refused input: the number of the line, from 1, and the cause. Line 0 is the input as a whole.
#[derive(Clone, Copy, Debug, PartialEq, Eq)]
pub struct Refusal {
    pub line: u32,
    pub cause: Cause,
}
