//! What the lines of a text say, before its types, names and rounds are judged.
use kz_model::{Header, Items, OrderLine, Trace, Types};

/// A CPU's section: the number of its `cpu` line, how many `--` lines it has, and its steps.
#[derive(Drop)]
pub struct Part {
    pub line: u32,
    pub breaks: u32,
    /// Names and types are numbered by the tables of the `Parts`.
    pub steps: Trace,
}

/// What the lines of a text say. Names and types in step lines are numbered in the order in which they stand first.
#[derive(Drop)]
pub struct Parts<'a> {
    pub header: Header,
    pub types: Types,
    /// The names in step lines, each once.
    pub names: Vec<&'a [u8]>,
    /// The types in step lines, each once, declared or not.
    pub words: Vec<&'a [u8]>,
    /// One for each CPU.
    pub sections: Vec<Part>,
    pub order: Option<Items<OrderLine>>,
    /// The number of the line `order`.
    pub order_at: u32,
}
