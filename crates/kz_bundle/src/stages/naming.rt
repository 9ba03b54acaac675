//! The stage of names: each line's type, name and CPU.
ghost use Rattle.std.specs.Prelude.{◌≡◌, ◌<◌, ◌≤◌, ◌^◌, ◌++◌, ◌∷◌, [], ℕ, List, length, map, fold, None, Some, All, IfOk, OnOk, OnErr, MatchOption, IfSome, slice_index_or};
ghost use Rattle.std.specs.Option.{option_map};
ghost use Rattle.kz_model.specs.declared.bundle.Act.{Act};
ghost use Rattle.kz_model.specs.Grammar.Spelling.{named_step_of, text_at};
ghost use Rattle.kz_model.specs.Grammar.Stages.{type_in, name_in, gives_to, binds, bound_fault, name_fault, names_from, with_row, with_bound, of_cpu, CpuLine};
ghost use Rattle.kz_model.specs.Store.Traces.{AreNumbered};
ghost use Rattle.kz_bundle.specs.Parts.{line_meant, AreOnce};
ghost use Rattle.kz_bundle.specs.Naming.{at_line, AreDeclared, type_fault, unknown_fault, self_fault};

use crate::stages::entry::{Entry, Rows};
use kz_model::{Act, Cause, Counted, Refusal, Trace};
use std::alloc::{AllocError, Global};

/// The most names that a bundle may have.
const MOST_NAMES: usize = 100_000;

/// The type that a step line names.
fn word_of(act: &Act) -> Option<u32>
    ensures told { (names words : List (List ℕ)) → option_map (text_at words) result
        ≡ type_in (named_step_of names words act.now) }
    ensures within { (names words : ℕ) → AreNumbered names words act.now → IfSome result (λ word. word < words) }
{
    match act {
        Act::Alloc { of, .. } => Some(*of),
        Act::AllocZero { of, .. } => Some(*of),
        Act::Free { of, .. } => *of,
        Act::Give { .. } => None,
        Act::Take { .. } => None,
        Act::Read { .. } => None,
        Act::Write { .. } => None,
        Act::Flush { of } => Some(*of),
        Act::Trim { of } => Some(*of),
    }
}

/// The name that a step line names.
fn name_of(act: &Act) -> Option<u32>
    ensures told { (names words : List (List ℕ)) → option_map (text_at names) result
        ≡ name_in (named_step_of names words act.now) }
    ensures within { (names words : ℕ) → AreNumbered names words act.now → IfSome result (λ name. name < names) }
{
    match act {
        Act::Alloc { name, .. } => Some(*name),
        Act::AllocZero { name, .. } => Some(*name),
        Act::Free { name, .. } => Some(*name),
        Act::Give { name, .. } => Some(*name),
        Act::Take { name } => Some(*name),
        Act::Read { name, .. } => Some(*name),
        Act::Write { name, .. } => Some(*name),
        Act::Flush { .. } => None,
        Act::Trim { .. } => None,
    }
}

/// A type that isn't declared.
fn type_cause(declared: &[Option<u32>], act: &Act) -> Option<Cause>
    requires { (names : ℕ) × AreNumbered names (length declared.now) act.now }
    ensures { (types names words : List (List ℕ)) (line : ℕ) → AreDeclared types words declared.now →
        type_fault types line (named_step_of names words act.now) ≡ at_line line result }
{
    match word_of(act) {
        None => None,
        Some(word) => match declared[word as usize] {
            None => Some(Cause::UnknownType),
            Some(_) => None,
        },
    }
}

/// A name that no line binds.
fn unknown_cause(all: &Rows<'_>, act: &Act) -> Option<Cause>
    requires { (words : ℕ) × AreNumbered (length all.now.names) words act.now }
    ensures { (words : List (List ℕ)) (line : ℕ) →
        unknown_fault all.now.rows line (named_step_of all.now.names words act.now) ≡ at_line line result }
{
    match name_of(act) {
        None => None,
        Some(name) => match all.get(name) {
            None => Some(Cause::UnknownName),
            Some(_) => None,
        },
    }
}

/// A gift to the CPU that gives it.
fn self_cause(cpu: u32, act: &Act) -> Option<Cause>
    ensures { (names words : List (List ℕ)) (line : ℕ) → self_fault cpu line (named_step_of names words act.now)
        ≡ at_line line result }
{
    match act {
        Act::Give { to, .. } => {
            if *to == cpu {
                Some(Cause::GiveToSelf)
            } else {
                None
            }
        }
        Act::Alloc { .. } => None,
        Act::AllocZero { .. } => None,
        Act::Free { .. } => None,
        Act::Take { .. } => None,
        Act::Read { .. } => None,
        Act::Write { .. } => None,
        Act::Flush { .. } => None,
        Act::Trim { .. } => None,
    }
}

/// What an `a` or `z` line binds: its name with its type.
fn entry_of(cpu: u32, act: &Act) -> Option<Entry>
    ensures told { (names words : List (List ℕ)) →
        option_map (λ entry. (text_at names entry.name, text_at words entry.of)) result
        ≡ binds (named_step_of names words act.now) }
    ensures cpu { IfSome result (λ entry. entry.cpu ≡ cpu) }
    ensures within { (names words : ℕ) → AreNumbered names words act.now →
        IfSome result (λ entry. (entry.name < names) × (entry.of < words)) }
{
    match act {
        Act::Alloc { name, of } => Some(Entry {
            name: *name,
            of: *of,
            cpu,
        }),
        Act::AllocZero { name, of } => Some(Entry {
            name: *name,
            of: *of,
            cpu,
        }),
        Act::Free { .. } => None,
        Act::Give { .. } => None,
        Act::Take { .. } => None,
        Act::Read { .. } => None,
        Act::Write { .. } => None,
        Act::Flush { .. } => None,
        Act::Trim { .. } => None,
    }
}

/// A name that is bound with another type or on another CPU, or that is one too many.
fn bound_cause(rows: &Rows<'_>, entry: Entry) -> Option<Cause>
    requires name { entry.name < length rows.now.names }
    requires word { entry.of < length rows.now.words }
    requires once { AreOnce rows.now.words }
    ensures { (line : ℕ) → bound_fault rows.now.rows line entry.cpu
        (Some (text_at rows.now.names entry.name, text_at rows.now.words entry.of)) ≡ at_line line result }
{
    match rows.get(entry.name) {
        None => {
            if rows.len() == MOST_NAMES {
                Some(Cause::TooMany {
                    what: Counted::Names,
                })
            } else {
                None
            }
        }
        Some(before) => {
            if before.of != entry.of {
                Some(Cause::NameOfTwoTypes)
            } else if before.cpu != entry.cpu {
                Some(Cause::NameOfTwoCpus)
            } else {
                None
            }
        }
    }
}

fn entry_cause(rows: &Rows<'_>, cpu: u32, act: &Act) -> Option<Cause>
    requires within { AreNumbered (length rows.now.names) (length rows.now.words) act.now }
    requires once { AreOnce rows.now.words }
    ensures { (line : ℕ) → bound_fault rows.now.rows line cpu
        (binds (named_step_of rows.now.names rows.now.words act.now)) ≡ at_line line result }
{
    match entry_of(cpu, act) {
        None => None,
        Some(entry) => bound_cause(rows, entry),
    }
}

/// What is wrong with a step line: its type first, then what it binds, then its name, then the CPU that it gives to.
pub fn line_cause(
    declared: &[Option<u32>],
    all: &Rows<'_>,
    rows: &Rows<'_>,
    cpu: u32,
    act: &Act,
) -> Option<Cause>
    requires names { all.now.names ≡ rows.now.names }
    requires declared { length declared.now ≡ length rows.now.words }
    requires within { AreNumbered (length rows.now.names) (length rows.now.words) act.now }
    requires once { AreOnce rows.now.words }
    ensures { (types : List (List ℕ)) (line round : ℕ) → AreDeclared types rows.now.words declared.now →
        name_fault types all.now.rows rows.now.rows
        (cpu, line_meant rows.now.names rows.now.words (record { line = line; round = round; act = act.now }))
        ≡ at_line line result }
{
    match type_cause(declared, act) {
        Some(cause) => Some(cause),
        None => match entry_cause(rows, cpu, act) {
            Some(cause) => Some(cause),
            None => match unknown_cause(all, act) {
                Some(cause) => Some(cause),
                None => self_cause(cpu, act),
            },
        },
    }
}

/// The rows with that of one more line.
pub fn bind_line(rows: &mut Rows<'_>, cpu: u32, act: &Act) -> Result<(), AllocError>
    requires { AreNumbered (length rows.old.names) (length rows.old.words) act.now }
    ensures ok { OnOk result (rows.new
        ≡ record rows.old {
          rows =
              with_bound rows.old.rows cpu (binds (named_step_of rows.old.names rows.old.words act.now));
        }) }
    ensures err { OnErr result (rows.new ≡ rows.old) }
{
    match entry_of(cpu, act) {
        None => Ok(()),
        Some(entry) => rows.bind(entry),
    }
}
