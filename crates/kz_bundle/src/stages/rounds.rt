//! The last stage: rounds, and the order of the steps.
ghost use Rattle.std.specs.Prelude.{◌≡◌, ◌+◌, ◌-◌, ◌<◌, ◌≤◌, ◌^◌, ℕ, List, map, length, slice_index, All, IfOk};
ghost use Rattle.kz_model.specs.Grammar.Form.{Section};
ghost use Rattle.kz_model.specs.Grammar.Stages.{rounds_of, rounds_from, order_from, left_in, none_left as none_left_of, steps_in, rounds_fault as rounds_fault_of};
ghost use Rattle.kz_bundle.specs.Parts.{line_meant, section_meant, sections_meant, draft_of, AreParts, IsTurnWithin};
ghost use Rattle.kz_bundle.specs.Rounds.{AreTables, IsCountable, column};

use crate::form::parts::{Part, Parts};
use kz_model::{Cause, Items, OrderLine, Refusal, Trace};
use std::alloc::{AllocError, Global};

/// The first section with other rounds than the first.
fn other_rounds(breaks: u32, sections: &[Part]) -> Option<Refusal>
    ensures { (names words : List (List ℕ)) → result
        ≡ rounds_from breaks (map (section_meant names words) sections.now) }
{
    match sections {
        [] => None,
        [section, others @ ..] => {
            if section.breaks != breaks {
                return Some(Refusal {
                    line: section.line,
                    cause: Cause::RoundsDiffer,
                });
            }
            other_rounds(breaks, others)
        }
    }
}

fn differing_rounds(sections: &[Part]) -> Option<Refusal>
    ensures { (names words : List (List ℕ)) → result ≡ rounds_of (map (section_meant names words) sections.now) }
{
    match sections {
        [] => None,
        [first, others @ ..] => other_rounds(first.breaks, others),
    }
}

/// How many steps there are in each round.
fn count_rounds(alloc: Global, steps: &Trace, rounds: usize) -> Result<Items<u32>, AllocError>
    requires within { All (λ step. step.round < rounds) steps.now }
    requires few { length steps.now < 2 ^ 32 }
    ensures length { IfOk result (λ counts. length counts ≡ rounds) }
    ensures counts { IfOk result (λ counts. (names words : List (List ℕ)) (round : ℕ) → round < rounds →
        slice_index counts round ≡ steps_in round (map (line_meant names words) steps.now)) }
{
    let mut counts = vec![in alloc; 0; rounds]?;
    for at in 0..steps.len() {
        counts[steps.round(at) as usize] += 1;
    }
    Ok(Items::from_vec(counts))
}

fn none_left(left: &[u32]) -> bool
    ensures { result ≡ none_left_of left.now }
{
    left.iter().all(|n| *n == 0)
}

/// What the CPUs have left as a round begins.
fn column_of(alloc: Global, tables: &[Items<u32>], round: usize) -> Result<Vec<u32>, AllocError>
    requires { All (λ table. round < length table) tables.now }
    ensures { IfOk result (λ left. left.items ≡ column tables.now round) }
{
    let mut left = Vec::new(alloc);
    for table in tables {
        left.push(table.as_slice()[round])?;
    }
    Ok(left)
}

fn bad_order(line: u32) -> Option<Refusal>
    ensures { result ≡ Some (record { line = line; cause = Cause.BadOrder }) }
{
    Some(Refusal {
        line,
        cause: Cause::BadOrder,
    })
}

/// For each section how many steps it has in each round.
fn tables_of(alloc: Global, sections: &[Part], rounds: usize) -> Result<Vec<Items<u32>>, AllocError>
    requires { All (λ part. IsCountable rounds part) sections.now }
    ensures { IfOk result (λ tables. (names words : List (List ℕ)) →
        AreTables tables.items (map (section_meant names words) sections.now) rounds) }
{
    let mut tables = Vec::new(alloc);
    for section in sections {
        tables.push(count_rounds(alloc, &section.steps, rounds)?)?;
    }
    Ok(tables)
}

/// The first fault of the order's lines, which begin below line `order_at`.
fn walk(
    alloc: Global,
    tables: &[Items<u32>],
    rounds: u32,
    turns: &[OrderLine],
    order_at: u32,
) -> Result<Option<Refusal>, AllocError>
    requires some { 1 ≤ rounds }
    requires lengths { All (λ table. length table ≡ rounds) tables.now }
    requires turns { All (IsTurnWithin (length tables.now)) turns.now }
    requires lines { order_at + length turns.now + 2 ≤ 2 ^ 32 }
    ensures { IfOk result (λ fault. (sections : List Section) → AreTables tables.now sections rounds →
        fault ≡ order_from sections (rounds - 1) 0 (left_in 0 sections) (order_at + 1) turns.now) }
{
    let last = rounds - 1;
    let mut round = 0;
    let mut left = column_of(alloc, tables, 0)?;
    let mut line = order_at + 1;
    let mut ahead = turns;
    loop {
        match ahead {
            [] => {
                if !none_left(&left) || round != last {
                    return Ok(bad_order(line));
                }
                return Ok(None);
            }
            [turn, others @ ..] => {
                match *turn {
                    OrderLine::Cpu { cpu } => {
                        let count = left[cpu as usize];
                        if count == 0 {
                            return Ok(bad_order(line));
                        }
                        left[cpu as usize] = count - 1;
                    }
                    OrderLine::Round => {
                        if !none_left(&left) || round == last {
                            return Ok(bad_order(line));
                        }
                        round += 1;
                        left = column_of(alloc, tables, round as usize)?;
                    }
                }
                line += 1;
                ahead = others;
            }
        }
    }
}

fn order_fault(
    alloc: Global,
    parts: &Parts<'_>,
    turns: &[OrderLine],
    rounds: u32,
) -> Result<Option<Refusal>, AllocError>
    requires some { 1 ≤ rounds }
    requires countable { All (λ part. IsCountable rounds part) parts.now.sections.items }
    requires turns { All (IsTurnWithin (length parts.now.sections.items)) turns.now }
    requires lines { parts.now.order_at + length turns.now + 2 ≤ 2 ^ 32 }
    ensures { IfOk result (λ fault. fault
        ≡ order_from (sections_meant parts.now) (rounds - 1) 0 (left_in 0 (sections_meant parts.now))
        (parts.now.order_at + 1) turns.now) }
{
    let tables = tables_of(alloc, &parts.sections, rounds as usize)?;
    walk(alloc, &tables, rounds, turns, parts.order_at)
}

/// The first fault of the last stage.
pub fn rounds_fault(alloc: Global, parts: &Parts<'_>) -> Result<Option<Refusal>, AllocError>
    requires { AreParts parts.now }
    ensures { IfOk result (λ fault. fault ≡ rounds_fault_of (draft_of parts.now)) }
{
    match differing_rounds(parts.sections.as_slice()) {
        Some(refusal) => Ok(Some(refusal)),
        None => match &parts.order {
            None => Ok(None),
            Some(turns) => {
                let last = parts.sections.len() - 1;
                let rounds = parts.sections[last].breaks + 1;
                order_fault(alloc, parts, turns.as_slice(), rounds)
            }
        },
    }
}
