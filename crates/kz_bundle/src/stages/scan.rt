//! The names of all step lines, one after the other.
ghost use Rattle.std.specs.Prelude.{◌≡◌, ◌<◌, ◌≤◌, ◌^◌, ◌++◌, ℕ, List, length, map, fold, take, drop, None, Some, All, IfOk, OnOk};
ghost use Rattle.kz_model.specs.Grammar.Stages.{Row, names_from, with_row, of_cpu, lines_from, rows_of, else_fault, CpuLine};
ghost use Rattle.kz_model.specs.Store.Traces.{AreNumbered};
ghost use Rattle.kz_model.specs.Grammar.Tokens.{texts};
ghost use Rattle.kz_bundle.specs.Parts.{line_meant, section_meant, IsPart, AreOnce};
ghost use Rattle.kz_bundle.specs.Naming.{AreDeclared};

use crate::form::parts::Part;
use crate::stages::entry::Rows;
use crate::stages::naming::{bind_line, line_cause};
use kz_model::{Refusal, Trace, TraceStep};
use std::alloc::{AllocError, Global};

/// The rows with those of a CPU's lines.
fn bind_steps(rows: &mut Rows<'_>, cpu: u32, steps: &Trace) -> Result<(), AllocError>
    requires { All (λ step. AreNumbered (length rows.old.names) (length rows.old.words) step.act) steps.now }
    ensures { OnOk result (rows.new
        ≡ record rows.old {
          rows =
              fold with_row rows.old.rows (of_cpu cpu (map (line_meant rows.old.names rows.old.words) steps.now));
        }) }
{
    for at in 0..steps.len() {
        let step = steps.step(at);
        bind_line(rows, cpu, &step.act)?;
    }
    Ok(())
}

/// The rows of all lines.
pub fn all_rows<'a>(
    alloc: Global,
    names: &'a [&'a [u8]],
    words: &'a [&'a [u8]],
    sections: &[Part],
) -> Result<Rows<'a>, AllocError>
    requires once { AreOnce (texts names.now) }
    requires few { length names.now < 2 ^ 32 }
    requires sections { All (IsPart (length names.now) (length words.now)) sections.now }
    requires few_sections { length sections.now < 2 ^ 32 }
    ensures { IfOk result (λ rows. rows
        ≡ record {
          names = texts names.now;
          words = texts words.now;
          rows =
              rows_of (lines_from 0 (map (section_meant (texts names.now) (texts words.now)) sections.now));
        }) }
{
    let mut rows = Rows::new(alloc, names, words)?;
    for (cpu, section) in sections.iter().enumerate() {
        bind_steps(&mut rows, cpu as u32, &section.steps)?;
    }
    Ok(rows)
}

/// The first fault of a CPU's lines, which bind names in the rows.
fn steps_fault(
    declared: &[Option<u32>],
    all: &Rows<'_>,
    rows: &mut Rows<'_>,
    cpu: u32,
    steps: &Trace,
) -> Result<Option<Refusal>, AllocError>
    requires names { all.now.names ≡ rows.old.names }
    requires declared { length declared.now ≡ length rows.old.words }
    requires within { All (λ step. AreNumbered (length rows.old.names) (length rows.old.words) step.act) steps.now }
    requires once { AreOnce rows.old.words }
    ensures names { rows.new.names ≡ rows.old.names }
    ensures words { rows.new.words ≡ rows.old.words }
    ensures fault { IfOk result (λ fault. (types : List (List ℕ)) (tail : List CpuLine) →
        AreDeclared types rows.old.words declared.now →
        names_from types all.now.rows rows.old.rows
        (of_cpu cpu (map (line_meant rows.old.names rows.old.words) steps.now) ++ tail)
        ≡ else_fault fault (names_from types all.now.rows rows.new.rows tail)) }
{
    for at in 0..steps.len() {
        let TraceStep { line, act, .. } = steps.step(at);
        match line_cause(declared, all, rows, cpu, &act) {
            Some(cause) => return Ok(Some(Refusal { line, cause })),
            None => bind_line(rows, cpu, &act)?,
        }
    }
    Ok(None)
}

/// The first fault of all lines, which bind names in the rows.
pub fn sections_fault(
    declared: &[Option<u32>],
    all: &Rows<'_>,
    rows: &mut Rows<'_>,
    sections: &[Part],
) -> Result<Option<Refusal>, AllocError>
    requires names { all.now.names ≡ rows.old.names }
    requires declared { length declared.now ≡ length rows.old.words }
    requires sections { All (IsPart (length rows.old.names) (length rows.old.words)) sections.now }
    requires few_sections { length sections.now < 2 ^ 32 }
    requires once { AreOnce rows.old.words }
    ensures { IfOk result (λ fault. (types : List (List ℕ)) → AreDeclared types rows.old.words declared.now →
        names_from types all.now.rows rows.old.rows
        (lines_from 0 (map (section_meant rows.old.names rows.old.words) sections.now)) ≡ fault) }
{
    for (cpu, section) in sections.iter().enumerate() {
        match steps_fault(declared, all, rows, cpu as u32, &section.steps)? {
            Some(refusal) => return Ok(Some(refusal)),
            None => {}
        }
    }
    Ok(None)
}
