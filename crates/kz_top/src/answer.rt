//! From the bytes of a bundle to the text that is made of it.
ghost use Rattle.std.specs.Prelude.{◌≡◌, ◌≤◌, All, length, vec_len, IfOk, MatchResult};
ghost use Rattle.kz_model.specs.Types.Planned.{IsPlanned};
ghost use Rattle.kz_model.specs.Text.Summary.{summary_text as told, replies_of_run};
ghost use Rattle.kz_model.specs.Grammar.Spelling.{IsSpelled};
ghost use Rattle.kz_model.specs.Grammar.Valid.{layouts_in, plan_in};
ghost use Rattle.kz_model.specs.Text.Report.{replayed_text};
ghost use Rattle.kz_top.specs.Call.{IsMadeFor, MakesOf, Refuses, text_for};

use crate::command::Command;
use kz_bundle::{ReadBundleFault, read_with_layouts};
use kz_machine::replay;
use kz_make::{made_bundles_spell, summary_text};
use kz_model::{Bundle, Layout, Plan, Refusal};
use kz_plan::plan;
use kz_report::{plan_text_with, text_with};
use std::alloc::{AllocError, Global};

/// The plan of a bundle, by the layouts of its types.
fn plan_of(alloc: Global, bundle: &Bundle, layouts: &[Layout]) -> Result<Plan, AllocError>
    requires spelled { IsSpelled bundle.now }
    requires layouts { layouts.now ≡ layouts_in bundle.now }
    requires few { length layouts.now ≤ 1024 }
    requires sizes { All (λ layout. layout.size ≤ 8192) layouts.now }
    ensures { IfOk result (λ plan. plan ≡ plan_in bundle.now) }
{
    // The budget of such a bundle is enough, so that only memory can be short.
    match plan(alloc, layouts, bundle.budget, bundle.seed) {
        Ok(plan) => Ok(plan),
        Err(_) => Err(AllocError),
    }
}

/// The report of the run of a bundle's order.
fn report_of(
    alloc: Global,
    bundle: &Bundle,
    plan: &Plan,
    layouts: &[Layout],
) -> Result<Vec<u8>, AllocError>
    requires planned { IsPlanned bundle.now plan.now }
    requires layouts { layouts.now ≡ layouts_in bundle.now }
    ensures { IfOk result (λ text. text.items ≡ replayed_text bundle.now) }
{
    let made = replay(alloc, bundle, plan)?;
    text_with(alloc, bundle, plan, layouts, &made)
}

/// The summary of the run of the order of a bundle that was made of this number, and that has so many bytes.
fn summary_of(
    alloc: Global,
    number: u64,
    bytes: u64,
    bundle: &Bundle,
    plan: &Plan,
) -> Result<Vec<u8>, AllocError>
    requires { IsPlanned bundle.now plan.now }
    ensures { IfOk result (λ text. text.items ≡ told number bytes (replies_of_run bundle.now)) }
{
    let made = replay(alloc, bundle, plan)?;
    summary_text(alloc, number, bytes, &made)
}

/// The text that a command makes of the bundle that these bytes spell, which are let go before the work begins.
fn text_of(
    alloc: Global,
    command: Command,
    bytes: Vec<u8>,
    bundle: &Bundle,
    layouts: &[Layout],
) -> Result<Vec<u8>, AllocError>
    requires made { IsMadeFor command bytes.items }
    requires spelled { IsSpelled bundle.now }
    requires layouts { layouts.now ≡ layouts_in bundle.now }
    requires few { length layouts.now ≤ 1024 }
    requires sizes { All (λ layout. layout.size ≤ 8192) layouts.now }
    ensures { IfOk result (λ text. text.items ≡ text_for command bundle.now) }
{
    let count = bytes.len() as u64;
    drop(bytes);
    let plan = plan_of(alloc, bundle, layouts)?;
    match command {
        Command::Plan => plan_text_with(alloc, bundle, &plan, layouts),
        Command::Replay => report_of(alloc, bundle, &plan, layouts),
        Command::Make { number } => summary_of(alloc, number, count, bundle, &plan),
    }
}

/// The text that a command makes of these bytes, or why it makes none.
pub fn answer(
    alloc: Global,
    command: Command,
    bytes: Vec<u8>,
) -> Result<Result<Vec<u8>, Refusal>, AllocError>
    requires few { vec_len bytes ≤ 33554432 }
    requires made { IsMadeFor command bytes.items }
    ensures { IfOk result (λ outcome. MatchResult outcome (λ text. MakesOf command bytes.items text.items)
        (λ refusal. Refuses command bytes.items refusal)) }
{
    match read_with_layouts(alloc, bytes.as_slice()) {
        Ok((bundle, layouts)) => Ok(Ok(text_of(
            alloc,
            command,
            bytes,
            &bundle,
            layouts.as_slice(),
        )?)),
        Err(ReadBundleFault::Refused(refusal)) => {
            // A made text spells a bundle, so that this is the refusal of an input.
            made_bundles_spell();
            Ok(Err(refusal))
        }
        Err(ReadBundleFault::Memory) => Err(AllocError),
    }
}
