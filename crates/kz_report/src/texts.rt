//! The texts.
ghost use Rattle.std.specs.Prelude.{◌≡◌, ◌∷◌, codes, IfOk};
ghost use Rattle.kz_model.specs.Types.Planned.{IsPlanned};
ghost use Rattle.kz_model.specs.Run.Recorded.{IsAnswered};
ghost use Rattle.kz_model.specs.Text.Report.{plan_lines, report_text};
ghost use Rattle.kz_model.specs.Run.Runs.{IsRun};
ghost use Rattle.kz_model.specs.Text.Lines.{text_of_lines};
ghost use Rattle.kz_model.specs.Grammar.Valid.{layouts_in};
ghost use Rattle.kz_model.specs.Text.Report.{planned_text};
ghost use Rattle.kz_report.specs.Lines.{AreText, IsReportable};

use crate::asks::write_asks;
use crate::pages::{Given, Pages};
use crate::planned::write_plan_lines;
use crate::rounds::write_cpus;
use crate::uses::write_uses;
use crate::zones::{write_all_chunks, write_all_visits};
use kz_bundle::bundle_layouts;
use kz_model::{Bundle, Layout, Plan, Record};
use kz_plan::plans_are_fit;
use std::alloc::{AllocError, Global};

/// The text of a plan.
pub fn plan_text(alloc: Global, bundle: &Bundle, plan: &Plan) -> Result<Vec<u8>, AllocError>
    requires { IsPlanned bundle.now plan.now }
    ensures { IfOk result (λ text. text.items ≡ planned_text bundle.now) }
{
    let layouts = bundle_layouts(alloc, bundle)?;
    plan_text_with(alloc, bundle, plan, layouts.as_slice())
}

/// The same, by the layouts of the bundle's types.
pub fn plan_text_with(
    alloc: Global,
    bundle: &Bundle,
    plan: &Plan,
    layouts: &[Layout],
) -> Result<Vec<u8>, AllocError>
    requires planned { IsPlanned bundle.now plan.now }
    requires layouts { layouts.now ≡ layouts_in bundle.now }
    ensures { IfOk result (λ text. text.items ≡ planned_text bundle.now) }
{
    let mut out = String::new(alloc);
    out.push_str("plan 1\n")?;
    write_plan_lines(&mut out, bundle, plan, layouts)?;
    out.push_str("end\n")?;
    Ok(out.into_bytes())
}

/// The text of the report of a run.
pub fn text(
    alloc: Global,
    bundle: &Bundle,
    plan: &Plan,
    made: &Record,
) -> Result<Vec<u8>, AllocError>
    requires planned { IsPlanned bundle.now plan.now }
    requires run { IsRun bundle.now plan.now made.now.visits made.now.supply }
    requires answered { IsAnswered bundle.now plan.now made.now }
    ensures { IfOk result (λ text. text.items
        ≡ report_text bundle.now plan.now (layouts_in bundle.now) made.now.visits made.now.supply) }
{
    let layouts = bundle_layouts(alloc, bundle)?;
    text_with(alloc, bundle, plan, layouts.as_slice(), made)
}

/// The same, by the layouts of the bundle's types.
pub fn text_with(
    alloc: Global,
    bundle: &Bundle,
    plan: &Plan,
    layouts: &[Layout],
    made: &Record,
) -> Result<Vec<u8>, AllocError>
    requires planned { IsPlanned bundle.now plan.now }
    requires layouts { layouts.now ≡ layouts_in bundle.now }
    requires run { IsRun bundle.now plan.now made.now.visits made.now.supply }
    requires answered { IsAnswered bundle.now plan.now made.now }
    ensures { IfOk result (λ text. text.items
        ≡ report_text bundle.now plan.now (layouts_in bundle.now) made.now.visits made.now.supply) }
{
    plans_are_fit();
    report_of(alloc, bundle, plan, layouts, made)
}

/// The lines before those of the CPUs.
fn first_lines(
    alloc: Global,
    bundle: &Bundle,
    plan: &Plan,
    layouts: &[Layout],
) -> Result<Vec<u8>, AllocError>
    requires { AreText bundle.now plan.now layouts.now }
    ensures { IfOk result (λ text. text.items ≡ text_of_lines (codes "report 1" ∷ plan_lines bundle.now plan.now layouts.now)) }
{
    let mut out = String::new(alloc);
    out.push_str("report 1\n")?;
    write_plan_lines(&mut out, bundle, plan, layouts)?;
    Ok(out.into_bytes())
}

fn report_of(
    alloc: Global,
    bundle: &Bundle,
    plan: &Plan,
    layouts: &[Layout],
    made: &Record,
) -> Result<Vec<u8>, AllocError>
    requires text { AreText bundle.now plan.now layouts.now }
    requires record { IsReportable bundle.now plan.now made.now }
    ensures { IfOk result (λ text. text.items
        ≡ report_text bundle.now plan.now layouts.now made.now.visits made.now.supply) }
{
    let pages = Pages::of_log(alloc, plan.zones.len(), made.supply.as_slice())?;
    let given = Given {
        bundle,
        plan,
        pages: &pages,
    };
    let mut out = first_lines(alloc, bundle, plan, layouts)?;
    write_cpus(&mut out, &given, made)?;
    write_uses(&mut out, alloc, bundle, plan, made)?;
    write_all_chunks(&mut out, &given, made)?;
    write_all_visits(&mut out, bundle, plan, made)?;
    write_asks(&mut out, made.supply.as_slice())?;
    out.extend_from_slice(b"end\n")?;
    Ok(out)
}
