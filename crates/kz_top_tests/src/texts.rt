//! The texts of a bundle, without layouts that are at hand.
ghost use Rattle.std.specs.Prelude.{◌≡◌, ◌≤◌, All, length, IfOk};
ghost use Rattle.kz_model.specs.Types.Planned.{IsPlanned};
ghost use Rattle.kz_model.specs.Grammar.Spelling.{IsSpelled};
ghost use Rattle.kz_model.specs.Grammar.Valid.{layouts_in, plan_in};

use kz_bundle::read_with_layouts;
use kz_machine::replay;
use kz_model::{Bundle, Layout, Plan};
use kz_plan::plan;
use kz_report::{plan_text, text};
use std::alloc::{AllocError, Global};
use std::test::Fail;

/// A bundle of an allocation and its free, which is examples/first.bundle.
const BUNDLE: &[u8] = b"\
    machine 1\nseed plain\ncpus 1\nframes 8\npages 16\nbudget 2\nmagazine 2\ndepot 1\n\
    type blob { bytes 16 b }\ncpu 0\na x blob\nf x\nend\n";

const PLAN: &[u8] = b"plan 1\n\
    type blob size 16 align 1 letters 22 class 16 zone 0\n\
    zone 0 data.16 element 16 count 256 pages 1 submap D types 1\nend\n";

/// Its report, which is examples/first.report.
const REPORT: &[u8] = b"report 1\n\
    type blob size 16 align 1 letters 22 class 16 zone 0\n\
    zone 0 data.16 element 16 count 256 pages 1 submap D types 1\n\
    cpu 0\nblock 0.1 0x50000000010\ndone\nuse blob allocs 1 frees 1 live 0\n\
    chunk 0 0 0x50000000000 mapped\nvisits 0 0 0:1 0:1*\nask 0 chunk 1 base 0\nend\n";

/// The plan of a bundle, by the layouts of its types.
fn plan_of(alloc: Global, bundle: &Bundle, layouts: &[Layout]) -> Result<Plan, Fail>
    requires spelled { IsSpelled bundle.now }
    requires layouts { layouts.now ≡ layouts_in bundle.now }
    requires few { length layouts.now ≤ 1024 }
    requires sizes { All (λ layout. layout.size ≤ 8192) layouts.now }
    ensures { IfOk result (λ plan. plan ≡ plan_in bundle.now) }
{
    match plan(alloc, layouts, bundle.budget, bundle.seed) {
        Ok(plan) => Ok(plan),
        Err(fault) => Err(fault.into()),
    }
}

/// The report of the run of a bundle's order.
fn report_of(alloc: Global, bundle: &Bundle, plan: &Plan) -> Result<Vec<u8>, AllocError>
    requires { IsPlanned bundle.now plan.now }
{
    let made = replay(alloc, bundle, plan)?;
    text(alloc, bundle, plan, &made)
}

#[test]
fn texts_of_a_whole_run(rt: HostRuntime) -> Result<(), Fail> {
    let (bundle, layouts) = read_with_layouts(rt.alloc(), BUNDLE)?;
    let plan = plan_of(rt.alloc(), &bundle, layouts.as_slice())?;
    let planned = plan_text(rt.alloc(), &bundle, &plan)?;
    assert_eq!(rt; planned.as_slice(), PLAN);
    let report = report_of(rt.alloc(), &bundle, &plan)?;
    assert_eq!(rt; report.as_slice(), REPORT);
    Ok(())
}
