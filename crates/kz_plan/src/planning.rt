//! The plan of some types.
ghost use Rattle.std.specs.Prelude.{◌≡◌, ◌^◌, ◌<◌, ◌≤◌, ◌↔◌, length, sum, All, IfOk, IsOkUnless};
ghost use Rattle.kz_model.specs.Types.Plan.{classes_in_use, data_classes, plan_of, plan_of_deals};
ghost use Rattle.kz_model.specs.Types.Share.{share};
ghost use Rattle.kz_plan.specs.Homes.{AreZones, HasZone};
ghost use Rattle.kz_plan.specs.Parts.{counts_of, AreGroups, AreParts};
ghost use Rattle.kz_plan.specs.declared.fault.PlanFault.TheVariants.{BudgetShort, Memory};

use crate::dealing::{Deal, Group, counts, deals, groups};
use crate::division::share;
use crate::fault::PlanFault;
use crate::grouping::{data_classes, general_classes};
use crate::zones::{rows, zones_of_types};
use kz_model::{Items, Layout, Plan, Seed};
use std::alloc::{AllocError, Global};

/// How many zones each of these classes has.
fn parts(alloc: Global, groups: &[Group], budget: u32) -> Result<Vec<u32>, PlanFault>
    requires groups { AreGroups groups.now }
    requires enough { length groups.now ≤ budget }
    ensures memory { IsOkUnless result Memory }
    ensures division { IfOk result (λ parts. parts.items ≡ share (counts_of groups.now) budget) }
    ensures parts { IfOk result (λ parts. AreParts groups.now parts.items) }
{
    let counts = counts(alloc, groups)?;
    share(alloc, &counts, budget)
}

/// How many zones there are in these parts.
fn total(parts: &[u32]) -> u32
    requires { sum parts.now < 2 ^ 32 }
    ensures { result ≡ sum parts.now }
{
    parts.iter().sum()
}

/// The plan of types whose classes are dealt so.
fn plan_of_deals<'a>(
    alloc: Global,
    layouts: &'a [Layout],
    deals: &[Deal<'_, 'a>],
    general: u32,
    seed: Seed,
) -> Result<Plan, AllocError>
    requires few { length layouts.now ≤ 1024 }
    requires sizes { All (λ layout. layout.size ≤ 8192) layouts.now }
    requires zones { AreZones deals.now general (data_classes layouts.now) }
    requires there { All (HasZone deals.now (data_classes layouts.now)) layouts.now }
    ensures { IfOk result (λ plan. plan ≡ plan_of_deals seed layouts.now deals.now general (data_classes layouts.now)) }
{
    let data_classes = data_classes(alloc, layouts)?;
    let of_type = zones_of_types(alloc, layouts, deals, general, &data_classes)?;
    let zones = rows(alloc, &of_type, deals, general, &data_classes, seed)?;
    Ok(Plan {
        zones: Items::from_vec(zones),
        of_type: Items::from_vec(of_type),
    })
}

/// The plan for a budget that has a zone for each class in use.
fn plan_within(
    alloc: Global,
    layouts: &[Layout],
    budget: u32,
    seed: Seed,
) -> Result<Plan, PlanFault>
    requires few { length layouts.now ≤ 1024 }
    requires sizes { All (λ layout. layout.size ≤ 8192) layouts.now }
    requires enough { length (classes_in_use layouts.now) ≤ budget }
    ensures memory { IsOkUnless result Memory }
    ensures planned { IfOk result (λ plan. plan ≡ plan_of layouts.now budget seed) }
{
    let groups = groups(alloc, layouts, seed)?;
    let parts = parts(alloc, &groups, budget)?;
    let deals = deals(alloc, &groups, &parts)?;
    Ok(plan_of_deals(alloc, layouts, &deals, total(&parts), seed)?)
}

/// The plan of types with these layouts.
pub fn plan(alloc: Global, layouts: &[Layout], budget: u32, seed: Seed) -> Result<Plan, PlanFault>
    requires few { length layouts.now ≤ 1024 }
    requires sizes { All (λ layout. layout.size ≤ 8192) layouts.now }
    ensures short { (result ≡ Err (BudgetShort (length (classes_in_use layouts.now))))
        ↔ (budget < length (classes_in_use layouts.now)) }
    ensures enough { length (classes_in_use layouts.now) ≤ budget → IsOkUnless result Memory }
    ensures planned { IfOk result (λ plan. plan ≡ plan_of layouts.now budget seed) }
{
    let classes = general_classes(layouts);
    if budget < classes {
        return Err(PlanFault::BudgetShort { classes });
    }
    plan_within(alloc, layouts, budget, seed)
}
