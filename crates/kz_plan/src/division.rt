//! The division of a budget of zones among classes.
ghost use Rattle.std.specs.Prelude.{◌≡◌, ℕ, ◌+◌, ◌<◌, ◌≤◌, ◌↔◌, length, replicate, sum, All, MatchOption, IfOk, IsOkUnless};
ghost use Rattle.kz_model.specs.Types.Share.{share};
ghost use Rattle.kz_plan.specs.ShareLaws.{AreWithin, AreFairest};
ghost use Rattle.kz_plan.specs.Sharing.{IsInOrder, IsDivision, IsNextClass, AreFull};
ghost use Rattle.kz_plan.specs.declared.fault.PlanFault.TheVariants.{BudgetShort, Memory};

use crate::fault::PlanFault;
use std::alloc::Global;

/// The class that the next zone goes to: the first of those with the greatest count for each of
/// its zones, among the classes with more signatures than zones. None where there is none.
fn next_class(counts: &[u32], parts: &[u32]) -> Option<usize>
    requires small { All (λ count. count ≤ 1024) counts.now }
    requires in_order { IsInOrder counts.now parts.now }
    ensures { MatchOption result
        (AreFull counts.now parts.now (length counts.now))
        (λ class. IsNextClass counts.now parts.now (length counts.now) class) }
{
    let mut next = None;
    for class in 0..counts.len() {
        if parts[class] < counts[class] {
            next = match next {
                Some(before) => {
                    let ahead = counts[class] * parts[before] > counts[before] * parts[class];
                    if ahead { Some(class) } else { Some(before) }
                }
                None => Some(class),
            };
        }
    }
    next
}

/// Gives this many zones, one after another, ending where no class wants one.
fn give(counts: &[u32], parts: &mut [u32], zones: u32)
    requires small { All (λ count. count ≤ 1024) counts.now }
    requires in_order { IsInOrder counts.now parts.old }
    ensures { IsDivision counts.now parts.new (sum parts.old + zones) }
{
    let mut left = zones;
    while left > 0 {
        let Some(class) = next_class(counts, parts) else {
            return;
        };
        parts[class] += 1;
        left -= 1;
    }
}

/// The division of a budget of zones among classes with these counts of signatures.
pub fn share(alloc: Global, counts: &[u32], budget: u32) -> Result<Vec<u32>, PlanFault>
    requires few { length counts.now ≤ 32 }
    requires counted { All (λ count. (1 ≤ count) × (count ≤ 1024)) counts.now }
    ensures short { (result ≡ Err (BudgetShort (length counts.now))) ↔ (budget < length counts.now) }
    ensures enough { length counts.now ≤ budget → IsOkUnless result Memory }
    ensures division { IfOk result (λ parts. parts.items ≡ share counts.now budget) }
    ensures within { IfOk result (λ parts. AreWithin counts.now parts.items budget) }
    ensures fairest { IfOk result (λ parts. AreFairest counts.now parts.items budget) }
{
    let classes = counts.len() as u32;
    if budget < classes {
        return Err(PlanFault::BudgetShort { classes });
    }
    let mut parts = vec![in alloc; 1; counts.len()]?;
    give(counts, &mut parts, budget - classes);
    Ok(parts)
}
