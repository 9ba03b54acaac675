//! Why there is no plan.
use std::alloc::AllocError;
use thiserror::Error;

/// Why a budget is not divided.
#[derive(Clone, Copy, Debug, PartialEq, Eq, Error)]
pub enum PlanFault {
    /// The budget has fewer zones than there are classes.
    #[error("the budget is below {classes} zones, one for each class")]
    BudgetShort { classes: u32 },
    #[error("out of memory")]
    Memory,
}

impl From<AllocError> for PlanFault {
    ghost use Rattle.std.specs.Prelude.{◌≡◌};
    ghost use Rattle.kz_plan.specs.declared.fault.PlanFault.TheVariants.{Memory};

    ghost from_gives = { λ _ fault. fault ≡ Memory };

    fn from(_: AllocError) -> PlanFault {
        PlanFault::Memory
    }
}
