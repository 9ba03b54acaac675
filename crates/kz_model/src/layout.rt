//! Why declarations of types have no layouts.
ghost use Rattle.std.specs.Prelude.{◌≡◌};

use std::alloc::AllocError;

#[derive(Clone, Copy, Debug, PartialEq, Eq)]
pub enum LayoutCause {
    SameName,
    UnknownType,
    ForwardUse,
    Empty,
    TooLarge { size: u32 },
    Memory,
}

/// The first fault of some declarations, with the place of its declaration.
#[derive(Clone, Copy, Debug, PartialEq, Eq)]
pub struct LayoutFault {
    pub at: u32,
    pub cause: LayoutCause,
}

impl From<AllocError> for LayoutCause {
    ghost use Rattle.kz_model.specs.declared.layout.LayoutCause.TheVariants.{Memory};

    ghost from_gives = { λ _ cause. cause ≡ Memory };

    fn from(_: AllocError) -> LayoutCause {
        LayoutCause::Memory
    }
}
