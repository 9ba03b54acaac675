//! Why no bundle was read.
ghost use Rattle.std.specs.Prelude.{◌≡◌};

use kz_model::Refusal;
use std::alloc::AllocError;

/// Why no bundle was read.
#[derive(Clone, Copy, Debug, PartialEq, Eq)]
pub enum ReadBundleFault {
    /// The bytes spell no bundle.
    Refused(Refusal),
    Memory,
}

impl From<AllocError> for ReadBundleFault {
    ghost use Rattle.kz_bundle.specs.declared.fault.ReadBundleFault.TheVariants.{Memory};

    ghost from_gives = { λ _ fault. fault ≡ Memory };

    fn from(_: AllocError) -> ReadBundleFault {
        ReadBundleFault::Memory
    }
}
