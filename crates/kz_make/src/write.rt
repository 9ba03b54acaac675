//! Numbers and names behind a text.
ghost use Rattle.std.specs.Prelude.{◌≡◌, ◌+◌, ◌*◌, ◌%◌, ◌<◌, ◌++◌, codes, decimal, OnOk};
ghost use Rattle.kz_model.specs.Text.Made.{type_text, name_text, type_of_made};

use kz_text::push_decimal;
use std::alloc::AllocError;

/// The CPUs of a made bundle.
pub(crate) const CPUS: u32 = 4;

/// The names of each CPU.
pub(crate) const NAMES: u32 = 250;

/// The types.
pub(crate) const TYPES: u32 = 40;

/// The drawn steps of a CPU in a round.
pub(crate) const DRAWN: u32 = 5000;

/// The rounds after the first.
pub(crate) const LATER: u32 = 3;

/// The name of a type by its number.
pub(crate) fn write_type(out: &mut Vec<u8>, of: u32) -> Result<(), AllocError>
    ensures { OnOk result (out.new.items ≡ out.old.items ++ type_text of) }
{
    out.extend_from_slice(b"t")?;
    push_decimal(out, u64::from(of))
}

/// A CPU's name k.
pub(crate) fn write_name(out: &mut Vec<u8>, cpu: u32, k: u32) -> Result<(), AllocError>
    ensures { OnOk result (out.new.items ≡ out.old.items ++ name_text cpu k) }
{
    out.extend_from_slice(b"n")?;
    push_decimal(out, u64::from(cpu))?;
    out.extend_from_slice(b"_")?;
    push_decimal(out, u64::from(k))
}

/// The type of a CPU's name k.
pub(crate) fn write_type_of(out: &mut Vec<u8>, cpu: u32, k: u32) -> Result<(), AllocError>
    requires cpu { cpu < 4 }
    requires k { k < 250 }
    ensures { OnOk result (out.new.items ≡ out.old.items ++ type_of_made cpu k) }
{
    write_type(out, (NAMES * cpu + k) % TYPES)
}
