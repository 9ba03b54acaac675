//! The order section.
ghost use Rattle.std.specs.Prelude.{◌≡◌, ℕ, ◌+◌, ◌++◌, OnOk};
ghost use Rattle.kz_bundle.specs.Printing.{lines_text};
ghost use Rattle.kz_model.specs.Text.Made.{later_count, turns_made, later_turns, order_made};

use crate::write::{DRAWN, LATER, NAMES};
use std::alloc::AllocError;

/// The CPUs in turn, so many times.
fn write_turns(out: &mut Vec<u8>, times: u32) -> Result<(), AllocError>
    ensures { (count : ℕ) → times ≡ count →
        OnOk result (out.new.items ≡ out.old.items ++ lines_text (turns_made count)) }
{
    for _ in 0..times {
        out.extend_from_slice(b"0\n1\n2\n3\n")?;
    }
    Ok(())
}

/// The rounds after the first.
fn write_later_turns(out: &mut Vec<u8>) -> Result<(), AllocError>
    ensures { OnOk result (out.new.items ≡ out.old.items ++ lines_text (later_turns later_count)) }
{
    for _ in 0..LATER {
        out.extend_from_slice(b"--\n")?;
        write_turns(out, DRAWN)?;
    }
    Ok(())
}

pub(crate) fn write_order(out: &mut Vec<u8>) -> Result<(), AllocError>
    ensures { OnOk result (out.new.items ≡ out.old.items ++ lines_text order_made) }
{
    out.extend_from_slice(b"order\n")?;
    write_turns(out, NAMES + DRAWN)?;
    write_later_turns(out)
}
