//! Codes over one another, granule by granule.
ghost use Rattle.std.specs.Prelude.{◌≡◌, ◌+◌, ◌*◌, ◌≤◌, ◌++◌, length, replicate, OnOk};
ghost use Rattle.kz_model.specs.Types.Cover.{over, at_offset};

use std::alloc::AllocError;

/// One copy of a part, which begins inside the codes or at their end.
fn lay_one(codes: &mut Vec<u8>, from: usize, part: &[u8]) -> Result<(), AllocError>
    requires within { from ≤ length codes.old.items }
    requires small { from + length part.now ≤ 8192 }
    ensures { OnOk result (codes.new.items ≡ over codes.old.items (replicate from 0 ++ part.now)) }
{
    for (i, code) in part.iter().enumerate() {
        let at = from + i;
        if at < codes.len() {
            codes[at] |= *code;
        } else {
            codes.push(*code)?;
        }
    }
    Ok(())
}

/// Lays a part over some codes, this many times, from a granule on that is one of theirs or the next.
pub fn lay(codes: &mut Vec<u8>, first: usize, count: usize, part: &[u8]) -> Result<(), AllocError>
    requires within { first ≤ length codes.old.items }
    requires small { first + count * length part.now ≤ 8192 }
    ensures { OnOk result (codes.new.items ≡ over codes.old.items (at_offset first count part.now)) }
{
    let mut from = first;
    for _ in 0..count {
        lay_one(codes, from, part)?;
        from += part.len();
    }
    Ok(())
}
