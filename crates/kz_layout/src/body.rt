//! Fields and whole bodies: a size, an alignment, and a code for each granule of eight bytes, which is the union of the
//! kinds that cover the granule's bytes.
ghost use Rattle.std.specs.Prelude.{◌≡◌, ◌==◌, ◌+◌, ◌*◌, ◌/◌, ◌%◌, ◌≤◌, ◌<◌, IsTrue, IfOk, OnOk, length};
ghost use Rattle.kz_model.specs.Types.Cover.{Covered, over, plain as plain_cover, rounded as rounded_up, round_up as up_to, «data»};
ghost use Rattle.kz_model.specs.Types.Layouts.{with_cover};
ghost use Rattle.kz_layout.specs.Gives.{Gives};
ghost use Rattle.kz_layout.specs.Granules.{is_align, no_granules, offset_at, laid_codes, layout_by_codes, Stands};
ghost use Rattle.kz_layout.specs.Laid.{IsSize};

use crate::letters::letters_of;
use crate::over::lay;
use kz_model::{Items, Layout, LayoutCause};
use std::alloc::{AllocError, Global};
use std::marker::Model;

/// The code of a pointer.
pub const POINTER: u8 = 1;

/// The code of data.
pub const DATA: u8 = 2;

/// The code of an authenticated pointer.
pub const AUTHENTICATED: u8 = 8;

const MAX_SIZE: u32 = 8192;

/// The fields of some braces so far.
#[derive(Drop)]
pub struct Fields {
    size: u32,
    align: u32,
    codes: Vec<u8>,
}

impl Model for Fields {
    ghost use Rattle.kz_layout.specs.Granules.{Granules, AreFields};

    ghost Value = { Granules };

    ghost view = { λ f. record { size = f.size; align = f.align; codes = f.codes.items } };

    ghost invariant = { λ f. AreFields f.size f.align f.codes.items };
}

/// A kind or a type as a whole. It has a byte, and its size is a multiple of its alignment.
#[derive(Drop)]
pub struct Body {
    size: u32,
    align: u32,
    codes: Vec<u8>,
}

impl Model for Body {
    ghost use Rattle.kz_layout.specs.Granules.{Granules, IsBody};

    ghost Value = { Granules };

    ghost view = { λ b. record { size = b.size; align = b.align; codes = b.codes.items } };

    ghost invariant = { λ b. IsBody b.size b.align b.codes.items };
}

fn round_up(n: u32, align: u32) -> u32
    requires positive { 1 ≤ align }
    requires low { align ≤ 8 }
    requires small { n ≤ 8192 }
    ensures { result ≡ up_to n align }
{
    (n + align - 1) / align * align
}

/// Where a field of this alignment stands behind fields of this size, or over them in a union.
fn next_offset(in_union: bool, size: u32, align: u32) -> u32
    requires positive { 1 ≤ align }
    requires low { align ≤ 8 }
    requires small { size ≤ 8192 }
    ensures { result ≡ offset_at in_union size align }
{
    if in_union { 0 } else { round_up(size, align) }
}

/// Lays a part over the codes, this many times, from this offset on.
fn lay_part(codes: &mut Vec<u8>, offset: u32, count: u32, part: &Body) -> Result<(), AllocError>
    requires within { offset / 8 ≤ length codes.old.items }
    requires small { offset + count * part.now.size ≤ 8192 }
    ensures { OnOk result (codes.new.items ≡ over codes.old.items (laid_codes offset count part.now)) }
{
    let first = offset as usize / 8;
    if part.align < 8 {
        // Data alone, and some in each granule that the copies meet.
        let end = (offset + count * part.size) as usize;
        lay(codes, first, end.div_ceil(8) - first, &[DATA])
    } else {
        lay(codes, first, count as usize, part.codes.as_slice())
    }
}

impl Fields {
    pub fn new(alloc: Global) -> Fields
        ensures { result ≡ no_granules }
    {
        Fields {
            size: 0,
            align: 1,
            codes: Vec::new(alloc),
        }
    }

    pub fn is_empty(&self) -> bool
        ensures { result ≡ (self.now.size == 0) }
    {
        self.size == 0
    }

    /// These fields with one more.
    pub fn with_field(self, in_union: bool, count: u32, part: &Body) -> Result<Fields, LayoutCause>
        requires some { 1 ≤ count }
        requires few { count ≤ 8192 }
        ensures gives { (before m : Covered) → Stands self before → Stands part.now m →
            Gives Stands result (with_cover in_union before count m) }
        ensures some { IfOk result (λ fields. 1 ≤ fields.size) }
    {
        let Fields {
            size,
            align,
            mut codes,
        } = self;
        let offset = next_offset(in_union, size, part.align);
        let end = offset + count * part.size;
        if end > MAX_SIZE {
            return Err(LayoutCause::TooLarge { size: end });
        }
        lay_part(&mut codes, offset, count, part)?;
        Ok(Fields {
            size: size.max(end),
            align: align.max(part.align),
            codes,
        })
    }

    /// The size rounded up to the alignment, which adds no granule.
    pub fn rounded(self) -> Body
        requires { 1 ≤ self.size }
        ensures { (before : Covered) → Stands self before → Stands result (rounded_up before) }
    {
        let Fields { size, align, codes } = self;
        Body {
            size: round_up(size, align),
            align,
            codes,
        }
    }
}

impl Body {
    /// Bytes of one kind; what isn't data has the alignment 8.
    pub fn plain(alloc: Global, size: u32, align: u32, kind: u8) -> Result<Body, AllocError>
        requires some { 1 ≤ size }
        requires small { size ≤ 8192 }
        requires aligned { IsTrue (is_align align) }
        requires multiple { size % align ≡ 0 }
        requires only_data { align < 8 → kind ≡ «data» }
        ensures { IfOk result (λ b. Stands b (plain_cover size align kind)) }
    {
        let codes = vec![in alloc; kind; size.div_ceil(8) as usize]?;
        Ok(Body { size, align, codes })
    }

    pub fn copy(&self, alloc: Global) -> Result<Body, AllocError>
        ensures { IfOk result (λ b. b ≡ self.now) }
    {
        let codes = Vec::from_slice(alloc, self.codes.as_slice())?;
        Ok(Body {
            size: self.size,
            align: self.align,
            codes,
        })
    }
}

/// The layout of a whole type.
pub fn layout_of(alloc: Global, body: &Body) -> Result<Layout, AllocError>
    ensures layout { IfOk result (λ layout. layout ≡ layout_by_codes body.now) }
    ensures size { IfOk result IsSize }
{
    let letters = letters_of(alloc, body.codes.as_slice())?;
    Ok(Layout {
        size: body.size,
        align: body.align,
        letters: Items::from_vec(letters),
    })
}
