//! Rising lists of the idle elements of a chunk.
ghost use Rattle.std.specs.Prelude.{◌≡◌, ℕ, ◌<◌, ◌≤◌, [], length, nat_le, nat_lt};
ghost use Rattle.std.specs.List.{position, range_with_len};
ghost use Rattle.kz_model.specs.Zone.Pick.{element_to_pick};
ghost use Rattle.kz_model.specs.Zone.Rules.{with_number};
ghost use Rattle.kz_model.specs.Zone.Whole.{Rises};
ghost use Rattle.kz_chunk.specs.Kept.{without};

use arrayvec::ArrayVec;

/// Makes all elements idle, where none is.
pub(crate) fn fill(idle: &mut ArrayVec<u8, 256>, count: u32)
    requires empty { idle.old.items ≡ [] }
    requires few { count ≤ 256 }
    ensures { idle.new.items ≡ range_with_len 0 count }
{
    for element in 0..count {
        idle.push(element as u8);
    }
}

/// The place of the first element that isn't before this one.
fn first_from(idle: &[u8], start: u32) -> Option<usize>
    ensures { result ≡ position (λ element. nat_le start element) idle.now }
{
    idle.iter().position(|element| start <= u32::from(*element))
}

/// Takes out the element at the least distance from the start, of so many elements.
///
/// As the elements rise, it is the first that isn't before the start, else the first of all.
pub(crate) fn take_nearest(idle: &mut ArrayVec<u8, 256>, start: u32) -> u32
    requires some { 0 < length idle.old.items }
    ensures nearest { (count : ℕ) → start < count → Rises 0 count idle.old.items → result
        ≡ element_to_pick count start idle.old.items }
    ensures within { (count : ℕ) → Rises 0 count idle.old.items → result < count }
    ensures rest { (count : ℕ) → Rises 0 count idle.old.items → idle.new.items ≡ without result idle.old.items }
{
    let place = first_from(idle.as_slice(), start).unwrap_or(0);
    u32::from(idle.remove(place))
}

/// The place of the first element that is greater than this one.
fn first_above(idle: &[u8], index: u32) -> Option<usize>
    ensures { result ≡ position (λ element. nat_lt index element) idle.now }
{
    idle.iter().position(|element| index < u32::from(*element))
}

/// Puts an element into its place, before the first that is greater.
pub(crate) fn put_in_place(idle: &mut ArrayVec<u8, 256>, index: u32)
    requires index { index < 256 }
    requires room { length idle.old.items < 256 }
    ensures { idle.new.items ≡ with_number index idle.old.items }
{
    let place = first_above(idle.as_slice(), index).unwrap_or(idle.len());
    idle.insert(place, index as u8);
}
