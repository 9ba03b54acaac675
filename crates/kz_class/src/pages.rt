//! The pages of a chunk.
ghost use Rattle.std.specs.Prelude.{◌≡◌, ◌<◌, ◌≤◌};
ghost use Rattle.kz_model.specs.Types.Class.{is_chunk, pages_of};

pub(crate) const PAGE: u32 = 4096;

/// Whether these pages hold an element of this size, with at most an eighth of them left over.
fn is_chunk(element: u32, pages: u32) -> bool
    requires some { 0 < element }
    requires pages { pages ≤ 8 }
    ensures { result ≡ is_chunk element pages }
{
    let bytes = PAGE * pages;
    element <= bytes && 8 * (bytes % element) <= bytes
}

/// The least pages, of 1 to 8, that make a chunk of this element size.
pub(crate) fn least_pages(element: u32) -> Option<u32>
    requires { 0 < element }
    ensures { result ≡ pages_of element }
{
    (1..9).find(|pages| is_chunk(element, *pages))
}
