//! The classes in use, and the signatures of each.
ghost use Rattle.std.specs.Prelude.{◌≡◌, ◌<◌, ◌≤◌, length, All, IfOk};
ghost use Rattle.std.specs.List.{list_any};
ghost use Rattle.kz_model.specs.Types.Plan.{class_at, classes_in_use, data_classes, is_general, is_data, signatures, shape_at};
ghost use Rattle.kz_model.specs.Types.Cover.{is_data_only};
ghost use Rattle.kz_model.specs.Grammar.Tokens.{texts};

use kz_class::kalloc_classes;
use kz_model::{Geometry, Layout};
use std::alloc::{AllocError, Global};
use std::collections::BTreeSet;

/// How many classes there are.
pub(crate) const CLASSES: usize = 32;

/// The class of a layout.
pub(crate) fn class_at(layout: &Layout) -> usize
    requires { layout.now.size ≤ 8192 }
    ensures class { result ≡ class_at layout.now }
    ensures inside { result < CLASSES }
{
    kalloc_classes().class_of(layout.size).unwrap()
}

/// The chunk of a class.
pub(crate) fn shape_at(class: usize) -> Geometry
    requires { class < CLASSES }
    ensures { result ≡ shape_at class }
{
    kalloc_classes().geometry(class)
}

/// Whether a type holds only data.
pub(crate) fn is_data_only(layout: &Layout) -> bool
    ensures { result ≡ is_data_only layout.now }
{
    let letters = layout.letters.as_slice();
    letters
        .iter()
        .all(|letter| *letter == b'0' || *letter == b'2')
}

/// Whether a type is of this class and isn't data-only.
fn is_general(layout: &Layout, class: usize) -> bool
    requires { layout.now.size ≤ 8192 }
    ensures { result ≡ is_general class layout.now }
{
    class_at(layout) == class && !is_data_only(layout)
}

/// Whether a type is of this class and data-only.
fn is_data(layout: &Layout, class: usize) -> bool
    requires { layout.now.size ≤ 8192 }
    ensures { result ≡ is_data class layout.now }
{
    class_at(layout) == class && is_data_only(layout)
}

/// Whether a class has a type that isn't data-only.
pub(crate) fn is_in_use(layouts: &[Layout], class: usize) -> bool
    requires { All (λ layout. layout.size ≤ 8192) layouts.now }
    ensures { result ≡ list_any (is_general class) layouts.now }
{
    layouts.iter().any(|layout| is_general(layout, class))
}

/// Whether a class has a type that is data-only.
fn has_data(layouts: &[Layout], class: usize) -> bool
    requires { All (λ layout. layout.size ≤ 8192) layouts.now }
    ensures { result ≡ list_any (is_data class) layouts.now }
{
    layouts.iter().any(|layout| is_data(layout, class))
}

/// How many classes are in use by types that aren't data-only.
pub fn general_classes(layouts: &[Layout]) -> u32
    requires few { length layouts.now ≤ 1024 }
    requires sizes { All (λ layout. layout.size ≤ 8192) layouts.now }
    ensures { result ≡ length (classes_in_use layouts.now) }
{
    let in_use = (0..CLASSES).filter(|class| is_in_use(layouts, *class));
    in_use.count() as u32
}

/// The classes with a type that is data-only, rising.
pub(crate) fn data_classes(alloc: Global, layouts: &[Layout]) -> Result<Vec<usize>, AllocError>
    requires { All (λ layout. layout.size ≤ 8192) layouts.now }
    ensures { IfOk result (λ classes. classes.items ≡ data_classes layouts.now) }
{
    (0..CLASSES)
        .filter(|class| has_data(layouts, *class))
        .collect(alloc)
}

/// The distinct signatures of a class's types that aren't data-only, rising by their bytes.
pub(crate) fn signatures<'a>(
    alloc: Global,
    layouts: &'a [Layout],
    class: usize,
) -> Result<Vec<&'a [u8]>, AllocError>
    requires { All (λ layout. layout.size ≤ 8192) layouts.now }
    ensures { IfOk result (λ found. texts found.items ≡ signatures layouts.now class) }
{
    let mut distinct = BTreeSet::new(alloc);
    for layout in layouts {
        if is_general(layout, class) {
            distinct.insert(layout.letters.as_slice())?;
        }
    }
    distinct.into_iter().collect(alloc)
}
