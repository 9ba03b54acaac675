//! A table of size classes.
ghost use Rattle.std.specs.Prelude.{◌≡◌, ◌-◌, ◌<◌, ◌≤◌, ◌↔◌, length, IsNone, IfSome, slice_index};
ghost use Rattle.kz_model.specs.Types.Class.{class_of, geometry_of, kalloc_sizes, IsFitGeometry, IsTable};
ghost use Rattle.std.specs.List.Sorted.{IsPartitionPoint, IsStrictlyIncreasing};

use crate::pages::{PAGE, least_pages};
use kz_model::Geometry;
use std::marker::Model;

/// Size classes that rise.
#[derive(Debug, Drop)]
pub struct ClassTable<const N: usize> {
    sizes: [u32; N],
}

// Clauses see the sizes of the classes.
impl<const N: usize> Model for ClassTable<N> {
    ghost use Rattle.std.specs.Prelude.{List, ℕ};
    ghost use Rattle.kz_model.specs.Types.Class.{IsTable};

    ghost Value = { List ℕ };

    ghost view = { λ t. t.sizes };

    ghost invariant = { λ t. IsTable t.sizes };
}

impl<const N: usize> ClassTable<N> {
    /// The table of these sizes.
    pub fn new(sizes: [u32; N]) -> ClassTable<N>
        requires { IsTable sizes }
        ensures { result ≡ sizes.entry }
    {
        ClassTable { sizes }
    }

    /// The least class that is not below this size.
    pub fn class_of(&self, size: u32) -> Option<usize>
        ensures class { result ≡ class_of self.now size }
        ensures below { IfSome result (λ class. class < N) }
        ensures none { IsNone result ↔ (slice_index self.now (N - 1) < size) }
    {
        let class = count_below(&self.sizes, size);
        if class < N { Some(class) } else { None }
    }

    /// The chunk of a class.
    pub fn geometry(&self, class: usize) -> Geometry
        requires { class < N }
        ensures shape { result ≡ geometry_of (slice_index self.now class) }
        ensures fit { IsFitGeometry result }
    {
        let element = self.sizes[class];
        let pages = least_pages(element).unwrap();
        Geometry {
            element,
            count: PAGE * pages / element,
            pages,
        }
    }
}

/// How many of these rising sizes are below this one.
fn count_below(sizes: &[u32], size: u32) -> usize
    requires { IsStrictlyIncreasing sizes.now }
    ensures inside { result ≤ length sizes.now }
    ensures point { IsPartitionPoint (λ element. element < size) (λ element. size ≤ element) sizes.now result }
{
    sizes.partition_point(|element| *element < size)
}

/// The allocator's 32 size classes.
pub fn kalloc_classes() -> ClassTable<32>
    ensures { result ≡ kalloc_sizes }
{
    ClassTable::new([
        16, 32, 48, 64, 80, 96, 112, 128, 160, 192, 224, 256, 320, 384, 448, 512, 640, 768, 896,
        1024, 1280, 1536, 1792, 2048, 2560, 3072, 3584, 4096, 5120, 6144, 7168, 8192,
    ])
}
