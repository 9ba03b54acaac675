//! What a name is bound to.
use kz_model::Bound;

/// A name's block and mark, with the zone of the step that bound it.
#[derive(Clone, Copy, Debug, PartialEq, Eq)]
pub struct Binding {
    pub bound: Bound,
    pub zone: u32,
}
