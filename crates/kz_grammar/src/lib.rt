//! Laws over the grammar of bundles, in the subject's own words.
//!
//! What a line may be is said by the forms of its place, as a table and as a grammar of type lines, with runs of bytes in
//! the places of numbers (specs/Forms). What all lines together have to keep to is said by sentences over them, and not
//! by how a reader goes over them: declarations of types (specs/Declarations), names (specs/Names), rounds and the order
//! (specs/Rounds), the names of a bundle by number (specs/BundleNames), and where each line stands (specs/LineNumbers).
//!
//! It stands on kz_model and on the proofs of kz_bundle. No code that runs stands here.
//!
//! Contract: each law is the contract of a function that does nothing (src/forms.rt, src/names.rt).
#![tactic(auto)]

mod forms;
mod names;

pub use forms::{
    a_line_has_one_form, first_faults_are_of_lines, forms_are_texts, lines_are_judged_by_forms,
    texts_are_judged_by_lines,
};
pub use names::{later_faults_are_true, lines_stand_in_the_text, what_is_spelled_is_sound};
