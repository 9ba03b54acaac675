//! A zone with the journal of its visits.
//!
//! A visit carries the steps that its CPU did by itself since its last visit, and one step that needs the zone. A book
//! writes down how many they were and keeps no step: those are in the bundle. `Book::new` alone takes memory.
//!
//! Contract: of each history that a book keeps, it keeps after a visit one with this visit's steps more. So the zone is
//! always what the zone alone gives from the steps of its visits and the supply's answers.
#![tactic(auto)]

mod acts;
mod book;

pub use book::Book;
