//! Plain data of the zone allocator, and the definitions that the contracts of all crates cite.
//!
//! specs/ says what is right: the grammar of bundles, types and their zones, a zone's rules, runs, texts. The plain
//! data is in src/, with nothing hidden. src/store/ has it in compact form (`Types`, `NameRows`, `Trace`, `Replies`,
//! `RecentSteps`), since a bundle's fields are of these types.
//!
//! It stands on no crate of the repository. Contract: each compact store is seen as the list that it stands for, and
//! `Words` gives the words of a seed's stream, by the definition of the kit's generator.
#![tactic(auto)]

mod bundle;
mod grammar;
mod layout;
mod record;
mod step;
mod store;
mod supply;
mod text;
mod words;

pub use bundle::{Act, Bundle, Field, Kind, NameRow, OrderLine, Seed, TraceStep, TypeDecl};
pub use grammar::{Cause, Counted, Header, Mark, Place, Refusal};
pub use layout::{LayoutCause, LayoutFault};
pub use record::{Geometry, Layout, Plan, Record, Room, Visit, ZoneParams, ZoneRow};
pub use sqlite_items::Items;
pub use step::{Block, Bound, Reply, Step};
pub use store::named::NameRows;
pub use store::recent::RecentSteps;
pub use store::replies::{Replies, RepliesSoFar};
pub use store::short::Trace;
pub use store::type_lines::Types;
pub use supply::{Answer, Ask, SupplyEntry};
pub use text::{Name, Piece};
pub use words::Words;
