//! What an assembly of MACRO-10 writes: the source of the subset, what is wrong, the listing, the cross-reference.
#![tactic(auto)]

mod cross;
mod listings;
mod plain;
mod reports;
mod rows;
mod shown;
mod subset;
mod written;

pub use cross::push_cross;
pub use listings::push_listing;
pub use plain::{Plain, plain_source};
pub use reports::{push_faults, push_warnings};
pub use written::{Written, source_of};
