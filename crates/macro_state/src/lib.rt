//! What an assembly of MACRO-10 knows: its stream, its definitions, the image, what is wrong, what is listed.
#![tactic(auto)]

mod definitions;
mod faults;
mod listing;
mod places;
mod reading;
mod state;
mod values;

pub use listing::{Expanded, Listing, Row, Use};
pub use state::{Assembly, OtherUse, PlacedPool, PoolLabel, Sign};
pub use values::Value;
