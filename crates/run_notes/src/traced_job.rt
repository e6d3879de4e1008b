//! A job whose steps are reported.
ghost use Rattle.std.specs.Prelude.{◌≡◌};

use source_labels::{Places, Spot};
use word36::Address;

/// A job whose steps are reported.
#[derive(Drop)]
pub struct TracedJob {
    /// Its number, 1 to 63.
    pub number: u8,
    /// The labels and the literals of its source.
    pub places: Places,
    /// Its PC before its last step; its start where it made none.
    pub last: Address,
}

impl TracedJob {
    /// An address of its program, to be written by its labels.
    pub fn spot(&self, place: Address) -> Spot<'_>
        ensures places { result.places.now ≡ self.now.places }
        ensures place { result.place ≡ place }
    {
        Spot {
            places: &self.places,
            place,
        }
    }
}
