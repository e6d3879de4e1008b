//! What an indexed table keeps.

use crate::flips::Flips;
use key_queues::{Keys, Store};

/// The entries of a table, the locks of their keys, and marks of the flags that a call flips. Its methods are in the
/// modules of the calls and steps.
#[derive(Drop)]
pub struct Table<const REQS: usize> {
    /// The requests, in order of arrival and by jobs.
    pub store: Store<REQS>,
    /// The locks of their keys, each with its queue.
    pub keys: Keys<REQS>,
    /// Marks of the flags that the present call flipped.
    pub flips: Flips<REQS>,
}
