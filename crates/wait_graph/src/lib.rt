//! Who waits for whom among the jobs of a lock table, by which lock, and which jobs wait in a circle.
#![tactic(auto)]

mod circles;
mod copies;
mod graph;
mod in_the_way;
mod lock_waits;
mod pairs;
mod shortest_circles;

pub use circles::{is_in_circle, leading_to};
pub use copies::requests_in;
pub use graph::{Graph, Wait};
pub use in_the_way::{waits_for, waits_hard_for};
pub use lock_waits::{LockBetween, LockWait, lock_between, lock_wait};
pub use pairs::{JobMarks, NUMBERS, PAIRS, PairTable, fill_pairs, pair_table, waiting_jobs};
pub use shortest_circles::circle_through;
