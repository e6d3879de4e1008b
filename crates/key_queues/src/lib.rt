//! What a lock table keeps: the requests, in the boxes of a slab, and for each key a queue of the slots whose
//! requests want it, found by the hash of the key. A request is granted where each of its wants is among the
//! first ones of its queue that fit.
#![tactic(auto)]

mod buckets;
mod entry;
mod entry_slab;
mod found;
mod hash;
mod keys;
mod laws;
mod lock;
mod queue;
mod slot_list;
mod store;

pub use entry::Entry;
pub use found::Found;
pub use keys::Keys;
pub use laws::{
    flags_tell_who_rises, marks_tell, queues_have_room, steps_keep_the_table, wants_come_and_leave,
    wants_fit_from_the_front,
};
pub use lock::Lock;
pub use queue::{Queue, index_of, want_in};
pub use store::Store;
