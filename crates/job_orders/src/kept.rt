//! States as they are kept. They are small, since a search keeps hundreds of thousands of them.
ghost use Rattle.std.specs.Prelude.{◌≡◌};

use std::hash::{Hash, Hasher};

/// A state, by numbers of tables.
#[derive(Clone, Copy)]
pub struct KeptState {
    /// The number of the list of the jobs.
    pub jobs: u32,
    /// The number of the list of the requests, in order of arrival.
    pub requests: u32,
    /// The number of the list of the pages of the shared words.
    pub shared: u32,
    /// How many blocks of core are free.
    pub free: u32,
}

impl KeptState {
    /// The numbers of nothing, as a guess if there is no better one.
    pub(crate) const NONE: KeptState = KeptState {
        jobs: u32::MAX,
        requests: u32::MAX,
        shared: u32::MAX,
        free: 0,
    };
}

impl PartialEq for KeptState {
    ghost use Rattle.std.specs.Cmp.{partial_equiv_from_equiv};
    ghost use Rattle.job_orders.specs.States.{same_state, same_state-equiv};

    ghost eq = { same_state };

    ghost laws = { partial_equiv_from_equiv same_state-equiv };

    fn eq(&self, other: &KeptState) -> bool {
        self.jobs == other.jobs
            && self.requests == other.requests
            && self.shared == other.shared
            && self.free == other.free
    }
}

impl Eq for KeptState {
    ghost use Rattle.job_orders.specs.States.{same_state-equiv};

    ghost laws = { same_state-equiv };
}

impl Hash for KeptState {
    ghost use Rattle.job_orders.specs.States.{same_state-fed, state_writes};

    ghost hash_input = { state_writes };

    ghost respects_eq = { same_state-fed };

    fn hash<H: Hasher>(&self, state: &mut H) {
        self.jobs.hash(state);
        self.requests.hash(state);
        self.shared.hash(state);
    }
}
