//! States as they are kept. They are small, since a search keeps hundreds of thousands of them and a
//! request takes more than a thousand bytes.
ghost use Rattle.std.specs.Prelude.{◌≡◌};
ghost use Rattle.lockcheck_orders.specs.Flags.{flag};

use lock_queue::Group;
use std::hash::{Hash, Hasher};
use std::marker::Model;

fn flag(b: bool) -> u32
    ensures { result ≡ flag b }
{
    if b { 1 } else { 0 }
}

/// A want of a request, by the want of its line from which it differs in these two things at most.
#[derive(Clone, Copy)]
pub struct KeptWant {
    /// Its position among the wants of the line.
    pub which: u8,
    /// Whether it is shared now.
    pub shared: bool,
    /// Its group now.
    pub group: Group,
}

impl PartialEq for KeptWant {
    ghost use Rattle.std.specs.Cmp.{partial_equiv_from_equiv};
    ghost use Rattle.lockcheck_orders.specs.Same.{same_want, same_want-equiv};

    ghost eq = { same_want };

    ghost laws = { partial_equiv_from_equiv same_want-equiv };

    fn eq(&self, other: &KeptWant) -> bool {
        self.which == other.which
            && flag(self.shared) == flag(other.shared)
            && self.group.number() == other.group.number()
    }
}

impl Eq for KeptWant {
    ghost use Rattle.lockcheck_orders.specs.Same.{same_want-equiv};

    ghost laws = { same_want-equiv };
}

impl Hash for KeptWant {
    ghost use Rattle.lockcheck_orders.specs.Same.{same_want-fed, want_writes};

    ghost hash_input = { want_writes };

    ghost respects_eq = { same_want-fed };

    fn hash<H: Hasher>(&self, state: &mut H) {
        self.which.hash(state);
        flag(self.shared).hash(state);
        self.group.number().hash(state);
    }
}

/// A request, by the line that it came from.
#[derive(Drop)]
pub struct KeptRequest {
    /// The position of the line among all lines.
    pub line: u16,
    /// Whether the job was notified of the grant.
    pub notified: bool,
    /// The wants that are left.
    pub wants: Vec<KeptWant>,
}

impl Model for KeptRequest {
    ghost use Rattle.lockcheck_orders.specs.Packing.{RequestForm};

    ghost Value = { RequestForm };

    ghost view = { λ r. record { line = r.line; notified = r.notified; wants = r.wants.items } };
}

impl PartialEq for KeptRequest {
    ghost use Rattle.std.specs.Cmp.{partial_equiv_from_equiv};
    ghost use Rattle.lockcheck_orders.specs.Same.{same_request, same_request-equiv};

    ghost eq = { same_request };

    ghost laws = { partial_equiv_from_equiv same_request-equiv };

    fn eq(&self, other: &KeptRequest) -> bool {
        self.line == other.line
            && flag(self.notified) == flag(other.notified)
            && self.wants == other.wants
    }
}

impl Eq for KeptRequest {
    ghost use Rattle.lockcheck_orders.specs.Same.{same_request-equiv};

    ghost laws = { same_request-equiv };
}

impl Hash for KeptRequest {
    ghost use Rattle.lockcheck_orders.specs.Same.{same_request-fed, request_writes};

    ghost hash_input = { request_writes };

    ghost respects_eq = { same_request-fed };

    fn hash<H: Hasher>(&self, state: &mut H) {
        self.line.hash(state);
        flag(self.notified).hash(state);
        self.wants.hash(state);
    }
}

/// A state: the numbers of its requests, and of how many calls each job has made, in two halves, and whether some jobs
/// wait in a circle.
#[derive(Clone, Copy)]
pub struct KeptState {
    /// The number of the vector of its requests' numbers.
    pub requests: u32,
    /// The number of the vector of how many calls each job of the first half has made.
    pub front: u32,
    /// The number of the vector of how many calls each job of the second half has made.
    pub back: u32,
    /// Whether some jobs wait in a circle.
    pub circle: bool,
}

impl PartialEq for KeptState {
    ghost use Rattle.std.specs.Cmp.{partial_equiv_from_equiv};
    ghost use Rattle.lockcheck_orders.specs.Same.{same_state, same_state-equiv};

    ghost eq = { same_state };

    ghost laws = { partial_equiv_from_equiv same_state-equiv };

    fn eq(&self, other: &KeptState) -> bool {
        self.requests == other.requests
            && self.front == other.front
            && self.back == other.back
            && flag(self.circle) == flag(other.circle)
    }
}

impl Eq for KeptState {
    ghost use Rattle.lockcheck_orders.specs.Same.{same_state-equiv};

    ghost laws = { same_state-equiv };
}

impl Hash for KeptState {
    ghost use Rattle.lockcheck_orders.specs.Same.{same_state-fed, state_writes};

    ghost hash_input = { state_writes };

    ghost respects_eq = { same_state-fed };

    fn hash<H: Hasher>(&self, state: &mut H) {
        self.requests.hash(state);
        self.front.hash(state);
        self.back.hash(state);
    }
}

/// A call that is known: what the line makes of the requests with a number.
#[derive(Clone, Copy)]
pub struct KnownMove {
    /// The number of the requests.
    pub from: u32,
    /// The number of the requests that the call leaves, in their normal form.
    pub after: u32,
    /// The position of the line.
    pub line: u16,
    /// Whether the line's job waits, so that the call cannot be made.
    pub waits: bool,
    /// Whether some jobs wait in a circle then.
    pub circle: bool,
}
