//! Tables of what states have in common, so that a state is kept as a few numbers.
ghost use Rattle.std.specs.Prelude.{◌≡◌, []};
ghost use Rattle.job_orders.specs.Tables.{IsRight};

use crate::pages::{Page, Slot, Text};
use kept_parts::KeptRequest;
use state_search::Parts;
use std::alloc::Global;

/// How many words a page has.
pub const PAGE_WORDS: usize = 64;

/// What states are made of, each part with a number.
#[derive(Drop)]
pub struct Tables {
    /// Slots of jobs, each with the address of the job's last turn.
    pub slots: Parts<Slot>,
    /// Requests.
    pub requests: Parts<KeptRequest>,
    /// Pages of words.
    pub pages: Parts<Page>,
    /// What jobs have put out.
    pub texts: Parts<Text>,
    /// Lists of numbers: of the pages of some words, of requests, of a job's slot, core and text, and of all jobs.
    pub lists: Parts<Vec<u32>>,
}

impl Tables {
    /// Empty tables.
    pub fn new(alloc: Global) -> Self {
        Tables {
            slots: Parts::new(alloc),
            requests: Parts::new(alloc),
            pages: Parts::new(alloc),
            texts: Parts::new(alloc),
            lists: Parts::new(alloc),
        }
    }

    /// No part has two numbers.
    pub(crate) fn are_right(&self)
        ensures { IsRight self.now }
    {
        self.slots.len();
        self.requests.len();
        self.pages.len();
        self.texts.len();
        self.lists.len();
    }
}
