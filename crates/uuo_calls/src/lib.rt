//! The monitor calls of a job, and the world that they change.
#![tactic(auto)]

mod asked;
mod blocks;
mod call;
mod calls;
mod core_call;
mod data_words;
mod input;
mod interrupts;
mod jobs;
mod laws;
mod locks;
mod output;
mod quotas;
mod returns;
mod room;
mod service;
mod status;
mod world;

pub use asked::{Asked, BlockRoom, LockService, asked_by};
pub use call::{CallEnd, CallOutcome, MonitorCall};
pub use calls::{perform, remove_job};
pub use core_call::JBREL;
pub use laws::{
    core_answers_free_blocks, empty_steps_wait, mstime_answers_milliseconds, others_are_spared,
    refusals_change_ac_alone, texts_go_whole,
};
pub use room::CallRoom;
pub use service::{Awaited, Service, service_of};
pub use world::World;
