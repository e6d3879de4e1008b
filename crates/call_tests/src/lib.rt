//! Tests of the monitor calls and of the scheduler, and of the blocks that lock calls read: rows whose results were
//! worked out by hand, on the plain table and the plain store.
#![tactic(auto)]

#[cfg(test)]
mod block_job;
#[cfg(test)]
mod block_rows;
#[cfg(test)]
mod blocks;
#[cfg(test)]
mod core_and_data;
#[cfg(test)]
mod interrupts;
#[cfg(test)]
mod limits;
#[cfg(test)]
mod listed;
#[cfg(test)]
mod locks;
#[cfg(test)]
mod machine;
#[cfg(test)]
mod parts;
#[cfg(test)]
mod quotas;
#[cfg(test)]
mod rows;
#[cfg(test)]
mod schedule;
#[cfg(test)]
mod terminal;
