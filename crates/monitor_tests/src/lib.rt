//! Tests of the machine: rows of events and of what is seen then, on the plain table of locks and the plain store of core; and
//! on both stores of core, a vector a job, and one memory in which jobs are moved about.
#![tactic(auto)]

#[cfg(test)]
mod alone;
#[cfg(test)]
mod calls;
#[cfg(test)]
mod deposits;
#[cfg(test)]
mod edges;
#[cfg(test)]
mod interrupts;
#[cfg(test)]
mod jobs;
#[cfg(test)]
mod limits;
#[cfg(test)]
mod locks;
#[cfg(test)]
mod moved;
#[cfg(test)]
mod places;
#[cfg(test)]
mod quotas;
#[cfg(test)]
mod rows;
#[cfg(test)]
mod store_rows;
#[cfg(test)]
mod terminal;
