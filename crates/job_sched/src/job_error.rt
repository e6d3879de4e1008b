//! The reasons why a job can neither start nor go on.

/// Why a job can neither start nor go on. Nothing has changed.
#[derive(Clone, Copy, Debug, PartialEq, Eq)]
pub enum JobError {
    /// No job has that number.
    NoSuchJob,
    /// The job is not stopped.
    NotStopped,
}
