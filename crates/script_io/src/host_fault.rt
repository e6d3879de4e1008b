//! How a call to the host can fail.

/// Why a call to the host passed no bytes.
#[derive(Clone, Copy, PartialEq, Eq, Debug)]
pub enum HostFault {
    /// It was interrupted; the caller makes it again.
    Interrupted,
    /// Anything else.
    Other,
}
