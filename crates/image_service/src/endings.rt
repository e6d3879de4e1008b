//! How the services end.

use image_files::{ImageFault, Packing};

/// How a service ends. Numbers count from 1.
#[derive(Clone, Copy, Debug, PartialEq, Eq, Drop)]
pub enum Ending {
    /// All of it is done.
    Done,
    /// The file is not what it is read as; it is in another packing, where there is exactly one.
    File {
        fault: ImageFault,
        other: Option<Packing>,
    },
    /// A line of a source is not assembled, by this code.
    Source {
        line: usize,
        code: u8,
    },
}
