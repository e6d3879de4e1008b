//! What the arguments ask for.

use image_files::Packing;

/// What the arguments of the command line ask for.
#[derive(Drop)]
pub struct Options<'a> {
    /// How core images are packed.
    pub from: Packing,
    /// How many states are kept at most.
    pub states: usize,
    /// How many turns a job may take that others cannot notice.
    pub turns: u32,
    /// The blocks of core that the jobs share.
    pub blocks: u32,
    /// How many ends are written at most.
    pub ends: usize,
    /// The end that is recorded, if one is asked for.
    pub end: Option<usize>,
    /// The file to which an order is written as a script of `lockmon run`, if that is asked for.
    pub record: Option<&'a str>,
    /// The names of the programs' files, 1 to 63: sources, and core images.
    pub files: Vec<&'a str>,
    /// These names, as lines for a person show them.
    pub names: Vec<String>,
}
