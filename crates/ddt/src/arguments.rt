//! The arguments of the command line.

use image_files::Packing;
use machine::Config;

/// The arguments of the command line, read and checked.
#[derive(Drop)]
pub struct Arguments<'a> {
    /// The blocks of core that the jobs share, and the quantum.
    pub config: Config,
    /// How the words of core images are packed.
    pub from: Packing,
    /// The file whose lines are typed where a job waits for characters, if there is one.
    pub input: Option<&'a str>,
    /// The arguments that name the programs' files, 1 to 63: sources, each of one file or several, and core images.
    pub files: Vec<&'a str>,
    /// The names of all files that are read: these, and behind them that of the input.
    pub inputs: Vec<&'a str>,
}
