//! What the arguments ask for.

use crate::typing::Return;
use image_files::Packing;
use machine::Config;

/// What the arguments of the command line ask for.
#[derive(Drop)]
pub struct Options<'a> {
    /// The blocks of core that the jobs share, and the quantum.
    pub config: Config,
    /// How the words of core images are packed.
    pub from: Packing,
    /// The run ends after so many steps, if that is asked for.
    pub steps: Option<u64>,
    /// Whether each step is reported.
    pub trace: bool,
    /// Whether each lock call and grant is reported.
    pub locks: bool,
    /// So many of a job's last steps are reported where it ends badly.
    pub history: usize,
    /// Waits of more ticks than these are reported, and how long they took, if that is asked for.
    pub waits: Option<u64>,
    /// The file to which a picture of the run is written, if that is asked for.
    pub picture: Option<&'a str>,
    /// The file to which the run is written as a script of `lockmon run`, if that is asked for.
    pub record: Option<&'a str>,
    /// Whether what is typed is written to the output too.
    pub echo: bool,
    /// What ends each line that is typed.
    pub ending: Return,
    /// So many faults of a source are reported.
    pub faults: usize,
    /// The arguments that name the programs' files, 1 to 63: sources, each of one file or several, and core images.
    pub files: Vec<&'a str>,
    /// The names of all files that are read.
    pub inputs: Vec<&'a str>,
    /// The arguments, as lines for a person show them.
    pub names: Vec<String>,
}
