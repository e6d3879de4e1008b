//! What the arguments ask for.

/// The command that is served.
#[derive(Clone, Copy, PartialEq, Eq, Debug, Drop)]
pub enum Choice {
    /// `run`: a machine of so many blocks of core, whose jobs run for so many ticks in turn.
    Run {
        /// 1 to 256.
        blocks: u32,
        /// 1 to 60.
        quantum: u32,
    },
    /// `queue`: a script on the lock queue alone.
    Queue,
    /// `asm`: a source, assembled.
    Asm,
}
