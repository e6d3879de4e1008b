//! How scripts and sources end, and what a serving call answers.
ghost use Rattle.std.specs.Prelude.{◌≡◌, ◌++◌, ◌^◌, ◌≤◌, false, OnOk, IfErr};
ghost use Rattle.script_io.specs.Serves.{Serves, Blames};
ghost use Rattle.script_io.specs.Endings.{script_fault, served_as};

use crate::failures::ServeFailure;
use crate::ports::{ByteIn, ByteOut};
use crate::print::push_decimal;
use crate::serving::serve_session;
use crate::sessions::Session;
use std::alloc::{AllocError, Global};
use thiserror::Error;

/// Where a source is at fault.
#[derive(Clone, Copy, PartialEq, Eq, Debug, Drop)]
pub struct SourceFault {
    /// How many lines of the input stand before the source.
    pub before: u128,
    /// The number of its line, or the one behind its last.
    pub line: usize,
    /// The code of the fault, 1 to 7.
    pub code: u8,
}

/// How the commands of a script, or a source, end.
#[derive(Clone, Copy, PartialEq, Eq, Debug, Drop)]
pub enum Ending {
    /// At the end of the input, or where the script says so.
    Done,
    /// At the line of this number, which is not in the grammar.
    Script(u128),
    /// At a source that is not assembled.
    Source(SourceFault),
}

/// Why a script or a source was not served to its end without a fault.
#[derive(Clone, Copy, PartialEq, Eq, Debug, Drop, Error)]
pub enum ServeError {
    /// The line of this number is not in the grammar; the transcript ends by saying so.
    #[error("script")]
    Script(u128),
    /// A source has a fault; the transcript ends by saying so.
    #[error("source")]
    Source(SourceFault),
    /// The reader failed.
    #[error("read")]
    Read,
    /// The writer failed.
    #[error("write")]
    Write,
    /// There was no memory.
    #[error("memory")]
    Memory,
}

/// The answer of a serving call whose session ended this way, or that this failure cut short.
fn answer_of(served: Result<Ending, ServeFailure>) -> Result<(), ServeError>
    ensures { served_as result ≡ served }
{
    match served {
        Ok(Ending::Done) => Ok(()),
        Ok(Ending::Script(number)) => Err(ServeError::Script(number)),
        Ok(Ending::Source(fault)) => Err(ServeError::Source(fault)),
        Err(ServeFailure::Read) => Err(ServeError::Read),
        Err(ServeFailure::Write) => Err(ServeError::Write),
        Err(ServeFailure::Memory) => Err(ServeError::Memory),
    }
}

/// Serves the script or the source of a session: reads it, and writes its transcript. The output of a command is written
/// before the next read.
pub fn serve_script<S: Session<Ending = Ending>, R: ByteIn, W: ByteOut>(
    alloc: Global,
    session: &mut S,
    reader: &mut R,
    writer: &mut W,
) -> Result<(), ServeError>
    requires reader_sound { R.has_failed reader.old ≡ false }
    requires writer_sound { W.has_failed writer.old ≡ false }
    requires few { R.reads_left reader.old ≤ 2 ^ 63 }
    requires fresh { S.count session.old ≡ 0 }
    ensures serves { Serves (S.follow session.old) (R.to_come reader.old) (R.to_come reader.new) (W.written writer.old)
        (W.written writer.new) (served_as result) }
    ensures blames { IfErr (served_as result) (λ e. Blames e (R.has_failed reader.new) (W.has_failed writer.new)) }
{
    answer_of(serve_session(alloc, session, reader, writer))
}

/// Adds `?SCRIPT n`: the line of this number is not in the grammar.
#[tactic(auto, using(std::proofs::Common::append_assoc))]
pub fn push_fault(out: &mut Vec<u8>, number: u128) -> Result<(), AllocError>
    ensures { OnOk result (out.new.items ≡ out.old.items ++ (script_fault number).text) }
{
    out.extend_from_slice(b"?SCRIPT ")?;
    push_decimal(out, number)?;
    out.push(b'\n')?;
    Ok(())
}
