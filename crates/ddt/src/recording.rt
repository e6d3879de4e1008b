//! What has happened in a session as a script of `lockmon run`.

use crate::session::{Session, SessionJob};
use ddt_commands::CommandError;
use ddt_moves::{is_edited, is_executed};
use ddt_show::refuse;
use ddt_timeline::{Timeline, push_past};
use machine::Config;
use program_files::{ProgramFile, not_recorded};
use program_shell::PendingText;
use run_record::{push_end, push_head, push_program};
use std::alloc::{AllocError, Global};

/// The sources of a session, as a script begins with them.
#[derive(Drop)]
pub struct ScriptHead {
    /// A remark with the command that obeys the script, and the sources.
    text: Vec<u8>,
    /// Why some of the sources cannot stand in a script, a line each.
    refusals: PendingText,
}

impl ScriptHead {
    /// No sources.
    pub fn new(alloc: Global) -> Self {
        ScriptHead {
            text: Vec::new(alloc),
            refusals: PendingText::new(alloc),
        }
    }

    /// Adds the source of a job as the program of its number, or why it cannot stand in a script.
    fn add(&mut self, job: &SessionJob, source: &ProgramFile<'_>) -> Result<(), AllocError> {
        if let Some(refusal) = not_recorded(source, &job.written) {
            let alloc = self.refusals.alloc;
            self.refusals.say_made(format!(in alloc; "? {refusal}\n"));
            return Ok(());
        }
        let text = job.source_for(source.source.text.as_slice());
        push_program(&mut self.text, job.shown.number, job.file.as_str(), text)
    }

    /// Adds the command, for a machine of this size, and the source of each job.
    pub fn begin(
        &mut self,
        config: Config,
        jobs: &[SessionJob],
        sources: &[ProgramFile<'_>],
    ) -> Result<(), AllocError> {
        push_head(&mut self.text, config.blocks(), config.quantum())?;
        for (job, source) in jobs.iter().zip(sources) {
            self.add(job, source)?;
        }
        Ok(())
    }
}

/// Makes the script of what has happened: these sources, and all events; false where a script cannot say them.
fn make_script(
    script: &mut Vec<u8>,
    sources: &[u8],
    timeline: &Timeline,
) -> Result<bool, AllocError> {
    script.extend_from_slice(sources)?;
    let is_said = push_past(script, timeline)?;
    push_end(script)?;
    Ok(is_said)
}

/// `.RECORD file`: makes the script of what has happened. Where there is none, which is reported, it is empty.
pub fn record(session: &mut Session, timeline: &Timeline) {
    session.script.clear();
    let head = &session.head;
    if !head.refusals.is_whole() {
        return session.answer.fail();
    }
    let refusals = head.refusals.as_bytes();
    if !refusals.is_empty() {
        return session.answer.add(refusals);
    }
    match make_script(&mut session.script, head.text.as_slice(), timeline) {
        Ok(true) => return,
        Ok(false) if is_edited(timeline) => refuse(&mut session.answer, CommandError::Deposited),
        Ok(false) if is_executed(timeline) => refuse(&mut session.answer, CommandError::Executed),
        Ok(false) => refuse(&mut session.answer, CommandError::StartedAt),
        Err(_) => session.answer.fail(),
    }
    session.script.clear();
}
