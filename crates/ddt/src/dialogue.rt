//! The loop over the lines of a session.

use crate::file_lines::FileLines;
use crate::files::{read_file, write_file};
use crate::host::write_answer;
use crate::obey::{HostAction, obey_line};
use crate::session::Session;
use crate::texts;
use ddt_timeline::Timeline;
use program_shell::{DONE, Failure, Host, NameEnd, NextLine, Stream};
use script_io::LINE_LENGTH;
use shown_bytes::shown_text;

/// How a line begins that says why a file cannot be used.
const REFUSAL_HEAD: &str = "? ";

/// How the name of a file ends that has the lines of a session.
const SESSION_END: NameEnd = NameEnd::With(".ddt");

/// How the name of a file ends that has a script of `lockmon run`.
const SCRIPT_END: NameEnd = NameEnd::With(".run");

/// Takes the next line: that of the file that is obeyed, which is shown before its answer, or else that of the input, for which a
/// person is asked by the prompt.
fn take_line<H: Host>(
    host: &mut H,
    session: &mut Session,
    line: &mut Vec<u8>,
) -> Result<NextLine, Failure> {
    match session.file_lines.next_line(line, &mut session.answer) {
        Ok(NextLine::End) => {}
        Ok(came) => return Ok(came),
        Err(_) => return Err(Failure::Memory),
    }
    if host.is_person()
        && host
            .write(Stream::Errors, texts::PROMPT.as_bytes())
            .is_err()
    {
        return Err(Failure::Write);
    }
    host.next_line(line)
}

/// Obeys lines until the session ends, and gives the exit status. No file is written that is one of the inputs.
pub fn serve_lines<H: Host>(
    host: &mut H,
    inputs: &[&str],
    session: &mut Session,
    timeline: &mut Timeline,
    line: &mut Vec<u8>,
) -> Result<u8, Failure> {
    for _ in 0..u64::MAX {
        let came = take_line(host, session, line)?;
        let action = action_in(session, timeline, came, line.as_slice());
        let goes_on = serve_action(host, inputs, session, action);
        match write_answer(host, &mut session.answer) {
            Ok(()) if goes_on => {}
            Ok(()) => break,
            Err(failure) => return Err(failure),
        }
    }
    Ok(DONE)
}

/// Obeys a line, if one came, and gives what is left to the host. A line that does not end the session and names no file is kept.
fn action_in<'a>(
    session: &mut Session,
    timeline: &mut Timeline,
    came: NextLine,
    line: &'a [u8],
) -> HostAction<'a> {
    match came {
        NextLine::End => HostAction::Quit,
        NextLine::TooLong => {
            let (before, behind) = ("? a line has at most ", " characters\n");
            session
                .answer
                .say_number(before, LINE_LENGTH as u64, behind);
            HostAction::Refuse
        }
        NextLine::Line => {
            let action = obey_line(session, timeline, line);
            if matches!(action, HostAction::Keep) {
                let kept = &mut session.kept;
                if kept.extend_from_slice(line).is_err() || kept.push(b'\n').is_err() {
                    session.answer.fail();
                }
            }
            action
        }
    }
}

/// Does what is left to the host; false where the session ends.
fn serve_action<H: Host>(
    host: &mut H,
    inputs: &[&str],
    session: &mut Session,
    action: HostAction<'_>,
) -> bool {
    let (head, answer) = (REFUSAL_HEAD, &mut session.answer);
    match action {
        HostAction::Keep | HostAction::Refuse => {}
        HostAction::Save(file) => {
            let lines = session.kept.as_slice();
            write_file(host, head, (file, SESSION_END), inputs, lines, answer);
        }
        HostAction::Record(file) => {
            let script = session.script.as_slice();
            write_file(host, head, (file, SCRIPT_END), inputs, script, answer);
        }
        HostAction::Do(file) => {
            if let Some(text) = read_file(host, head, file, answer) {
                begin_file(session, file, text);
            }
        }
        HostAction::Quit => return false,
    }
    true
}

/// Has the lines of a file obeyed next.
fn begin_file(session: &mut Session, file: &str, text: Vec<u8>) {
    match shown_text(session.alloc, file.as_bytes()) {
        Ok(name) => session.file_lines = FileLines::new(name, text),
        Err(_) => session.answer.fail(),
    }
}
