//! Commands that are not obeyed.

use ddt_commands::CommandError;
use program_shell::PendingText;

/// Adds a line on why a command is not obeyed.
pub fn refuse(answer: &mut PendingText, refusal: CommandError) {
    let alloc = answer.alloc;
    answer.say_made(format!(in alloc; "{refusal}\n"));
}
