//! Dot commands: those that begin with a point, as `.JOBS`.
ghost use Rattle.std.specs.Prelude.{◌≡◌, ◌≤◌, if◌then◌else◌, Ok, Err, IfOk, Some};
ghost use Rattle.ddt_commands.specs.Numbers.{decimal_in};
ghost use Rattle.ddt_commands.specs.DotLines.{SaysBreak, SaysDo, SaysDot, SaysLock, SaysRecord, SaysSave, SaysType, back_of, count_in, dot_of};
ghost use Rattle.ddt_commands.specs.DotLines.{examine_of, job_in, lone_of};
ghost use Rattle.ddt_commands.specs.Texts.{behind_blanks, first_word};

use crate::breakpoints::read_break_at;
use crate::commands::Command;
use crate::line_errors::LineError;
use crate::numbers::pointed_decimal;
use crate::reader::{cut_at, cut_word, is_name};
use crate::values::{Scope, read_address};
use word36::{JOBS, LINES};

/// The largest count of `.TICK`.
const MOST_TICKS: u32 = 6000;

/// The largest count of `.STEP` and `.RUN`.
const MOST_STEPS: u32 = 1_000_000_000;

/// How many steps `$G`, `$P`, `$X` and `.RUN` without a number go on for at most: some tenths of a second.
pub const RUN_STEPS: u64 = 10_000_000;

/// The largest count of `.HISTORY`.
const MOST_HISTORY: u32 = 1000;

/// The largest count of `.BACK`, 2^39.
const MOST_BACK: u64 = 1 << 39;

/// A dot command, as its word names it.
#[derive(Clone, Copy)]
enum DotCommand {
    /// One that takes no argument.
    Lone(LoneCommand),
    Back,
    Break,
    Do,
    Ex,
    Help,
    History,
    Job,
    Record,
    Run,
    Save,
    Step,
    Tick,
    Type,
    Watch,
}

/// A dot command that takes no argument.
#[derive(Clone, Copy)]
enum LoneCommand {
    Forward,
    Jobs,
    Locks,
    Quit,
    Regs,
    Take,
    Waits,
}

/// The dot command of a word, in upper or lower case.
fn dot_command(word: &[u8]) -> Option<DotCommand>
    ensures { result ≡ dot_of word.now }
{
    if is_name(word, b"BACK") {
        return Some(DotCommand::Back);
    }
    if is_name(word, b"BREAK") {
        return Some(DotCommand::Break);
    }
    if is_name(word, b"DO") {
        return Some(DotCommand::Do);
    }
    if is_name(word, b"EX") {
        return Some(DotCommand::Ex);
    }
    if is_name(word, b"FORWARD") {
        return Some(DotCommand::Lone(LoneCommand::Forward));
    }
    if is_name(word, b"HELP") {
        return Some(DotCommand::Help);
    }
    if is_name(word, b"HISTORY") {
        return Some(DotCommand::History);
    }
    if is_name(word, b"JOB") {
        return Some(DotCommand::Job);
    }
    if is_name(word, b"JOBS") {
        return Some(DotCommand::Lone(LoneCommand::Jobs));
    }
    if is_name(word, b"LOCKS") {
        return Some(DotCommand::Lone(LoneCommand::Locks));
    }
    if is_name(word, b"QUIT") {
        return Some(DotCommand::Lone(LoneCommand::Quit));
    }
    if is_name(word, b"RECORD") {
        return Some(DotCommand::Record);
    }
    if is_name(word, b"REGS") {
        return Some(DotCommand::Lone(LoneCommand::Regs));
    }
    if is_name(word, b"RUN") {
        return Some(DotCommand::Run);
    }
    if is_name(word, b"SAVE") {
        return Some(DotCommand::Save);
    }
    if is_name(word, b"STEP") {
        return Some(DotCommand::Step);
    }
    if is_name(word, b"TAKE") {
        return Some(DotCommand::Lone(LoneCommand::Take));
    }
    if is_name(word, b"TICK") {
        return Some(DotCommand::Tick);
    }
    if is_name(word, b"TYPE") {
        return Some(DotCommand::Type);
    }
    if is_name(word, b"WAITS") {
        return Some(DotCommand::Lone(LoneCommand::Waits));
    }
    if is_name(word, b"WATCH") {
        return Some(DotCommand::Watch);
    }
    None
}

/// Reads a decimal number from `least` to `most`, with or without a point behind it; `default` where the text is empty.
fn count(text: &[u8], least: u64, most: u64, default: u64) -> Result<u64, LineError>
    requires { default ≤ most }
    ensures value { result ≡ count_in least most default text.now }
    ensures most { IfOk result (λ n. n ≤ most) }
{
    if text.is_empty() {
        return Ok(default);
    }
    match pointed_decimal(text) {
        Some(number) if least <= number && number <= most => Ok(number),
        _ => Err(LineError::NoCount(least, most)),
    }
}

/// As `count`, from 1 on.
fn small_count(text: &[u8], most: u32, default: u32) -> Result<u32, LineError>
    requires { default ≤ most }
    ensures { result ≡ count_in 1 most default text.now }
{
    match count(text, 1, u64::from(most), u64::from(default)) {
        Ok(count) => Ok(count as u32),
        Err(error) => Err(error),
    }
}

/// Reads `.TYPE line text`, whose line is a decimal number.
fn read_type(text: &[u8]) -> Result<Command<'_>, LineError>
    ensures { SaysType (decimal_in (first_word text.now)) (behind_blanks text.now) result }
{
    let (line, typed) = cut_word(text);
    match pointed_decimal(line) {
        Some(number) if number < u64::from(LINES) => Ok(Command::Type(number as u8, typed)),
        _ => Err(LineError::NoLine),
    }
}

/// Reads `.BACK n`, `.BACK TO a` and `.BACK WRITE a`.
fn read_back<'a>(text: &[u8], scope: &Scope<'_>) -> Result<Command<'a>, LineError>
    ensures { result ≡ back_of scope.now text.now }
{
    let (first, place) = cut_word(text);
    if is_name(first, b"TO") {
        let address = read_address(place, scope)?;
        return Ok(Command::BackTo(address));
    }
    if is_name(first, b"WRITE") {
        let address = read_address(place, scope)?;
        return Ok(Command::BackWrite(address));
    }
    match count(text, 0, MOST_BACK, 1) {
        Ok(steps) => Ok(Command::Back(steps)),
        Err(error) => Err(error),
    }
}

/// Reads `.BREAK a` with its limits, `.BREAK LOCK name`, `.BREAK GRANT` and `.BREAK CIRCLE`.
fn read_break<'a>(text: &'a [u8], scope: &Scope<'_>) -> Result<Command<'a>, LineError>
    ensures { SaysBreak scope.now text.now result }
{
    let (first, name) = cut_word(text);
    if is_name(first, b"GRANT") {
        return Ok(Command::BreakGrant);
    }
    if is_name(first, b"CIRCLE") {
        return Ok(Command::BreakCircle);
    }
    if is_name(first, b"LOCK") {
        return read_lock(name);
    }
    read_break_at(text, scope)
}

/// Reads the name behind `.BREAK LOCK`.
fn read_lock(name: &[u8]) -> Result<Command<'_>, LineError>
    ensures { SaysLock name.now result }
{
    if name.is_empty() {
        Err(LineError::NoLock)
    } else {
        Ok(Command::BreakLock(name))
    }
}

/// Reads `.EX a-b` and `.EX a`.
fn read_examine<'a>(text: &[u8], scope: &Scope<'_>) -> Result<Command<'a>, LineError>
    ensures { result ≡ examine_of scope.now text.now }
{
    match cut_at(text, b'-') {
        Some((first, last)) => {
            let first = read_address(first, scope)?;
            let last = read_address(last, scope)?;
            Ok(Command::Examine(first, last))
        }
        None => {
            let first = read_address(text, scope)?;
            Ok(Command::Examine(first, first))
        }
    }
}

/// The command of a dot command without an argument.
fn command_of(word: LoneCommand) -> Command<'static>
    ensures { result ≡ lone_of word }
{
    match word {
        LoneCommand::Forward => Command::Forward,
        LoneCommand::Jobs => Command::Jobs,
        LoneCommand::Locks => Command::Locks,
        LoneCommand::Quit => Command::Quit,
        LoneCommand::Regs => Command::Registers,
        LoneCommand::Take => Command::Take,
        LoneCommand::Waits => Command::Waits,
    }
}

/// Reads `.DO file`, `.RECORD file` and `.SAVE file`.
fn read_file_command(command: DotCommand, file: &[u8]) -> Result<Command<'_>, LineError>
    ensures saves { command ≡ DotCommand.Save → SaysSave file.now result }
    ensures records { command ≡ DotCommand.Record → SaysRecord file.now result }
    ensures obeys { command ≡ DotCommand.Do → SaysDo file.now result }
{
    if file.is_empty() {
        return Err(LineError::NoFile);
    }
    match command {
        DotCommand::Do => Ok(Command::Do(file)),
        DotCommand::Record => Ok(Command::Record(file)),
        _ => Ok(Command::Save(file)),
    }
}

/// Reads `.JOB n`.
fn read_job<'a>(text: &[u8]) -> Result<Command<'a>, LineError>
    ensures { result ≡ job_in (decimal_in text.now) }
{
    match pointed_decimal(text) {
        Some(number) if 1 <= number && number <= u64::from(JOBS) => Ok(Command::Job(number as u8)),
        _ => Err(LineError::NoJob),
    }
}

/// Reads a dot command by its word: `rest` is the text after that.
fn read_by_word<'a>(
    command: DotCommand,
    rest: &'a [u8],
    scope: &Scope<'_>,
) -> Result<Command<'a>, LineError>
    ensures { SaysDot scope.now rest.now (Some command) result }
{
    match command {
        DotCommand::Lone(_) if !rest.is_empty() => Err(LineError::BehindCommand),
        DotCommand::Lone(word) => Ok(command_of(word)),
        DotCommand::Back => read_back(rest, scope),
        DotCommand::Break => read_break(rest, scope),
        DotCommand::Ex => read_examine(rest, scope),
        DotCommand::Help => Ok(Command::Help(rest)),
        DotCommand::History => Ok(Command::History(small_count(rest, MOST_HISTORY, 10)?)),
        DotCommand::Run => Ok(Command::Run(small_count(rest, MOST_STEPS, RUN_STEPS as u32)?)),
        DotCommand::Step => Ok(Command::Step(small_count(rest, MOST_STEPS, 1)?)),
        DotCommand::Tick => Ok(Command::Tick(small_count(rest, MOST_TICKS, 1)?)),
        DotCommand::Job => read_job(rest),
        DotCommand::Type => read_type(rest),
        DotCommand::Watch => {
            let address = read_address(rest, scope)?;
            Ok(Command::Watch(address))
        }
        DotCommand::Do | DotCommand::Record | DotCommand::Save => read_file_command(command, rest),
    }
}

/// Reads a dot command, whose point is passed already, or tells what is wrong with it.
pub fn read_dot_command<'a>(text: &'a [u8], scope: &Scope<'_>) -> Result<Command<'a>, LineError>
    ensures { SaysDot scope.now (behind_blanks text.now) (dot_of (first_word text.now)) result }
{
    let (word, rest) = cut_word(text);
    match dot_command(word) {
        Some(command) => read_by_word(command, rest, scope),
        None => Err(LineError::NoCommand),
    }
}
