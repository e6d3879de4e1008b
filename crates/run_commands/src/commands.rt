//! The commands of a script on the machine.
ghost use Rattle.std.specs.Prelude.{◌≡◌, ◌^◌, ◌<◌, ◌≤◌, ◌&&◌, length};
ghost use Rattle.std.specs.Prelude.{is_some, option_map, option_copied, position, IfSome};
ghost use Rattle.std.specs.List.{before_first, after_first};
ghost use Rattle.script_io.specs.Lines.{is_allowed};
ghost use Rattle.run_commands.specs.Names.{name_of};
ghost use Rattle.run_commands.specs.Commands.{byte_of, count_of, address_of, data_number_of, only};
ghost use Rattle.run_commands.specs.Commands.{alone, login_of, shown_by, examine_of, is_space};
ghost use Rattle.run_commands.specs.Commands.{text_of, typed_of, other_keyword_of, keyword_of, command_with, command_of_items, command_of};

use crate::names::ImageName;
use crate::texts::TypedText;
use script_io::{LINE_LENGTH, Parts, is_allowed, is_silent, number};
use word36::DATA_WORDS;

/// The name of a command, but for TYPE, whose text is no list of items.
#[derive(Clone, Copy)]
pub enum Keyword {
    Assemble,
    Login,
    Step,
    Run,
    Tick,
    Take,
    Start,
    Continue,
    Kill,
    Restart,
    Show,
    Examine,
    Data,
    Quit,
}

/// The command of a line.
#[derive(Drop)]
pub enum Command {
    /// Nothing: the line is empty or a comment.
    Nothing,
    /// ASSEMBLE: the lines that follow, up to ENDASM, are a source of this name.
    Assemble(ImageName),
    /// LOGIN: a job begins at a line, with an image.
    Login(u8, ImageName),
    /// STEP: this many steps.
    Step(u32),
    /// RUN: this many steps, each followed by a tick.
    Run(u32),
    /// TICK: this many ticks.
    Tick(u32),
    /// TYPE: a text is typed at a line.
    Typed(u8, TypedText),
    /// TAKE: the output of a line is taken.
    Take(u8),
    /// START: a job starts.
    Start(u8),
    /// CONTINUE: a stopped job goes on.
    Continue(u8),
    /// KILL: a job is removed.
    Kill(u8),
    /// RESTART: all jobs are removed.
    Restart,
    /// SHOW JOBS.
    ShowJobs,
    /// SHOW LOCKS: the requests.
    ShowLocks,
    /// SHOW WAITS: who waits for whom.
    ShowWaits,
    /// EXAMINE: the word at an address of a job.
    Examine(u8, u32),
    /// DATA: a word that all jobs share.
    Data(u16),
    /// QUIT: the script ends.
    Quit,
}

/// The most steps or ticks of one command.
pub const MOST_EVENTS: u64 = 1_000_000;

/// The largest address.
pub const MOST_ADDRESS: u64 = 0o777_777;

/// The greatest number of a line or a job.
pub const MOST_NUMBER: u64 = 255;

/// The number of a line or a job, 0 to 255.
fn read_byte(text: &[u8]) -> Option<u8>
    ensures { result ≡ byte_of text.now }
{
    Some(number(10, MOST_NUMBER, text)? as u8)
}

/// How many steps or ticks.
fn read_count(text: &[u8]) -> Option<u32>
    ensures { result ≡ count_of text.now }
{
    Some(number(10, MOST_EVENTS, text)? as u32)
}

/// An address in octal.
fn read_address(text: &[u8]) -> Option<u32>
    ensures { result ≡ address_of text.now }
{
    Some(number(8, MOST_ADDRESS, text)? as u32)
}

/// The number of a word that all jobs share.
fn read_data_number(text: &[u8]) -> Option<u16>
    ensures { result ≡ data_number_of text.now }
{
    Some(number(10, DATA_WORDS as u64 - 1, text)? as u16)
}

/// The one item that there is.
fn only<'a>(mut items: Parts<'a>) -> Option<&'a [u8]>
    ensures { option_copied result ≡ only items.entry }
{
    let item = items.next()?;
    if items.is_empty() { Some(item) } else { None }
}

/// A command that stands alone.
fn alone(command: Command, items: Parts<'_>) -> Option<Command>
    ensures { result ≡ alone command items.entry }
{
    if items.is_empty() {
        Some(command)
    } else {
        None
    }
}

/// What follows LOGIN.
fn read_login(mut items: Parts<'_>) -> Option<Command>
    ensures { result ≡ login_of items.entry }
{
    let line = items.next()?;
    let name = items.next()?;
    if !items.is_empty() {
        return None;
    }
    let line = read_byte(line)?;
    Some(Command::Login(line, ImageName::read(name)?))
}

/// What is to be shown.
fn read_shown(what: &[u8]) -> Option<Command>
    ensures { result ≡ shown_by what.now }
{
    if what == b"JOBS".as_slice() {
        Some(Command::ShowJobs)
    } else if what == b"LOCKS".as_slice() {
        Some(Command::ShowLocks)
    } else if what == b"WAITS".as_slice() {
        Some(Command::ShowWaits)
    } else {
        None
    }
}

/// What follows EXAMINE.
fn read_examine(mut items: Parts<'_>) -> Option<Command>
    ensures { result ≡ examine_of items.entry }
{
    let job = items.next()?;
    let address = items.next()?;
    if !items.is_empty() {
        return None;
    }
    let job = read_byte(job)?;
    Some(Command::Examine(job, read_address(address)?))
}

/// The position of the first space.
fn find_space(text: &[u8]) -> Option<usize>
    ensures { result ≡ position is_space text.now }
{
    text.iter().position(|c| *c == b' ')
}

/// What stands before the first space, and what stands behind it.
fn split_at_space(text: &[u8]) -> (&[u8], &[u8])
    ensures before { result.0.now ≡ before_first is_space text.now }
    ensures behind { result.1.now ≡ after_first is_space text.now }
{
    match find_space(text) {
        Some(i) => (&text[..i], &text[i + 1..]),
        None => (text, &[]),
    }
}

/// The characters that a text of at least one character spells.
fn read_text(text: &[u8]) -> Option<TypedText>
    requires { length text.now ≤ LINE_LENGTH }
    ensures { result ≡ text_of text.now }
{
    if text.is_empty() {
        return None;
    }
    TypedText::read(text)
}

/// What follows `TYPE `.
fn read_typed(rest: &[u8]) -> Option<Command>
    requires { length rest.now ≤ LINE_LENGTH }
    ensures { result ≡ typed_of rest.now }
{
    let (line, text) = split_at_space(rest);
    let line = read_byte(line)?;
    Some(Command::Typed(line, read_text(text)?))
}

/// The name of a command that is no event.
fn read_other_keyword(name: &[u8]) -> Option<Keyword>
    ensures { result ≡ other_keyword_of name.now }
{
    if name == b"ASSEMBLE".as_slice() {
        Some(Keyword::Assemble)
    } else if name == b"SHOW".as_slice() {
        Some(Keyword::Show)
    } else if name == b"EXAMINE".as_slice() {
        Some(Keyword::Examine)
    } else if name == b"DATA".as_slice() {
        Some(Keyword::Data)
    } else if name == b"QUIT".as_slice() {
        Some(Keyword::Quit)
    } else {
        None
    }
}

/// The name of a command.
fn read_keyword(name: &[u8]) -> Option<Keyword>
    ensures { result ≡ keyword_of name.now }
{
    if name == b"LOGIN".as_slice() {
        Some(Keyword::Login)
    } else if name == b"STEP".as_slice() {
        Some(Keyword::Step)
    } else if name == b"RUN".as_slice() {
        Some(Keyword::Run)
    } else if name == b"TICK".as_slice() {
        Some(Keyword::Tick)
    } else if name == b"TAKE".as_slice() {
        Some(Keyword::Take)
    } else if name == b"START".as_slice() {
        Some(Keyword::Start)
    } else if name == b"CONTINUE".as_slice() {
        Some(Keyword::Continue)
    } else if name == b"KILL".as_slice() {
        Some(Keyword::Kill)
    } else if name == b"RESTART".as_slice() {
        Some(Keyword::Restart)
    } else {
        read_other_keyword(name)
    }
}

/// The command of a name and what follows it.
fn read_command_with(keyword: Keyword, items: Parts<'_>) -> Option<Command>
    ensures { result ≡ command_with keyword items.entry }
{
    match keyword {
        Keyword::Assemble => Some(Command::Assemble(ImageName::read(only(items)?)?)),
        Keyword::Login => read_login(items),
        Keyword::Step => Some(Command::Step(read_count(only(items)?)?)),
        Keyword::Run => Some(Command::Run(read_count(only(items)?)?)),
        Keyword::Tick => Some(Command::Tick(read_count(only(items)?)?)),
        Keyword::Take => Some(Command::Take(read_byte(only(items)?)?)),
        Keyword::Start => Some(Command::Start(read_byte(only(items)?)?)),
        Keyword::Continue => Some(Command::Continue(read_byte(only(items)?)?)),
        Keyword::Kill => Some(Command::Kill(read_byte(only(items)?)?)),
        Keyword::Restart => alone(Command::Restart, items),
        Keyword::Show => read_shown(only(items)?),
        Keyword::Examine => read_examine(items),
        Keyword::Data => Some(Command::Data(read_data_number(only(items)?)?)),
        Keyword::Quit => alone(Command::Quit, items),
    }
}

/// The command of a line's items.
fn read_items(mut items: Parts<'_>) -> Option<Command>
    ensures { result ≡ command_of_items items.entry }
{
    let name = items.next()?;
    let keyword = read_keyword(name)?;
    read_command_with(keyword, items)
}

/// The command of a line of at most 256 characters, if the line is in the grammar.
#[tactic(auto, unfolding(crate::specs::Commands::command_of))]
pub fn read_command(line: &[u8]) -> Option<Command>
    requires { length line.now ≤ LINE_LENGTH }
    ensures { result ≡ command_of line.now }
{
    if is_silent(line) {
        return Some(Command::Nothing);
    }
    match line.strip_prefix(b"TYPE ".as_slice()) {
        Some(rest) => read_typed(rest),
        None => read_items(Parts::of(line, b' ')),
    }
}

/// Whether a line is in the grammar.
pub fn is_command(line: &[u8]) -> bool
    ensures { result ≡ (is_allowed line.now && is_some (command_of line.now)) }
{
    is_allowed(line) && read_command(line).is_some()
}
