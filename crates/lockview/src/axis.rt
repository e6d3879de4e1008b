//! The numbers above the columns of a picture as text.
ghost use Rattle.std.specs.Prelude.{◌<◌};

use lock_bars::Column;
use program_shell::PendingText;

/// The values of the digits of a line's number, from the left; a script has at most 10,000 lines.
static WORTHS: [usize; 5] = [10_000, 1_000, 100, 10, 1];

/// Adds so many blanks.
pub fn say_spaces(text: &mut PendingText, count: usize) {
    for _ in 0..count {
        text.say(" ");
    }
}

/// Adds the last digit of a number.
fn say_digit(text: &mut PendingText, number: usize) {
    text.add(&[b'0' + (number % 10) as u8]);
}

/// Whether the columns are the lines of a script, from the first on.
fn are_all_lines(columns: &[Column]) -> bool {
    for (i, column) in columns.iter().enumerate() {
        if column.tick != 0 || column.line != i + 1 {
            return false;
        }
    }
    true
}

/// Adds the tens of the numbers of the lines.
fn say_tens(text: &mut PendingText, lines: usize, margin: usize) {
    text.say("line");
    if lines >= 10 {
        say_spaces(text, margin.saturating_sub(4));
    }
    let alloc = text.alloc;
    for ten in 1..lines / 10 + 1 {
        let line = ten.saturating_mul(10);
        text.say_made(format!(in alloc; "{line:>10}"));
    }
    text.end_line();
}

/// Adds the numbers of so many lines: the tens, and the ones below them.
fn say_lines(text: &mut PendingText, lines: usize, margin: usize) {
    say_tens(text, lines, margin);
    if lines == 0 {
        return;
    }
    say_spaces(text, margin);
    for line in 1..lines.saturating_add(1) {
        say_digit(text, line);
    }
    text.end_line();
}

/// Adds the digits of one value of the lines' numbers, each above its column.
fn say_digits(text: &mut PendingText, columns: &[Column], worth: usize)
    requires { 0 < worth }
{
    for column in columns {
        if column.line < worth {
            text.say(" ");
        } else {
            say_digit(text, column.line / worth);
        }
    }
    text.end_line();
}

/// Adds the numbers of the lines downwards, each above its column.
fn say_numbers(text: &mut PendingText, columns: &[Column], margin: usize) {
    let greatest = match columns.last() {
        Some(column) => column.line,
        None => 0,
    };
    let mut indent = margin.saturating_sub(4);
    text.say("line");
    for worth in &WORTHS {
        let worth = *worth;
        if worth > 0 && worth <= greatest {
            say_spaces(text, indent);
            say_digits(text, columns, worth);
            indent = margin;
        }
    }
}

/// Adds the last digits of the ticks, each above its column.
fn say_ticks(text: &mut PendingText, columns: &[Column], margin: usize) {
    let mut blanks = margin.saturating_sub(4);
    let mut has_ticks = false;
    for column in columns {
        if column.tick == 0 {
            blanks = blanks.saturating_add(1);
        } else {
            if !has_ticks {
                text.say("tick");
                has_ticks = true;
            }
            say_spaces(text, blanks);
            blanks = 0;
            say_digit(text, column.tick);
        }
    }
    if has_ticks {
        text.end_line();
    }
}

/// Adds the numbers above the columns.
pub fn say_axis(text: &mut PendingText, columns: &[Column], margin: usize) {
    if are_all_lines(columns) {
        say_lines(text, columns.len(), margin);
    } else {
        say_numbers(text, columns, margin);
        say_ticks(text, columns, margin);
    }
}
