//! Lines of a script, by their numbers.
ghost use Rattle.std.specs.Prelude.{◌≡◌};
ghost use Rattle.std.specs.Str.Lines.{lines};
ghost use Rattle.lockcheck_program.specs.Reports.{line_in};

use lock_bars::ScriptLines;

/// The line of this number, counted from 1, without its line end; an empty one if there are fewer.
pub fn line_at(script: &[u8], number: usize) -> &[u8]
    ensures { result.now ≡ line_in (lines script.now) number }
{
    let mut lines = ScriptLines::of(script);
    let mut left = number;
    while let Some(line) = lines.next() {
        if left <= 1 {
            return line;
        }
        left -= 1;
    }
    b""
}
