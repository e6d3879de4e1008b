//! Whether the debugger has changed words, or executed instructions.
ghost use Rattle.std.specs.List.{list_any};
ghost use Rattle.std.specs.Prelude.{◌≡◌};
ghost use Rattle.ddt_moves.specs.Edits.{is_deposit, is_execution};
ghost use Rattle.ddt_timeline.specs.Views.{whole_entries};

use ddt_timeline::{Entry, Timeline};

/// Whether an entry is a word that was deposited.
fn is_deposit(entry: &Entry) -> bool
    ensures { result ≡ is_deposit entry.now }
{
    matches!(entry, Entry::Deposit(_, _, _))
}

/// Whether one of some entries is a word that was deposited.
fn has_deposit(entries: &[Entry]) -> bool
    ensures { result ≡ list_any is_deposit entries.now }
{
    for entry in entries {
        if is_deposit(entry) {
            return true;
        }
    }
    false
}

/// Whether a word was deposited in all that has happened to the machine.
pub fn is_edited(timeline: &Timeline) -> bool
    ensures { result ≡ list_any is_deposit (whole_entries timeline.now) }
{
    has_deposit(timeline.entries())
}

/// Whether an entry is an instruction that was executed by hand.
fn is_execution(entry: &Entry) -> bool
    ensures { result ≡ is_execution entry.now }
{
    matches!(entry, Entry::Execute(_, _))
}

/// Whether one of some entries is an instruction that was executed by hand.
fn has_execution(entries: &[Entry]) -> bool
    ensures { result ≡ list_any is_execution entries.now }
{
    for entry in entries {
        if is_execution(entry) {
            return true;
        }
    }
    false
}

/// Whether an instruction was executed by hand in all that has happened to the machine.
pub fn is_executed(timeline: &Timeline) -> bool
    ensures { result ≡ list_any is_execution (whole_entries timeline.now) }
{
    has_execution(timeline.entries())
}
