//! The flags of a job, by their names.
ghost use Rattle.std.specs.Prelude.{◌≡◌, Some, not};
ghost use Rattle.run_notes.specs.Flags.{flag_words, list_words};

use ka_state::Flags;
use std::fmt;

/// The flags that are set, by the names of the DECsystem-10 Processor Reference Manual: `Overflow, Carry 0`; `none` if no
/// flag is set.
#[derive(Clone, Copy)]
pub struct FlagNames {
    /// The flags.
    pub flags: Flags,
}

/// A name in a list, if it is said: after a comma, unless it is the first.
#[derive(Clone, Copy)]
struct Listed<'a> {
    is_said: bool,
    is_first: bool,
    name: &'a str,
}

impl fmt::Display for Listed<'_> {
    ghost output = { λ l. Some (list_words l.is_said l.is_first l.name.now) };

    fn fmt<W: fmt::Write>(&self, f: &mut fmt::Formatter<W>) -> fmt::Result {
        if !self.is_said {
            Ok(())
        } else if self.is_first {
            f.write_str(self.name)
        } else {
            write!(f, ", {}", self.name)
        }
    }
}

/// A name that is said if a flag is set, after others if one of them was said.
fn item(is_said: bool, is_any_before: bool, name: &str) -> Listed<'_>
    ensures said { result.is_said ≡ is_said }
    ensures first { result.is_first ≡ not is_any_before }
    ensures name { result.name.now ≡ name.now }
{
    Listed {
        is_said,
        is_first: !is_any_before,
        name,
    }
}

impl fmt::Display for FlagNames {
    ghost output = { λ n. Some (flag_words n.flags) };

    fn fmt<W: fmt::Write>(&self, f: &mut fmt::Formatter<W>) -> fmt::Result {
        let flags = self.flags;
        let before_carry1 = flags.overflow || flags.carry0;
        let before_no_divide = flags.overflow || (flags.carry0 || flags.carry1);
        let is_any = flags.overflow || (flags.carry0 || (flags.carry1 || flags.no_divide));
        let overflow = item(flags.overflow, false, "Overflow");
        let carry0 = item(flags.carry0, flags.overflow, "Carry 0");
        let carry1 = item(flags.carry1, before_carry1, "Carry 1");
        let no_divide = item(flags.no_divide, before_no_divide, "No Divide");
        let none = item(!is_any, false, "none");
        write!(f, "{overflow}{carry0}{carry1}{no_divide}{none}")
    }
}
