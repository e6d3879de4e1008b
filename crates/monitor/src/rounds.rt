//! Rounds made at once.
ghost use Rattle.std.specs.Prelude.{◌≡◌, ◌<◌, ◌^◌, ◌+◌, if◌then◌else◌, is_some};

/// Rounds made at once. A round is a step, with a tick after it where ticks are made. The same job ran in
/// all of them, or no job in any.
#[derive(Clone, Copy, Debug, PartialEq, Eq)]
pub struct Rounds {
    /// The job that ran, if one was ready.
    pub job: Option<u8>,
    /// How many were made.
    pub made: u32,
}

/// Adds to a count. It is not inlined, so the count stays in memory and costs nothing in a round in which a
/// job ran.
#[inline(never)]
fn add(count: &mut u32, more: u32)
    requires { count.old + more < 2 ^ 32 }
    ensures { count.new ≡ count.old + more }
{
    *count += more;
}

impl Rounds {
    /// Adds these rounds to the count of idle ones, if no job ran in them.
    #[inline(always)]
    pub(crate) fn count_idle(self, idle: &mut u32)
        requires { idle.old + self.made < 2 ^ 32 }
        ensures { idle.new ≡ idle.old + (if is_some self.job then 0 else self.made) }
    {
        if self.job.is_none() {
            add(idle, self.made);
        }
    }
}
