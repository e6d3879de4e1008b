//! The time of day.

ghost use Rattle.std.specs.Prelude.{◌≡◌, ◌<◌, ◌+◌, ◌*◌, ◌/◌, ◌%◌, ◌^◌};
ghost use Rattle.job_sched.specs.Times.{later};
ghost use Rattle.job_sched.specs.declared.time_of_day.TheConstants.{TICKS_A_DAY};

use std::marker::Model;

/// How many ticks a second has.
pub const TICKS_A_SECOND: u32 = 60;

/// How many ticks a day has.
pub const TICKS_A_DAY: u32 = 86_400 * TICKS_A_SECOND;

/// The time of day, in ticks of a sixtieth of a second since midnight. Contracts see the number of ticks.
#[derive(Clone, Copy, Debug, PartialEq, Eq)]
pub struct TimeOfDay {
    ticks: u32,
}

impl Model for TimeOfDay {
    ghost use Rattle.std.specs.Prelude.{ℕ, ◌<◌};
    ghost use Rattle.job_sched.specs.declared.time_of_day.TheConstants.{TICKS_A_DAY};

    ghost Value = { ℕ };

    ghost view = { λ time. time.ticks };

    ghost inverse = { λ n. record { ticks = n } };

    ghost invariant = { λ time. time.ticks < TICKS_A_DAY };
}

impl TimeOfDay {
    /// The time so many ticks after midnight.
    pub fn new(ticks: u32) -> TimeOfDay
        requires { ticks < TICKS_A_DAY }
        ensures { result ≡ ticks }
    {
        TimeOfDay { ticks }
    }

    /// The ticks since midnight.
    pub fn ticks(self) -> u32
        ensures value { result ≡ self }
        ensures below { result < TICKS_A_DAY }
    {
        self.ticks
    }

    /// The milliseconds since midnight, rounded down.
    pub fn milliseconds(self) -> u32
        ensures value { result ≡ self * 50 / 3 }
        ensures below { result < 2 ^ 27 }
    {
        self.ticks * 50 / 3
    }

    /// Advances by a tick; after the last tick of a day comes midnight.
    #[inline(always)]
    pub fn advance(&mut self)
        ensures { self.new ≡ (self.old + 1) % TICKS_A_DAY }
    {
        let next = self.ticks + 1;
        self.ticks = if next == TICKS_A_DAY { 0 } else { next };
    }

    /// Advances by so many ticks.
    #[inline(always)]
    pub fn advance_by(&mut self, ticks: u32)
        ensures { self.new ≡ later self.old ticks }
    {
        self.ticks = ((u64::from(self.ticks) + u64::from(ticks)) % u64::from(TICKS_A_DAY)) as u32;
    }
}
