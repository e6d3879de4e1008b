//! Laws of the monitor calls, as a program sees them. Each function does nothing: its contract is a law.
#![tactic(auto)]

ghost use Rattle.call_laws.specs.DataWords.{WhatIsWrittenIsRead};
ghost use Rattle.call_laws.specs.Deliveries.{DebrkGoesBack};
ghost use Rattle.call_laws.specs.HighestAddresses.{CoreTellsItsSize, LoginTellsItsSize};
ghost use Rattle.call_laws.specs.Sleeps.{SleepBegins, SleepsLast};
ghost use Rattle.call_laws.specs.Takes.{TakesLeaveNothing};
ghost use Rattle.call_laws.specs.TerminalWaits.{WhoWaitsForItsTerminalMadeAnEmptyStep};

/// DATRD. after DATWR. reads the word that was written.
pub fn what_is_written_is_read()
    ensures { WhatIsWrittenIsRead }
{}

/// DEBRK. after the delivery of an interrupt gives back the PC and the flags.
pub fn debrk_goes_back()
    ensures { DebrkGoesBack }
{}

/// SLEEP of n seconds lasts exactly 60 n ticks.
pub fn sleeps_last()
    ensures begins { SleepBegins }
    ensures lasts { SleepsLast }
{}

/// Enough events `Take` take all the output of a line, in order, and leave nothing.
pub fn takes_leave_nothing()
    ensures { TakesLeaveNothing }
{}

/// A job that begins to wait for its terminal by a call has made an empty step.
pub fn terminal_waits_are_empty_steps()
    ensures { WhoWaitsForItsTerminalMadeAnEmptyStep }
{}

/// After a granted login and a granted CORE, address 44 octal has the highest legal address.
pub fn address_44_tells_the_size()
    ensures login { LoginTellsItsSize }
    ensures core { CoreTellsItsSize }
{}
