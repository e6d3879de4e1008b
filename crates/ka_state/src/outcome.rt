//! What comes of an instruction.

ghost use Rattle.std.specs.Prelude.{◌≡◌};
ghost use Rattle.ka_state.specs.Outcomes.{code_of};

/// Why a job stops.
#[derive(Clone, Copy, Debug, PartialEq, Eq)]
pub enum StopReason {
    /// An address that is not legal was to be read or written; nothing has changed.
    IllegalAddress,
    /// An operation that is left out; nothing has changed.
    IllegalInstruction,
    /// JRST 4; the PC alone has changed.
    Halt,
    /// A pushdown pointer has run out; the instruction is complete.
    Pushdown,
    /// Too many indirect words or XCTs (this project's profile); nothing has changed.
    AddressChain,
}

impl StopReason {
    /// The number that scripts write for the reason, 1 to 5.
    pub fn code(self) -> u8
        ensures { result ≡ code_of self }
    {
        match self {
            StopReason::IllegalAddress => 1,
            StopReason::IllegalInstruction => 2,
            StopReason::Halt => 3,
            StopReason::Pushdown => 4,
            StopReason::AddressChain => 5,
        }
    }
}

/// The operation that calls the monitor.
#[derive(Clone, Copy, Debug, PartialEq, Eq)]
pub enum CallKind {
    /// Operation 047 octal, whose E is the number of the call.
    Calli,
    /// Operation 051 octal, whose AC field is the number of the call.
    Ttcall,
}

/// What came of an instruction.
#[derive(Clone, Copy, Debug, PartialEq, Eq)]
pub enum Outcome {
    /// It was executed, and the PC is that of the next one.
    Done,
    /// It calls the monitor: its kind, its AC field (0 to 17 octal) and its E (0 to 777777 octal).
    Call(CallKind, u8, u32),
    /// The job stops.
    Stop(StopReason),
}
