//! Why something is left out.

use std::fmt;

/// Why an operation, a call, a statement or a name is not here, or what is here instead.
#[derive(Clone, Copy, Debug, PartialEq, Eq)]
pub enum Reason {
    /// DIV: it divides two words.
    DividesTwoWords,
    /// ASHC: it shifts two words.
    ShiftsTwoWords,
    /// Floating point.
    Floating,
    /// Operations of processors that came after the KA10.
    Later,
    /// Input and output by devices.
    Devices,
    /// JEN: it ends a program interrupt of the processor.
    Interrupts,
    /// Calls on files and devices.
    Files,
    /// Calls on segments.
    Segments,
    /// Calls that tell a time or a date.
    Clock,
    /// Calls that wait.
    Waits,
    /// Terminal calls.
    Terminal,
    /// The calls of traps and interrupts that PIINI. came after.
    Traps,
    /// Calls on packets between jobs.
    Packets,
    /// Other calls of TOPS-10.
    Calls,
    /// CALL, which takes the name of a call in SIXBIT.
    CallByName,
    /// Calls of TOPS-20.
    OfTops20,
    /// MOVX, which makes one of three instructions.
    Movx,
    /// The macros of MACTEN that test and set bits.
    Bits,
    /// PJRST.
    Pjrst,
    /// ARRAY and INTEGER.
    Arrays,
    /// NOP and NOOP.
    NoOperation,
    /// Names of GETTAB's tables and of words of them.
    MonitorTables,
    /// `.IF` and `.IFN`.
    OtherIf,
    /// Statements for the linker.
    Linking,
    /// Other statements of MACRO-10.
    Statements,
    /// JOBDAT's `.JBREL`.
    Jbrel,
    /// Other names of JOBDAT.
    Jobdat,
    /// The names of characters in MACTEN.
    Characters,
}

impl Reason {
    /// The sentence behind the name and a colon.
    pub fn words(self) -> &'static str {
        match self {
            Reason::DividesTwoWords => "it divides two words, and IDIV, which divides one, is here",
            Reason::ShiftsTwoWords => "it shifts two words, and ASH, LSHC and ROTC are here",
            Reason::Floating => "there is no floating point",
            Reason::Later => "it is of a later processor than the KA10",
            Reason::Devices =>
                "there is no input and output by devices; OUTSTR and the other terminal calls are here",
            Reason::Interrupts => "there is no executive mode",
            Reason::Files => "this monitor has no files and no devices but terminals",
            Reason::Segments => "this monitor has no segments",
            Reason::Clock => "of the clocks this monitor has MSTIME",
            Reason::Waits => "of the calls that wait this monitor has SLEEP",
            Reason::Terminal => "this monitor has not this terminal call",
            Reason::Traps => "this monitor has PIINI., PISYS. and DEBRK. for interrupts",
            Reason::Packets => "this monitor has no packets between jobs",
            Reason::Calls => "this monitor has not this call of TOPS-10",
            Reason::CallByName => "write the call's own name, as in EXIT or ENQ. 1,",
            Reason::OfTops20 => "it is a call of TOPS-20: write EXIT, and the calls of TOPS-10",
            Reason::Movx => "write MOVEI, MOVSI, or MOVE with a literal",
            Reason::Bits =>
                "it is a macro of MACTEN: write TRNE, TLNE or another test, or DEFINE it",
            Reason::Pjrst => "write JRST",
            Reason::Arrays => "write a label and BLOCK",
            Reason::NoOperation => "write JFCL",
            Reason::MonitorTables =>
                "it is a name of UUOSYM for GETTAB, a call that this monitor has not: write its number",
            Reason::OtherIf => "write IFE, IFDEF or another IF",
            Reason::Linking => "there is one source and no linking",
            Reason::Statements => "this assembler has not this statement of MACRO-10",
            Reason::Jbrel => "it is a name of JOBDAT: write .JBREL=44",
            Reason::Jobdat =>
                "it is a name of JOBDAT, and of the job's own words this monitor keeps 44 alone, .JBREL",
            Reason::Characters =>
                "it is a name of MACTEN: write the character's code, or \"A\" for that of A",
        }
    }
}

impl fmt::Display for Reason {
    fn fmt<W: fmt::Write>(&self, f: &mut fmt::Formatter<W>) -> fmt::Result {
        f.write_str(self.words())
    }
}
