//! The commands of the debugger.
ghost use Rattle.std.specs.Prelude.{◌≡◌};
ghost use Rattle.ddt_commands.specs.Lines.{retyped_in};

use ddt_breakpoints::Condition;
use word36::Word;

/// How the debugger shows a word.
#[derive(Clone, Copy)]
pub enum OutputMode {
    /// As an instruction, with symbols: `$S`.
    Symbolic,
    /// As a number in octal: `$C`.
    Octal,
    /// As text in ASCII and in SIXBIT: `$T`.
    Text,
    /// As five characters of ASCII: `$7T`.
    Ascii,
    /// As six characters of SIXBIT: `$6T`.
    Sixbit,
    /// As two halves: `$H`.
    Halves,
    /// As a number of this radix, 2 to 16: `$nR`.
    Radix(u8),
}

/// In which mode the last quantity is shown once more.
#[derive(Clone, Copy)]
pub enum Retype {
    /// In octal: `=`.
    Octal,
    /// As an instruction: `_`.
    Symbolic,
    /// As text: `;`.
    Text,
}

impl Retype {
    /// The mode in which the last quantity is shown.
    pub fn mode(self) -> OutputMode
        ensures { result ≡ retyped_in self }
    {
        match self {
            Retype::Octal => OutputMode::Octal,
            Retype::Symbolic => OutputMode::Symbolic,
            Retype::Text => OutputMode::Text,
        }
    }
}

/// How an address is opened.
#[derive(Clone, Copy)]
pub enum Opening {
    /// Its word is shown in octal: `a[`.
    Octal,
    /// Its word is shown as an instruction: `a]`.
    Symbolic,
    /// Its word is not shown: `a!`.
    Unseen,
}

/// Which words a search finds.
#[derive(Clone, Copy)]
pub enum SearchKind {
    /// Those that equal the value under the mask: `$W`.
    Equal,
    /// Those that differ from it: `$N`.
    NotEqual,
    /// Those whose effective address is the value: `$E`.
    Address,
}

/// A search.
#[derive(Clone, Copy)]
pub struct Search {
    /// Which words it finds.
    pub kind: SearchKind,
    /// The value that words are compared with.
    pub value: Word,
    /// The bits that are compared; `None` for those of the mask that `$M/` shows.
    pub mask: Option<Word>,
    /// The first and the last address that are looked at; `None` for all of the job's core.
    pub range: Option<(u32, u32)>,
}

/// A breakpoint to be set: `a$nB IF b=v TIMES n`.
#[derive(Clone, Copy)]
pub struct NewBreakpoint {
    /// Its address.
    pub address: u32,
    /// Its number, 1 to 8, or `None` for a free one.
    pub number: Option<u8>,
    /// What has to hold where the job comes there, if anything.
    pub condition: Option<Condition>,
    /// From which time on it stops the job that comes there: 1 for each time.
    pub times: u32,
}

/// A command, with all its values computed. Each number is an address of the open job where nothing else is said.
#[derive(Clone, Copy)]
pub enum Command<'a> {
    /// `; text`: a remark, which does nothing.
    Remark,
    /// An empty line: opens the next address.
    Next,
    /// `^`: opens the address before.
    Previous,
    /// A tab: opens the address in the right half of the last quantity.
    Addressed,
    /// `a/`: opens an address.
    Open(u32),
    /// `a[`, `a]` or `a!`: opens an address in another way.
    OpenAs(u32, Opening),
    /// `a/ value`: opens an address, and deposits the value there.
    Change(u32, Word),
    /// A value: deposits it at the open address.
    Deposit(Word),
    /// `value=`, `value_` or `value;`: shows a value.
    Evaluate(Word, Retype),
    /// `$S` and the like: sets the mode in which words are shown.
    SetMode(OutputMode),
    /// `$A` or `$R`: shows addresses as numbers, where this is true, or with labels.
    SetAddresses(bool),
    /// `$M/`: opens the mask of searches, and shows it.
    OpenMask,
    /// `$M/ value`: shows the mask of searches, and puts the value there.
    ChangeMask(Word),
    /// `=`, `_` or `;`: shows the last quantity once more.
    Retype(Retype),
    /// `a$B` or `a$nB`: sets a breakpoint.
    SetBreakpoint(NewBreakpoint),
    /// `0$nB`: clears breakpoint n, 1 to 8.
    ClearBreakpoint(u8),
    /// `$B`: lists the breakpoints and what else stops a run.
    ListStops,
    /// `$nB/`: shows breakpoint n, 1 to 8.
    ShowBreakpoint(u8),
    /// `$G`: starts the jobs that were not started, or the open one again, and runs.
    Go,
    /// `a$G`: starts the open job at an address, and runs.
    GoAt(u32),
    /// `n$P`: lets the jobs go on up to the n-th breakpoint.
    Proceed(u32),
    /// `$$P`: lets the jobs go on, and shows each breakpoint at which one arrives.
    ProceedOn,
    /// `n$X`: executes n instructions of the open job.
    Execute(u32),
    /// `instr$X`: executes this instruction for the open job.
    ExecuteWord(Word),
    /// `$$X`: lets the open job go on until its call returns.
    ExecuteCall,
    /// `value<mask>$W` or `a<b>value$W`; so with `$N` and `$E`: searches the core of the open job.
    Search(Search),
    /// `.JOB n`: opens job n, 1 to 63.
    Job(u8),
    /// `.JOBS`: lists the jobs.
    Jobs,
    /// `.LOCKS`: lists the requests for locks.
    Locks,
    /// `.WAITS`: lists who waits for whom.
    Waits,
    /// `.REGS`: shows the PC, the flags and the accumulators.
    Registers,
    /// `.TICK n`: lets n ticks go by.
    Tick(u32),
    /// `.TYPE line text`: types a text, as it is spelled, and a RETURN at a terminal line, 0 to 63.
    Type(u8, &'a [u8]),
    /// `.TAKE`: shows what jobs have typed out.
    Take,
    /// `.STEP n`: makes n steps of the machine.
    Step(u32),
    /// `.RUN n`: lets the jobs go on as `$P` does, for n steps at most.
    Run(u32),
    /// `.BACK n`: goes n steps back.
    Back(u64),
    /// `.BACK TO a`: goes back to where the open job last stood at an address.
    BackTo(u32),
    /// `.BACK WRITE a`: goes back to before the step that last changed a word.
    BackWrite(u32),
    /// `.FORWARD`: goes to the end of all that has happened.
    Forward,
    /// `.WATCH a`: watches a word, or no longer.
    Watch(u32),
    /// `.BREAK LOCK name`: stops runs before calls on that lock, or no longer.
    BreakLock(&'a [u8]),
    /// `.BREAK GRANT`: stops runs where a request is granted, or no longer.
    BreakGrant,
    /// `.BREAK CIRCLE`: stops runs where jobs wait in a circle, or no longer.
    BreakCircle,
    /// `.EX a-b`: shows the words from the first address to the last.
    Examine(u32, u32),
    /// `.HISTORY n`: shows the last n turns of the open job.
    History(u32),
    /// `.SAVE file`: writes the lines of the session to a file.
    Save(&'a [u8]),
    /// `.RECORD file`: writes what has happened to a file, as a script of `lockmon run`.
    Record(&'a [u8]),
    /// `.DO file`: obeys the lines of a file.
    Do(&'a [u8]),
    /// `.HELP` or `.HELP word`: lists the commands, or those in which the word stands.
    Help(&'a [u8]),
    /// `.QUIT`: ends the session.
    Quit,
}
