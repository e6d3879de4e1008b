//! The calls that have names of their own.

ghost use Rattle.std.specs.Prelude.{◌≡◌};
ghost use Rattle.ka_isa.specs.Operations.{call_meaning, call_in};
ghost use Rattle.ka_isa.specs.Tables.{call_rows};

use word36::Word;

/// What may follow a name in a statement, and the word that it gives where nothing follows.
#[derive(Clone, Copy, Debug, PartialEq, Eq)]
pub struct Named {
    /// The instruction with all that the name says.
    pub word: Word,
    /// Whether an accumulator may be written.
    pub ac: bool,
    /// Whether an address may be written.
    pub addr: bool,
}

/// A call by its name.
#[derive(Clone, Copy, Debug, PartialEq, Eq)]
pub(crate) enum Call {
    /// CALLI with this address.
    Monitor(u32),
    /// CALLI 1,12.
    MonitorReturn,
    /// TTCALL with this AC field.
    Terminal(u8),
    /// JRST with this AC field.
    Jump(u8),
}

/// The calls that have names: those of CALLI, MONRT., those of TTCALL, and two of JRST.
pub(crate) static CALLS: [(&str, Call); 28] = [
    ("RESET", Call::Monitor(0)),
    ("CORE", Call::Monitor(0o11)),
    ("EXIT", Call::Monitor(0o12)),
    ("LOGOUT", Call::Monitor(0o17)),
    ("MSTIME", Call::Monitor(0o23)),
    ("PJOB", Call::Monitor(0o30)),
    ("SLEEP", Call::Monitor(0o31)),
    ("PIINI.", Call::Monitor(0o135)),
    ("PISYS.", Call::Monitor(0o136)),
    ("DEBRK.", Call::Monitor(0o137)),
    ("ENQ.", Call::Monitor(0o151)),
    ("DEQ.", Call::Monitor(0o152)),
    ("ENQC.", Call::Monitor(0o153)),
    ("DATRD.", Call::Monitor(0o777_776)),
    ("DATWR.", Call::Monitor(0o777_775)),
    ("MONRT.", Call::MonitorReturn),
    ("INCHRW", Call::Terminal(0)),
    ("OUTCHR", Call::Terminal(1)),
    ("INCHRS", Call::Terminal(2)),
    ("OUTSTR", Call::Terminal(3)),
    ("INCHWL", Call::Terminal(4)),
    ("INCHSL", Call::Terminal(5)),
    ("CLRBFI", Call::Terminal(0o11)),
    ("CLRBFO", Call::Terminal(0o12)),
    ("SKPINC", Call::Terminal(0o13)),
    ("SKPINL", Call::Terminal(0o14)),
    ("HALT", Call::Jump(4)),
    ("JRSTF", Call::Jump(2)),
];

/// The words of CALLI, TTCALL and JRST, with all else zero.
const CALLI: u64 = 0o47 << 27;

const TTCALL: u64 = 0o51 << 27;

const JRST: u64 = 0o254 << 27;

/// What the name of a call says.
pub(crate) fn call_meaning(call: Call) -> Named
    ensures { result ≡ call_meaning call }
{
    let (word, ac, addr) = match call {
        Call::Monitor(function) => (CALLI + function as u64, true, false),
        Call::MonitorReturn => (CALLI + (1 << 23) + 0o12, false, false),
        Call::Terminal(function) => (TTCALL + ((function as u64) << 23), false, true),
        Call::Jump(function) => (JRST + ((function as u64) << 23), false, true),
    };
    Named {
        word: Word::low_bits(word),
        ac,
        addr,
    }
}

/// The call of a name in a table of calls.
pub(crate) fn call_in(calls: &[(&'static str, Call)], name: &str) -> Option<Call>
    ensures { result ≡ call_in (call_rows calls.now) name.now }
{
    for (known, call) in calls {
        if *known == name {
            return Some(*call);
        }
    }
    None
}
