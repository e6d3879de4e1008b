//! The words of what another machine or another monitor has: names by their numbers, and words by their names.

ghost use Rattle.std.specs.Prelude.{◌≡◌};
ghost use Rattle.left_out.specs.Words.{call_name, name_in, name_of, number_in, operation_name, other_in, other_of, others_of, rows_of, terminal_name};

/// What may follow the name of an operation or a call in a statement.
#[derive(Clone, Copy, Debug, PartialEq, Eq)]
pub enum Operands {
    /// An accumulator with a comma, an address, or both.
    Full,
    /// A device with a comma, and an address.
    Device,
    /// An address; the accumulator belongs to the name.
    Address,
    /// An accumulator with a comma; the address belongs to the name.
    Accumulator,
    /// Nothing.
    Nothing,
}

/// An operation or a call of another machine or another monitor, as a source gives it.
#[derive(Clone, Copy, Debug, PartialEq, Eq)]
pub struct OtherOperation {
    /// The number of its word, without operands.
    pub word: u64,
    /// What may follow its name.
    pub operands: Operands,
}

/// The operations that another machine or monitor has, by their codes: the monitor's operators from 40 to 77 (TOPS-10 Monitor
/// Calls Manual), the operations of the KA10 that are left out, and those of later processors (their reference manuals).
pub const OPERATIONS: [(u32, &str); 81] = [
    (0o40, "CALL"),
    (0o41, "INIT"),
    (0o50, "OPEN"),
    (0o55, "RENAME"),
    (0o56, "IN"),
    (0o57, "OUT"),
    (0o60, "SETSTS"),
    (0o61, "STATO"),
    (0o62, "GETSTS"),
    (0o63, "STATZ"),
    (0o64, "INBUF"),
    (0o65, "OUTBUF"),
    (0o66, "INPUT"),
    (0o67, "OUTPUT"),
    (0o70, "CLOSE"),
    (0o71, "RELEAS"),
    (0o72, "MTAPE"),
    (0o73, "UGETF"),
    (0o74, "USETI"),
    (0o75, "USETO"),
    (0o76, "LOOKUP"),
    (0o77, "ENTER"),
    (0o104, "JSYS"),
    (0o105, "ADJSP"),
    (0o110, "DFAD"),
    (0o111, "DFSB"),
    (0o112, "DFMP"),
    (0o113, "DFDV"),
    (0o114, "DADD"),
    (0o115, "DSUB"),
    (0o116, "DMUL"),
    (0o117, "DDIV"),
    (0o120, "DMOVE"),
    (0o121, "DMOVN"),
    (0o122, "FIX"),
    (0o123, "EXTEND"),
    (0o124, "DMOVEM"),
    (0o125, "DMOVNM"),
    (0o126, "FIXR"),
    (0o127, "FLTR"),
    (0o130, "UFA"),
    (0o131, "DFN"),
    (0o132, "FSC"),
    (0o140, "FAD"),
    (0o141, "FADL"),
    (0o142, "FADM"),
    (0o143, "FADB"),
    (0o144, "FADR"),
    (0o145, "FADRI"),
    (0o146, "FADRM"),
    (0o147, "FADRB"),
    (0o150, "FSB"),
    (0o151, "FSBL"),
    (0o152, "FSBM"),
    (0o153, "FSBB"),
    (0o154, "FSBR"),
    (0o155, "FSBRI"),
    (0o156, "FSBRM"),
    (0o157, "FSBRB"),
    (0o160, "FMP"),
    (0o161, "FMPL"),
    (0o162, "FMPM"),
    (0o163, "FMPB"),
    (0o164, "FMPR"),
    (0o165, "FMPRI"),
    (0o166, "FMPRM"),
    (0o167, "FMPRB"),
    (0o170, "FDV"),
    (0o171, "FDVL"),
    (0o172, "FDVM"),
    (0o173, "FDVB"),
    (0o174, "FDVR"),
    (0o175, "FDVRI"),
    (0o176, "FDVRM"),
    (0o177, "FDVRB"),
    (0o234, "DIV"),
    (0o235, "DIVI"),
    (0o236, "DIVM"),
    (0o237, "DIVB"),
    (0o244, "ASHC"),
    (0o257, "MAP"),
];

/// The calls of CALLI that another monitor has, by their numbers (TOPS-10 Monitor Calls Manual).
pub const CALLS: [(u32, &str); 81] = [
    (1, "DDTIN"),
    (2, "SETDDT"),
    (3, "DDTOUT"),
    (4, "DEVCHR"),
    (0o10, "WAIT"),
    (0o13, "UTPCLR"),
    (0o14, "DATE"),
    (0o15, "LOGIN"),
    (0o16, "APRENB"),
    (0o20, "SWITCH"),
    (0o21, "REASSI"),
    (0o22, "TIMER"),
    (0o24, "GETPPN"),
    (0o25, "TRPSET"),
    (0o26, "TRPJEN"),
    (0o27, "RUNTIM"),
    (0o32, "SETPOV"),
    (0o33, "PEEK"),
    (0o34, "GETLIN"),
    (0o35, "RUN"),
    (0o36, "SETUWP"),
    (0o37, "REMAP"),
    (0o40, "GETSEG"),
    (0o41, "GETTAB"),
    (0o42, "SPY"),
    (0o43, "SETNAM"),
    (0o44, "TMPCOR"),
    (0o45, "DSKCHR"),
    (0o46, "SYSSTR"),
    (0o47, "JOBSTR"),
    (0o50, "STRUUO"),
    (0o51, "SYSPHY"),
    (0o52, "FRECHN"),
    (0o53, "DEVTYP"),
    (0o54, "DEVSTS"),
    (0o55, "DEVPPN"),
    (0o56, "SEEK"),
    (0o57, "RTTRP"),
    (0o60, "LOCK"),
    (0o61, "JOBSTS"),
    (0o62, "LOCATE"),
    (0o63, "WHERE"),
    (0o64, "DEVNAM"),
    (0o65, "CTLJOB"),
    (0o66, "GOBSTR"),
    (0o71, "HPQ"),
    (0o72, "HIBER"),
    (0o73, "WAKE"),
    (0o74, "CHGPPN"),
    (0o75, "SETUUO"),
    (0o76, "DEVGEN"),
    (0o77, "OTHUSR"),
    (0o100, "CHKACC"),
    (0o101, "DEVSIZ"),
    (0o102, "DAEMON"),
    (0o103, "JOBPEK"),
    (0o104, "ATTACH"),
    (0o105, "DAEFIN"),
    (0o106, "FRCUUO"),
    (0o107, "DEVLNM"),
    (0o110, "PATH."),
    (0o111, "METER."),
    (0o112, "MTCHR."),
    (0o113, "JBSET."),
    (0o114, "POKE."),
    (0o115, "TRMNO."),
    (0o116, "TRMOP."),
    (0o117, "RESDV."),
    (0o120, "UNLOK."),
    (0o121, "DISK."),
    (0o122, "DVRST."),
    (0o123, "DVURS."),
    (0o140, "PISAV."),
    (0o141, "PIRST."),
    (0o142, "IPCFR."),
    (0o143, "IPCFS."),
    (0o144, "IPCFQ."),
    (0o145, "PAGE."),
    (0o146, "SUSET."),
    (0o150, "SCHED."),
    (0o155, "FILOP."),
];

/// The calls of TTCALL that another monitor has, by their AC fields (TOPS-10 Monitor Calls Manual).
pub const TERMINAL_CALLS: [(u32, &str); 4] = [
    (6, "GETLCH"),
    (7, "SETLCH"),
    (0o10, "RESCAN"),
    (0o15, "IONEOU"),
];

/// Names that no number above has: for each its word and what may follow it. JRST and JFCL with an AC field, the instructions of
/// devices, the operations of EXTEND, names of operations that are here under another name too, calls of TOPS-20, and the numbers of
/// devices (the reference manuals of the KA10, the KI10 and the KL10; Monitor Calls Manual of TOPS-20).
pub const OTHERS: [(&str, u64, Operands); 60] = [
    ("PORTAL", 0o254040000000, Operands::Address),
    ("XJRSTF", 0o254240000000, Operands::Address),
    ("XJEN", 0o254300000000, Operands::Address),
    ("XPCW", 0o254340000000, Operands::Address),
    ("JEN", 0o254500000000, Operands::Address),
    ("SFM", 0o254600000000, Operands::Address),
    ("XJRST", 0o254640000000, Operands::Address),
    ("JFOV", 0o255040000000, Operands::Address),
    ("UJEN", 0o100000000000, Operands::Full),
    ("ADJBP", 0o133000000000, Operands::Full),
    ("XMOVEI", 0o415000000000, Operands::Full),
    ("XHLLI", 0o501000000000, Operands::Full),
    ("BLKI", 0o700000000000, Operands::Device),
    ("DATAI", 0o700040000000, Operands::Device),
    ("BLKO", 0o700100000000, Operands::Device),
    ("DATAO", 0o700140000000, Operands::Device),
    ("CONO", 0o700200000000, Operands::Device),
    ("CONI", 0o700240000000, Operands::Device),
    ("CONSZ", 0o700300000000, Operands::Device),
    ("CONSO", 0o700340000000, Operands::Device),
    ("CMPSL", 0o1000000000, Operands::Full),
    ("CMPSE", 0o2000000000, Operands::Full),
    ("CMPSLE", 0o3000000000, Operands::Full),
    ("EDIT", 0o4000000000, Operands::Full),
    ("CMPSGE", 0o5000000000, Operands::Full),
    ("CMPSN", 0o6000000000, Operands::Full),
    ("CMPSG", 0o7000000000, Operands::Full),
    ("CVTDBO", 0o10000000000, Operands::Full),
    ("CVTDBT", 0o11000000000, Operands::Full),
    ("CVTBDO", 0o12000000000, Operands::Full),
    ("CVTBDT", 0o13000000000, Operands::Full),
    ("MOVSO", 0o14000000000, Operands::Full),
    ("MOVST", 0o15000000000, Operands::Full),
    ("MOVSLJ", 0o16000000000, Operands::Full),
    ("MOVSRJ", 0o17000000000, Operands::Full),
    ("ERJMP", 0o320700000000, Operands::Address),
    ("ERCAL", 0o320740000000, Operands::Address),
    ("GTJFN", 0o104000000020, Operands::Nothing),
    ("OPENF", 0o104000000021, Operands::Nothing),
    ("CLOSF", 0o104000000022, Operands::Nothing),
    ("BOUT", 0o104000000051, Operands::Nothing),
    ("SOUT", 0o104000000053, Operands::Nothing),
    ("PBIN", 0o104000000073, Operands::Nothing),
    ("PBOUT", 0o104000000074, Operands::Nothing),
    ("PSOUT", 0o104000000076, Operands::Nothing),
    ("PSOUT%", 0o104000000076, Operands::Nothing),
    ("RESET%", 0o104000000147, Operands::Nothing),
    ("DISMS", 0o104000000167, Operands::Nothing),
    ("HALTF", 0o104000000170, Operands::Nothing),
    ("HALTF%", 0o104000000170, Operands::Nothing),
    ("ESOUT", 0o104000000313, Operands::Nothing),
    ("RDTTY", 0o104000000523, Operands::Nothing),
    ("APR", 0o0, Operands::Nothing),
    ("PI", 0o4, Operands::Nothing),
    ("PTP", 0o100, Operands::Nothing),
    ("PTR", 0o104, Operands::Nothing),
    ("CDP", 0o110, Operands::Nothing),
    ("CDR", 0o114, Operands::Nothing),
    ("LPT", 0o124, Operands::Nothing),
    ("PLT", 0o140, Operands::Nothing),
];

/// The name of a number in a table, empty if it has none.
fn name_in(rows: &[(u32, &'static str)], number: u32) -> &'static str
    ensures { result.now ≡ name_in (rows_of rows.now) number }
{
    for (known, name) in rows {
        if *known == number {
            return *name;
        }
    }
    ""
}

/// The name of a call of CALLI.
#[tactic(auto, unfolding(crate::specs::Words::call_name))]
fn call_name(number: u32) -> &'static str
    ensures { result.now ≡ call_name number }
{
    name_in(&CALLS, number)
}

/// The name of a call of TTCALL, by its AC field.
#[tactic(auto, unfolding(crate::specs::Words::terminal_name))]
fn terminal_name(ac: u8) -> &'static str
    ensures { result.now ≡ terminal_name ac }
{
    name_in(&TERMINAL_CALLS, u32::from(ac))
}

/// The name of an operation.
#[tactic(auto, unfolding(crate::specs::Words::operation_name))]
fn operation_name(op: u16) -> &'static str
    ensures { result.now ≡ operation_name op }
{
    name_in(&OPERATIONS, u32::from(op))
}

/// The name that the manuals give an operation or a call that is not here, by the operation, the AC field and the address of its
/// word; empty if they have none.
pub fn name_of(op: u16, ac: u8, address: u32) -> &'static str
    ensures { result.now ≡ name_of op ac address }
{
    if op == 0o47 {
        call_name(address)
    } else if op == 0o51 {
        terminal_name(ac)
    } else {
        operation_name(op)
    }
}

/// The number of a name in a table.
fn number_in(rows: &[(u32, &'static str)], name: &[u8]) -> Option<u32>
    ensures { result ≡ number_in (rows_of rows.now) name.now }
{
    for (number, known) in rows {
        if known.as_bytes() == name {
            return Some(*number);
        }
    }
    None
}

/// What a table of words says of a name.
fn other_in(rows: &[(&'static str, u64, Operands)], name: &[u8]) -> Option<OtherOperation>
    ensures { result ≡ other_in (others_of rows.now) name.now }
{
    for (known, word, operands) in rows {
        if known.as_bytes() == name {
            return Some(OtherOperation {
                word: *word,
                operands: *operands,
            });
        }
    }
    None
}

/// The operation or the call of another machine or another monitor that has this name, if the manuals give it a word; of the name
/// the first six characters are given, in upper case.
#[tactic(auto, unfolding(crate::specs::Words::other_of))]
pub fn other_of(name: &[u8]) -> Option<OtherOperation>
    ensures { result ≡ other_of name.now }
{
    if let Some(op) = number_in(&OPERATIONS, name) {
        return Some(OtherOperation {
            word: u64::from(op) * 0o1_000_000_000,
            operands: Operands::Full,
        });
    }
    if let Some(number) = number_in(&CALLS, name) {
        return Some(OtherOperation {
            word: 0o047_000_000_000 + u64::from(number),
            operands: Operands::Accumulator,
        });
    }
    if let Some(ac) = number_in(&TERMINAL_CALLS, name) {
        return Some(OtherOperation {
            word: 0o051_000_000_000 + u64::from(ac) * 0o40_000_000,
            operands: Operands::Address,
        });
    }
    other_in(&OTHERS, name)
}
