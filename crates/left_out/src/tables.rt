//! What is left out, by name.

use crate::reasons::Reason;

/// Names, and why what they stand for is not here.
pub static LEFT_OUT: [(&[&str], Reason); 28] = [
    (&["DIV", "DIVI", "DIVM", "DIVB"], Reason::DividesTwoWords),
    (&["ASHC"], Reason::ShiftsTwoWords),
    (
        &[
            "UFA", "DFN", "FSC", "FAD", "FADL", "FADM", "FADB", "FADR", "FADRI", "FADRM", "FADRB",
            "FSB", "FSBL", "FSBM", "FSBB", "FSBR", "FSBRI", "FSBRM", "FSBRB", "FMP", "FMPL",
            "FMPM", "FMPB", "FMPR", "FMPRI", "FMPRM", "FMPRB", "FDV", "FDVL", "FDVM", "FDVB",
            "FDVR", "FDVRI", "FDVRM", "FDVRB", "JFOV",
        ],
        Reason::Floating,
    ),
    (
        &[
            "DMOVE", "DMOVN", "DMOVEM", "DMOVNM", "DADD", "DSUB", "DMUL", "DDIV", "DFAD", "DFSB",
            "DFMP", "DFDV", "FIX", "FIXR", "FLTR", "EXTEND", "ADJBP", "ADJSP", "MAP", "XMOVEI",
            "XHLLI", "XJRST", "XJRSTF", "XJEN", "XPCW", "PORTAL", "SFM", "CMPSL", "CMPSE",
            "CMPSLE", "EDIT", "CMPSGE", "CMPSN", "CMPSG", "CVTDBO", "CVTDBT", "CVTBDO", "CVTBDT",
            "MOVSO", "MOVST", "MOVSLJ", "MOVSRJ",
        ],
        Reason::Later,
    ),
    (
        &[
            "BLKI", "DATAI", "BLKO", "DATAO", "CONO", "CONI", "CONSZ", "CONSO", "APR", "PI", "PTP",
            "PTR", "CDP", "CDR", "LPT", "PLT",
        ],
        Reason::Devices,
    ),
    (&["JEN", "UJEN"], Reason::Interrupts),
    (
        &[
            "INIT", "OPEN", "RENAME", "IN", "OUT", "SETSTS", "STATO", "GETSTS", "STATZ", "INBUF",
            "OUTBUF", "INPUT", "OUTPUT", "CLOSE", "RELEAS", "RELEASE", "MTAPE", "UGETF", "USETI",
            "USETO", "LOOKUP", "ENTER", "DEVCHR", "WAIT", "UTPCLR", "REASSI", "DSKCHR", "DEVTYP",
            "DEVSTS", "DEVPPN", "SEEK", "DEVNAM", "CHKACC", "DEVSIZ", "DEVLNM", "PATH.", "MTCHR.",
            "RESDV.", "DISK.", "DVRST.", "DVURS.", "TMPCOR", "FILOP.",
        ],
        Reason::Files,
    ),
    (&["REMAP", "SETUWP", "GETSEG"], Reason::Segments),
    (&["DATE", "TIMER", "RUNTIM"], Reason::Clock),
    (&["HIBER", "WAKE"], Reason::Waits),
    (
        &[
            "RESCAN", "GETLCH", "SETLCH", "IONEOU", "OUTCHI", "DDTIN", "DDTOUT", "GETLIN",
            "TRMNO.", "TRMOP.",
        ],
        Reason::Terminal,
    ),
    (
        &[
            "APRENB", "SETPOV", "TRPSET", "TRPJEN", "PISAV.", "PIRST.", "RTTRP", "SETDDT",
        ],
        Reason::Traps,
    ),
    (&["IPCFR.", "IPCFS.", "IPCFQ."], Reason::Packets),
    (
        &[
            "GETPPN", "LOGIN", "SWITCH", "PEEK", "RUN", "GETTAB", "SPY", "SETNAM", "SYSSTR",
            "JOBSTR", "STRUUO", "SYSPHY", "FRECHN", "LOCK", "JOBSTS", "LOCATE", "WHERE", "CTLJOB",
            "GOBSTR", "HPQ", "CHGPPN", "SETUUO", "DEVGEN", "OTHUSR", "DAEMON", "JOBPEK", "ATTACH",
            "DAEFIN", "FRCUUO", "METER.", "JBSET.", "POKE.", "UNLOK.", "PAGE.", "SUSET.", "SCHED.",
        ],
        Reason::Calls,
    ),
    (&["CALL"], Reason::CallByName),
    (
        &[
            "JSYS", "HALTF", "HALTF%", "RESET%", "PSOUT", "PSOUT%", "PBOUT", "PBIN", "BOUT",
            "SOUT", "GTJFN", "OPENF", "CLOSF", "ERJMP", "ERCAL", "ESOUT", "RDTTY", "DISMS",
        ],
        Reason::OfTops20,
    ),
    (&["MOVX"], Reason::Movx),
    (
        &[
            "TXNE", "TXNN", "TXNA", "TXO", "TXOE", "TXON", "TXOA", "TXZ", "TXZE", "TXZN", "TXZA",
            "TXC", "TXCE", "TXCN", "TXCA",
        ],
        Reason::Bits,
    ),
    (&["PJRST"], Reason::Pjrst),
    (&["ARRAY", "INTEGER"], Reason::Arrays),
    (&["NOP", "NOOP"], Reason::NoOperation),
    (
        &[
            ".GTSTS", ".GTADR", ".GTPPN", ".GTPRG", ".GTTIM", ".GTKCT", ".GTPRV", ".GTSWP",
            ".GTTTY", ".GTCNF", ".GTNSW", ".GTSDT", ".GTSGN", ".GTODP", ".GTLVD", ".GTRCT",
            ".GTWCT", ".GTDBS", ".GTTDB", ".GTSLF", ".GTDEV", ".GTWSN", ".GTLOC", ".GTCOR",
            ".GTCOM", ".GTNM1", ".GTNM2", ".GTCNO", ".GTTMP", ".GTWCH", ".GTSPL", ".GTRTD",
            ".GTLIM", "%CNDAE",
        ],
        Reason::MonitorTables,
    ),
    (&[".IF", ".IFN"], Reason::OtherIf),
    (
        &[".COMMON", ".ASSIGN", ".LNKEND", ".REQUIRE", ".ENDPS"],
        Reason::Linking,
    ),
    (
        &[
            "PASS2", "TAPE", "XPUNGE", ".ORG", ".HWFRMT", ".MFRMT", ".NODDT",
        ],
        Reason::Statements,
    ),
    (&[".JBREL"], Reason::Jbrel),
    (
        &[
            ".JBSA", ".JBFF", ".JBREN", ".JBDDT", ".JBHRL", ".JBSYM", ".JBAPR", ".JBTPC", ".JBCNI",
            ".JBUUO", ".JB41", ".JBOPS", ".JBVER",
        ],
        Reason::Jobdat,
    ),
    (
        &[
            ".CHNUL", ".CHBEL", ".CHBSP", ".CHTAB", ".CHLFD", ".CHVTB", ".CHFFD", ".CHCRT",
            ".CHESC", ".CHCNZ", ".CHDEL",
        ],
        Reason::Characters,
    ),
];

/// How many characters of a name count.
const CHARACTERS: usize = 6;

/// Whether a name is this one: of it as many characters are given as count, in upper case.
fn is_name(known: &str, name: &[u8]) -> bool {
    let bytes = known.as_bytes();
    let counted = &bytes[..bytes.len().min(CHARACTERS)];
    counted == name
}

/// Why what this name stands for is not here, if a manual has it; of the name the first six characters are given, in upper
/// case.
pub fn left_out(name: &[u8]) -> Option<Reason> {
    for (names, reason) in &LEFT_OUT {
        for known in *names {
            if is_name(known, name) {
                return Some(*reason);
            }
        }
    }
    None
}
