//! Macros and operations.

/// The names of macros and operations, each with the lines that define it. Each number in them is 0, 1 or 7, or has a mark of its
/// radix, so that the radix of the source around means nothing. `LOCKBK name,flags,pool,id,limit` is this project's own: the five
/// words of a block of one lock.
pub static MACROS: [(&str, &str); 32] = [
    ("ND", "DEFINE ND(SYM,VAL)<IFNDEF SYM,<SYM==VAL>>"),
    ("XP", "DEFINE XP(SYM,VAL)<SYM==VAL>"),
    ("PGN", "DEFINE PGN(ADR)<<<ADR>_-^D9>>"),
    ("PJRST", "OPDEF PJRST [JRST]"),
    ("PJSP", "OPDEF PJSP [JSP]"),
    (
        "LOCKBK",
        "DEFINE LOCKBK(TXT,FLG<0>,POOL<0>,ID<1>,LIM<0>)<\t1,,^O5\n\tLIM,,ID\n\t<FLG>^!^O777777\n\tPOINT\t7,[ASCIZ |TXT|]\n\tPOOL\n>",
    ),
    ("..RLC", "SYN RELOC,..RLC"),
    ("..ABL", "SYN LOC,..ABL"),
    (
        "..EXC",
        "DEFINE ..EXC<..TMP==.\n\t..RLC\t..OTH\n..OTH==..TMP\n..SEG==1-..SEG>",
    ),
    (
        "..SET",
        "DEFINE ..SET(ADR)<IFGE <ADR>-..ORG,<IFE ..SEG,<..EXC>\n\t..RLC\t<ADR>+.-.>\nIFL <ADR>-..ORG,<IFN ..SEG,<..EXC>\n\t..RLC\t<ADR>>>",
    ),
    (
        "..REL",
        "DEFINE ..REL(ADR)<..WAS==..ABS\nIFN ..ABS,<\t..RLC>\n..ABS==0\nIFB <ADR>,<IFE ..WAS,<..EXC>>\nIFNB <ADR>,<..SET <ADR>>>",
    ),
    ("..LOC", "DEFINE ..LOC(ADR)<..ABS==1\n\t..ABL\tADR>"),
    (
        "TWOSEG",
        "DEFINE TWOSEG(FST<^O400000>)<\t..RLC\n..SEG==0\n..ABS==0\n..ORG==<FST>\n..OTH==..ORG+.-.\n\tSYN\t..REL,RELOC\n\tSYN\t..LOC,LOC>",
    ),
    (
        "HISEG",
        "DEFINE HISEG(FST<^O400000>)<\tTWOSEG\t<FST>\n\tRELOC\t..ORG+.-.>",
    ),
    (
        "MOVX",
        "DEFINE MOVX(AC,VAL)<IFE <VAL>&LH.ALF,<\tMOVEI\tAC,<VAL>>\nIFN <VAL>&LH.ALF,<IFE <VAL>&RH.ALF,<\tMOVSI\tAC,<<VAL>_-^D18>>\nIFN <VAL>&RH.ALF,<IFE <<VAL>&LH.ALF>^!LH.ALF,<\tHRROI\tAC,<<VAL>&RH.ALF>>\nIFN <<VAL>&LH.ALF>^!LH.ALF,<IFE <<VAL>&RH.ALF>^!RH.ALF,<\tHRLOI\tAC,<<VAL>_-^D18>>\nIFN <<VAL>&RH.ALF>^!RH.ALF,<\tMOVE\tAC,[VAL]>>>>>",
    ),
    (
        "TX..",
        "DEFINE TX..(OP,AC,BITS)<IFE <BITS>&LH.ALF,<\tTR'OP\tAC,<BITS>>\nIFN <BITS>&LH.ALF,<IFE <BITS>&RH.ALF,<\tTL'OP\tAC,<<BITS>_-^D18>>\nIFN <BITS>&RH.ALF,<\tTD'OP\tAC,[BITS]>>>",
    ),
    ("TXN", "DEFINE TXN(AC,BITS)<TX.. N,AC,<BITS>>"),
    ("TXNE", "DEFINE TXNE(AC,BITS)<TX.. NE,AC,<BITS>>"),
    ("TXNA", "DEFINE TXNA(AC,BITS)<TX.. NA,AC,<BITS>>"),
    ("TXNN", "DEFINE TXNN(AC,BITS)<TX.. NN,AC,<BITS>>"),
    ("TXZ", "DEFINE TXZ(AC,BITS)<TX.. Z,AC,<BITS>>"),
    ("TXZE", "DEFINE TXZE(AC,BITS)<TX.. ZE,AC,<BITS>>"),
    ("TXZA", "DEFINE TXZA(AC,BITS)<TX.. ZA,AC,<BITS>>"),
    ("TXZN", "DEFINE TXZN(AC,BITS)<TX.. ZN,AC,<BITS>>"),
    ("TXC", "DEFINE TXC(AC,BITS)<TX.. C,AC,<BITS>>"),
    ("TXCE", "DEFINE TXCE(AC,BITS)<TX.. CE,AC,<BITS>>"),
    ("TXCA", "DEFINE TXCA(AC,BITS)<TX.. CA,AC,<BITS>>"),
    ("TXCN", "DEFINE TXCN(AC,BITS)<TX.. CN,AC,<BITS>>"),
    ("TXO", "DEFINE TXO(AC,BITS)<TX.. O,AC,<BITS>>"),
    ("TXOE", "DEFINE TXOE(AC,BITS)<TX.. OE,AC,<BITS>>"),
    ("TXOA", "DEFINE TXOA(AC,BITS)<TX.. OA,AC,<BITS>>"),
    ("TXON", "DEFINE TXON(AC,BITS)<TX.. ON,AC,<BITS>>"),
];
