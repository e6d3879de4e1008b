//! Operations and pseudo-operations.

use mac_text::TextForm;
use word36::Word;

/// How a number is compared with 0.
#[derive(Clone, Copy, PartialEq, Eq)]
pub enum Test {
    /// Zero.
    Equal,
    /// Not zero.
    Unequal,
    /// Above zero.
    Greater,
    /// Zero or above.
    NotLess,
    /// Below zero.
    Less,
    /// Zero or below.
    NotGreater,
}

/// The pseudo-operations.
#[derive(Clone, Copy, PartialEq, Eq)]
pub enum Pseudo {
    /// LOC.
    Loc,
    /// RELOC.
    Reloc,
    /// PHASE.
    Phase,
    /// DEPHASE.
    Dephase,
    /// END.
    End,
    /// RADIX.
    Radix,
    /// TITLE and SUBTTL.
    Title,
    /// SEARCH.
    Search,
    /// XWD.
    Xwd,
    /// IOWD.
    Iowd,
    /// EXP.
    Exp,
    /// OCT.
    Oct,
    /// DEC.
    Dec,
    /// POINT.
    Point,
    /// ASCII, ASCIZ and SIXBIT.
    Text(TextForm),
    /// BLOCK.
    Block,
    /// BYTE.
    Byte,
    /// RADIX50 and SQUOZE.
    Radix50,
    /// LIT.
    Lit,
    /// VAR.
    Var,
    /// OPDEF.
    Opdef,
    /// SYN.
    Syn,
    /// PURGE.
    Purge,
    /// COMMENT.
    Comment,
    /// REMARK and its like: no effect, refused in a literal.
    Remark,
    /// No effect, allowed anywhere.
    Quiet,
    /// PRINTX.
    Printx,
    /// LIST.
    List,
    /// XLIST.
    Xlist,
    /// LALL.
    Lall,
    /// SALL.
    Sall,
    /// XALL.
    Xall,
    /// DEFINE.
    Define,
    /// REPEAT.
    Repeat,
    /// IRP, and by characters IRPC.
    Irp(bool),
    /// STOPI.
    Stopi,
    /// IFE, IFN, IFG, IFGE, IFL and IFLE.
    If(Test),
    /// IFDEF, and IFNDEF.
    IfDefined(bool),
    /// IFIDN, and IFDIF.
    IfSame(bool),
    /// IFB, and IFNB.
    IfBlank(bool),
    /// IF1 and IF2.
    IfPass(u8),
    /// EXTERN and its like.
    Extern,
    /// TWOSEG and its like.
    Segments,
    /// UNIVERSAL and its like.
    Universal,
}

/// An instruction's word, and what may follow its name.
#[derive(Clone, Copy)]
pub struct Operation {
    /// Its word, where it is known.
    pub word: Option<Word>,
    /// Whether an accumulator may follow, or a device.
    pub accumulator: bool,
    /// Whether what may follow is a device, and no accumulator.
    pub device: bool,
    /// Whether an address may follow.
    pub address: bool,
}

/// What a name is built in as.
#[derive(Clone, Copy)]
pub enum BuiltIn {
    /// An instruction.
    Operation(Operation),
    /// A pseudo-operation.
    Pseudo(Pseudo),
}
