//! What statements begin with.

ghost use Rattle.std.specs.Prelude.{◌≡◌};
ghost use Rattle.std.specs.Str.{IsAscii};
ghost use Rattle.macro_statements.specs.Forms.{form_names, form_of, built_in};

use ka_isa::Named;
use mac_text::{TextForm, folded};
use macro_expressions::{found_in, operation};

/// How IFE and its like compare a number with 0.
#[derive(Clone, Copy, PartialEq, Eq)]
pub enum Test {
    /// IFE.
    Equal,
    /// IFN.
    Unequal,
    /// IFG.
    Greater,
    /// IFGE.
    NotLess,
    /// IFL.
    Less,
    /// IFLE.
    NotGreater,
}

/// The pseudo-operations.
#[derive(Clone, Copy, PartialEq, Eq)]
pub enum Form {
    /// EXP.
    Exp,
    /// OCT.
    Oct,
    /// DEC.
    Dec,
    /// XWD.
    Xwd,
    /// IOWD.
    Iowd,
    /// ASCII, ASCIZ and SIXBIT.
    Text(TextForm),
    /// BLOCK.
    Block,
    /// LOC.
    Loc,
    /// RADIX.
    Radix,
    /// LIT.
    Lit,
    /// END.
    End,
    /// TITLE and SUBTTL.
    Title,
    /// What gives nothing, to the end of the line.
    Remark,
    /// REPEAT.
    Repeat,
    /// IFE, IFN, IFG, IFGE, IFL and IFLE.
    If(Test),
    /// IFDEF and IFNDEF: whether the name has to be defined.
    IfDefined(bool),
    /// IFIDN and IFDIF: whether the texts have to be the same.
    IfSame(bool),
    /// IFB and IFNB: whether the text has to be blank.
    IfBlank(bool),
    /// DEFINE.
    Define,
    /// COMMENT.
    Comment,
    /// IRP, and by characters IRPC.
    Irp(bool),
    /// STOPI.
    Stopi,
    /// A statement that is not judged.
    Unjudged,
}

/// What a name is at the beginning of a statement.
#[derive(Clone, Copy)]
pub enum Meant {
    /// An instruction, with its word.
    Operation(Named),
    /// A pseudo-operation.
    Pseudo(Form),
}

/// The pseudo-operations, each by the six characters that count.
static FORMS: [(&str, Form); 74] = [
    ("EXP", Form::Exp),
    ("XWD", Form::Xwd),
    ("BLOCK", Form::Block),
    ("ASCIZ", Form::Text(TextForm::Asciz)),
    ("ASCII", Form::Text(TextForm::Ascii)),
    ("SIXBIT", Form::Text(TextForm::Sixbit)),
    ("IOWD", Form::Iowd),
    ("OCT", Form::Oct),
    ("DEC", Form::Dec),
    ("LIT", Form::Lit),
    ("LOC", Form::Loc),
    ("RADIX", Form::Radix),
    ("END", Form::End),
    ("TITLE", Form::Title),
    ("SUBTTL", Form::Title),
    ("PAGE", Form::Remark),
    ("REMARK", Form::Remark),
    ("LALL", Form::Remark),
    ("SALL", Form::Remark),
    ("XALL", Form::Remark),
    ("LIST", Form::Remark),
    ("XLIST", Form::Remark),
    ("PRINTX", Form::Remark),
    ("POINT", Form::Unjudged),
    ("SEARCH", Form::Unjudged),
    ("BYTE", Form::Unjudged),
    ("RADIX5", Form::Unjudged),
    ("SQUOZE", Form::Unjudged),
    ("RELOC", Form::Unjudged),
    ("PHASE", Form::Unjudged),
    ("DEPHAS", Form::Unjudged),
    ("VAR", Form::Unjudged),
    ("OPDEF", Form::Unjudged),
    ("SYN", Form::Unjudged),
    ("PURGE", Form::Unjudged),
    ("COMMEN", Form::Comment),
    ("INTERN", Form::Unjudged),
    ("ENTRY", Form::Unjudged),
    ("SUPPRE", Form::Unjudged),
    ("ASUPPR", Form::Unjudged),
    ("NOSYM", Form::Unjudged),
    ("MLON", Form::Unjudged),
    ("MLOFF", Form::Unjudged),
    (".CREF", Form::Unjudged),
    (".XCREF", Form::Unjudged),
    (".DIREC", Form::Unjudged),
    ("DEFINE", Form::Define),
    ("REPEAT", Form::Repeat),
    ("IRP", Form::Irp(false)),
    ("IRPC", Form::Irp(true)),
    ("STOPI", Form::Stopi),
    ("IFE", Form::If(Test::Equal)),
    ("IFN", Form::If(Test::Unequal)),
    ("IFG", Form::If(Test::Greater)),
    ("IFGE", Form::If(Test::NotLess)),
    ("IFL", Form::If(Test::Less)),
    ("IFLE", Form::If(Test::NotGreater)),
    ("IFDEF", Form::IfDefined(true)),
    ("IFNDEF", Form::IfDefined(false)),
    ("IFIDN", Form::IfSame(true)),
    ("IFDIF", Form::IfSame(false)),
    ("IFB", Form::IfBlank(true)),
    ("IFNB", Form::IfBlank(false)),
    ("IF1", Form::Unjudged),
    ("IF2", Form::Unjudged),
    ("EXTERN", Form::Unjudged),
    (".REQUE", Form::Unjudged),
    (".TEXT", Form::Unjudged),
    (".LINK", Form::Unjudged),
    ("TWOSEG", Form::Unjudged),
    ("HISEG", Form::Unjudged),
    (".PSECT", Form::Unjudged),
    ("UNIVER", Form::Unjudged),
    ("PRGEND", Form::Unjudged),
];

/// The pseudo-operation of a name, of which six characters count.
#[tactic(auto, unfolding(crate::specs::Forms::form_names))]
fn form_of(name: &[u8]) -> Option<Form>
    ensures { result ≡ form_of name.now }
{
    found_in(&FORMS, folded(name).as_slice())
}

/// What a name is at the beginning of a statement.
pub fn built_in(name: &[u8]) -> Option<Meant>
    requires { IsAscii name.now }
    ensures { result ≡ built_in name.now }
{
    if let Some(named) = operation(name) {
        return Some(Meant::Operation(named));
    }
    match form_of(name) {
        Some(form) => Some(Meant::Pseudo(form)),
        None => None,
    }
}
