//! The names that are built in.

ghost use Rattle.std.specs.Prelude.{◌≡◌, take};
ghost use Rattle.std.specs.Option.{option_map};
ghost use Rattle.left_out.specs.Words.{other_of};
ghost use Rattle.macro_operations.specs.Tables.{as_operation, found_in, known_rows};

use crate::kinds::{BuiltIn, Operation, Pseudo, Test};
use ka_isa::{Named, named, operation_of_key};
use left_out::{Operands, OtherOperation, other_of};
use mac_text::TextForm;
use macro_names::{Name, text_of};
use word36::Word;

/// The statements of the subset that begin with a name of their own.
pub static SUBSET: [(&str, Pseudo); 14] = [
    ("LOC", Pseudo::Loc),
    ("END", Pseudo::End),
    ("RADIX", Pseudo::Radix),
    ("TITLE", Pseudo::Title),
    ("SUBTTL", Pseudo::Title),
    ("SEARCH", Pseudo::Search),
    ("XWD", Pseudo::Xwd),
    ("IOWD", Pseudo::Iowd),
    ("EXP", Pseudo::Exp),
    ("POINT", Pseudo::Point),
    ("ASCII", Pseudo::Text(TextForm::Ascii)),
    ("ASCIZ", Pseudo::Text(TextForm::Asciz)),
    ("SIXBIT", Pseudo::Text(TextForm::Sixbit)),
    ("BLOCK", Pseudo::Block),
];

/// The statements that this dialect has beyond the subset.
pub static DIALECT: [(&str, Pseudo); 60] = [
    ("OCT", Pseudo::Oct),
    ("DEC", Pseudo::Dec),
    ("BYTE", Pseudo::Byte),
    ("RADIX50", Pseudo::Radix50),
    ("SQUOZE", Pseudo::Radix50),
    ("RELOC", Pseudo::Reloc),
    ("PHASE", Pseudo::Phase),
    ("DEPHASE", Pseudo::Dephase),
    ("LIT", Pseudo::Lit),
    ("VAR", Pseudo::Var),
    ("OPDEF", Pseudo::Opdef),
    ("SYN", Pseudo::Syn),
    ("PURGE", Pseudo::Purge),
    ("COMMENT", Pseudo::Comment),
    ("REMARK", Pseudo::Remark),
    ("PAGE", Pseudo::Remark),
    ("INTERN", Pseudo::Remark),
    ("ENTRY", Pseudo::Remark),
    ("SUPPRESS", Pseudo::Remark),
    ("ASUPPRESS", Pseudo::Remark),
    ("NOSYM", Pseudo::Remark),
    ("MLON", Pseudo::Quiet),
    ("MLOFF", Pseudo::Quiet),
    (".CREF", Pseudo::Quiet),
    (".XCREF", Pseudo::Quiet),
    (".DIRECTIVE", Pseudo::Quiet),
    ("PRINTX", Pseudo::Printx),
    ("LIST", Pseudo::List),
    ("XLIST", Pseudo::Xlist),
    ("LALL", Pseudo::Lall),
    ("SALL", Pseudo::Sall),
    ("XALL", Pseudo::Xall),
    ("DEFINE", Pseudo::Define),
    ("REPEAT", Pseudo::Repeat),
    ("IRP", Pseudo::Irp(false)),
    ("IRPC", Pseudo::Irp(true)),
    ("STOPI", Pseudo::Stopi),
    ("IFE", Pseudo::If(Test::Equal)),
    ("IFN", Pseudo::If(Test::Unequal)),
    ("IFG", Pseudo::If(Test::Greater)),
    ("IFGE", Pseudo::If(Test::NotLess)),
    ("IFL", Pseudo::If(Test::Less)),
    ("IFLE", Pseudo::If(Test::NotGreater)),
    ("IFDEF", Pseudo::IfDefined(true)),
    ("IFNDEF", Pseudo::IfDefined(false)),
    ("IFIDN", Pseudo::IfSame(true)),
    ("IFDIF", Pseudo::IfSame(false)),
    ("IFB", Pseudo::IfBlank(true)),
    ("IFNB", Pseudo::IfBlank(false)),
    ("IF1", Pseudo::IfPass(1)),
    ("IF2", Pseudo::IfPass(2)),
    ("EXTERN", Pseudo::Extern),
    (".REQUEST", Pseudo::Extern),
    (".TEXT", Pseudo::Extern),
    (".LINK", Pseudo::Extern),
    ("TWOSEG", Pseudo::Segments),
    ("HISEG", Pseudo::Segments),
    (".PSECT", Pseudo::Segments),
    ("UNIVERSAL", Pseudo::Universal),
    ("PRGEND", Pseudo::Universal),
];

/// The operations that this dialect has beyond the subset, with their words.
static OPERATIONS: [(&str, u64); 13] = [
    ("Z", 0o0),
    ("OR", 0o434000000000),
    ("ORI", 0o435000000000),
    ("ORM", 0o436000000000),
    ("ORB", 0o437000000000),
    ("CLEAR", 0o400000000000),
    ("CLEARI", 0o401000000000),
    ("CLEARM", 0o402000000000),
    ("CLEARB", 0o403000000000),
    ("JOV", 0o255400000000),
    ("JCRY", 0o255300000000),
    ("JCRY0", 0o255200000000),
    ("JCRY1", 0o255100000000),
];

/// How many characters of a name count.
const CHARACTERS: usize = 6;

/// The characters of a known name that count.
fn counted(known: &str) -> &[u8]
    ensures { result.now ≡ take 6 known.now }
{
    let bytes = known.as_bytes();
    &bytes[..bytes.len().min(CHARACTERS)]
}

/// What a table says of a name, of which the characters that count are given, in upper case.
fn find(table: &[(&'static str, Pseudo)], name: &[u8]) -> Option<Pseudo>
    ensures { result ≡ found_in (known_rows table.now) name.now }
{
    for (known, pseudo) in table {
        if counted(known) == name {
            return Some(*pseudo);
        }
    }
    None
}

/// What the assembler of the subset means by a name.
fn operation(named: Named) -> Option<BuiltIn> {
    Some(BuiltIn::Operation(Operation {
        word: Some(named.word),
        accumulator: named.ac,
        device: false,
        address: named.addr,
    }))
}

/// What the subset knows by this name.
pub fn of_subset(name: Name) -> Option<BuiltIn> {
    if let Some(named) = operation_of_key(name.sixbit()) {
        return operation(named);
    }
    let characters = text_of(name);
    let text = std::str::from_utf8(characters.as_slice()).unwrap_or("");
    if let Some(named) = named(text) {
        return operation(named);
    }
    match find(&SUBSET, characters.as_slice()) {
        Some(pseudo) => Some(BuiltIn::Pseudo(pseudo)),
        None => None,
    }
}

/// The word of an operation that the dialect has beyond the subset.
fn word_in(operations: &[(&'static str, u64)], name: &[u8]) -> Option<u64> {
    for (known, word) in operations {
        if known.as_bytes() == name {
            return Some(*word);
        }
    }
    None
}

/// What the dialect knows by this name beyond the subset.
pub fn of_dialect(name: Name) -> Option<BuiltIn> {
    let characters = text_of(name);
    if let Some(pseudo) = find(&DIALECT, characters.as_slice()) {
        return Some(BuiltIn::Pseudo(pseudo));
    }
    match word_in(&OPERATIONS, characters.as_slice()) {
        Some(word) => Some(BuiltIn::Operation(Operation {
            word: Some(Word::low_bits(word)),
            accumulator: word / 0o1_000_000_000 != 0o255,
            device: false,
            address: true,
        })),
        None => None,
    }
}

/// What a name is without a meaning that the source gives it.
pub fn built_in(name: Name) -> Option<BuiltIn> {
    match of_subset(name) {
        Some(built_in) => Some(built_in),
        None => of_dialect(name),
    }
}

/// An operation or a call of another machine or another monitor, as an instruction.
fn as_operation(other: OtherOperation) -> Operation
    ensures { result ≡ as_operation other }
{
    let operands = other.operands;
    let is_full = operands == Operands::Full;
    let is_device = operands == Operands::Device;
    Operation {
        word: Some(Word::low_bits(other.word)),
        accumulator: is_full || is_device || operands == Operands::Accumulator,
        device: is_device,
        address: is_full || is_device || operands == Operands::Address,
    }
}

/// The operation or the call of another machine or another monitor that has this name; of the name the characters that count are given, in
/// upper case.
pub fn of_others(name: &[u8]) -> Option<Operation>
    ensures { result ≡ option_map as_operation (other_of name.now) }
{
    match other_of(name) {
        Some(other) => Some(as_operation(other)),
        None => None,
    }
}

/// What SEARCH UUOSYM defines.
pub fn of_uuosym(name: Name) -> Option<u64> {
    let characters = text_of(name);
    match characters.as_slice() {
        b".ENQBL" | b".DEQDR" | b".ENQCS" => Some(0),
        b".ENQAA" | b".DEQDA" | b".ENQCG" => Some(1),
        b".ENQSI" | b".DEQID" | b".ENQCC" => Some(2),
        b".ENQMA" => Some(3),
        _ => None,
    }
}
