//! The instruction set of the KA10: the fields of an instruction, the table of operations with their
//! names both ways, and a word as a line of a program.
#![tactic(auto)]

ghost use Rattle.std.specs.Prelude.{◌≡◌, ℕ, ◌<◌, ◌^◌};
ghost use Rattle.ka_isa.specs.Fields.{fields_of, word_of};
ghost use Rattle.ka_isa.specs.Families.{family_of};

mod calls;
mod mnemonics;
mod names;
mod text;

pub use calls::Named;
pub use mnemonics::mnemonic;
pub use names::{name_count, name_round_trip, named, operation_of_key};
pub use text::text_of;
use word36::Word;

/// The fields of an instruction (DECsystem-10 Processor Reference Manual).
#[derive(Clone, Copy, Debug, PartialEq, Eq)]
pub struct Fields {
    /// The operation, bits 0 to 8: below 1000 octal.
    pub op: u16,
    /// The accumulator, bits 9 to 12: below 20 octal.
    pub ac: u8,
    /// Whether the address is indirect, bit 13.
    pub i: bool,
    /// The index register, bits 14 to 17: below 20 octal, and 0 for none.
    pub x: u8,
    /// The address, bits 18 to 35: below 1000000 octal.
    pub y: u32,
}

/// What is done to the operand before it is compared.
#[derive(Clone, Copy, Debug, PartialEq, Eq)]
pub enum Change {
    /// Nothing: SKIP and JUMP.
    Keep,
    /// One is added: AOS and AOJ.
    Up,
    /// One is taken away: SOS and SOJ.
    Down,
}

/// Operations that a processor carries out alike, but for the low bits of their codes.
#[derive(Clone, Copy, Debug, PartialEq, Eq)]
pub enum Family {
    /// IBP, ILDB, LDB, IDPB and DPB.
    Byte,
    /// MOVE in its four modes.
    Move,
    /// MOVS in its four modes: the halves swapped.
    Movs,
    /// MOVN in its four modes: negated.
    Movn,
    /// MOVM in its four modes: the magnitude.
    Movm,
    /// IMUL in its four modes: a product of one word.
    Imul,
    /// MUL in its four modes: a product of two words.
    Mul,
    /// IDIV in its four modes: quotient and remainder.
    Idiv,
    /// ASH, ROT and LSH, and ROTC and LSHC.
    Shift,
    /// JFFO: find the first one and jump.
    Jffo,
    /// EXCH: exchange AC and memory.
    Exch,
    /// BLT: move a block of words.
    Blt,
    /// AOBJP and AOBJN: add one to both halves and jump.
    Aobj,
    /// JRST: jump, and restore flags or halt.
    Jrst,
    /// JFCL: jump on flags and clear them.
    Jfcl,
    /// XCT: execute another instruction.
    Xct,
    /// PUSHJ: push the program counter and jump.
    Pushj,
    /// PUSH: push a word.
    Push,
    /// POP: pop a word.
    Pop,
    /// POPJ: pop the program counter.
    Popj,
    /// JSR: save the program counter in memory and jump.
    Jsr,
    /// JSP: save the program counter in AC and jump.
    Jsp,
    /// JSA: save AC in memory and jump.
    Jsa,
    /// JRA: restore AC and jump.
    Jra,
    /// ADD in its four modes.
    Add,
    /// SUB in its four modes.
    Sub,
    /// CAI and CAM under the eight conditions.
    Compare,
    /// JUMP, AOJ and SOJ under the eight conditions.
    JumpOn(Change),
    /// SKIP, AOS and SOS under the eight conditions.
    SkipOn(Change),
    /// SETZ to SETO, the sixteen functions of two bits in their four modes.
    Boolean,
    /// HLL to HLRE, the sixteen moves of half a word in their four modes.
    Half,
    /// TRN to TSON: test bits, change them and skip.
    Test,
    /// CALLI: a monitor call.
    Calli,
    /// TTCALL: a terminal call.
    Ttcall,
    /// An operation that this machine leaves out.
    Other,
}

/// The fields of a word taken as an instruction.
pub fn decode(word: Word) -> Fields
    ensures value { result ≡ fields_of word }
    ensures op { result.op < 2 ^ 9 }
    ensures ac { result.ac < 2 ^ 4 }
    ensures x { result.x < 2 ^ 4 }
    ensures y { result.y < 2 ^ 18 }
{
    let number = word.number();
    Fields {
        op: (number >> 27) as u16,
        ac: (number >> 23 & 0o17) as u8,
        i: number >> 22 & 1 == 1,
        x: (number >> 18 & 0o17) as u8,
        y: (number & 0o777_777) as u32,
    }
}

/// The word of an instruction's fields.
pub fn encode(fields: Fields) -> Word
    requires op { fields.op < 2 ^ 9 }
    requires ac { fields.ac < 2 ^ 4 }
    requires x { fields.x < 2 ^ 4 }
    requires y { fields.y < 2 ^ 18 }
    ensures { result ≡ word_of fields }
{
    let i = if fields.i { 1 << 22 } else { 0 };
    Word::new(
        (fields.op as u64) * 0o1_000_000_000
            + (fields.ac as u64) * 0o40_000_000
            + i
            + (fields.x as u64) * 0o1_000_000
            + fields.y as u64,
    )
}

/// The family of an operation (DECsystem-10 Processor Reference Manual; what is left out is this
/// project's profile).
pub fn classify(op: u16) -> Family
    ensures { result ≡ family_of op }
{
    match op {
        0o47 => Family::Calli,
        0o51 => Family::Ttcall,
        0o133..=0o137 => Family::Byte,
        0o200..=0o203 => Family::Move,
        0o204..=0o207 => Family::Movs,
        0o210..=0o213 => Family::Movn,
        0o214..=0o217 => Family::Movm,
        0o220..=0o223 => Family::Imul,
        0o224..=0o227 => Family::Mul,
        0o230..=0o233 => Family::Idiv,
        0o240..=0o242 | 0o245..=0o246 => Family::Shift,
        0o243 => Family::Jffo,
        0o250 => Family::Exch,
        0o251 => Family::Blt,
        0o252..=0o253 => Family::Aobj,
        0o254 => Family::Jrst,
        0o255 => Family::Jfcl,
        0o256 => Family::Xct,
        0o260 => Family::Pushj,
        0o261 => Family::Push,
        0o262 => Family::Pop,
        0o263 => Family::Popj,
        0o264 => Family::Jsr,
        0o265 => Family::Jsp,
        0o266 => Family::Jsa,
        0o267 => Family::Jra,
        0o270..=0o273 => Family::Add,
        0o274..=0o277 => Family::Sub,
        0o300..=0o317 => Family::Compare,
        0o320..=0o327 => Family::JumpOn(Change::Keep),
        0o330..=0o337 => Family::SkipOn(Change::Keep),
        0o340..=0o347 => Family::JumpOn(Change::Up),
        0o350..=0o357 => Family::SkipOn(Change::Up),
        0o360..=0o367 => Family::JumpOn(Change::Down),
        0o370..=0o377 => Family::SkipOn(Change::Down),
        0o400..=0o477 => Family::Boolean,
        0o500..=0o577 => Family::Half,
        0o600..=0o677 => Family::Test,
        _ => Family::Other,
    }
}

/// A word taken apart and put together again: no word is lost.
pub fn round_trip(word: Word) -> Word
    ensures { result ≡ word }
{
    encode(decode(word))
}

/// Fields put together and taken apart again: none of them reaches into another.
pub fn fields_round_trip(fields: Fields) -> Fields
    requires op { fields.op < 2 ^ 9 }
    requires ac { fields.ac < 2 ^ 4 }
    requires x { fields.x < 2 ^ 4 }
    requires y { fields.y < 2 ^ 18 }
    ensures { result ≡ fields }
{
    decode(encode(fields))
}
