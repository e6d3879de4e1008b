//! The kinds of faults.

use left_out::Reason;
use macro_names::Name;
use macro_stream::Limit;

/// What is wrong with a source. A number that does not fit stands beside its fault, where it has 64 bits.
#[derive(Clone, Copy)]
pub enum Fault {
    /// A byte that is not ASCII.
    NotAscii,
    /// Another character where a value is expected.
    Expected(u8),
    /// Another character where the statement ends.
    ExpectedEnd(u8),
    /// The end of the line where more is expected.
    ExpectedAtEnd,
    /// An accumulator is 0 to 17 octal.
    Accumulator(i64),
    /// An index register is 0 to 17 octal.
    Index(u32),
    /// A device is 0 to 774 octal, and a multiple of 4.
    Device(i64),
    /// An operand that is an address, of an operation that takes none.
    NoAddress,
    /// A half or an address is -777777 to 777777 octal.
    Half(Option<i64>),
    /// A value that does not fit its byte, and the bits of the byte.
    ByteValue(i64, i64),
    /// A value that no word holds.
    NoWord(Option<i64>),
    /// A number with a digit that the radix does not have: the number as it is written, read in decimal, and the radix.
    Digits(i64, u8),
    /// A long number with a digit that the radix does not have.
    LongDigits(u8),
    /// Another character right behind a number.
    ExpectedNumberEnd(u8),
    /// The bit behind B is 0 to 35.
    BitNumber(i64),
    /// `^F` or `^L`.
    Scaled,
    /// A number with an exponent and no fraction.
    FloatForm,
    /// A constant of floating point that is too large.
    FloatTooLarge,
    /// A constant of floating point that is too small, and not 0.
    FloatTooSmall,
    /// A product that no word holds.
    Product,
    /// A quotient by zero.
    Quotient,
    /// A name that is not defined.
    NotDefined(Name),
    /// A name that is not defined, and that SEARCH UUOSYM defines.
    NotSearched(Name),
    /// A name that stands for nothing here, and that a manual has; whether it stands as an operation.
    LeftOut(Name, Reason, bool),
    /// A name with operands that is no operation.
    Refused(Name),
    /// What needs linking; whether it is `A##`.
    Linking(Name, bool),
    /// A statement about segments, which are not supported.
    Segments(Name),
    /// UNIVERSAL and its like.
    Universal(Name),
    /// A file of SEARCH that is not here.
    NoFile(Name),
    /// A name that is defined more than once.
    Duplicate(Name),
    /// A name that is defined as another thing.
    OtherThing(Name),
    /// A use of a name that is defined more than once.
    UseOfDuplicate(Name),
    /// A dummy that a macro has twice.
    TwoDummies(Name),
    /// A value that the first pass needs, and the name that is not defined yet.
    Late(Name, Name),
    /// A value that the first pass needs.
    LateValue(Name),
    /// No second mark of a text, and the pseudo-operation.
    NoText(u8, Name),
    /// No quote behind the characters.
    NoQuote(u8),
    /// Between quotes stand more characters than a word holds, and the quote.
    LongQuote(u8),
    /// No characters between quotes.
    EmptyQuote,
    /// A character that SIXBIT does not have.
    NoSixbit(u8),
    /// What a pseudo-operation needs is not there.
    Needs(Name),
    /// A statement in brackets gives so many words, and not one.
    NotOneWord(Name, u32),
    /// The size of a byte is 1 to 36, in decimal.
    ByteSize(i64),
    /// POINT's size is 0 to 36, in decimal.
    PointSize(i64),
    /// POINT's bit is 0 to 35, in decimal.
    PointBit(i64),
    /// A radix is 2 to 10, in decimal.
    Radix(i64),
    /// A place is 0 to 777777 octal.
    PlaceRange(i64),
    /// A start is 0 to 777777 octal.
    Start(i64),
    /// BLOCK in a literal is of 1 to 1000000 octal words.
    BlockInLiteral(i64),
    /// BLOCK is not negative.
    BlockSize(i64),
    /// No `)` behind arguments.
    NoParenthesis,
    /// A statement that is not possible in a literal.
    NotInLiteral(Name),
    /// A literal without words.
    EmptyLiteral,
    /// `>` is missing: of which statement, for which of its texts.
    OpenText(Name, Name),
    /// IRP or IRPC without a dummy.
    IrpOutside(Name),
    /// STOPI in no IRP.
    StopiOutside,
    /// A label with another place in the second pass.
    OtherPlace(Name),
    /// Literals with another place in the second pass.
    OtherPool,
    /// No END.
    NoEnd,
    /// A place that has a word already.
    TwoWords(u32),
    /// A limit.
    Limit(Limit),
}

impl Fault {
    /// The letter that MACRO-10 has for it; `-` where it has none.
    pub fn letter(self) -> u8 {
        match self {
            Fault::NotAscii | Fault::Expected(_) | Fault::ExpectedEnd(_) | Fault::ExpectedAtEnd =>
                b'Q',
            Fault::Accumulator(_) | Fault::Index(_) | Fault::Half(_) | Fault::ByteValue(_, _) =>
                b'Q',
            Fault::Device(_) | Fault::NoAddress => b'Q',
            Fault::NoQuote(_) | Fault::LongQuote(_) | Fault::EmptyQuote => b'Q',
            Fault::NoWord(_) | Fault::Digits(_, _) | Fault::LongDigits(_) => b'N',
            Fault::ExpectedNumberEnd(_) | Fault::BitNumber(_) | Fault::Scaled => b'N',
            Fault::FloatForm | Fault::FloatTooLarge | Fault::FloatTooSmall => b'N',
            Fault::Product | Fault::Quotient => b'N',
            Fault::NotDefined(_) | Fault::NotSearched(_) | Fault::LeftOut(_, _, false) => b'U',
            Fault::Refused(_) | Fault::LeftOut(_, _, true) => b'O',
            Fault::Linking(_, _) => b'E',
            Fault::Segments(_) => b'R',
            Fault::Universal(_) | Fault::NoFile(_) | Fault::TwoDummies(_) => b'A',
            Fault::Duplicate(_) | Fault::OtherThing(_) => b'M',
            Fault::UseOfDuplicate(_) => b'D',
            Fault::Late(_, _) | Fault::LateValue(_) => b'V',
            Fault::NoText(_, _) | Fault::NoSixbit(_) | Fault::Needs(_) | Fault::ByteSize(_) => b'A',
            Fault::NotOneWord(_, _) => b'A',
            Fault::PointSize(_) | Fault::PointBit(_) | Fault::Radix(_) => b'A',
            Fault::PlaceRange(_) | Fault::Start(_) => b'A',
            Fault::BlockInLiteral(_) | Fault::BlockSize(_) | Fault::NoParenthesis => b'A',
            Fault::NotInLiteral(_) | Fault::EmptyLiteral => b'L',
            Fault::OpenText(_, _) => b'X',
            Fault::IrpOutside(_) | Fault::StopiOutside => b'A',
            Fault::OtherPlace(_) | Fault::OtherPool => b'P',
            Fault::NoEnd | Fault::TwoWords(_) | Fault::Limit(_) => b'-',
        }
    }

    /// Whether it ends the assembly.
    pub fn is_limit(self) -> bool {
        matches!(&self, Fault::Limit(_))
    }
}
