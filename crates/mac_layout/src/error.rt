//! Why a source has no image.
ghost use Rattle.std.specs.Prelude.{◌≡◌, Some};
ghost use Rattle.mac_layout.specs.Errors.{error_text, refusal_of};
ghost use Rattle.mac_layout.specs.Faults.{number_of, least};
ghost use Rattle.mac_layout.specs.declared.error.AsmError.TheVariants.{Memory};

use mac_text::ParseError;
use std::alloc::{AllocError, AllocFailed};
use std::error::Error;
use std::fmt;

/// What is wrong with a line (this project's profile).
#[derive(Clone, Copy, Debug, PartialEq, Eq)]
pub enum AsmCode {
    /// 1: it is not in the grammar.
    Syntax,
    /// 2: a name that is not defined.
    UnknownName,
    /// 3: a name that is defined twice, or an address that is given two words.
    DefinedTwice,
    /// 4: a value that does not fit.
    DoesNotFit,
    /// 5: a literal, or a label that is not yet defined, in LOC or BLOCK.
    NotYetDefined,
    /// 6: a word or a label at address 1000000 octal or above.
    AddressTooHigh,
    /// 7: there is no END.
    NoEnd,
}

impl AsmCode {
    /// The number of the code, 1 to 7.
    pub fn number(self) -> u8
        ensures { result ≡ number_of self }
    {
        match self {
            AsmCode::Syntax => 1,
            AsmCode::UnknownName => 2,
            AsmCode::DefinedTwice => 3,
            AsmCode::DoesNotFit => 4,
            AsmCode::NotYetDefined => 5,
            AsmCode::AddressTooHigh => 6,
            AsmCode::NoEnd => 7,
        }
    }
}

/// Why a source has no image.
#[derive(Debug, Drop)]
pub enum AsmError {
    /// What is wrong with a line, counted from 1.
    Line { line: usize, code: AsmCode },
    /// There was no memory.
    Memory,
}

impl fmt::Display for AsmError {
    ghost output = { λ e. Some (error_text e) };

    fn fmt<W: fmt::Write>(&self, f: &mut fmt::Formatter<W>) -> fmt::Result {
        match self {
            AsmError::Line { line, code } => {
                let number = code.number();
                write!(f, "line {line}: code {number}")
            }
            AsmError::Memory => f.write_str("there is no memory"),
        }
    }
}

impl Error for AsmError {}

impl From<AllocError> for AsmError {
    ghost from_gives = { λ _ e. e ≡ Memory };

    fn from(_e: AllocError) -> AsmError {
        AsmError::Memory
    }
}

impl<T: Drop> From<AllocFailed<T>> for AsmError {
    ghost from_gives = { λ _ e. e ≡ Memory };

    fn from(_e: AllocFailed<T>) -> AsmError {
        AsmError::Memory
    }
}

impl From<ParseError> for AsmError {
    ghost from_gives = { λ e told. told ≡ refusal_of e };

    fn from(e: ParseError) -> AsmError {
        match e {
            ParseError::Memory => AsmError::Memory,
            ParseError::Syntax(fault) => AsmError::Line {
                line: fault.line,
                code: AsmCode::Syntax,
            },
        }
    }
}

/// The lesser of two codes, where there are any.
#[tactic(auto, unfolding(crate::specs::Faults::least))]
pub fn least(a: Option<AsmCode>, b: Option<AsmCode>) -> Option<AsmCode>
    ensures { result ≡ least a b }
{
    match (a, b) {
        (Some(a), Some(b)) => Some(if a.number() <= b.number() { a } else { b }),
        (Some(a), None) => Some(a),
        (None, b) => b,
    }
}
