//! What is left to do of a statement.

use macro_names::Name;
use macro_operands::{Fields, Filling, Infix};
use macro_operations::Pseudo;
use macro_reading::OpenLiteral;
use macro_state::{Assembly, Value};
use macro_stream::Place;
use macro_symbols::MacroDefinition;
use std::alloc::Global;

/// What stands before an operator, or before the end of an expression.
#[derive(Clone, Copy)]
pub struct LeftSide {
    /// Its value.
    pub value: Value,
    /// Where it begins.
    pub start: Place,
    /// How strongly an operator has to bind to take it.
    pub least: u8,
}

/// A step in an expression.
#[derive(Clone, Copy)]
pub enum ExpressionStep {
    /// Reads an expression.
    Begin,
    /// Reads a term.
    Term,
    /// A term is read: so many signs stood before its own, and operators may follow.
    Behind {
        start: Place,
        least: u8,
        signs: usize,
    },
    /// What stands behind an operator is read.
    RightSide {
        left: LeftSide,
        between: Infix,
        place: Place,
    },
    /// A value is read, which begins here; bits may follow.
    Bits(Place),
    /// The number of a value's last bit is read; `place` is that of `B`.
    BitNumber {
        value: Value,
        start: Place,
        place: Place,
    },
    /// Numbers have this radix again.
    Radix(u8),
}

/// A step in brackets.
#[derive(Clone, Copy)]
pub enum BracketStep {
    /// Reads a value, or a statement of one word.
    Inside,
    /// A statement is read that has to have given one word behind so many.
    OneWord {
        first: usize,
        name: Name,
        place: Place,
    },
    /// What a bracket holds is read; `statement` is the one around it.
    Close {
        bracket: u8,
        statement: Place,
    },
    /// Goes on in a literal.
    Literal(OpenLiteral),
}

/// A step in a word or an instruction.
#[derive(Clone, Copy)]
pub enum WordStep {
    /// The first value of a word is read.
    First {
        start: Place,
        indirect: bool,
    },
    /// The right half is read; the left one begins at `start`.
    RightHalf {
        left: Option<Value>,
        start: Place,
    },
    /// The index of a word is read.
    Indexed {
        base: Fields,
        placed: bool,
    },
    /// The value of an address is read.
    Base {
        indirect: bool,
    },
    /// The index of an address is read.
    Index(Fields),
    /// The first operand of an instruction is read.
    Operand {
        takes_address: bool,
        is_device: bool,
        place: Place,
    },
    /// The fields behind an accumulator are read.
    Accumulator(Fields),
    /// The fields of an instruction are read, whose word has these.
    Instruction(Fields),
}

/// A step in a pseudo-operation that gives words.
#[derive(Clone, Copy)]
pub enum DataStep {
    /// An element is read.
    Element(Place),
    /// The left half is read.
    Left {
        is_count: bool,
    },
    /// The right half is read; the left one begins at `start`.
    Right {
        left: Option<Value>,
        start: Place,
        is_count: bool,
    },
    /// The size of POINT is read.
    PointSize,
    /// The address of POINT is read.
    PointAddress(Option<u64>),
    /// The last bit of POINT is read.
    PointBit {
        size: Option<u64>,
        fields: Fields,
    },
    /// The size of bytes is read.
    ByteSize {
        filling: Filling,
        name: Name,
    },
    /// A byte is read.
    Byte {
        filling: Filling,
        name: Name,
    },
    /// The code of RADIX50 is read.
    Code(Name),
}

/// A step in a statement.
#[derive(Clone, Copy)]
pub enum StatementStep {
    /// The statement ends.
    End {
        in_literal: bool,
    },
    /// The word is read that is the statement.
    Word(Place),
    /// The value is read that a name is assigned.
    Assigned {
        name: Name,
        place: Place,
        start: Place,
    },
    /// The word of an operation is read, which OPDEF defines.
    Defined {
        name: Name,
        what: Name,
        place: Place,
    },
    /// The radix is read.
    Radix(Name),
    /// The value of a pseudo-operation is read that gives no words.
    Directive {
        pseudo: Pseudo,
        name: Name,
        in_literal: bool,
    },
}

/// The call of a macro whose arguments are read.
#[derive(Clone, Copy)]
pub struct OpenCall {
    /// The macro's name.
    pub name: Name,
    /// Where it is called.
    pub place: Place,
    /// Whether the arguments stand in parentheses.
    pub in_parentheses: bool,
}

/// A step in the call of a macro, or in a condition.
#[derive(Clone, Copy)]
pub enum CallStep {
    /// The value of `\` is read; `statement` is the one around the call.
    Digits {
        name: Name,
        start: Place,
        statement: Place,
    },
    /// An argument is read.
    Argument(OpenCall),
    /// The arguments are read, which stand from `given` on.
    Body {
        name: Name,
        called: MacroDefinition,
        place: Place,
        given: usize,
    },
    /// The number of a condition or a repetition is read.
    Number {
        pseudo: Pseudo,
        name: Name,
        place: Place,
    },
}

/// A step.
#[derive(Clone, Copy)]
pub enum Step {
    /// One in an expression.
    Expression(ExpressionStep),
    /// One in brackets.
    Bracket(BracketStep),
    /// One in a word or an instruction.
    Word(WordStep),
    /// One in a pseudo-operation that gives words.
    Data(DataStep),
    /// One in a statement.
    Statement(StatementStep),
    /// One in a call or a condition.
    Call(CallStep),
}

/// What is left to do of a statement: steps, the next one last. Each finds what was read before it.
#[derive(Drop)]
pub struct Work {
    steps: Vec<Step>,
    value: Option<Value>,
    start: Place,
    fields: Fields,
}

impl Work {
    /// Nothing is left.
    pub fn new(alloc: Global) -> Work {
        Work {
            steps: Vec::new(alloc),
            value: None,
            start: Place::new(1, 1),
            fields: Fields::none(),
        }
    }

    /// Puts a step before all that are left.
    pub fn push(&mut self, state: &mut Assembly, step: Step) {
        let done = self.steps.push(step).is_ok();
        state.kept(done);
    }

    /// Takes the next step.
    pub fn next(&mut self) -> Option<Step> {
        self.steps.pop()
    }

    /// Hands the operand just read to the next step; `None` if there was none.
    pub fn give(&mut self, value: Option<Value>) {
        self.value = value;
    }

    /// Hands the operand just read to the next step, with where it begins.
    pub fn give_from(&mut self, value: Value, start: Place) {
        self.value = Some(value);
        self.start = start;
    }

    /// Where the expression begins that was read last.
    pub fn start(&self) -> Place {
        self.start
    }

    /// The operand that was read last; `None` if there was none.
    pub fn value(&self) -> Option<Value> {
        self.value
    }

    /// Gives the fields of an instruction to the next step.
    pub fn give_fields(&mut self, fields: Fields) {
        self.fields = fields;
    }

    /// The fields that were read.
    pub fn fields(&self) -> Fields {
        self.fields
    }
}
