//! The parts of MACRO-10's statements that have no expression in them: names, labels, brackets, literals, calls of macros,
//! conditions, and the rest of what gives no words.
//! Where a statement is not carried out, nothing more is read, and each of these does nothing.
#![tactic(auto)]

mod calls;
mod conditions;
mod others;
mod pseudo;
mod searches;
mod statements;
mod terms;

pub use calls::{
    argument_count, argument_text, begin_digits, called_macro, end_digits, is_digits_argument,
    next_argument, push_argument, put_body,
};
pub use conditions::{begin_text, is_condition, needs_number, plain_condition, with_number};
pub use pseudo::{define_operation, operation_name, plain_directive, takes_value, value_directive};
pub use statements::{
    Begun, add_value, assign_value, begin_statement, read_beginning, read_equals,
    refuse_in_literal, statement_end,
};
pub use terms::{
    Meant, OpenLiteral, begin_inner, close_bracket, close_literal, macro_in_operand,
    meant_in_brackets, name_value, next_in_literal, next_name, open_bracket, open_literal,
    single_word, word_count,
};
