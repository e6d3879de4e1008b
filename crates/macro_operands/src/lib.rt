//! Operands of MACRO-10: numbers, operators, the words and bytes that values are taken as, and what values set.
//! Where a statement is not carried out, nothing more is read, and each of these does nothing.
#![tactic(auto)]

mod elements;
mod floats;
mod instructions;
mod numbers;
mod operators;
mod settings;

pub use elements::{
    Filling, need_size, open_size, point_size, push_pair, push_point, push_radix50, size_of_bytes,
    text_words, with_byte,
};
pub use instructions::{
    Fields, address_fields, eat_comma, eat_commas, eat_indirect, first_fields, halves_value,
    index_bits, is_index_next, need_comma,
};
pub use numbers::{
    bit_radix, digits_in, dot_value, marked_radix, moved, next_place, plain_value, take_bits,
};
pub use operators::{
    Infix, apply_signs, as_word, combined, is_value_next, or_zero, read_signs, start_of_value,
    strength, take_operator,
};
pub use settings::{
    begin_needed, needed, number_radix, required, set_phase, set_place, set_radix, swap_radix,
};
