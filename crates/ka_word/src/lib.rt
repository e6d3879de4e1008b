//! Functions on words of 36 bits, as the instructions of a KA10 use them: products and quotients,
//! shifts and rotations, bytes and their pointers, halves, Boolean functions and conditions.
#![tactic(auto)]

mod booleans;
mod bytes;
mod comparisons;
mod halves;
mod laws;
mod masks;
mod products;
mod pushdown;
mod quotients;
mod shifts;
mod sums;
mod zeros;

pub use booleans::combine;
pub use bytes::{deposit_byte, increment, load_byte};
pub use comparisons::{compare, compare_zero};
pub use halves::move_half;
pub use laws::{
    byte_laws, pointer_laws, product_laws, pushdown_laws, quotient_laws, rotation_laws, shift_laws,
    sum_laws,
};
pub use masks::{skips, turn_mask};
pub use products::split_product;
pub use pushdown::{count_up, pop_up, push_down, runs_under};
pub use quotients::{divide, has_no_quotient};
pub use shifts::{shift_pair, shift_signed, shift_word, turn_pair, turn_word};
pub use sums::negate;
pub use zeros::leading_zeros;
