//! Numbers of the machine: words of 36 bits, addresses of 18, and the sizes of its parts.
#![tactic(auto)]

mod address;
mod image;
mod octal;
mod sixbit_text;
mod sizes;
mod word;

pub use address::Address;
pub use image::Image;
pub use octal::{octal_digits, octal_half, octal_text};
pub use sixbit_text::sixbit;
pub use sizes::{
    ADDRESSES, BLOCK_WORDS, DATA_WORDS, INPUT_RING, JOBS, LINES, LOCKS_A_CALL, MOST_BLOCKS,
    MOST_REQUESTS, NAME_LENGTH, OUTPUT_RING, TAKEN_AT_ONCE,
};
pub use word::{MODULUS, SIGN, Word};
