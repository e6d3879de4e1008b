//! The hash of a key.
ghost use Rattle.std.specs.Prelude.{◌≡◌, ◌<◌};
ghost use Rattle.key_queues.specs.declared.hash.TheConstants.{HASHES};
ghost use Rattle.key_queues.specs.Hashes.{hash_text, hash_of};

use lock_queue::{Key, NAME_NUMBERS, Name, NameText, Scope};

/// How many hashes there are.
pub const HASHES: usize = 8192;

/// The factors of the numbers that make up a name's text: odd, and without a pattern in their bits.
const FACTORS: [u64; NAME_NUMBERS] = [
    0x9E37_79B9_7F4A_7C15,
    0xC2B2_AE3D_27D4_EB4F,
    0x1656_67B1_9E37_79F9,
    0xD6E8_FEB8_6659_FD93,
];

/// Dividing a sum of 64 bits by this leaves its 13 highest bits, as many as a hash has.
const LOWER: u64 = 1 << 51;

/// The hash of a name's text, made of eight bytes at a time.
#[inline]
#[tactic(auto, unfolding(crate::specs::Hashes::hash_text))]
fn hash_text(text: &NameText) -> u64
    ensures value { result ≡ hash_text text.now }
    ensures below { result < HASHES }
{
    let numbers = text.numbers();
    let sum = numbers[0]
        .wrapping_mul(FACTORS[0])
        .wrapping_add(numbers[1].wrapping_mul(FACTORS[1]))
        .wrapping_add(numbers[2].wrapping_mul(FACTORS[2]))
        .wrapping_add(numbers[3].wrapping_mul(FACTORS[3]));
    sum / LOWER
}

/// The hash of a key, made of its scope and name.
#[inline]
pub fn hash_of(key: &Key) -> u16
    ensures value { result ≡ hash_of key.now }
    ensures below { result < HASHES }
{
    let start = match key.scope {
        Scope::All => 0,
        Scope::Job(job) => job as u64,
    };
    let number = match &key.name {
        Name::Text(text) => hash_text(text),
        Name::Code(code) => code.number(),
    };
    ((number + start) % HASHES as u64) as u16
}
