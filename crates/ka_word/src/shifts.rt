//! Shifts and rotations of one word and of two.

ghost use Rattle.std.specs.Prelude.{◌≡◌, ◌<◌, ◌≤◌, ◌^◌, ◌+◌, ◌-◌, ◌*◌, ◌/◌, ◌%◌, nat_eq, not, if◌then◌else◌};
ghost use Rattle.word36.specs.Words.{complement, is_negative};
ghost use Rattle.ka_word.specs.Shifts.{ash_of, ash_overflows, is_left, lsh_of, lshc_of};
ghost use Rattle.ka_word.specs.Shifts.{places_of, rot_of, rotc_of, shifted_left, turned_left};

use crate::bytes::low_part;
use word36::{ADDRESSES, SIGN, Word};

/// Whether a shift by E is to the left.
fn shifts_left(e: u32) -> bool
    ensures { result ≡ is_left e }
{
    e < 0o400_000
}

/// The number of places of a shift by E.
fn count_places(e: u32) -> u64
    requires { e < 2 ^ 18 }
    ensures value { result ≡ places_of e }
    ensures below { result < 256 }
{
    let places = if shifts_left(e) {
        e % 256
    } else {
        (ADDRESSES - e) % 256
    };
    places as u64
}

/// LSH: a word shifted by E, zeros coming in.
#[tactic(auto, using(crate::proofs::Shifting::gone), unfolding(crate::specs::Shifts::lsh_of))]
pub fn shift_word(e: u32, word: Word) -> Word
    requires { e < 2 ^ 18 }
    ensures { result ≡ lsh_of e word }
{
    let places = count_places(e);
    if places >= 36 {
        Word::new(0)
    } else if shifts_left(e) {
        Word::low_bits(word.number() << places)
    } else {
        Word::new(word.number() >> places)
    }
}

/// A word turned round to the left by at most 36 places.
#[tactic(auto, using(crate::proofs::Shifting::turns))]
fn turn_left(places: u64, word: Word) -> Word
    requires { places ≤ 36 }
    ensures { result ≡ turned_left 36 places word }
{
    let number = word.number();
    let high = low_part(number, 36 - places) << places;
    Word::new(high + (number >> (36 - places)))
}

/// ROT: a word turned round by E.
#[tactic(auto, unfolding(crate::specs::Shifts::rot_of))]
pub fn turn_word(e: u32, word: Word) -> Word
    requires { e < 2 ^ 18 }
    ensures { result ≡ rot_of e word }
{
    let places = count_places(e) % 36;
    if shifts_left(e) {
        turn_left(places, word)
    } else {
        turn_left(36 - places, word)
    }
}

/// Bits 1 to 35 shifted to the left, below the sign.
#[tactic(auto, using(crate::proofs::Shifting::ashes))]
fn shift_magnitude(places: u64, word: Word) -> Word
    requires { places < 256 }
    ensures { result ≡ (if is_negative word then 2 ^ 35 else 0) + shifted_left 35 places (word % 2 ^ 35) }
{
    let sign = if word.is_negative() { SIGN } else { 0 };
    let low = word.number() % SIGN;
    if places >= 35 {
        Word::new(sign)
    } else {
        Word::new(sign + (low << places) % SIGN)
    }
}

/// The number of so many ones.
#[tactic(auto, using(std::proofs::lemmas::Nat::one_shl))]
fn ones(places: u64) -> u64
    requires { places ≤ 35 }
    ensures { result ≡ 2 ^ places - 1 }
{
    (1 << places) - 1
}

/// Whether ASH to the left loses a bit unlike the sign.
#[tactic(auto, using(crate::proofs::Shifting::losses))]
fn loses_bits(places: u64, word: Word) -> bool
    requires { places < 256 }
    ensures { result ≡ not (nat_eq (word % 2 ^ 35 * 2 ^ places / 2 ^ 35) (if is_negative word then 2 ^ places - 1 else 0)) }
{
    let low = word.number() % SIGN;
    if places >= 36 {
        return word.is_negative() || low != 0;
    }
    let lost = low >> (35 - places);
    if word.is_negative() {
        lost != ones(places)
    } else {
        lost != 0
    }
}

/// A signed number shifted to the right.
#[tactic(auto, using(crate::proofs::Shifting::gone))]
fn shift_right(places: u64, word: Word) -> Word
    requires { places < 256 }
    ensures { result ≡ (if is_negative word then complement (complement word / 2 ^ places) else word / 2 ^ places) }
{
    let most = places.min(36);
    if word.is_negative() {
        Word::new(word.not().number() >> most).not()
    } else {
        Word::new(word.number() >> most)
    }
}

/// ASH: a signed number shifted by E, and whether to the left a bit unlike the sign is lost.
#[tactic(auto, unfolding(crate::specs::Shifts::ash_of, crate::specs::Shifts::ash_overflows))]
pub fn shift_signed(e: u32, word: Word) -> (Word, bool)
    requires { e < 2 ^ 18 }
    ensures word { result.0 ≡ ash_of e word }
    ensures overflow { result.1 ≡ ash_overflows e word }
{
    let places = count_places(e);
    if shifts_left(e) {
        (shift_magnitude(places, word), loses_bits(places, word))
    } else {
        (shift_right(places, word), false)
    }
}

/// The low bits of a number.
#[tactic(auto, using(crate::proofs::Shifting::low_bits_of_pair))]
fn low_bits(number: u128, bits: u64) -> u128
    requires { bits < 128 }
    ensures value { result ≡ number % 2 ^ bits }
    ensures below { result < 2 ^ bits }
{
    number & ((1 << bits) - 1)
}

/// LSHC: a pair of words, as 72 bits, shifted by E.
#[tactic(auto, using(crate::proofs::Shifting::gone), unfolding(crate::specs::Shifts::lshc_of))]
pub fn shift_pair(e: u32, pair: u128) -> u128
    requires e { e < 2 ^ 18 }
    requires pair { pair < 2 ^ 72 }
    ensures value { result ≡ lshc_of e pair }
    ensures below { result < 2 ^ 72 }
{
    let places = count_places(e);
    if places >= 72 {
        0
    } else if shifts_left(e) {
        low_bits(pair << places, 72)
    } else {
        pair >> places
    }
}

/// A pair turned round to the left by at most 72 places.
#[tactic(auto, using(crate::proofs::Shifting::turns))]
fn turn_pair_left(places: u64, pair: u128) -> u128
    requires places { places ≤ 72 }
    requires pair { pair < 2 ^ 72 }
    ensures value { result ≡ turned_left 72 places pair }
    ensures below { result < 2 ^ 72 }
{
    let high = low_bits(pair, 72 - places) << places;
    high + (pair >> (72 - places))
}

/// ROTC: a pair of words, as 72 bits, turned round by E.
#[tactic(auto, unfolding(crate::specs::Shifts::rotc_of))]
pub fn turn_pair(e: u32, pair: u128) -> u128
    requires e { e < 2 ^ 18 }
    requires pair { pair < 2 ^ 72 }
    ensures value { result ≡ rotc_of e pair }
    ensures below { result < 2 ^ 72 }
{
    let places = count_places(e) % 72;
    if shifts_left(e) {
        turn_pair_left(places, pair)
    } else {
        turn_pair_left(72 - places, pair)
    }
}
