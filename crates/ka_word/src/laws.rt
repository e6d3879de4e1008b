//! Laws of the functions on words in the terms of signed numbers and of bits, as contracts of functions
//! that do nothing.

ghost use Rattle.std.specs.Prelude.{◌≡◌, ◌≢◌, ◌↔◌, ◌⊎◌, ◌<◌, ◌≤◌, ◌+◌, ◌-◌, ◌*◌, ◌/◌, ◌%◌, ◌^◌, false, true, min, nat_eq, ℕ, pos, ◌+ℤ◌};
ghost use Rattle.std.specs.Prelude.{◌-ℤ◌, ◌*ℤ◌, ◌≤ℤ◌, ◌<ℤ◌, int_div, int_lt, int_rem, neg_ℤ, unsigned_abs};
ghost use Rattle.word36.specs.Words.{complement, is_negative, right_half, signed_value, sum_of};
ghost use Rattle.ka_word.specs.Bytes.{byte_of, deposited, incremented, position_of, size_of};
ghost use Rattle.ka_word.specs.Laws.{FitsWord, double_value, opposite, times};
ghost use Rattle.ka_word.specs.Products.{both_least, high_word, low_word, overflows};
ghost use Rattle.ka_word.specs.Pushdown.{counted_down, counted_up, runs_over, runs_under};
ghost use Rattle.ka_word.specs.Quotients.{no_quotient, quotient_of, remainder_of};
ghost use Rattle.ka_word.specs.Shifts.{ash_of, ash_overflows, is_left, lsh_of, places_of, rot_of, rotc_of};
ghost use Rattle.ka_word.specs.Sums.{negated, sum_overflows};

/// ADD, SUB and MOVN: Overflow is set exactly where the signed result does not fit a word, and where
/// it fits the word's value is the result. The least number alone has no negative.
pub fn sum_laws()
    ensures add_fits { (a b : ℕ) → a < 2 ^ 36 → b < 2 ^ 36 → (sum_overflows a b 0 ≡ false) ↔ FitsWord (signed_value a +ℤ signed_value b) }
    ensures add { (a b : ℕ) → a < 2 ^ 36 → b < 2 ^ 36 → sum_overflows a b 0 ≡ false
        → signed_value (sum_of a b 0) ≡ signed_value a +ℤ signed_value b }
    ensures sub_fits { (a b : ℕ) → a < 2 ^ 36 → b < 2 ^ 36
        → (sum_overflows a (complement b) 1 ≡ false) ↔ FitsWord (signed_value a -ℤ signed_value b) }
    ensures sub { (a b : ℕ) → a < 2 ^ 36 → b < 2 ^ 36 → sum_overflows a (complement b) 1 ≡ false
        → signed_value (sum_of a (complement b) 1) ≡ signed_value a -ℤ signed_value b }
    ensures negate_fits { (a : ℕ) → a < 2 ^ 36 → (sum_overflows (complement a) 1 0 ≡ false) ↔ (a ≢ 2 ^ 35) }
    ensures negate { (a : ℕ) → a < 2 ^ 36 → a ≢ 2 ^ 35 → signed_value (negated a) ≡ neg_ℤ (signed_value a) }
    ensures least { negated (2 ^ 35) ≡ 2 ^ 35 }
{}

/// MUL and IMUL: the two words of MUL are the signed product, whose sign both have, but where -2^35 is
/// multiplied by itself; Overflow of IMUL is set exactly where the signed product does not fit a word,
/// and where it fits the word's value is the product.
pub fn product_laws()
    ensures product { (a b : ℕ) → a < 2 ^ 36 → b < 2 ^ 36 → both_least a b ≡ false
        → double_value (high_word a b) (low_word a b) ≡ signed_value a *ℤ signed_value b }
    ensures signs { (a b : ℕ) → a < 2 ^ 36 → b < 2 ^ 36 → both_least a b ≡ false
        → (is_negative (high_word a b) ≡ int_lt (signed_value a *ℤ signed_value b) (pos 0))
        × (is_negative (low_word a b) ≡ int_lt (signed_value a *ℤ signed_value b) (pos 0)) }
    ensures fits { (a b : ℕ) → a < 2 ^ 36 → b < 2 ^ 36 → (overflows a b ≡ false) ↔ FitsWord (signed_value a *ℤ signed_value b) }
    ensures whole { (a b : ℕ) → a < 2 ^ 36 → b < 2 ^ 36 → overflows a b ≡ false
        → signed_value (low_word a b) ≡ signed_value a *ℤ signed_value b }
{}

/// IDIV: it is not done exactly where the divisor is 0 or the quotient would be 2^35; otherwise the
/// words are the quotient toward 0 and the remainder, which is smaller than the divisor and is 0 or has
/// the sign of the dividend.
pub fn quotient_laws()
    ensures none { (a m : ℕ) → a < 2 ^ 36 → m < 2 ^ 36
        → (no_quotient a m ≡ true) ↔ ((signed_value m ≡ pos 0) ⊎ (int_div (signed_value a) (signed_value m) ≡ pos (2 ^ 35))) }
    ensures quotient { (a m : ℕ) → a < 2 ^ 36 → m < 2 ^ 36 → no_quotient a m ≡ false
        → signed_value (quotient_of a m) ≡ int_div (signed_value a) (signed_value m) }
    ensures remainder { (a m : ℕ) → a < 2 ^ 36 → m < 2 ^ 36 → no_quotient a m ≡ false
        → signed_value (remainder_of a m) ≡ int_rem (signed_value a) (signed_value m) }
    ensures divides { (a m : ℕ) → a < 2 ^ 36 → m < 2 ^ 36 → no_quotient a m ≡ false
        → signed_value a ≡ signed_value (quotient_of a m) *ℤ signed_value m +ℤ signed_value (remainder_of a m) }
    ensures smaller { (a m : ℕ) → a < 2 ^ 36 → m < 2 ^ 36 → no_quotient a m ≡ false
        → unsigned_abs (signed_value (remainder_of a m)) < unsigned_abs (signed_value m) }
    ensures sign { (a m : ℕ) → a < 2 ^ 36 → m < 2 ^ 36 → no_quotient a m ≡ false
        → (remainder_of a m ≡ 0) ⊎ (is_negative (remainder_of a m) ≡ is_negative a) }
{}

/// ASH to the left multiplies by a power of 2, and Overflow is set exactly where the product does not
/// fit a word; to the right it divides by the power, rounding down. LSH to the right and back to the
/// left clears the low bits.
pub fn shift_laws()
    ensures left_fits { (e w : ℕ) → w < 2 ^ 36 → is_left e ≡ true
        → (ash_overflows e w ≡ false) ↔ FitsWord (signed_value w *ℤ pos (2 ^ places_of e)) }
    ensures left { (e w : ℕ) → w < 2 ^ 36 → is_left e ≡ true → ash_overflows e w ≡ false
        → signed_value (ash_of e w) ≡ signed_value w *ℤ pos (2 ^ places_of e) }
    ensures right { (e w : ℕ) → w < 2 ^ 36 → is_left e ≡ false
        → ((signed_value (ash_of e w) *ℤ pos (2 ^ places_of e)) ≤ℤ signed_value w)
        × (signed_value w <ℤ ((signed_value (ash_of e w) +ℤ pos 1) *ℤ pos (2 ^ places_of e))) }
    ensures back { (e w : ℕ) → e < 2 ^ 17 → w < 2 ^ 36 → lsh_of e (lsh_of (opposite e) w) ≡ w / 2 ^ places_of e * 2 ^ places_of e }
{}

/// ROT and ROTC by E and then by -E give the word and the pair of words back.
pub fn rotation_laws()
    ensures word { (e w : ℕ) → e < 2 ^ 18 → w < 2 ^ 36 → rot_of (opposite e) (rot_of e w) ≡ w }
    ensures pair { (e d : ℕ) → e < 2 ^ 18 → d < 2 ^ 72 → rotc_of (opposite e) (rotc_of e d) ≡ d }
{}

/// A byte that is loaded after its deposit is the low bits of what was deposited, as many as the word
/// has of it; the bits to its right and to its left stay; a byte that is loaded and deposited again
/// changes nothing.
pub fn byte_laws()
    ensures loaded { (p a w : ℕ) → w < 2 ^ 36 → byte_of p (deposited p a w) ≡ a % 2 ^ min (size_of p) (36 - position_of p) }
    ensures right { (p a w : ℕ) → w < 2 ^ 36 → deposited p a w % 2 ^ position_of p ≡ w % 2 ^ position_of p }
    ensures left { (p a w : ℕ) → w < 2 ^ 36 → deposited p a w / 2 ^ (position_of p + size_of p) ≡ w / 2 ^ (position_of p + size_of p) }
    ensures same { (p w : ℕ) → w < 2 ^ 36 → deposited p (byte_of p w) w ≡ w }
{}

/// Increments walk through the bytes of a word from the left to the right and then go on to the next
/// word: each moves the position down by the size while there is room for another byte, and the next
/// one after that names the leftmost byte of the word at the next address.
pub fn pointer_laws()
    ensures within { (p n : ℕ) → p < 2 ^ 36 → n * size_of p ≤ position_of p
        → (position_of (times n incremented p) ≡ position_of p - n * size_of p) × (times n incremented p % 2 ^ 30 ≡ p % 2 ^ 30) }
    ensures onward { (p : ℕ) → p < 2 ^ 36 → position_of p < size_of p
        → (position_of (incremented p) ≡ 36 - size_of p) × (incremented p % 2 ^ 30 / 2 ^ 18 ≡ p % 2 ^ 30 / 2 ^ 18)
        × (incremented p % 2 ^ 18 ≡ (p + 1) % 2 ^ 18) }
{}

/// A pushdown pointer that is counted up and then down is as before; up, it names the next address; and
/// where counting up runs over, counting down again runs under.
pub fn pushdown_laws()
    ensures back { (a : ℕ) → a < 2 ^ 36 → counted_down (counted_up a) ≡ a }
    ensures address { (a : ℕ) → a < 2 ^ 36 → right_half (counted_up a) ≡ (right_half a + 1) % 2 ^ 18 }
    ensures over { (a : ℕ) → a < 2 ^ 36 → runs_over a ≡ true → runs_under (counted_up a) ≡ true }
{}
