//! Numbers of a script.
ghost use Rattle.std.specs.Prelude.{◌≡◌, ◌^◌, ◌<◌, ◌≤◌, [], ◌∷◌, IfSome};
ghost use Rattle.script_io.specs.Numbers.{number};

/// The number that one character spells: what `number` answers for a text of one, in fewer steps.
#[inline(always)]
#[tactic(auto, unfolding(crate::specs::Numbers::number))]
pub fn digit_number(base: u64, most: u64, character: u8) -> Option<u64>
    ensures value { result ≡ number base most (character ∷ []) }
    ensures small { IfSome result (λ n. n ≤ most) }
{
    if character < b'0' {
        return None;
    }
    let digit = u64::from(character - b'0');
    if digit >= base || digit > most {
        return None;
    }
    Some(digit)
}

/// The number that all of the text spells in digits of the base, where it is at most `most`.
/// Leading zeros are allowed, a sign is not.
#[inline(always)]
#[tactic(auto, unfolding(crate::specs::Numbers::number))]
pub fn number(base: u64, most: u64, text: &[u8]) -> Option<u64>
    requires base { (0 < base) × (base ≤ 10) }
    requires most { most < 2 ^ 56 }
    ensures value { result ≡ number base most text.now }
    ensures small { IfSome result (λ n. n ≤ most) }
{
    if let [character] = text {
        return digit_number(base, most, *character);
    }
    if text.is_empty() {
        return None;
    }
    let mut value = 0;
    for byte in text {
        if *byte < b'0' {
            return None;
        }
        let digit = u64::from(*byte - b'0');
        if digit >= base {
            return None;
        }
        value = base * value + digit;
        if value > most {
            return None;
        }
    }
    Some(value)
}
