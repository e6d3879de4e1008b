//! Numbers in octal and in decimal.
ghost use Rattle.std.specs.Prelude.{◌≡◌, ◌≤◌, IfSome};
ghost use Rattle.ddt_commands.specs.Numbers.{as_times, capped, decimal_in, number_in, number_of};
ghost use Rattle.ddt_commands.specs.declared.numbers.TheConstants.{LARGE};

/// A number that no command takes, and no word holds: what is larger is read as this.
pub const LARGE: u64 = 1 << 40;

/// The largest number before `$P` and `$X`, and behind TIMES: 10000 octal.
pub const MOST_TIMES: u64 = 0o10000;

/// The least radix of `$nR`.
pub const LEAST_RADIX: u64 = 2;

/// The largest radix of `$nR`.
pub const MOST_RADIX: u64 = 16;

/// The number of some digits of a radix up to 10, or `LARGE` where it is larger; `None` where there is no digit, or another
/// character.
#[tactic(auto, using(crate::proofs::NumberLemmas::number_short))]
pub fn number(radix: u8, text: &[u8]) -> Option<u64>
    requires { (2 ≤ radix) × (radix ≤ 10) }
    ensures value { result ≡ capped (number_of radix text.now) }
    ensures most { IfSome result (λ n. n ≤ LARGE) }
{
    if text.is_empty() {
        return None;
    }
    let mut value = 0u64;
    for byte in text {
        if *byte < b'0' || *byte - b'0' >= radix {
            return None;
        }
        let digit = u64::from(*byte - b'0');
        value = value.saturating_mul(u64::from(radix)).saturating_add(digit);
    }
    Some(value.min(LARGE))
}

/// The number of some decimal digits, with or without a point behind them, as `number` reads it.
pub fn pointed_decimal(text: &[u8]) -> Option<u64>
    ensures value { result ≡ decimal_in text.now }
    ensures most { IfSome result (λ n. n ≤ LARGE) }
{
    match text {
        [digits @ .., b'.'] => number(10, digits),
        digits => number(10, digits),
    }
}

/// How many times, from 1 to `MOST_TIMES`: octal digits, or decimal ones with a point behind them.
pub fn times(text: &[u8]) -> Option<u32>
    ensures { result ≡ as_times (number_in text.now) }
{
    let times = match text {
        [digits @ .., b'.'] => number(10, digits)?,
        digits => number(8, digits)?,
    };
    if 1 <= times && times <= MOST_TIMES {
        Some(times as u32)
    } else {
        None
    }
}
