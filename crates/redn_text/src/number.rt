//! Numbers in decimal digits.

ghost use Rattle.std.specs.Prelude.{◌≡◌, ◌≢◌, ◌^◌, ◌<◌, ℕ, decimal, IfSome, IfNone};

use itoa::Buffer;
use std::str;

/// The number that is written so in decimal digits, without a leading zero or a sign.
pub fn read_number(digits: &[u8]) -> Option<u64>
    ensures value { IfSome result (λ n. digits.now ≡ decimal n) }
    ensures none { IfNone result ((n : ℕ) → n < 2 ^ 64 → digits.now ≢ decimal n) }
{
    let Ok(text) = str::from_utf8(digits) else {
        return None;
    };
    let Ok(number) = text.parse::<u64>() else {
        return None;
    };
    let mut buffer = Buffer::new();
    if buffer.format(number).as_bytes() == digits {
        Some(number)
    } else {
        None
    }
}

/// A number of 32 bits, as that of a queue or of a chain, that is written so.
#[tactic(auto, using(std::proofs::lemmas::Fmt::decimal_injective))]
pub fn read_small(digits: &[u8]) -> Option<u32>
    ensures value { IfSome result (λ n. digits.now ≡ decimal n) }
    ensures none { IfNone result ((n : ℕ) → n < 2 ^ 32 → digits.now ≢ decimal n) }
{
    match read_number(digits) {
        Some(number) if number <= u64::from(u32::MAX) => Some(number as u32),
        _ => None,
    }
}
