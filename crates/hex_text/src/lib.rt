//! Numbers as eight hexadecimal digits in lower case, the form of sites, addresses and words in all that is
//! printed and read.
#![tactic(auto)]

ghost use Rattle.std.specs.Prelude.{◌≡◌, ◌≢◌, ◌≤◌, ◌<◌, ℕ, length, take, MatchOption};
ghost use Rattle.hex_text.specs.Hex.{hex_of, hex_digit, IsHexDigit};
ghost use Rattle.hex_text.specs.Laws.{DigitsAreCounted, DigitsAreDigits, DigitsAreOfOne, PaddedNumbersAreHex};

// A digit, for a number below 16.
fn digit_of(value: u32) -> u8
    requires { value < 16 }
    ensures { result ≡ hex_digit value }
{
    if value < 10 {
        b'0' + value as u8
    } else {
        b'a' + (value - 10) as u8
    }
}

/// The eight digits of a number, the highest first.
#[tactic(auto, unfolding(crate::specs::Hex::hex_of))]
pub fn digits_of(number: u32) -> [u8; 8]
    ensures { result ≡ hex_of 8 number }
{
    let front7 = number / 16;
    let front6 = front7 / 16;
    let front5 = front6 / 16;
    let front4 = front5 / 16;
    let front3 = front4 / 16;
    let front2 = front3 / 16;
    let front1 = front2 / 16;
    [
        digit_of(front1 % 16),
        digit_of(front2 % 16),
        digit_of(front3 % 16),
        digit_of(front4 % 16),
        digit_of(front5 % 16),
        digit_of(front6 % 16),
        digit_of(front7 % 16),
        digit_of(number % 16),
    ]
}

// The value of a digit.
fn value_of(byte: u8) -> Option<u8>
    ensures { MatchOption result (IsHexDigit byte → ⊥) (λ d. (d < 16) × (byte ≡ hex_digit d)) }
{
    match byte {
        b'0'..=b'9' => Some(byte - b'0'),
        b'a'..=b'f' => Some(byte - b'a' + 10),
        _ => None,
    }
}

/// The number that the first eight bytes spell. None exactly where one of them is no digit in lower case.
pub fn number_of(bytes: &[u8]) -> Option<u32>
    requires { 8 ≤ length bytes.now }
    ensures { MatchOption result ((n : ℕ) → take 8 bytes.now ≢ hex_of 8 n) (λ n. take 8 bytes.now ≡ hex_of 8 n) }
{
    let mut value = 0u32;
    for i in 0..8 {
        match value_of(bytes[i]) {
            Some(digit) => value = value * 16 + u32::from(digit),
            None => return None,
        }
    }
    Some(value)
}

/// Digits are as many as are asked for, and those of one number. The body is empty: a caller has the clauses.
pub fn digits_spell_one_number()
    ensures counted { DigitsAreCounted }
    ensures digits { DigitsAreDigits }
    ensures one { DigitsAreOfOne }
{}

/// What a format with eight places and zeros prints are these digits. The body is empty: a caller has the clause.
pub fn padded_numbers_are_hex()
    ensures { PaddedNumbersAreHex }
{}
