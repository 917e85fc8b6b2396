ghost use Rattle.std.specs.Prelude.{◌≡◌, ◌≢◌, ◌≤◌, ◌<◌, ◌++◌, ◌∷◌, ℕ, List, length, take, min, MatchOption, position, ◌==◌, ◌^◌, ◌-◌, ◌+◌};
ghost use Rattle.std.specs.Str.Parse.{digits_value};
ghost use Rattle.std.specs.Char.{digit_value};
ghost use Rattle.patch_table.specs.Line.{field, words_of, IsNumber, Allows, NoLine, NoWords, BeginsLine, IsWords, IsSiteLine, IsPairLine};

/// The version of a text.
#[derive(Clone, Copy, Debug, PartialEq, Eq)]
pub enum Version {
    One,
    Two,
}

/// What a line of the text is about.
#[derive(Clone, Copy, Debug, PartialEq, Eq)]
pub enum Key {
    Pad { site: u32 },
    Front { site: u32 },
    Defer { alloc_site: u32, free_site: u32 },
}

/// A line of the text. A number above 2^64 - 1 is kept as 2^64 - 1, which is out of every range.
#[derive(Clone, Copy, Debug, PartialEq, Eq)]
pub struct Line {
    pub key: Key,
    pub number: u64,
}

// A site and the space behind it.
fn field_of(bytes: &[u8]) -> Option<(u32, &[u8])>
    ensures { MatchOption result ((n : ℕ) (rest : List ℕ) → bytes.now ≢ field n rest) (λ x. bytes.now ≡ field x.0 x.1.now) }
{
    if bytes.len() < 9 {
        return None;
    }
    if bytes[8] != b' ' {
        return None;
    }
    match hex_text::number_of(bytes) {
        None => None,
        Some(site) => Some((site, &bytes[9..])),
    }
}

// The value of a decimal digit.
fn decimal_value_of(byte: u8) -> Option<u8>
    ensures { MatchOption result (10 ≤ digit_value byte) (λ d. (d < 10) × (byte ≡ 48 + d) × (digit_value byte ≡ d)) }
{
    match byte {
        b'0'..=b'9' => Some(byte - b'0'),
        _ => None,
    }
}

// The number that all of the bytes spell, or 2^64 - 1 where it is above that.
fn number_of(digits: &[u8]) -> Option<u64>
    ensures { MatchOption result (IsNumber digits.now → ⊥) (λ n. IsNumber digits.now × (n ≡ min (digits_value 10 digits.now) (2 ^ 64 - 1))) }
{
    if digits.is_empty() {
        return None;
    }
    if digits[0] == b'0' && digits.len() != 1 {
        return None;
    }
    let mut number = 0u64;
    for digit in digits {
        match decimal_value_of(*digit) {
            Some(value) => number = number.saturating_mul(10).saturating_add(u64::from(value)),
            None => return None,
        }
    }
    Some(number)
}

/// What follows the word, where the bytes begin with it.
pub fn after<'a>(bytes: &'a [u8], word: &[u8]) -> Option<&'a [u8]>
    ensures { MatchOption result ((rest : List ℕ) → bytes.now ≢ word.now ++ rest) (λ rest. bytes.now ≡ word.now ++ rest.now) }
{
    bytes.strip_prefix(word)
}

// What stands behind a word that one site follows.
fn site_line(bytes: &[u8]) -> Option<(u32, u64)>
    ensures { MatchOption result ((site : ℕ) (digits : List ℕ) → IsNumber digits → bytes.now ≢ field site digits)
        (λ x. IsSiteLine bytes.now x.0 x.1) }
{
    match field_of(bytes) {
        None => None,
        Some((site, digits)) => match number_of(digits) {
            None => None,
            Some(number) => Some((site, number)),
        },
    }
}

// What stands behind a word that two sites follow.
fn pair_line(bytes: &[u8]) -> Option<(u32, u32, u64)>
    ensures { MatchOption result ((alloc_site free_site : ℕ) (digits : List ℕ) → IsNumber digits → bytes.now ≢ field alloc_site (field free_site digits))
        (λ x. IsPairLine bytes.now x.0 x.1 x.2) }
{
    match field_of(bytes) {
        None => None,
        Some((alloc_site, rest)) => match field_of(rest) {
            None => None,
            Some((free_site, digits)) => match number_of(digits) {
                None => None,
                Some(number) => Some((alloc_site, free_site, number)),
            },
        },
    }
}

// The line of the version that the words are, which have no line feed.
fn words(version: Version, bytes: &[u8]) -> Option<Line>
    ensures { MatchOption result (NoWords version bytes.now) (λ line. IsWords version bytes.now line) }
{
    if let Some(rest) = after(bytes, b"pad ") {
        return match site_line(rest) {
            None => None,
            Some((site, number)) => Some(Line {
                key: Key::Pad { site },
                number,
            }),
        };
    }
    if let Some(rest) = after(bytes, b"defer ") {
        return match pair_line(rest) {
            None => None,
            Some((alloc_site, free_site, number)) => Some(Line {
                key: Key::Defer {
                    alloc_site,
                    free_site,
                },
                number,
            }),
        };
    }
    match version {
        Version::One => None,
        Version::Two => match after(bytes, b"front ") {
            None => None,
            Some(rest) => match site_line(rest) {
                None => None,
                Some((site, number)) => Some(Line {
                    key: Key::Front { site },
                    number,
                }),
            },
        },
    }
}

fn end_of(bytes: &[u8]) -> Option<usize>
    ensures { result ≡ position (λ b. b == 10) bytes.now }
{
    bytes.iter().position(|b| *b == b'\n')
}

/// The line of the version at the front of the text, with its line feed, and what follows it.
pub fn line_at(version: Version, text: &[u8]) -> Option<(Line, &[u8])>
    ensures { MatchOption result (NoLine version text.now) (λ x. BeginsLine version text.now x.0 x.1.now) }
{
    match end_of(text) {
        None => None,
        Some(end) => {
            let (line, rest) = text.split_at(end);
            match words(version, line) {
                None => None,
                Some(line) => Some((line, &rest[1..])),
            }
        }
    }
}
