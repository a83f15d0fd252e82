//! The token at the front of a text that begins with no blank and no comment.

ghost use Rattle.std.specs.Prelude.{◌≡◌, ◌≢◌, ℕ, ◌<◌, ◌≤◌, ◌+◌, ◌*◌, ◌^◌, false, [], ◌∷◌, length, take, drop, IfOk, IfErr, MatchOption, MatchResult, IsTrue, slice_index};
ghost use Rattle.std.specs.List.{prefix_len, list_all};
ghost use Rattle.std.specs.Char.{is_digit, digit_value};
ghost use Rattle.std.specs.Option.{SomeIff};
ghost use Rattle.std.specs.Str.Parse.{digits_value};
ghost use Rattle.redn_syntax.specs.Bytes as bytes;
ghost use Rattle.redn_syntax.specs.Tokens.{spelling, IsWord, IsToken};
ghost use Rattle.redn_lex.specs.Fronts.{is_hexadecimal, PassesAt, IsFront, NumberBegins, BeginsSolid, StopsAt};

use redn_syntax::TokenKind;

const KEYWORDS: [TokenKind; 18] = [
    TokenKind::Table,
    TokenKind::Ro,
    TokenKind::Rw,
    TokenKind::Chain,
    TokenKind::Arg,
    TokenKind::Var,
    TokenKind::If,
    TokenKind::Else,
    TokenKind::Loop,
    TokenKind::Repeat,
    TokenKind::Break,
    TokenKind::Lookup,
    TokenKind::Key,
    TokenKind::Probes,
    TokenKind::Walk,
    TokenKind::Nodes,
    TokenKind::Reply,
    TokenKind::Serve,
];

/// The longest name.
const MAX_NAME: usize = 32;

/// A token: its kind, its length in bytes, and its value.
#[derive(Clone, Copy, Debug)]
pub struct Front {
    pub kind: TokenKind,
    pub len: usize,
    pub value: u64,
}

/// Why no token stands at the front: behind this many bytes no token goes on, or a number is above
/// 2^64 - 1.
#[derive(Clone, Copy, Debug)]
pub enum Stop {
    Bad(usize),
    Wide,
}

fn is_letter(b: u8) -> bool
    ensures { result ≡ bytes.is_letter b }
{
    b.is_ascii_lowercase() || b == b'_'
}

fn is_name_byte(b: u8) -> bool
    ensures { result ≡ bytes.is_name_byte b }
{
    is_letter(b) || b.is_ascii_digit()
}

/// The byte at this place, or 0 past the end.
fn byte_at(text: &[u8], at: usize) -> u8
    ensures { result ≡ slice_index text.now at }
{
    if at < text.len() { text[at] } else { 0 }
}

/// How many letters and digits stand at the front.
fn word_len(text: &[u8]) -> usize
    ensures { result ≡ prefix_len bytes.is_name_byte text.now }
{
    text.iter().take_while(|b| is_name_byte(**b)).count()
}

/// The keyword, or a name.
fn word_kind(word: &[u8]) -> TokenKind
    requires word { IsWord word.now }
    requires short { length word.now ≤ 32 }
    ensures { IsToken result word.now 0 }
{
    for kind in &KEYWORDS {
        if kind.spelling().as_bytes() == word {
            return *kind;
        }
    }
    TokenKind::Name
}

/// The keyword or the name at the front.
fn word(text: &[u8]) -> Result<Front, Stop>
    requires { IsTrue (bytes.is_letter (slice_index text.now 0)) }
    ensures { MatchResult result (λ f. IsFront text.now f.kind f.len f.value) (StopsAt text.now) }
{
    let len = word_len(text);
    if len > MAX_NAME {
        return Err(Stop::Bad(MAX_NAME));
    }
    Ok(Front {
        kind: word_kind(&text[..len]),
        len,
        value: 0,
    })
}

/// How many digits of the base stand at the front.
fn digits_len(text: &[u8], base: u32) -> usize
    requires low { 2 ≤ base }
    requires high { base ≤ 16 }
    ensures { result ≡ prefix_len (λ b. is_digit b base) text.now }
{
    text.iter()
        .take_while(|b| char::from(**b).is_digit(base))
        .count()
}

/// The value of one digit.
fn digit_of(b: u8, base: u32) -> u64
    requires low { 2 ≤ base }
    requires high { base ≤ 16 }
    requires digit { digit_value b < base }
    ensures { result ≡ digit_value b }
{
    u64::from(char::from(b).to_digit(base).unwrap_or(0))
}

/// A number with one more digit, where it fits.
fn raised(value: u64, base: u32, digit: u64) -> Option<u64>
    ensures { SomeIff result (value * base + digit < 2 ^ 64) (value * base + digit) }
{
    value.checked_mul(u64::from(base))?.checked_add(digit)
}

/// The value of digits, or the place of the digit at which it passes 2^64 - 1.
fn value_of(digits: &[u8], base: u32) -> Result<u64, usize>
    requires low { 2 ≤ base }
    requires high { base ≤ 16 }
    requires digits { IsTrue (list_all (λ b. is_digit b base) digits.now) }
    ensures value { IfOk result (λ value. value ≡ digits_value base digits.now) }
    ensures fits { IfOk result (λ value. value < 2 ^ 64) }
    ensures wide { IfErr result (λ n. PassesAt base digits.now n) }
{
    let mut value: u64 = 0;
    for (i, b) in digits.iter().enumerate() {
        let Some(sum) = raised(value, base, digit_of(*b, base)) else {
            return Err(i);
        };
        value = sum;
    }
    Ok(value)
}

fn is_hexadecimal(text: &[u8]) -> bool
    ensures { result ≡ is_hexadecimal text.now }
{
    byte_at(text, 0) == b'0'
        && byte_at(text, 1) == b'x'
        && char::from(byte_at(text, 2)).is_digit(16)
}

/// The number at the front, whose digits stand behind this many bytes.
fn number_behind(text: &[u8], skip: usize, base: u32) -> Result<Front, Stop>
    requires short { length text.now < 2 ^ 32 }
    requires digit { IsTrue (is_digit (slice_index text.now 0) 10) }
    requires begins { NumberBegins text.now skip base }
    ensures { MatchResult result (λ f. IsFront text.now f.kind f.len f.value) (StopsAt text.now) }
{
    let tail = &text[skip..];
    let count = digits_len(tail, base);
    let len = skip + count;
    let Ok(value) = value_of(&tail[..count], base) else {
        return Err(Stop::Wide);
    };
    if is_name_byte(byte_at(text, len)) {
        return Err(Stop::Bad(len));
    }
    Ok(Front {
        kind: TokenKind::Number,
        len,
        value,
    })
}

/// The number at the front.
fn number(text: &[u8]) -> Result<Front, Stop>
    requires short { length text.now < 2 ^ 32 }
    requires digit { IsTrue (is_digit (slice_index text.now 0) 10) }
    ensures { MatchResult result (λ f. IsFront text.now f.kind f.len f.value) (StopsAt text.now) }
{
    if is_hexadecimal(text) {
        number_behind(text, 2, 16)
    } else {
        number_behind(text, 0, 10)
    }
}

/// The mark of this one byte.
fn mark_of(b: u8) -> Option<TokenKind>
    ensures { MatchOption result ((kind : TokenKind) → spelling kind ≢ b ∷ [])
        (λ kind. spelling kind ≡ b ∷ []) }
{
    match b {
        b'{' => Some(TokenKind::OpenBrace),
        b'}' => Some(TokenKind::CloseBrace),
        b'[' => Some(TokenKind::OpenBracket),
        b']' => Some(TokenKind::CloseBracket),
        b';' => Some(TokenKind::Semicolon),
        b',' => Some(TokenKind::Comma),
        b':' => Some(TokenKind::Colon),
        b'=' => Some(TokenKind::Equals),
        b'~' => Some(TokenKind::Tilde),
        _ => None,
    }
}

/// The mark at the front.
fn mark(text: &[u8]) -> Result<Front, Stop>
    requires some { 0 < length text.now }
    requires other { bytes.is_name_byte (slice_index text.now 0) ≡ false }
    ensures { MatchResult result (λ f. IsFront text.now f.kind f.len f.value) (StopsAt text.now) }
{
    let (first, is_doubled) = (text[0], byte_at(text, 1) == b'=');
    if is_doubled && first == b'=' {
        return Ok(Front {
            kind: TokenKind::DoubleEquals,
            len: 2,
            value: 0,
        });
    }
    if is_doubled && first == b'+' {
        return Ok(Front {
            kind: TokenKind::PlusEquals,
            len: 2,
            value: 0,
        });
    }
    match mark_of(first) {
        Some(kind) => Ok(Front {
            kind,
            len: 1,
            value: 0,
        }),
        None => Err(Stop::Bad(0)),
    }
}

/// The token at the front, or why none stands there.
pub fn first_token(text: &[u8]) -> Result<Front, Stop>
    requires short { length text.now < 2 ^ 32 }
    requires solid { BeginsSolid text.now }
    ensures { MatchResult result (λ f. IsFront text.now f.kind f.len f.value) (StopsAt text.now) }
{
    let first = byte_at(text, 0);
    if is_letter(first) {
        word(text)
    } else if first.is_ascii_digit() {
        number(text)
    } else {
        mark(text)
    }
}
