//! Cuts a text into its tokens.

ghost use Rattle.std.specs.Prelude.{◌≡◌, ℕ, ◌+◌, ◌^◌, ◌<◌, ◌≤◌, true, false, List, [], ◌∷◌, ◌++◌, length, take, drop, IfOk, IfErr, OnOk, IsErrOf, MatchResult};
ghost use Rattle.redn_syntax.specs.declared.token.Token.{Token};
ghost use Rattle.redn_syntax.specs.Bytes as bytes;
ghost use Rattle.redn_syntax.specs.Tokens.{IsGap, Tokenizes};
ghost use Rattle.redn_lex.specs.Fronts.{BeginsSolid};
ghost use Rattle.redn_lex.specs.Faults.{IsBadByte, IsTooWide, IsFaultFrom, FollowsFrom, FailsWith, Gives};

use crate::fault::LexFault;
use crate::front::{Stop, first_token};
use redn_syntax::{Token, Tokens};
use std::alloc::Global;

/// Space, tab, carriage return or newline.
fn is_blank(b: u8) -> bool
    ensures { result ≡ bytes.is_blank b }
{
    b == b' ' || b == b'\t' || b == b'\r' || b == b'\n'
}

/// How many bytes of blanks and comments stand at the front.
fn gap_len(text: &[u8]) -> usize
    ensures within { result ≤ length text.now }
    ensures gap { result < length text.now → IsGap false (take result text.now) }
    ensures solid { result < length text.now → BeginsSolid (drop result text.now) }
    ensures end { length text.now ≤ result → IsGap true text.now }
{
    let mut in_comment = false;
    for (i, b) in text.iter().enumerate() {
        if in_comment {
            in_comment = *b != b'\n';
        } else if *b == b'#' {
            in_comment = true;
        } else if !is_blank(*b) {
            return i;
        }
    }
    text.len()
}

/// The next token of a text that stands at this place, or none at its end.
fn next_token(text: &[u8], place: u32) -> Result<Option<Token>, LexFault>
    requires { place + length text.now < 2 ^ 32 }
    ensures { MatchResult result (FollowsFrom place text.now) (IsFaultFrom place text.now) }
{
    let gap = gap_len(text);
    if gap == text.len() {
        return Ok(None);
    }
    let at = place + gap as u32;
    match first_token(&text[gap..]) {
        Ok(found) => Ok(Some(Token {
            kind: found.kind,
            at,
            len: found.len as u32,
            value: found.value,
        })),
        Err(Stop::Bad(len)) => Err(LexFault::BadByte {
            at: at + len as u32,
        }),
        Err(Stop::Wide) => Err(LexFault::NumberTooWide { at }),
    }
}

fn add(list: &mut Vec<Token>, token: Token) -> Result<(), LexFault>
    ensures ok { OnOk result (list.new.items ≡ list.old.items ++ token ∷ []) }
    ensures err { IfErr result (λ fault. fault ≡ LexFault.Memory) }
{
    list.push(token).map_err(|_| LexFault::Memory)
}

/// What stands behind this many bytes.
fn behind(text: &[u8], len: usize) -> &[u8]
    requires { len ≤ length text.now }
    ensures { result.now ≡ drop len text.now }
{
    &text[len..]
}

/// The tokens of a text.
fn tokens_of(alloc: Global, text: &[u8]) -> Result<Vec<Token>, LexFault>
    requires { length text.now < 2 ^ 32 }
    ensures { MatchResult result (λ list. Tokenizes text.now list.items) (IsFaultFrom 0 text.now) }
{
    let mut list = Vec::new(alloc);
    let mut rest = text;
    let mut place = 0;
    'tokens: while let Some(token) = next_token(rest, place)? {
        add(&mut list, token)?;
        let end = token.at + token.len;
        rest = behind(rest, (end - place) as usize);
        place = end;
    }
    Ok(list)
}

/// The tokens of a text, each with its place and its length, in order.
pub fn lex(alloc: Global, text: &[u8]) -> Result<Tokens, LexFault>
    requires { length text.now < 2 ^ 32 }

    ensures tokens { IfOk result (λ found.
        (found.text.items ≡ text.now) × Tokenizes text.now found.list.items) }
    ensures bad_byte { (at : ℕ) →
        IsErrOf result (LexFault.BadByte at) → IsBadByte text.now at }
    ensures number_too_wide { (at : ℕ) →
        IsErrOf result (LexFault.NumberTooWide at) → IsTooWide text.now at }

    // Unless memory runs out, the answer is the one that the text has.
    ensures has_tokens { (tokens : List Token) → Tokenizes text.now tokens →
        Gives result (λ found. found.list.items ≡ tokens) }
    ensures has_bad_byte { (at : ℕ) → IsBadByte text.now at →
        FailsWith result (LexFault.BadByte at) }
    ensures has_wide_number { (at : ℕ) → IsTooWide text.now at →
        FailsWith result (LexFault.NumberTooWide at) }
{
    let list = tokens_of(alloc, text)?;
    let text = Vec::from_slice(alloc, text).map_err(|_| LexFault::Memory)?;
    Ok(Tokens { text, list })
}
