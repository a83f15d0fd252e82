//! The fields of a line, one after the other.

ghost use Rattle.std.specs.Prelude.{◌≡◌, ◌≢◌, ◌^◌, ◌<◌, ◌≤◌, ◌∷◌, ◌++◌, ℕ, List, IfNone, IfSome, codes, decimal, length};
ghost use Rattle.std.specs.List.{prefix_len};
ghost use Rattle.redn_disasm.specs.Assembly.{is_inside};
ghost use Rattle.redn_disasm.specs.Fields.{FieldsAre, IsRow, IsText, kind_word, op_word, order_word};
ghost use Rattle.redn_disasm.specs.Reading.{AllFit, IsField, name_word, names};
ghost use Rattle.redn_disasm.specs.declared.formats.Format.TheVariants as format;

use crate::formats::Format;
use byteorder::{BigEndian, ByteOrder};
use hex::decode_to_slice;
use redn_text::read_number;

/// How many bytes stand before the first space or newline.
pub fn field_len(text: &[u8]) -> usize
    ensures value { result ≡ prefix_len is_inside text.now }
    ensures within { result ≤ length text.now }
{
    text.iter()
        .take_while(|b| **b != b' ' && **b != b'\n')
        .count()
}

/// The field behind a space, and what stands behind it.
fn next_field(text: &[u8]) -> Option<(&[u8], &[u8])>
    ensures found { IfSome result (λ p. IsField text.now p.0.now p.1.now) }
    ensures none { IfNone result ((field behind : List ℕ) → ¬ IsField text.now field behind) }
{
    let Some((first, rest)) = text.split_first() else {
        return None;
    };
    if *first != b' ' {
        return None;
    }
    Some(rest.split_at(field_len(rest)))
}

/// How many words a format has.
fn name_count(format: Format) -> u64
    ensures { result ≡ names format }
{
    match format {
        Format::Kind => 5,
        Format::Order => 2,
        Format::Op => 8,
        _ => 0,
    }
}

/// The word of a value.
#[tactic(auto, unfolding(crate::specs::Fields::kind_word, crate::specs::Fields::order_word, crate::specs::Fields::op_word))]
fn name(format: Format, n: u64) -> &'static [u8]
    requires { n < names format }
    ensures { result.now ≡ name_word format n }
{
    match (format, n) {
        (Format::Kind, 0) => b"vars",
        (Format::Kind, 1) => b"table",
        (Format::Kind, 2) => b"code",
        (Format::Kind, 3) => b"control",
        (Format::Kind, _) => b"message",
        (Format::Order, 0) => b"ordinary",
        (Format::Order, _) => b"managed",
        (_, 0) => b"noop",
        (_, 1) => b"write",
        (_, 2) => b"read",
        (_, 3) => b"cas",
        (_, 4) => b"add",
        (_, 5) => b"send",
        (_, 6) => b"wait",
        _ => b"enable",
    }
}

/// The value whose word this is.
fn read_name(format: Format, text: &[u8]) -> Option<u64>
    ensures found { IfSome result (λ n. (n < names format) × (text.now ≡ name_word format n)) }
    ensures none { IfNone result ((n : ℕ) → n < names format → text.now ≢ name_word format n) }
{
    for n in 0..name_count(format) {
        if text == name(format, n) {
            return Some(n);
        }
    }
    None
}

/// The number of an opcode without a word, behind `?`.
#[tactic(auto, using(std::proofs::lemmas::Fmt::decimal_injective))]
fn read_other_op(text: &[u8]) -> Option<u64>
    ensures found { IfSome result (λ n. (8 ≤ n) × (n < 2 ^ 16) × (text.now ≡ 63 ∷ decimal n)) }
    ensures none { IfNone result ((n : ℕ) → 8 ≤ n → n < 2 ^ 16 → text.now ≢ 63 ∷ decimal n) }
{
    let Some((first, digits)) = text.split_first() else {
        return None;
    };
    if *first != b'?' {
        return None;
    }
    match read_number(digits) {
        Some(n) if n >= name_count(Format::Op) && n <= u64::from(u16::MAX) => Some(n),
        _ => None,
    }
}

/// The number of an opcode.
#[tactic(auto, using(crate::proofs::Opcodes::other_op, crate::proofs::Opcodes::no_op))]
fn read_op(text: &[u8]) -> Option<u64>
    ensures found { IfSome result (IsText format.Op text.now) }
    ensures none { IfNone result ((n : ℕ) → ¬ IsText format.Op text.now n) }
{
    match read_name(Format::Op, text) {
        Some(n) => Some(n),
        None => read_other_op(text),
    }
}

/// The word that 16 hexadecimal digits spell.
fn read_hex(text: &[u8]) -> Option<u64>
    ensures found { IfSome result (IsText format.Hex text.now) }
    ensures none { IfNone result ((n : ℕ) → ¬ IsText format.Hex text.now n) }
{
    let mut bytes = [0; 8];
    match decode_to_slice(text, &mut bytes) {
        Ok(()) => Some(BigEndian::read_u64(&bytes)),
        Err(_) => None,
    }
}

/// The value of a field.
#[tactic(auto, using(std::proofs::lemmas::Fmt::decimal_injective))]
fn read_field(format: Format, text: &[u8]) -> Option<u64>
    ensures found { IfSome result (IsText format text.now) }
    ensures none { IfNone result ((n : ℕ) → ¬ IsText format text.now n) }
{
    match format {
        Format::Number(most) => match read_number(text) {
            Some(n) if n <= most => Some(n),
            _ => None,
        },
        Format::Kind | Format::Order => read_name(format, text),
        Format::Op => read_op(text),
        Format::Hex => read_hex(text),
    }
}

/// The values of a line's fields, behind its first word.
fn read_fields<const N: usize>(text: &[u8], formats: &[Format; N]) -> Option<[u64; N]>
    ensures found { IfSome result (λ values. FieldsAre formats.now text.now values) }
    ensures none { IfNone result ((values : List ℕ) → ¬ FieldsAre formats.now text.now values) }
{
    let mut values = [0; N];
    let mut rest = text;
    for (i, format) in formats.iter().enumerate() {
        let Some((field, behind)) = next_field(rest) else {
            return None;
        };
        let Some(value) = read_field(*format, field) else {
            return None;
        };
        values[i] = value;
        rest = behind;
    }
    if rest == b"\n".as_slice() {
        Some(values)
    } else {
        None
    }
}

/// The values of a line's fields, where it begins with this word.
pub fn read_row<const N: usize>(line: &[u8], word: &[u8], formats: &[Format; N]) -> Option<[u64; N]>
    ensures found { IfSome result (λ values. IsRow word.now formats.now line.now values) }
    ensures fit { IfSome result (λ values. AllFit formats.now values) }
    ensures none { IfNone result ((values : List ℕ) → ¬ IsRow word.now formats.now line.now values) }
{
    let Some(rest) = line.strip_prefix(word) else {
        return None;
    };
    match read_fields(rest, formats) {
        Some(values) => Some(values),
        None => None,
    }
}
