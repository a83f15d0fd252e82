//! The lines behind all rows, which fill memory.

ghost use Rattle.std.specs.Prelude.{◌≡◌, ◌+◌, ◌^◌, ◌<◌, ◌≤◌, ◌++◌, ◌∷◌, ℕ, [], map, All, List, IfErr, IfOk, IfSome, IfNone, OnOk, length, codes};
ghost use Rattle.std.specs.Bool.{OnFalse, OnTrue};
ghost use Rattle.redn_words.specs.declared.types.Request.{Request as Fields};
ghost use Rattle.redn_words.specs.Requests.{encoded};
ghost use Rattle.redn_words.specs.Words.{with_bytes_at};
ghost use Rattle.redn_image.specs.Rules.{Numbers, queue_numbers};
ghost use Rattle.redn_disasm.specs.Assembly.{ComesTo, Filled, GivesWord, Made, Place, Progress, all_places, data_formats, places_from, slot_formats, slot_values};
ghost use Rattle.redn_text.specs.Texts.{lines_of};
ghost use Rattle.redn_disasm.specs.Fields.{IsRow};
ghost use Rattle.redn_disasm.specs.Going.{GoesOn, Refuses};
ghost use Rattle.redn_disasm.specs.Listing.{IsRing};

use crate::assembler::{Left, ListFault};
use crate::fields::read_row;
use crate::formats::{DATA, SLOT};
use redn_text::next_line;
use redn_words::{QueueRow, Request, put_word};
use redn_wqe::encode;

/// The queue, the index and the request of a slot's line.
fn slot_in(line: &[u8]) -> Option<(u64, u64, Request)>
    ensures found { IfSome result (λ p.
        IsRow (codes "slot") slot_formats line.now (slot_values p.0 p.1 p.2)) }
    ensures narrow { IfSome result (λ p. p.2.id < 2 ^ 48) }
    ensures none { IfNone result ((k i : ℕ) (r : Fields) →
        ¬ IsRow (codes "slot") slot_formats line.now (slot_values k i r)) }
{
    let Some(values) = read_row(line, b"slot", &SLOT) else {
        return None;
    };
    let [
        queue,
        index,
        op,
        id,
        lkey,
        rkey,
        local,
        remote,
        length,
        first,
        second,
        flags,
    ] = values;
    let request = Request {
        op: op as u16,
        id,
        lkey: lkey as u32,
        rkey: rkey as u32,
        local,
        remote,
        length,
        first,
        second,
        flags,
    };
    Some((queue, index, request))
}

/// Puts a request into memory.
fn put_slot(memory: &mut [u8], at: u64, request: &Request)
    requires narrow { request.now.id < 2 ^ 48 }
    requires inside { at + 64 ≤ length memory.old }
    ensures { memory.new ≡ with_bytes_at memory.old at (encoded request.now) }
{
    let slot = encode(request);
    memory[at as usize..at as usize + 64].copy_from_slice(&slot);
}

/// Puts the requests of a ring's lines into memory.
fn read_ring<'a>(
    memory: &mut [u8],
    k: u64,
    row: &QueueRow,
    text: &'a [u8],
    first: u64,
) -> Result<Left<'a>, ListFault>
    requires lines { first + length text.now < 2 ^ 64 }
    requires ring { IsRing (length memory.old) row.now }
    ensures read { IfOk result (λ left. (n : Numbers) (others : List Place) →
        GoesOn first (Filled n (places_from k row.now.base 0 row.now.slots ++ others) memory.old) text.now
        left.line (Filled n others memory.new) left.text.now) }
    ensures low { IfOk result (λ left. left.line + length left.text.now ≤ first + length text.now) }
    ensures refused { IfErr result (λ e. (n : Numbers) (others : List Place) →
        Refuses first (Filled n (places_from k row.now.base 0 row.now.slots ++ others) memory.old) text.now e) }
{
    let mut rest = text;
    let mut line = first;
    for i in 0..row.slots {
        let Some((slot, behind)) = next_line(rest) else {
            return Err(ListFault::Line { line });
        };
        let Some((queue, index, request)) = slot_in(slot) else {
            return Err(ListFault::Line { line });
        };
        if queue != k {
            return Err(ListFault::Line { line });
        }
        if index != i {
            return Err(ListFault::Line { line });
        }
        put_slot(memory, row.base + 64 * i, &request);
        rest = behind;
        line += 1;
    }
    Ok(Left { text: rest, line })
}

/// Puts the requests of all slots' lines into memory.
fn read_slots<'a>(
    memory: &mut [u8],
    rows: &[QueueRow],
    text: &'a [u8],
    first: u64,
) -> Result<Left<'a>, ListFault>
    requires lines { first + length text.now < 2 ^ 64 }
    requires rings { All (IsRing (length memory.old)) rows.now }
    ensures read { IfOk result (λ left. (n : Numbers) →
        GoesOn first (Filled n (all_places 0 (map queue_numbers rows.now)) memory.old) text.now
        left.line (Filled n [] memory.new) left.text.now) }
    ensures low { IfOk result (λ left. left.line + length left.text.now ≤ first + length text.now) }
    ensures refused { IfErr result (λ e. (n : Numbers) →
        Refuses first (Filled n (all_places 0 (map queue_numbers rows.now)) memory.old) text.now e) }
{
    let mut left = Left { text, line: first };
    for (k, row) in rows.iter().enumerate() {
        match read_ring(memory, k as u64, row, left.text, left.line) {
            Ok(next) => left = next,
            Err(fault) => return Err(fault),
        }
    }
    Ok(left)
}

/// The offset and the word of a data line.
fn word_in(line: &[u8]) -> Option<(u64, u64)>
    ensures found { IfSome result (λ p.
        IsRow (codes "data") data_formats line.now (p.0 ∷ p.1 ∷ [])) }
    ensures none { IfNone result ((offset w : ℕ) →
        ¬ IsRow (codes "data") data_formats line.now (offset ∷ w ∷ [])) }
{
    let Some(values) = read_row(line, b"data", &DATA) else {
        return None;
    };
    let [offset, word] = values;
    Some((offset, word))
}

/// Puts the word of a data line into memory, where the line is one of a word in memory.
fn put_line(memory: &mut [u8], line: &[u8]) -> bool
    ensures put { OnTrue result ((n : Numbers) → n.size ≡ length memory.old →
        GivesWord n memory.old line.now (Filled n [] memory.new)) }
    ensures none { OnFalse result ((n : Numbers) (after : Progress) → n.size ≡ length memory.old →
        ¬ GivesWord n memory.old line.now after) }
    ensures same { OnFalse result (memory.new ≡ memory.old) }
{
    let Some((offset, word)) = word_in(line) else {
        return false;
    };
    if offset % 8 != 0 {
        return false;
    }
    if !put_word(memory, offset, word) {
        return false;
    }
    true
}

/// Puts the words of the lines up to the last into memory.
fn read_words(memory: &mut [u8], text: &[u8], first: u64) -> Result<(), ListFault>
    requires lines { first + length text.now < 2 ^ 64 }
    ensures read { OnOk result ((n : Numbers) → n.size ≡ length memory.old →
        ComesTo first (Filled n [] memory.old) (lines_of text.now) (Made n memory.new)) }
    ensures refused { IfErr result (λ e. (n : Numbers) → n.size ≡ length memory.old →
        Refuses first (Filled n [] memory.old) text.now e) }
{
    let mut rest = text;
    let mut line = first;
    while let Some((row, behind)) = next_line(rest) {
        if !put_line(memory, row) {
            if row != b"end\n".as_slice() {
                return Err(ListFault::Line { line });
            }
            return match next_line(behind) {
                Some(_) => Err(ListFault::Line { line: line + 1 }),
                None => Ok(()),
            };
        }
        rest = behind;
        line += 1;
    }
    Err(ListFault::Line { line })
}

/// Puts the requests and words of the lines behind all rows into memory.
pub fn read_memory(
    memory: &mut [u8],
    rows: &[QueueRow],
    text: &[u8],
    first: u64,
) -> Result<(), ListFault>
    requires lines { first + length text.now < 2 ^ 64 }
    requires rings { All (IsRing (length memory.old)) rows.now }
    ensures read { OnOk result ((n : Numbers) → n.size ≡ length memory.old →
        ComesTo first (Filled n (all_places 0 (map queue_numbers rows.now)) memory.old)
        (lines_of text.now) (Made n memory.new)) }
    ensures refused { IfErr result (λ e. (n : Numbers) → n.size ≡ length memory.old →
        Refuses first (Filled n (all_places 0 (map queue_numbers rows.now)) memory.old) text.now e) }
{
    let left = match read_slots(memory, rows, text, first) {
        Ok(left) => left,
        Err(fault) => return Err(fault),
    };
    match read_words(memory, left.text, left.line) {
        Ok(()) => Ok(()),
        Err(fault) => Err(fault),
    }
}
