//! The image of a listing.

ghost use Rattle.std.specs.Prelude.{◌≡◌, ◌+◌, ◌^◌, ◌<◌, map, IfErr, IfOk, MatchResult, length};
ghost use Rattle.redn_image.specs.Rules.{Image as Parts, numbers_of, queue_numbers};
ghost use Rattle.redn_disasm.specs.declared.assembler.ListFault.TheVariants as fault;
ghost use Rattle.redn_disasm.specs.Assembly.{Assembles, Begun, ComesTo, Filled, GivenRows, Made, all_places, no_rows};
ghost use Rattle.redn_text.specs.Texts.{lines_of};
ghost use Rattle.redn_disasm.specs.Going.{FillsNext, GoesOn, Refuses, SaysWhy};
ghost use Rattle.redn_disasm.specs.Listing.{IsListing};
ghost use Rattle.redn_disasm.specs.Reading.{numbers};

use crate::fields::read_row;
use crate::filling::read_memory;
use crate::formats::MEMORY;
use crate::holding::hold;
use crate::lines::is_filling;
use crate::rows::{Rows, add_row};
use redn_image::{Image, image_of_kept};
use redn_text::next_line;
use redn_words::Memory;
use std::alloc::{AllocError, Global};

/// Why a text is no listing: the first line that isn't the next one possible, counted from 1; a rule
/// that its rows break, with the first row that breaks it, or 0 for a rule of the header; or want of
/// memory.
#[derive(Clone, Copy, Debug, PartialEq, Eq)]
pub enum ListFault {
    Line { line: u64 },
    Rule { number: u8, index: u32 },
    Memory,
}

impl From<Memory> for ListFault {
    ghost use Rattle.std.specs.Prelude.{◌≡◌};
    ghost use Rattle.redn_disasm.specs.declared.assembler.ListFault.TheVariants.{Memory as OutOfMemory};

    ghost from_gives = { λ _ e. e ≡ OutOfMemory };

    fn from(_e: Memory) -> Self {
        ListFault::Memory
    }
}

impl From<AllocError> for ListFault {
    ghost use Rattle.std.specs.Prelude.{◌≡◌};
    ghost use Rattle.redn_disasm.specs.declared.assembler.ListFault.TheVariants.{Memory as OutOfMemory};

    ghost from_gives = { λ _ e. e ≡ OutOfMemory };

    fn from(_e: AllocError) -> Self {
        ListFault::Memory
    }
}

/// What is left of a text, and the number of its first line.
#[derive(Clone, Copy)]
pub struct Left<'a> {
    pub text: &'a [u8],
    pub line: u64,
}

/// The size of memory, from the first two lines.
fn read_size(text: &[u8]) -> Result<(u64, Left<'_>), ListFault>
    ensures read { IfOk result (λ p.
        GoesOn 1 Begun text.now p.1.line (GivenRows (no_rows p.0)) p.1.text.now) }
    ensures refused { IfErr result (Refuses 1 Begun text.now) }
{
    let Some((first, behind)) = next_line(text) else {
        return Err(ListFault::Line { line: 1 });
    };
    if first != b"redn 1\n".as_slice() {
        return Err(ListFault::Line { line: 1 });
    }
    let Some((second, rest)) = next_line(behind) else {
        return Err(ListFault::Line { line: 2 });
    };
    let Some(values) = read_row(second, b"memory", &MEMORY) else {
        return Err(ListFault::Line { line: 2 });
    };
    let [size] = values;
    Ok((
        size,
        Left {
            text: rest,
            line: 3,
        },
    ))
}

/// The rows of the lines up to the first that fills memory.
fn read_rows<'a>(
    alloc: Global,
    text: &'a [u8],
    first: u64,
    size: u64,
) -> Result<(Rows, Left<'a>), ListFault>
    requires { first + length text.now < 2 ^ 64 }
    ensures read { IfOk result (λ p.
        GoesOn first (GivenRows (no_rows size)) text.now p.1.line (GivenRows (numbers p.0)) p.1.text.now) }
    ensures fills { IfOk result (λ p. FillsNext p.1.text.now) }
    ensures refused { IfErr result (Refuses first (GivenRows (no_rows size)) text.now) }
{
    let mut rows = Rows {
        size,
        regions: Vec::new(alloc),
        queues: Vec::new(alloc),
        receives: Vec::new(alloc),
    };
    let mut rest = text;
    let mut line = first;
    while let Some((row, behind)) = next_line(rest) {
        if is_filling(row) {
            return Ok((rows, Left { text: rest, line }));
        }
        if !add_row(&mut rows, row)? {
            return Err(ListFault::Line { line });
        }
        rest = behind;
        line += 1;
    }
    Err(ListFault::Line { line })
}

/// An image with the requests and words of the lines behind its rows.
fn fill(image: Image, text: &[u8], first: u64) -> Result<Image, ListFault>
    requires { first + length text.now < 2 ^ 64 }
    ensures filled { IfOk result (λ i.
        ComesTo first (Filled (numbers_of image) (all_places 0 (map queue_numbers image.queues)) image.memory)
        (lines_of text.now) (Made (numbers_of i) i.memory)) }
    ensures refused { IfErr result (Refuses first
        (Filled (numbers_of image) (all_places 0 (map queue_numbers image.queues)) image.memory) text.now) }
{
    let Image {
        regions,
        queues,
        receives,
        mut memory,
    } = image;
    match read_memory(&mut memory, &queues, text, first) {
        Ok(()) => Ok(image_of_kept(regions, queues, receives, memory)),
        Err(fault) => Err(fault),
    }
}

/// The image that a listing means.
fn read_listing(alloc: Global, text: &[u8]) -> Result<Image, ListFault>
    ensures image { IfOk result (λ i. Assembles text.now (Made (numbers_of i) i.memory)) }
    ensures refused { IfErr result (SaysWhy text.now) }
{
    let (size, left) = match read_size(text) {
        Ok(read) => read,
        Err(fault) => return Err(fault),
    };
    let (rows, left) = match read_rows(alloc, left.text, left.line, size) {
        Ok(read) => read,
        Err(fault) => return Err(fault),
    };
    let image = match hold(alloc, rows) {
        Ok(image) => image,
        Err(fault) => return Err(fault),
    };
    match fill(image, left.text, left.line) {
        Ok(image) => Ok(image),
        Err(fault) => Err(fault),
    }
}

/// The image that a listing means: its rows where they keep the rules, its slots' requests and then
/// its words of memory, a later one over an earlier one.
pub fn assemble(alloc: Global, text: &[u8]) -> Result<Image, ListFault>
    ensures image { IfOk result (λ i. Assembles text.now (Made (numbers_of i) i.memory)) }
    ensures refused { IfErr result (SaysWhy text.now) }
    ensures back { (i : Parts) → IsListing text.now i →
        MatchResult result (λ j. j ≡ i) (λ e. e ≡ fault.Memory) }
{
    read_listing(alloc, text)
}
