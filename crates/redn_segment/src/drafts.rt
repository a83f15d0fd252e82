//! The drafts that templates are made of.

ghost use Rattle.std.specs.Prelude.{◌≡◌};
ghost use Rattle.redn_kernel.specs.declared.types.Cell.{Cell as SpecCell};
ghost use Rattle.redn_segment.specs.declared.types.Site.TheVariants as site;
ghost use Rattle.redn_segment.specs.Drafts as drafts;
ghost use Rattle.std.specs.Prelude.{IfOk};

use crate::types::{Draft, Field48, Segment, Site, SlotRef};
use redn_kernel::Cell;
use redn_words::{Memory, Opcode};
use std::alloc::Global;

/// The first words of a WRITE, a READ and a CAS with identifier 0.
pub const WRITE_WORD: u64 = 1 << 48;

pub const READ_WORD: u64 = 2 << 48;

pub const CAS_WORD: u64 = 3 << 48;

/// A segment of these drafts.
pub fn segment(alloc: Global, drafts: &[Draft]) -> Result<Segment, Memory>
    ensures { IfOk result (λ s. s ≡ drafts.now) }
{
    let drafts = Vec::from_slice(alloc, drafts)?;
    Ok(Segment { drafts })
}

/// `len` bytes of a slot from `byte` on.
pub fn field(slot: SlotRef, byte: u8, len: u8) -> Site
    ensures { result ≡ drafts.field slot byte len }
{
    Site::Field(Field48 { slot, byte, len })
}

/// Copies `length` bytes, from a byte of `from` on.
pub fn copy(from: Site, byte: u8, to: Site, length: u64) -> Draft
    ensures { result ≡ drafts.copy from byte to length }
{
    Draft {
        op: Opcode::Write,
        local: from,
        local_byte: byte,
        remote: to,
        remote_byte: 0,
        length,
        first: 0,
        second: 0,
    }
}

/// Reads a word of a table, whose offset is filled.
pub fn read_table(to: Site, table: u16) -> Draft
    ensures { result ≡ drafts.read_table to table }
{
    Draft {
        op: Opcode::Read,
        local: to,
        local_byte: 0,
        remote: Site::Table { table, offset: 0 },
        remote_byte: 0,
        length: 8,
        first: 0,
        second: 0,
    }
}

/// Adds a number; the old word goes to a scratch word.
pub fn add_to(scratch: u8, to: Site, number: u64) -> Draft
    ensures { result ≡ drafts.add_to scratch to number }
{
    Draft {
        op: Opcode::Add,
        local: Site::Scratch(scratch),
        local_byte: 0,
        remote: to,
        remote_byte: 0,
        length: 8,
        first: number,
        second: 0,
    }
}

/// Puts `new` in place of the word that it is filled with.
pub fn swap_in(scratch: u8, to: Site, new: u64) -> Draft
    ensures { result ≡ drafts.swap_in scratch to new }
{
    Draft {
        op: Opcode::Cas,
        local: Site::Scratch(scratch),
        local_byte: 0,
        remote: to,
        remote_byte: 0,
        length: 8,
        first: 0,
        second: new,
    }
}

/// Does nothing unless it is turned.
pub fn turnable(local: Site, remote: Site, length: u64, second: u64) -> Draft
    ensures { result ≡ drafts.turnable local remote length second }
{
    Draft {
        op: Opcode::Noop,
        local,
        local_byte: 0,
        remote,
        remote_byte: 0,
        length,
        first: 0,
        second,
    }
}

/// Clears the opcode of a slot.
pub fn clear(slot: SlotRef) -> Draft
    ensures { result ≡ drafts.clear slot }
{
    copy(Site::Cell(Cell::Num(0)), 0, field(slot, 0, 2), 2)
}

/// The low 48 bits of a word go into a slot's identifier.
pub fn fill_low(from: Site, slot: SlotRef) -> Draft
    ensures { result ≡ drafts.fill_low from slot }
{
    copy(from, 2, field(slot, 2, 6), 6)
}

/// The high 48 bits of a word go into a slot's identifier.
pub fn fill_high(from: Site, slot: SlotRef) -> Draft
    ensures { result ≡ drafts.fill_high from slot }
{
    copy(from, 0, field(slot, 2, 6), 6)
}

/// The low 48 bits of a word go into a slot's first operand.
pub fn compare_low(from: Site, slot: SlotRef) -> Draft
    ensures { result ≡ drafts.compare_low from slot }
{
    copy(from, 2, field(slot, 42, 6), 6)
}

/// The high 48 bits of a word go into a slot's first operand.
pub fn compare_high(from: Site, slot: SlotRef) -> Draft
    ensures { result ≡ drafts.compare_high from slot }
{
    copy(from, 0, field(slot, 42, 6), 6)
}

/// The descriptor of a ring goes into the operands of the last ENABLE.
pub fn choose(ring: u32, last: SlotRef) -> Draft
    ensures { result ≡ drafts.choose ring last }
{
    copy(Site::Descriptor(ring), 0, field(last, 40, 16), 16)
}
