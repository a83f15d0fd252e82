//! The listing of an image.

ghost use Rattle.std.specs.Prelude.{◌≡◌, ◌+◌, ◌*◌, ◌<◌, ◌≤◌, ◌++◌, ◌/◌, ◌%◌, ◌&&◌, ◌||◌, ◌==◌, ℕ, List, IfOk, OnOk, length, codes, nat_le, nat_lt, All, false};
ghost use Rattle.std.proofs.Common.{get_or};
ghost use Rattle.std.specs.List.{flat_map, list_any};
ghost use Rattle.hex.specs.Hex.{encode_lower};
ghost use Rattle.redn_words.specs.Words.{spelled};
ghost use Rattle.redn_image.specs.Rules.{Obeys, kind_number, queue_numbers, region_numbers, table_number};
ghost use Rattle.redn_disasm.specs.Fields.{kind_word, op_word, order_word};
ghost use Rattle.redn_disasm.specs.Listing.{IsListing, IsRing, data_line, data_of, data_text, field, flat_below, flat_from, lies_in, listing_text, memory_line, queue_line, receive_line, region_line, slot_line, slot_of, slots_text};

use byteorder::{BigEndian, ByteOrder};
use hex::encode_to_slice;
use itoa::Buffer;
use redn_image::Image;
use redn_words::{Kind, Memory, Opcode, QueueRow, Receive, Region, Request, word_at};
use redn_wqe::{decode, opcode};
use std::alloc::Global;

/// Adds a number behind a space.
fn put_field(out: &mut Vec<u8>, n: u64) -> Result<(), Memory>
    ensures { OnOk result (out.new.items ≡ out.old.items ++ field n) }
{
    let mut buffer = Buffer::new();
    out.extend_from_slice(b" ")?;
    out.extend_from_slice(buffer.format(n).as_bytes())?;
    Ok(())
}

/// Adds a word behind a space.
fn put_word(out: &mut Vec<u8>, word: &[u8]) -> Result<(), Memory>
    ensures { OnOk result (out.new.items ≡ out.old.items ++ (codes " " ++ word.now)) }
{
    out.extend_from_slice(b" ")?;
    out.extend_from_slice(word)?;
    Ok(())
}

/// The word of a kind.
#[tactic(auto, unfolding(crate::specs::Fields::kind_word))]
fn word_of_kind(kind: Kind) -> &'static [u8]
    ensures { result.now ≡ kind_word (kind_number kind) }
{
    match kind {
        Kind::Vars => b"vars",
        Kind::Table(_) => b"table",
        Kind::Code => b"code",
        Kind::Control => b"control",
        Kind::Message => b"message",
    }
}

/// The number of a kind's table, or 0.
fn table_of(kind: Kind) -> u64
    ensures { result ≡ table_number kind }
{
    match kind {
        Kind::Table(table) => u64::from(table),
        _ => 0,
    }
}

#[tactic(auto, unfolding(crate::specs::Listing::region_line))]
fn put_region(out: &mut Vec<u8>, r: &Region) -> Result<(), Memory>
    ensures { OnOk result (out.new.items ≡ out.old.items ++ region_line (region_numbers r.now)) }
{
    out.extend_from_slice(b"region")?;
    put_field(out, u64::from(r.key))?;
    put_field(out, u64::from(r.domain))?;
    put_word(out, word_of_kind(r.kind))?;
    put_field(out, table_of(r.kind))?;
    put_field(out, u64::from(r.rights))?;
    put_field(out, r.base)?;
    put_field(out, r.len)?;
    out.extend_from_slice(b"\n")?;
    Ok(())
}

fn put_regions(out: &mut Vec<u8>, rows: &[Region]) -> Result<(), Memory>
    ensures { OnOk result (out.new.items ≡
        out.old.items ++ flat_map (λ r. region_line (region_numbers r)) rows.now) }
{
    for row in rows {
        put_region(out, row)?;
    }
    Ok(())
}

/// The word of a queue's order.
#[tactic(auto, unfolding(crate::specs::Fields::order_word))]
fn word_of_order(q: &QueueRow) -> &'static [u8]
    ensures { result.now ≡ order_word (queue_numbers q.now).managed }
{
    if q.managed { b"managed" } else { b"ordinary" }
}

#[tactic(auto, unfolding(crate::specs::Listing::queue_line))]
fn put_queue(out: &mut Vec<u8>, k: u64, q: &QueueRow) -> Result<(), Memory>
    ensures { OnOk result (out.new.items ≡ out.old.items ++ queue_line k (queue_numbers q.now)) }
{
    out.extend_from_slice(b"queue")?;
    put_field(out, k)?;
    put_field(out, u64::from(q.domain))?;
    put_word(out, word_of_order(q))?;
    put_field(out, q.base)?;
    put_field(out, q.slots)?;
    put_field(out, q.limit)?;
    out.extend_from_slice(b"\n")?;
    Ok(())
}

fn put_queues(out: &mut Vec<u8>, rows: &[QueueRow]) -> Result<(), Memory>
    ensures { OnOk result (out.new.items ≡
        out.old.items ++ flat_from (λ k q. queue_line k (queue_numbers q)) 0 rows.now) }
{
    for (k, row) in rows.iter().enumerate() {
        put_queue(out, k as u64, row)?;
    }
    Ok(())
}

#[tactic(auto, unfolding(crate::specs::Listing::receive_line))]
fn put_receive(out: &mut Vec<u8>, k: u64, r: &Receive) -> Result<(), Memory>
    ensures { OnOk result (out.new.items ≡ out.old.items ++ receive_line k r.now) }
{
    out.extend_from_slice(b"receive")?;
    put_field(out, k)?;
    put_field(out, r.base)?;
    put_field(out, r.len)?;
    out.extend_from_slice(b"\n")?;
    Ok(())
}

fn put_receives(out: &mut Vec<u8>, rows: &[Receive]) -> Result<(), Memory>
    ensures { OnOk result (out.new.items ≡ out.old.items ++ flat_from receive_line 0 rows.now) }
{
    for (k, row) in rows.iter().enumerate() {
        put_receive(out, k as u64, row)?;
    }
    Ok(())
}

/// Adds the word of an opcode behind a space.
#[tactic(auto, unfolding(crate::specs::Fields::op_word, redn_words::specs::Requests::opcode_named))]
fn put_op(out: &mut Vec<u8>, r: &Request) -> Result<(), Memory>
    ensures { OnOk result (out.new.items ≡ out.old.items ++ (codes " " ++ op_word r.now.op)) }
{
    let word = match opcode(r) {
        Opcode::Noop => b"noop".as_slice(),
        Opcode::Write => b"write".as_slice(),
        Opcode::Read => b"read".as_slice(),
        Opcode::Cas => b"cas".as_slice(),
        Opcode::Add => b"add".as_slice(),
        Opcode::Send => b"send".as_slice(),
        Opcode::Wait => b"wait".as_slice(),
        Opcode::Enable => b"enable".as_slice(),
        Opcode::Undefined(number) => {
            let mut buffer = Buffer::new();
            out.extend_from_slice(b" ?")?;
            out.extend_from_slice(buffer.format(number).as_bytes())?;
            return Ok(());
        }
    };
    put_word(out, word)
}

#[tactic(auto, unfolding(crate::specs::Listing::slot_line))]
fn put_slot(out: &mut Vec<u8>, q: u64, i: u64, r: &Request) -> Result<(), Memory>
    ensures { OnOk result (out.new.items ≡ out.old.items ++ slot_line q i r.now) }
{
    out.extend_from_slice(b"slot")?;
    put_field(out, q)?;
    put_field(out, i)?;
    put_op(out, r)?;
    put_field(out, r.id)?;
    put_field(out, u64::from(r.lkey))?;
    put_field(out, u64::from(r.rkey))?;
    put_field(out, r.local)?;
    put_field(out, r.remote)?;
    put_field(out, r.length)?;
    put_field(out, r.first)?;
    put_field(out, r.second)?;
    put_field(out, r.flags)?;
    out.extend_from_slice(b"\n")?;
    Ok(())
}

/// The request in a slot of a ring.
fn slot_at(memory: &[u8], row: &QueueRow, index: u64) -> Request
    requires slot { index < row.now.slots }
    requires ring { row.now.base + 64 * row.now.slots ≤ length memory.now }
    ensures request { result ≡ slot_of memory.now row.now index }
{
    let at = (row.base + 64 * index) as usize;
    let mut slot = [0; 64];
    slot.copy_from_slice(&memory[at..at + 64]);
    decode(&slot)
}

/// The lines of a queue's slots.
fn put_slots(out: &mut Vec<u8>, memory: &[u8], k: u64, row: &QueueRow) -> Result<(), Memory>
    requires { row.now.base + 64 * row.now.slots ≤ length memory.now }
    ensures { OnOk result (out.new.items ≡ out.old.items ++ slots_text memory.now k row.now) }
{
    for i in 0..row.slots {
        put_slot(out, k, i, &slot_at(memory, row, i))?;
    }
    Ok(())
}

/// The lines of all slots.
fn put_rings(out: &mut Vec<u8>, memory: &[u8], rows: &[QueueRow]) -> Result<(), Memory>
    requires { All (IsRing (length memory.now)) rows.now }
    ensures { OnOk result (out.new.items ≡
        out.old.items ++ flat_from (slots_text memory.now) 0 rows.now) }
{
    for (k, row) in rows.iter().enumerate() {
        put_slots(out, memory, k as u64, row)?;
    }
    Ok(())
}

/// Marks the places of one ring, counted in slots.
fn mark_ring(marks: &mut [bool], first: usize, slots: usize)
    requires { first + slots ≤ length marks.old }
    ensures { (p : ℕ) → get_or marks.new p false ≡
        (get_or marks.old p false || (nat_le first p && nat_lt p (first + slots))) }
{
    for i in 0..slots {
        marks[first + i] = true;
    }
}

/// For each 64 bytes of memory, whether they lie in a ring.
fn ring_marks(alloc: Global, rows: &[QueueRow], size: usize) -> Result<Vec<bool>, Memory>
    requires { All (IsRing size) rows.now }
    ensures { IfOk result (λ marks. (p : ℕ) →
        get_or marks.items p false ≡ list_any (lies_in (64 * p)) rows.now) }
{
    let mut marks = vec![in alloc; false; size / 64]?;
    for row in rows {
        mark_ring(&mut marks, (row.base / 64) as usize, row.slots as usize);
    }
    Ok(marks)
}

#[tactic(auto, unfolding(crate::specs::Listing::data_line, redn_words::specs::Words::spelled))]
fn put_data(out: &mut Vec<u8>, offset: u64, w: u64) -> Result<(), Memory>
    ensures { OnOk result (out.new.items ≡ out.old.items ++ data_line offset w) }
{
    let mut bytes = [0; 8];
    BigEndian::write_u64(&mut bytes, w);
    let mut digits = [0; 16];
    let Ok(()) = encode_to_slice(bytes, &mut digits) else {
        unreachable!();
    };
    out.extend_from_slice(b"data")?;
    put_field(out, offset)?;
    put_word(out, &digits)?;
    out.extend_from_slice(b"\n")?;
    Ok(())
}

/// Whether a place of memory is marked.
fn is_marked(marks: &[bool], offset: u64) -> bool
    ensures { result ≡ get_or marks.now (offset / 64) false }
{
    marks.get((offset / 64) as usize).copied().unwrap_or(false)
}

/// The line of a word of memory, unless it is 0 or lies in a ring.
fn put_word_at(out: &mut Vec<u8>, memory: &[u8], offset: u64, in_ring: bool) -> Result<(), Memory>
    requires { offset + 8 ≤ length memory.now }
    ensures { OnOk result
        (out.new.items ≡ out.old.items ++ data_of memory.now offset in_ring) }
{
    match word_at(memory, offset) {
        Some(w) if w != 0 && !in_ring => put_data(out, offset, w),
        _ => Ok(()),
    }
}

/// The lines of the words that aren't 0 and lie in no ring.
fn put_words(
    alloc: Global,
    out: &mut Vec<u8>,
    memory: &[u8],
    rows: &[QueueRow],
) -> Result<(), Memory>
    requires { All (IsRing (length memory.now)) rows.now }
    ensures { OnOk result (out.new.items ≡ out.old.items ++
        flat_below (λ k. data_text rows.now memory.now (8 * k)) (length memory.now / 8)) }
{
    let marks = ring_marks(alloc, rows, memory.len())?;
    for k in 0..memory.len() as u64 / 8 {
        let offset = 8 * k;
        put_word_at(out, memory, offset, is_marked(&marks, offset))?;
    }
    Ok(())
}

/// The lines of an image.
#[tactic(auto, unfolding(crate::specs::Listing::listing_text))]
fn lines_of(alloc: Global, i: &Image) -> Result<Vec<u8>, Memory>
    ensures text { IfOk result (λ text. text.items ≡ listing_text i.now) }
    ensures obeys { OnOk result (Obeys i.now) }
    ensures bytes { OnOk result (All (λ b. b < 256) i.now.memory) }
{
    let mut out = Vec::from_slice(alloc, b"redn 1\nmemory")?;
    put_field(&mut out, i.memory.len() as u64)?;
    out.extend_from_slice(b"\n")?;
    put_regions(&mut out, &i.regions)?;
    put_queues(&mut out, &i.queues)?;
    put_receives(&mut out, &i.receives)?;
    put_rings(&mut out, &i.memory, &i.queues)?;
    put_words(alloc, &mut out, &i.memory, &i.queues)?;
    out.extend_from_slice(b"end\n")?;
    Ok(out)
}

/// The listing of an image.
pub fn listing(alloc: Global, i: &Image) -> Result<Vec<u8>, Memory>
    ensures { IfOk result (λ text. IsListing text.items i.now) }
{
    lines_of(alloc, i)
}
