ghost use Rattle.std.specs.Prelude.{◌≡◌, ℕ, ◌+◌, ◌*◌, ◌<◌, ◌≤◌, ◌^◌, ◌++◌, length, map, take, IfOk, OnOk};
ghost use Rattle.redn_graph.specs.Fits.{Things, FitsBlock, FitsInstr, FitsEnd};
ghost use Rattle.redn_graph.specs.Slots.{block_slots, instr_slots, end_slots};
ghost use Rattle.redn_segment.specs.Building.{drafts_of};
ghost use Rattle.redn_segment.specs.Effects.{first_slot};
ghost use Rattle.redn_block.specs.Blocks as blocks;
ghost use Rattle.redn_block.specs.Matches.{BlockFollows};

use crate::words::{end_words, instr_words};
use redn_cas::{probe_template, test48_template, test64_template};
use redn_graph::{Block, End, Instr};
use redn_move::{
    add_template, jump_template, load_template, move_template, reply_template, set_template,
    store_template,
};
use redn_segment::{Ring, RingBuilder};
use redn_words::Memory;
use std::alloc::Global;

/// Appends an instruction.
fn push_instr(alloc: Global, b: &mut RingBuilder, instr: &Instr) -> Result<(), Memory>
    requires few { length (drafts_of b.old.segments) < 2 ^ 31 }
    requires fits { blocks.HasTarget instr.now }
    ensures { OnOk result (b.new ≡ record b.old { segments = b.old.segments ++ blocks.part_segments (first_slot b.old) (blocks.instr_part instr.now) }) }
{
    match *instr {
        Instr::Set { to, value } => set_template(alloc, b, to, value),
        Instr::Move { to, from } => move_template(alloc, b, to, from),
        Instr::Add { to, by } => add_template(alloc, b, to, by),
        Instr::Load { to, table, offset } => load_template(alloc, b, to, table, offset),
        Instr::Store {
            table,
            offset,
            from,
        } => store_template(alloc, b, table, offset, from),
    }
}

/// Appends an end, where the ring of block 0 has the number `first`.
fn push_end(alloc: Global, b: &mut RingBuilder, first: u32, end: &End) -> Result<(), Memory>
    requires few { length (drafts_of b.old.segments) < 2 ^ 31 }
    requires fits { blocks.EndFits (2 ^ 32) first end.now }
    ensures { OnOk result (b.new ≡ record b.old { segments = b.old.segments ++ blocks.part_segments (first_slot b.old) (blocks.end_part first end.now) }) }
{
    match end {
        End::Jump { to } => jump_template(alloc, b, first + *to),
        End::Test48 {
            left,
            right,
            yes,
            no,
        } => test48_template(alloc, b, *left, *right, first + *yes, first + *no),
        End::Test64 {
            left,
            right,
            yes,
            no,
        } => test64_template(alloc, b, *left, *right, first + *yes, first + *no),
        End::Probe {
            to,
            table,
            offset,
            key,
            hit,
            miss,
        } => probe_template(
            alloc,
            b,
            *to,
            *table,
            *offset,
            *key,
            first + *hit,
            first + *miss,
        ),
        End::Reply { words } => reply_template(alloc, b, words.as_slice()),
    }
}

/// The drafts of a block as the ring of that number, where the ring of block 0 has the number
/// `first`, and those of other blocks follow.
pub fn block_ring(alloc: Global, first: u32, ring: u32, block: &Block) -> Result<Ring, Memory>
    requires small { block_slots block.now ≤ 65536 }
    requires fits { blocks.BlockFits (2 ^ 32) first block.now }
    ensures ring { IfOk result (λ r. r.ring ≡ ring) }
    ensures segments { IfOk result (λ r. r.segments.items ≡ blocks.block_segments first ring block.now) }
    ensures words { IfOk result (λ r. blocks.BlockWords block.now) }
    ensures follows { IfOk result (λ r. BlockFollows first ring block.now) }
{
    let mut builder = RingBuilder::new(alloc, ring);
    for instr in block.instrs.as_slice() {
        instr_words(instr);
        push_instr(alloc, &mut builder, instr)?;
    }
    end_words(&block.end);
    push_end(alloc, &mut builder, first, &block.end)?;
    Ok(builder.finish())
}
