//! Blocks that do nothing but lead on.

ghost use Rattle.std.specs.Prelude.{◌≡◌, ◌<◌, length};
ghost use Rattle.redn_graph.specs.Finding.{EachThere};
ghost use Rattle.redn_graph.specs.Idle.{same_hidden, puts_back, only_puts_back, jump_of, idle_code, past_idle};

use crate::types::{Block, End, Instr};
use redn_kernel::Cell;

fn same_hidden(to: Cell, from: Cell) -> bool
    ensures { result ≡ same_hidden to from }
{
    match (to, from) {
        (Cell::Hidden(to), Cell::Hidden(from)) => to == from,
        _ => false,
    }
}

/// Whether an instruction puts a hidden cell's own word back.
fn puts_back(instr: Instr) -> bool
    ensures { result ≡ puts_back instr }
{
    match instr {
        Instr::Move { to, from } => same_hidden(to, from),
        _ => false,
    }
}

/// Whether that is all that some instructions do.
fn only_puts_back(instrs: &[Instr]) -> bool
    ensures { result ≡ only_puts_back instrs.now }
{
    match instrs {
        [instr] => puts_back(*instr),
        _ => false,
    }
}

/// Where a block leads that does nothing else.
fn idle_target(block: &Block) -> Option<u32>
    ensures { result ≡ idle_code block.now.instrs block.now.end }
{
    if !only_puts_back(block.instrs.as_slice()) {
        return None;
    }
    match block.end {
        End::Jump { to } => Some(to),
        _ => None,
    }
}

/// The block to which one leads, past those that do nothing.
pub fn past_idle(blocks: &[Block], from: u32) -> u32
    requires there { from < length blocks.now }
    requires each { EachThere blocks.now }
    ensures { result ≡ past_idle blocks.now from }
{
    let mut at = from;
    for _i in 0..blocks.len() {
        match idle_target(&blocks[at as usize]) {
            Some(to) => at = to,
            None => return at,
        }
    }
    at
}
