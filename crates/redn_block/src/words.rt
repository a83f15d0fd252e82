//! What the types of numbers say of a block: each fits a word. Calls of these do nothing; they are
//! for contracts.

ghost use Rattle.redn_block.specs.Blocks.{IsWord, InstrWords, EndWords, BlockWords};
ghost use Rattle.std.specs.List.{All};

use redn_graph::{Block, End, Instr};
use redn_kernel::Cell;

/// The number of a cell fits a word.
fn cell_word(cell: &Cell)
    ensures { IsWord cell.now }
{
    match cell {
        Cell::Num(number) => {
            let _number = *number;
        }
        _ => {}
    }
}

/// So does each number of an instruction,
pub fn instr_words(instr: &Instr)
    ensures { InstrWords instr.now }
{
    match instr {
        Instr::Set { to: _, value } => {
            let _value = *value;
        }
        Instr::Move { to: _, from } => cell_word(from),
        Instr::Add { to: _, by } => cell_word(by),
        Instr::Load {
            to: _,
            table: _,
            offset,
        } => cell_word(offset),
        Instr::Store {
            table: _,
            offset,
            from,
        } => {
            cell_word(offset);
            cell_word(from);
        }
    }
}

fn cells_words(cells: &[Cell])
    ensures { All IsWord cells.now }
{
    for cell in cells {
        cell_word(cell);
    }
}

/// and each number of an end.
pub fn end_words(end: &End)
    ensures { EndWords end.now }
{
    match end {
        End::Jump { to: _ } => {}
        End::Test48 {
            left,
            right,
            yes: _,
            no: _,
        }
        | End::Test64 {
            left,
            right,
            yes: _,
            no: _,
        } => {
            cell_word(left);
            cell_word(right);
        }
        End::Probe {
            to: _,
            table: _,
            offset,
            key,
            hit: _,
            miss: _,
        } => {
            cell_word(offset);
            cell_word(key);
        }
        End::Reply { words } => cells_words(words.as_slice()),
    }
}

fn instrs_words(instrs: &[Instr])
    ensures { All InstrWords instrs.now }
{
    for instr in instrs {
        instr_words(instr);
    }
}

/// So does each number of a block.
pub fn block_words(block: &Block)
    ensures { BlockWords block.now }
{
    instrs_words(block.instrs.as_slice());
    end_words(&block.end);
}
