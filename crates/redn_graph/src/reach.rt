//! The blocks that can be reached.

ghost use Rattle.std.specs.Prelude.{◌≡◌, ℕ, ◌<◌, ◌≤◌, ◌^◌, List, [], length, replicate, IfOk, OnOk};
ghost use Rattle.redn_graph.specs.Finding.{IsFound, Numbered, Renamed, TargetsThere, EachThere, Kept};
ghost use Rattle.redn_graph.specs.Idle.{past_idle, passed};
ghost use Rattle.redn_graph.specs.Reached.{renumbered};
ghost use Rattle.redn_graph.specs.Words.{test_end};

use crate::build::test;
use crate::idle::past_idle;
use crate::types::{Block, End, Graph};
use redn_kernel::Cell;
use redn_words::Memory;
use sqlite_items::Items;
use std::alloc::Global;

/// Blocks in the order in which they were found, and the number that each has by it. A block that
/// wasn't found has the number of all blocks.
#[derive(Debug, Drop)]
pub struct Found {
    pub numbers: Vec<u32>,
    pub order: Vec<u32>,
}

impl Found {
    /// None of so many blocks was found yet.
    fn new(alloc: Global, count: u32) -> Result<Found, Memory>
        ensures numbers { IfOk result (λ f. f.numbers.items ≡ replicate count count) }
        ensures order { IfOk result (λ f. f.order.items ≡ []) }
    {
        let mut numbers = Vec::new(alloc);
        for _i in 0..count {
            numbers.push(count)?;
        }
        let order = Vec::new(alloc);
        Ok(Found { numbers, order })
    }

    /// The number of a block, which is the next one where it wasn't found before.
    fn number(&mut self, block: u32) -> Result<u32, Memory>
        requires found { IsFound self.old }
        requires there { block < length self.old.numbers.items }
        ensures found { OnOk result (IsFound self.new) }
        ensures numbered { IfOk result (λ l. Numbered self.old self.new block l) }
    {
        let known = self.numbers[block as usize];
        if (known as usize) < self.numbers.len() {
            return Ok(known);
        }
        let number = self.order.len() as u32;
        self.numbers[block as usize] = number;
        self.order.push(block)?;
        Ok(number)
    }

    /// The number of the block to which one leads, past those that do nothing.
    fn number_past(&mut self, all: &[Block], block: u32) -> Result<u32, Memory>
        requires found { IsFound self.old }
        requires size { length self.old.numbers.items ≡ length all.now }
        requires each { EachThere all.now }
        requires there { block < length all.now }
        ensures found { OnOk result (IsFound self.new) }
        ensures numbered { IfOk result (λ l. Numbered self.old self.new (past_idle all.now block) l) }
    {
        self.number(past_idle(all, block))
    }

    /// A test whose sides lead past blocks that do nothing, by new numbers.
    fn test(
        &mut self,
        all: &[Block],
        wide: bool,
        left: Cell,
        right: Cell,
        yes: u32,
        no: u32,
    ) -> Result<End, Memory>
        requires found { IsFound self.old }
        requires size { length self.old.numbers.items ≡ length all.now }
        requires each { EachThere all.now }
        requires there { yes < length all.now }
        requires there_too { no < length all.now }
        ensures found { OnOk result (IsFound self.new) }
        ensures renamed { IfOk result (λ now. Renamed self.old self.new (test_end wide left right (past_idle all.now yes) (past_idle all.now no)) now) }
    {
        let yes = self.number_past(all, yes)?;
        let no = self.number_past(all, no)?;
        Ok(test(wide, left, right, yes, no))
    }

    /// An end that leads past blocks that do nothing, with the new numbers of its targets.
    fn end(&mut self, alloc: Global, all: &[Block], end: &End) -> Result<End, Memory>
        requires found { IsFound self.old }
        requires size { length self.old.numbers.items ≡ length all.now }
        requires each { EachThere all.now }
        requires there { TargetsThere (length all.now) end.now }
        ensures found { OnOk result (IsFound self.new) }
        ensures renamed { IfOk result (λ now. Renamed self.old self.new (renumbered (past_idle all.now) end.now) now) }
    {
        match end {
            End::Jump { to } => {
                let to = self.number_past(all, *to)?;
                Ok(End::Jump { to })
            }
            End::Test48 {
                left,
                right,
                yes,
                no,
            } => self.test(all, false, *left, *right, *yes, *no),
            End::Test64 {
                left,
                right,
                yes,
                no,
            } => self.test(all, true, *left, *right, *yes, *no),
            End::Probe {
                to,
                table,
                offset,
                key,
                hit,
                miss,
            } => {
                let hit = self.number_past(all, *hit)?;
                let miss = self.number_past(all, *miss)?;
                Ok(End::Probe {
                    to: *to,
                    table: *table,
                    offset: *offset,
                    key: *key,
                    hit,
                    miss,
                })
            }
            End::Reply { words } => {
                let words = Items::from_slice(alloc, words.as_slice())?;
                Ok(End::Reply { words })
            }
        }
    }
}

/// The blocks that can be reached and do something, numbered as they are found from the entry on.
pub fn reached(alloc: Global, g: &Graph) -> Result<Graph, Memory>
    requires few { length g.now.blocks < 2 ^ 32 }
    requires entry { g.now.entry < length g.now.blocks }
    requires there { EachThere g.now.blocks }
    ensures { IfOk result (λ h. Kept (passed g.now) h) }
{
    let all = g.blocks.as_slice();
    let mut found = Found::new(alloc, all.len() as u32)?;
    found.number_past(all, g.entry)?;
    let mut blocks = Items::new(alloc);
    while blocks.len() < found.order.len() {
        let block = &all[found.order[blocks.len()] as usize];
        let end = found.end(alloc, all, &block.end)?;
        let instrs = Items::from_slice(alloc, block.instrs.as_slice())?;
        blocks.push(Block { instrs, end })?;
    }
    Ok(Graph {
        blocks,
        entry: 0,
        hidden: g.hidden,
    })
}
