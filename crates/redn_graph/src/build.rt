//! Blocks, from the last to the first.

ghost use Rattle.std.specs.Prelude.{◌≡◌, ◌≢◌, ℕ, true, false, ◌+◌, ◌*◌, ◌^◌, ◌<◌, ◌≤◌, List, [], ◌∷◌, ◌++◌, length, map, slice_get, IfOk, OnOk, Some, None};
ghost use Rattle.redn_kernel.specs.Program.{weight_of, weight_of_all, idles_of, is_idle_body, breaks_idly};
ghost use Rattle.redn_kernel.specs.CoreRun.{cell_of};
ghost use Rattle.redn_graph.specs.Words.{move_of, test_end, counts, counted};
ghost use Rattle.redn_graph.specs.Statements.{is_plain, is_search, DoesStatement};
ghost use Rattle.redn_graph.specs.Code.{Compiles, Precedes, Labels, Closes, IsOpen};
ghost use Rattle.redn_graph.specs.Cores.{cell_move, AllPlain, Continues};
ghost use Rattle.redn_graph.specs.CoreSizes.{taken_of_all, blocks_in, jump_needed, Made, ForkMade, RoundMade, IsSearch};
ghost use Rattle.redn_graph.specs.Slots.{SlotsWithin, Sized, AreSmall, instr_slots, block_slots, all_slots, tail_slots, tail_size};
ghost use Rattle.redn_graph.specs.Fits.{Things, IsCell, FitsInstr, FitsBlock, FitsTail, Fitted, IsWithin, IsWell, AllWell};
ghost use Rattle.redn_graph.specs.Idle.{puts_back, idle_code, idle_at};
ghost use Rattle.redn_graph.specs.Onward.{Works, tail_idle, LeadsOn};
ghost use Rattle.redn_graph.specs.Hidden.{repeats_in, repeats_in_all};
ghost use Rattle.redn_graph.specs.Listed.{Listed};
ghost use Rattle.redn_graph.specs.Growth.{IsRoomy, AllSound, IsSoundOne, Grown, Bound, IsFirst};

use crate::types::{Block, End, Instr};
use redn_kernel::{Cell, Core, Kernel, Word, cell_for};
use redn_lookup::lookup_core;
use redn_walk::walk_core;
use redn_words::Memory;
use sqlite_items::Items;
use std::alloc::Global;

/// What follows some code: a block with a number, or one that is still open at its front.
#[derive(Debug, Drop)]
pub enum Tail {
    To(u32),
    /// The instructions, the last one first.
    Open { instrs: Vec<Instr>, end: End },
}

/// A move of a word to a variable.
pub fn move_instr(to: u16, from: Word) -> Instr
    ensures { result ≡ move_of to from }
{
    let to = Cell::Var(to);
    match from {
        Word::Var(x) => Instr::Move {
            to,
            from: Cell::Var(x),
        },
        Word::Num(value) => Instr::Set { to, value },
    }
}

/// A move of a cell to a variable or hidden cell.
fn move_cell(to: Cell, from: Cell) -> Instr
    ensures { result ≡ cell_move to from }
{
    match from {
        Cell::Num(value) => Instr::Set { to, value },
        _ => Instr::Move { to, from },
    }
}

/// The instruction of a statement that is one.
fn plain(statement: &Kernel) -> Instr
    requires { is_plain statement.now ≡ true }
    ensures does { DoesStatement statement.now result }
    ensures fits { (n : Things) → IsWell n statement.now → FitsInstr n result }
    ensures works { puts_back result ≡ false }
{
    match statement {
        Kernel::Move { to, from } => move_instr(*to, *from),
        Kernel::Add { to, by } => Instr::Add {
            to: Cell::Var(*to),
            by: cell_for(*by),
        },
        Kernel::Load { to, table, offset } => Instr::Load {
            to: Cell::Var(*to),
            table: *table,
            offset: cell_for(*offset),
        },
        Kernel::Store {
            table,
            offset,
            from,
        } => Instr::Store {
            table: *table,
            offset: cell_for(*offset),
            from: cell_for(*from),
        },
        _ => unreachable!(),
    }
}

/// The cells of some words.
pub fn cells(alloc: Global, words: &[Word]) -> Result<Items<Cell>, Memory>
    ensures { IfOk result (λ cells. cells ≡ map cell_of words.now) }
{
    let mut cells = Items::new(alloc);
    for word in words {
        cells.push(cell_for(*word))?;
    }
    Ok(cells)
}

/// A test of 64 bits, or else of the low 48.
pub fn test(wide: bool, left: Cell, right: Cell, yes: u32, no: u32) -> End
    ensures { result ≡ test_end wide left right yes no }
{
    if wide {
        End::Test64 {
            left,
            right,
            yes,
            no,
        }
    } else {
        End::Test48 {
            left,
            right,
            yes,
            no,
        }
    }
}

/// An open block of an end alone.
pub fn open(alloc: Global, end: End) -> Tail
    ensures { IsOpen result [] end }
{
    Tail::Open {
        instrs: Vec::new(alloc),
        end,
    }
}

/// An open block of an instruction and an end.
pub fn open_with(alloc: Global, instr: Instr, end: End) -> Result<Tail, Memory>
    ensures { IfOk result (λ t. IsOpen t (instr ∷ []) end) }
{
    let mut instrs = Vec::new(alloc);
    instrs.push(instr)?;
    Ok(Tail::Open { instrs, end })
}

/// The end of a body that is done so many times in all, by a cell that counts.
pub fn again(alloc: Global, counter: u16, count: u32, out: u32, head: u32) -> Result<Tail, Memory>
    ensures { IfOk result (λ t. IsOpen t (counts counter ∷ []) (counted counter count out head)) }
{
    let to = Cell::Hidden(counter);
    let by = Cell::Num(1);
    let mut instrs = Vec::new(alloc);
    instrs.push(Instr::Add { to, by })?;
    let end = End::Test48 {
        left: to,
        right: Cell::Num(u64::from(count)),
        yes: out,
        no: head,
    };
    Ok(Tail::Open { instrs, end })
}

/// An instruction stands before what follows.
pub fn before(alloc: Global, instr: Instr, tail: Tail) -> Result<Tail, Memory>
    ensures code { IfOk result (λ after. Precedes instr tail after) }
    ensures slots { IfOk result (λ after. tail_slots after ≤ tail_slots tail + 19) }
    ensures fits { IfOk result (λ after. (n : Things) → FitsInstr n instr → FitsTail n tail → FitsTail n after) }
    ensures size { IfOk result (λ after. tail_size after ≤ tail_size tail + 10) }
    ensures works { IfOk result (λ after. puts_back instr ≡ false → Works after) }
    ensures continues { IfOk result (λ after. Continues instr tail after) }
    ensures exact { IfOk result (λ after. tail_slots after ≤ tail_slots tail + instr_slots instr + jump_needed tail) }
{
    match tail {
        Tail::To(to) => {
            let mut instrs = Vec::new(alloc);
            instrs.push(instr)?;
            let end = End::Jump { to };
            Ok(Tail::Open { instrs, end })
        }
        Tail::Open { mut instrs, end } => {
            instrs.push(instr)?;
            Ok(Tail::Open { instrs, end })
        }
    }
}

/// An instruction that does nothing.
const IDLE: Instr = Instr::Move {
    to: Cell::Hidden(0),
    from: Cell::Hidden(0),
};

/// The block that does what a tail does.
pub fn close(alloc: Global, tail: Tail) -> Result<Block, Memory>
    ensures code { IfOk result (λ block. Closes tail block) }
    ensures slots { IfOk result (λ block. block_slots block ≤ tail_slots tail + 14) }
    ensures fits { IfOk result (λ block. (n : Things) → 1 ≤ n.hidden → FitsTail n tail → FitsBlock n block) }
    ensures size { IfOk result (λ block. (most : ℕ) → 14 ≤ most → tail_size tail ≤ most → block_slots block ≤ most) }
    ensures idle { IfOk result (λ block. idle_code block.instrs block.end ≡ tail_idle tail) }
{
    match tail {
        Tail::To(to) => {
            let mut instrs = Items::new(alloc);
            instrs.push(IDLE)?;
            let end = End::Jump { to };
            Ok(Block { instrs, end })
        }
        Tail::Open { mut instrs, end } => {
            instrs.reverse();
            let instrs = Items::from_vec(instrs);
            Ok(Block { instrs, end })
        }
    }
}

/// The core statements of a look for a key in a table.
fn search_cores(alloc: Global, statement: &Kernel) -> Result<Items<Core>, Memory>
    requires sound { IsSoundOne statement.now }
    requires looks { is_search statement.now ≡ true }
    ensures { IfOk result (λ cores. IsSearch statement.now cores) }
{
    match statement {
        Kernel::Lookup { .. } => lookup_core(alloc, statement),
        Kernel::Walk { .. } => walk_core(alloc, statement),
        _ => unreachable!(),
    }
}

/// Blocks so far, and how many hidden cells they have.
#[derive(Debug, Drop)]
pub struct Builder {
    pub blocks: Items<Block>,
    pub hidden: u16,
}

impl Builder {
    /// Block 0 goes round for ever, as a chain does that has nothing to do.
    pub fn new(alloc: Global) -> Result<Builder, Memory>
        ensures { IfOk result (λ b. IsFirst b) }
    {
        let mut builder = Builder {
            blocks: Items::new(alloc),
            hidden: 2,
        };
        let first = builder.reserve(alloc)?;
        let round = open_with(
            alloc,
            Instr::Set {
                to: Cell::Hidden(0),
                value: 0,
            },
            End::Jump { to: first },
        )?;
        builder.bind(alloc, first, round)?;
        Ok(builder)
    }

    /// Adds a block.
    fn add(&mut self, block: Block) -> Result<u32, Memory>
        requires { length self.old.blocks < 2 ^ 32 }
        ensures number { IfOk result (λ l. l ≡ length self.old.blocks) }
        ensures blocks { OnOk result (self.new.blocks ≡ self.old.blocks ++ block ∷ []) }
        ensures hidden { self.new.hidden ≡ self.old.hidden }
    {
        let number = self.blocks.len() as u32;
        self.blocks.push(block)?;
        Ok(number)
    }

    /// The number of the block that does what a tail does.
    pub fn label(&mut self, tail: Tail) -> Result<u32, Memory>
        requires { length self.old.blocks < 2 ^ 32 }
        ensures labels { IfOk result (λ l. Labels self.old.blocks self.new.blocks tail l) }
        ensures slots { OnOk result (all_slots self.new.blocks ≤ all_slots self.old.blocks + tail_slots tail) }
        ensures blocks { OnOk result (length self.new.blocks ≤ length self.old.blocks + 1) }
        ensures more { OnOk result (length self.old.blocks ≤ length self.new.blocks) }
        ensures hidden { self.new.hidden ≡ self.old.hidden }
        ensures fits { IfOk result
            (λ l. (n : Things) → length self.new.blocks ≤ n.blocks → FitsTail n tail → Fitted n self.old.blocks self.new.blocks × (l < n.blocks)) }
        ensures small { OnOk result ((most : ℕ) → tail_size tail ≤ most → AreSmall most self.old.blocks → AreSmall most self.new.blocks) }
        ensures leads { IfOk result (λ l. (exit : ℕ) → LeadsOn self.old.blocks self.new.blocks exit tail (Tail.To l) true false) }
    {
        match tail {
            Tail::To(number) => Ok(number),
            Tail::Open { mut instrs, end } => {
                instrs.reverse();
                let instrs = Items::from_vec(instrs);
                let number = self.add(Block { instrs, end })?;
                Ok(number)
            }
        }
    }

    /// The number of a block that is still to come.
    fn reserve(&mut self, alloc: Global) -> Result<u32, Memory>
        requires { length self.old.blocks < 2 ^ 32 }
        ensures number { IfOk result (λ l. l ≡ length self.old.blocks) }
        ensures blocks { OnOk result ((b : _) × (self.new.blocks ≡ self.old.blocks ++ b ∷ [])) }
        ensures slots { OnOk result (all_slots self.new.blocks ≤ all_slots self.old.blocks + 13) }
        ensures hidden { self.new.hidden ≡ self.old.hidden }
        ensures small { OnOk result ((most : ℕ) → 13 ≤ most → AreSmall most self.old.blocks → AreSmall most self.new.blocks) }
        ensures works { OnOk result (idle_at self.new.blocks (length self.old.blocks) ≡ None) }
    {
        let instrs = Items::new(alloc);
        let words = Items::new(alloc);
        let end = End::Reply { words };
        let number = self.add(Block { instrs, end })?;
        Ok(number)
    }

    /// A block that was reserved does what a tail does.
    fn bind(&mut self, alloc: Global, head: u32, tail: Tail) -> Result<(), Memory>
        requires { head < length self.old.blocks }
        ensures bound { OnOk result (Bound self.old.blocks self.new.blocks head tail) }
        ensures slots { OnOk result (all_slots self.new.blocks ≤ all_slots self.old.blocks + tail_slots tail + 14) }
        ensures hidden { self.new.hidden ≡ self.old.hidden }
        ensures fits { OnOk result ((n : Things) → 1 ≤ n.hidden → FitsTail n tail → (b : _) → slice_get self.new.blocks head ≡ Some b → FitsBlock n b) }
        ensures small { OnOk result ((most : ℕ) → 14 ≤ most → tail_size tail ≤ most → AreSmall most self.old.blocks → AreSmall most self.new.blocks) }
        ensures idle { OnOk result (idle_at self.new.blocks head ≡ tail_idle tail) }
    {
        let block = close(alloc, tail)?;
        self.blocks.set(head as usize, block);
        Ok(())
    }

    /// Code for some core statements, before what follows them. A `Leave` leads to `exit`.
    #[cycle(cores)]
    fn cores(&mut self, alloc: Global, body: &[Core], tail: Tail, exit: u32) -> Result<Tail, Memory>
        requires room { length self.old.blocks + blocks_in (taken_of_all body.now) < 2 ^ 32 }
        requires plain { AllPlain body.now }
        ensures { IfOk result (λ after. Made self.old self.new exit tail body.now after) }
    {
        let Some((first, rest)) = body.split_first() else {
            return Ok(tail);
        };
        let behind = self.cores(alloc, rest, tail, exit)?;
        match first {
            Core::Move { to, from } => before(alloc, move_cell(*to, *from), behind),
            Core::Add { to, by } => before(alloc, Instr::Add { to: *to, by: *by }, behind),
            Core::Load { to, table, offset } => {
                let instr = Instr::Load {
                    to: *to,
                    table: *table,
                    offset: *offset,
                };
                before(alloc, instr, behind)
            }
            Core::If {
                wide,
                left,
                right,
                yes,
                no,
            } => {
                let (yes, no) = self.fork(alloc, yes.as_slice(), no.as_slice(), behind, exit)?;
                Ok(open(alloc, test(*wide, *left, *right, yes, no)))
            }
            Core::Loop { body } => {
                let head = self.round(alloc, body.as_slice(), behind)?;
                Ok(Tail::To(head))
            }
            Core::Leave => Ok(Tail::To(exit)),
            Core::Probe {
                to,
                table,
                offset,
                key,
                hit,
                miss,
            } => {
                let (hit, miss) = self.fork(alloc, hit.as_slice(), miss.as_slice(), behind, exit)?;
                let end = End::Probe {
                    to: *to,
                    table: *table,
                    offset: *offset,
                    key: *key,
                    hit,
                    miss,
                };
                Ok(open(alloc, end))
            }
        }
    }

    /// The blocks of two branches, before what follows both.
    #[cycle(cores)]
    fn fork(
        &mut self,
        alloc: Global,
        yes: &[Core],
        no: &[Core],
        tail: Tail,
        exit: u32,
    ) -> Result<(u32, u32), Memory>
        requires room { length self.old.blocks + (3 + blocks_in (taken_of_all yes.now) + blocks_in (taken_of_all no.now)) < 2 ^ 32 }
        requires plain { AllPlain yes.now }
        requires plain_too { AllPlain no.now }
        ensures { IfOk result (λ ends. ForkMade self.old self.new exit tail yes.now no.now ends.0 ends.1) }
    {
        let next = self.label(tail)?;
        let met = self.cores(alloc, yes, Tail::To(next), exit)?;
        let unmet = self.cores(alloc, no, Tail::To(next), exit)?;
        let yes = self.label(met)?;
        let no = self.label(unmet)?;
        Ok((yes, no))
    }

    /// The block at the front of a loop.
    #[cycle(cores)]
    fn round(&mut self, alloc: Global, body: &[Core], tail: Tail) -> Result<u32, Memory>
        requires room { length self.old.blocks + (2 + blocks_in (taken_of_all body.now)) < 2 ^ 32 }
        requires plain { AllPlain body.now }
        ensures { IfOk result (λ head. RoundMade self.old self.new tail body.now head) }
    {
        let out = self.label(tail)?;
        let head = self.reserve(alloc)?;
        let first = self.cores(alloc, body, Tail::To(head), out)?;
        self.bind(alloc, head, first)?;
        Ok(head)
    }

    /// Code for a look for a key in a table.
    fn search(&mut self, alloc: Global, statement: &Kernel, tail: Tail) -> Result<Tail, Memory>
        requires room { IsRoomy self.old (weight_of statement.now) }
        requires sound { IsSoundOne statement.now }
        requires looks { is_search statement.now ≡ true }
        ensures { IfOk result (λ after. (exit : ℕ) → Listed self.old self.new exit tail (statement.now ∷ []) after) }
    {
        let body = search_cores(alloc, statement)?;
        let next = self.label(tail)?;
        self.cores(alloc, body.as_slice(), Tail::To(next), next)
    }

    /// Code for some statements, before what follows them. A break leads to `exit`.
    #[cycle(code)]
    pub fn list(
        &mut self,
        alloc: Global,
        body: &[Kernel],
        tail: Tail,
        exit: u32,
    ) -> Result<Tail, Memory>
        requires room { IsRoomy self.old (weight_of_all body.now) }
        requires sound { AllSound body.now }
        ensures { IfOk result (λ after. Listed self.old self.new exit tail body.now after) }
    {
        let mut after = tail;
        for i in (0..body.len()).rev() {
            after = self.statement(alloc, &body[i], after, exit)?;
        }
        Ok(after)
    }

    #[cycle(code)]
    fn statement(
        &mut self,
        alloc: Global,
        statement: &Kernel,
        tail: Tail,
        exit: u32,
    ) -> Result<Tail, Memory>
        requires room { IsRoomy self.old (weight_of statement.now) }
        requires sound { IsSoundOne statement.now }
        ensures { IfOk result (λ after. Listed self.old self.new exit tail (statement.now ∷ []) after) }
    {
        match statement {
            Kernel::If {
                wide,
                left,
                right,
                yes,
                no,
            } => self.branch(
                alloc,
                *wide,
                *left,
                *right,
                yes.as_slice(),
                no.as_slice(),
                tail,
                exit,
            ),
            Kernel::Loop { body } => self.endless(alloc, body.as_slice(), tail),
            Kernel::Repeat { count, body } => self.counted(alloc, *count, body.as_slice(), tail),
            Kernel::Break => Ok(Tail::To(exit)),
            Kernel::Reply { words } => {
                let words = cells(alloc, words.as_slice())?;
                Ok(open(alloc, End::Reply { words }))
            }
            Kernel::Lookup { .. } => self.search(alloc, statement, tail),
            Kernel::Walk { .. } => self.search(alloc, statement, tail),
            _ => before(alloc, plain(statement), tail),
        }
    }

    #[cycle(code)]
    fn branch(
        &mut self,
        alloc: Global,
        wide: bool,
        left: Word,
        right: Word,
        yes: &[Kernel],
        no: &[Kernel],
        tail: Tail,
        exit: u32,
    ) -> Result<Tail, Memory>
        requires room { IsRoomy self.old (1 + weight_of_all yes.now + weight_of_all no.now) }
        requires sound { AllSound yes.now }
        requires sound_too { AllSound no.now }
        ensures { IfOk result (λ after. Listed self.old self.new exit tail (Kernel.If wide left right yes.now no.now ∷ []) after) }
    {
        let next = self.label(tail)?;
        let met = self.list(alloc, yes, Tail::To(next), exit)?;
        let unmet = self.list(alloc, no, Tail::To(next), exit)?;
        let yes = self.label(met)?;
        let no = self.label(unmet)?;
        Ok(open(alloc, test(wide, cell_for(left), cell_for(right), yes, no)))
    }

    #[cycle(code)]
    fn endless(&mut self, alloc: Global, body: &[Kernel], tail: Tail) -> Result<Tail, Memory>
        requires room { IsRoomy self.old (1 + weight_of_all body.now) }
        requires sound { AllSound body.now }
        ensures { IfOk result (λ after. (exit : ℕ) → Listed self.old self.new exit tail (Kernel.Loop body.now ∷ []) after) }
    {
        let out = self.label(tail)?;
        let head = self.reserve(alloc)?;
        let first = self.list(alloc, body, Tail::To(head), out)?;
        self.bind(alloc, head, first)?;
        Ok(Tail::To(head))
    }

    #[cycle(code)]
    fn counted(
        &mut self,
        alloc: Global,
        count: u32,
        body: &[Kernel],
        tail: Tail,
    ) -> Result<Tail, Memory>
        requires room { IsRoomy self.old (2 + weight_of_all body.now) }
        requires sound { AllSound body.now }
        ensures { IfOk result (λ after. (exit : ℕ) → Listed self.old self.new exit tail (Kernel.Repeat count body.now ∷ []) after) }
    {
        let out = self.label(tail)?;
        if count == 0 {
            return Ok(Tail::To(out));
        }
        let counter = self.hidden;
        self.hidden += 1;
        let head = self.reserve(alloc)?;
        let end = again(alloc, counter, count, out, head)?;
        let first = self.list(alloc, body, end, out)?;
        self.bind(alloc, head, first)?;
        let to = Cell::Hidden(counter);
        before(alloc, Instr::Set { to, value: 0 }, Tail::To(head))
    }
}
