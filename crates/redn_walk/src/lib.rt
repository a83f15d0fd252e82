//! A walk as smaller statements.
#![tactic(auto)]

ghost use Rattle.std.specs.Prelude.{◌≡◌, ℕ, List, IfOk};
ghost use Rattle.redn_kernel.specs.declared.types.Word.{Word};
ghost use Rattle.redn_kernel.specs.Source.{value_of};
ghost use Rattle.redn_kernel.specs.Becomes.{Becomes};
ghost use Rattle.redn_kernel.specs.Composes.{Composes};
ghost use Rattle.redn_kernel.specs.Found.{LeaveFound, nodes};
ghost use Rattle.redn_kernel.specs.Uses.{AllBelow};
ghost use Rattle.redn_walk.specs.Walk.{IsWalk, step_of, turn_of, miss_of, leave_of, body_of, cores_of};

use redn_kernel::{Cell, Core, Kernel, Word, cell_for};
use redn_words::Memory;
use sqlite_items::Items;
use std::alloc::Global;

/// The hidden word with the offset of a node.
const AT: Cell = Cell::Hidden(0);

/// The hidden word that counts nodes.
const NODES: Cell = Cell::Hidden(1);

/// Leaves the loop.
fn leave(alloc: Global) -> Result<Items<Core>, Memory>
    ensures { IfOk result (λ cores. cores ≡ leave_of) }
{
    let mut cores = Items::new(alloc);
    cores.push(Core::Leave)?;
    Ok(cores)
}

/// On to the next node, if there is one: its offset is behind the value, and 0 ends the list.
fn step(alloc: Global, table: u16) -> Result<Items<Core>, Memory>
    ensures { IfOk result (λ cores. cores ≡ step_of table) }
{
    let mut cores = Items::new(alloc);
    cores.push(Core::Add {
        to: AT,
        by: Cell::Num(16),
    })?;
    cores.push(Core::Load {
        to: AT,
        table,
        offset: AT,
    })?;
    let yes = leave(alloc)?;
    cores.push(Core::If {
        wide: true,
        left: AT,
        right: Cell::Num(0),
        yes,
        no: Items::new(alloc),
    })?;
    Ok(cores)
}

/// What to do where a node has another key: on, unless it was the last that may be looked at.
fn miss(alloc: Global, table: u16, count: u16) -> Result<Items<Core>, Memory>
    ensures { IfOk result (λ cores. cores ≡ miss_of table count) }
{
    let mut cores = Items::new(alloc);
    cores.push(Core::Add {
        to: NODES,
        by: Cell::Num(1),
    })?;
    let yes = leave(alloc)?;
    let no = step(alloc, table)?;
    cores.push(Core::If {
        wide: false,
        left: NODES,
        right: Cell::Num(u64::from(count)),
        yes,
        no,
    })?;
    Ok(cores)
}

/// The look at a node.
fn body(alloc: Global, to: u16, table: u16, key: Word, count: u16) -> Result<Items<Core>, Memory>
    ensures { IfOk result (λ cores. cores ≡ body_of to table key count) }
{
    let mut cores = Items::new(alloc);
    let hit = leave(alloc)?;
    let miss = miss(alloc, table, count)?;
    cores.push(Core::Probe {
        to: Cell::Var(to),
        table,
        offset: AT,
        key: cell_for(key),
        hit,
        miss,
    })?;
    Ok(cores)
}

/// Those of a walk.
fn cores(
    alloc: Global,
    to: u16,
    table: u16,
    offset: Word,
    key: Word,
    count: u16,
) -> Result<Items<Core>, Memory>
    ensures { IfOk result (λ cores. cores ≡ cores_of to table offset key count) }
{
    let mut cores = Items::new(alloc);
    cores.push(Core::Move {
        to: AT,
        from: cell_for(offset),
    })?;
    cores.push(Core::Move {
        to: NODES,
        from: Cell::Num(0),
    })?;
    let body = body(alloc, to, table, key, count)?;
    cores.push(Core::Loop { body })?;
    Ok(cores)
}

/// Core statements that do what a walk over at least one node does. Hidden word 0 has the offset of
/// the node that is looked at, hidden word 1 counts nodes, and no other is used.
pub fn walk_core(alloc: Global, s: &Kernel) -> Result<Items<Core>, Memory>
    requires { IsWalk s.now }
    ensures same { IfOk result (λ cores. Becomes s.now cores) }
    ensures composes { IfOk result (λ cores. Composes s.now cores) }
    ensures cores { IfOk result (λ cores. (to table : ℕ) (offset key : Word) (nodes : ℕ) →
        s.now ≡ Kernel.Walk to table offset key nodes → cores ≡ cores_of to table offset key nodes) }
    ensures hidden { IfOk result (λ cores. AllBelow 2 cores) }
    ensures finds { IfOk result (λ cores. (to table : ℕ) (offset key : Word) (count : ℕ) →
        s.now ≡ Kernel.Walk to table offset key count →
        LeaveFound to table key (λ tables vars. nodes tables table count (value_of vars offset)) cores) }
{
    let Kernel::Walk {
        to,
        table,
        offset,
        key,
        nodes,
    } = s
    else {
        unreachable!()
    };
    cores(alloc, *to, *table, *offset, *key, *nodes)
}
