//! The blocks of a chain.

ghost use Rattle.std.specs.Prelude.{List, ◌≡◌, ℕ, ◌+◌, ◌*◌, ◌<◌, ◌≤◌, ◌^◌, length, slice_get, IfOk, Some};
ghost use Rattle.redn_kernel.specs.declared.types.ChainInit.{ChainInit};
ghost use Rattle.redn_kernel.specs.Program.{IsSound, weight_of_all, chain_weight};
ghost use Rattle.redn_graph.specs.Code.{Takes};
ghost use Rattle.redn_graph.specs.Slots.{AreSmall, all_slots, tail_slots, tail_size};
ghost use Rattle.redn_kernel.specs.declared.types.TableInit.{TableInit};
ghost use Rattle.redn_graph.specs.Fits.{Things, FitsTail, FitsGraph, FitsChain};
ghost use Rattle.redn_graph.specs.Growth.{AllSound};
ghost use Rattle.redn_graph.specs.Follows.{Follows};
ghost use Rattle.redn_graph.specs.Hidden.{hidden_cells};
ghost use Rattle.redn_graph.specs.Finding.{FollowsIdly};
ghost use Rattle.redn_graph.specs.Idle.{NoneIdle};
ghost use Rattle.redn_graph.specs.Onward.{AllStop, IsAmong};
ghost use Rattle.redn_graph.specs.Reached.{EachReached};
ghost use Rattle.redn_graph.specs.Silence.{EqualUpToSilence};
ghost use Rattle.redn_graph.specs.Along.{IsBounded};

use crate::build::{Builder, Tail, before};
use crate::reach::reached;
use crate::types::{Graph, Instr};
use redn_kernel::{Cell, ChainInit, Program};
use redn_words::Memory;
use std::alloc::Global;

/// Arguments `i`, `i + 1` and so on, `count` of them, are taken before what follows.
fn takes(alloc: Global, i: u16, count: u16, tail: Tail) -> Result<Tail, Memory>
    requires { i + count ≤ 8 }
    ensures code { IfOk result (λ after. Takes i count tail after) }
    ensures slots { IfOk result (λ after. tail_slots after ≤ tail_slots tail + 19 * count) }
    ensures fits { IfOk result (λ after. (n : Things) → i + count ≤ n.vars → i + count ≤ n.args → FitsTail n tail → FitsTail n after) }
    ensures size { IfOk result (λ after. tail_size after ≤ tail_size tail + 10 * count) }
    ensures among { IfOk result (λ after. (n : ℕ) → IsAmong n tail → IsAmong n after) }
{
    if count == 0 {
        return Ok(tail);
    }
    let rest = takes(alloc, i + 1, count - 1, tail)?;
    let to = Cell::Var(i);
    let from = Cell::Argument(i);
    before(alloc, Instr::Move { to, from }, rest)
}

/// The blocks of a chain, also some that can't be reached. Block 0 is where a chain would be that
/// had nothing to do.
fn chain_graph(alloc: Global, chain: &ChainInit) -> Result<Graph, Memory>
    requires few { chain.now.args ≤ 8 }
    requires light { weight_of_all chain.now.body ≤ 4096 }
    requires some { 1 ≤ weight_of_all chain.now.body }
    requires sound { AllSound chain.now.body }
    ensures follows { IfOk result (λ g. FollowsIdly chain.now g) }
    ensures few { IfOk result (λ g. length g.blocks < 2 ^ 32) }
    ensures slots { IfOk result (λ g. all_slots g.blocks ≤ 64 * chain_weight chain.now) }
    ensures fits { IfOk result (λ g. (tables : List TableInit) → FitsChain tables chain.now g) }
    ensures hidden { IfOk result (λ g. g.hidden ≡ hidden_cells chain.now.body) }
    ensures small { IfOk result (λ g. AreSmall 65536 g.blocks) }
    ensures all_stop { IfOk result (λ g. AllStop g.blocks) }
{
    let mut builder = Builder::new(alloc)?;
    let body = builder.list(alloc, chain.body.as_slice(), Tail::To(0), 0)?;
    let first = takes(alloc, 0, chain.args, body)?;
    let entry = builder.label(first)?;
    let Builder { blocks, hidden } = builder;
    Ok(Graph {
        blocks,
        entry,
        hidden,
    })
}

/// The blocks of a chain of a program, which do what the chain does. Each of them can be reached,
/// and none does nothing but lead on.
pub fn graph(alloc: Global, p: &Program, chain: u16) -> Result<Graph, Memory>
    requires sound { IsSound p.now }
    requires there { chain < length p.now.chains }
    ensures follows { IfOk result (λ g. (c : ChainInit) → slice_get p.now.chains chain ≡ Some c → Follows c g) }
    ensures silence { IfOk result (λ g. (c : ChainInit) → slice_get p.now.chains chain ≡ Some c → EqualUpToSilence c g) }
    ensures bounded { IfOk result (λ g. (c : ChainInit) (f : Follows c g) → IsBounded c g f) }
    ensures slots { IfOk result (λ g. (c : ChainInit) → slice_get p.now.chains chain ≡ Some c → all_slots g.blocks ≤ 64 * chain_weight c) }
    ensures fits { IfOk result (λ g. (c : ChainInit) → slice_get p.now.chains chain ≡ Some c → FitsGraph p.now.tables c g) }
    ensures hidden { IfOk result (λ g. (c : ChainInit) → slice_get p.now.chains chain ≡ Some c → g.hidden ≡ hidden_cells c.body) }
    ensures small { IfOk result (λ g. AreSmall 65536 g.blocks) }
    ensures reached { IfOk result (λ g. EachReached g) }
    ensures none_idle { IfOk result (λ g. NoneIdle g.blocks) }
{
    let whole = chain_graph(alloc, &p.chains.as_slice()[chain as usize])?;
    reached(alloc, &whole)
}
