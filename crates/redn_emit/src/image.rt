//! The image of a program whose chains have become graphs.

ghost use Rattle.std.specs.Prelude.{◌≡◌, ◌+◌, ◌*◌, ◌<◌, ◌≤◌, ◌^◌, length, sum_by, IfOk};
ghost use Rattle.redn_kernel.specs.Program.{IsSound};
ghost use Rattle.redn_emit.specs.Layout as layout;
ghost use Rattle.redn_emit.specs.Placed as placed;
ghost use Rattle.redn_emit.specs.Placed.{IsPlaced};
ghost use Rattle.redn_emit.specs.Graphs.{AreGraphs, AllHaveWords};
ghost use Rattle.redn_emit.specs.Kept.{MOST, CanAllBePlaced};

use crate::chain::{ChainPlan, ChainRings, SLOT};
use crate::memory::memory_of;
use crate::rows::{queues_of, receives_of, regions_of};
use crate::table::tables_of;
use crate::words::graphs_words;
use redn_graph::Graph;
use redn_image::{Image, image_of_kept};
use redn_kernel::{ChainInit, Program};
use redn_words::Memory;
use std::alloc::Global;

/// The chains with their rings, which are numbered through all chains, behind the entry queues.
fn chains_of<'a>(
    alloc: Global,
    inits: &'a [ChainInit],
    graphs: &'a [Graph],
) -> Result<Vec<ChainRings<'a>>, Memory>
    requires few { length inits.now ≤ 16 }
    requires count { length graphs.now ≡ length inits.now }
    requires fit { CanAllBePlaced (length inits.now) inits.now graphs.now }
    ensures { IfOk result (λ v. v.items ≡ placed.chains_from (length inits.now) inits.now graphs.now) }
{
    let mut chains = Vec::new(alloc);
    let mut first = inits.len() as u32;
    for (init, graph) in inits.iter().zip(graphs) {
        chains.push(ChainRings::new(alloc, first, init, graph)?)?;
        first += graph.blocks.len() as u32;
    }
    Ok(chains)
}

/// How many slots the rings of some chains have.
fn slots_of(chains: &[ChainRings]) -> u64
    requires { length chains.now ≤ 16 }
    ensures slots { result ≡ sum_by (λ c. layout.code_slots c.rings) chains.now }
    ensures few { result ≤ 16 * MOST }
{
    let mut slots = 0;
    for chain in chains {
        slots += chain.slots();
    }
    slots
}

/// The chains one behind the other: their code from 0 on, and their words from a base on.
fn plans_of<'a>(
    alloc: Global,
    tables: u16,
    mut control_base: u64,
    chains: Vec<ChainRings<'a>>,
) -> Result<Vec<ChainPlan<'a>>, Memory>
    requires few { length chains.items ≤ 16 }
    requires few_tables { tables ≤ 64 }
    requires base { control_base < 2 ^ 39 }
    ensures { IfOk result (λ v. v.items ≡ placed.plans_from tables 0 0 control_base chains.entry.items) }
{
    let mut plans = Vec::new(alloc);
    let mut code_base = 0;
    let mut number = 0;
    for chain in chains {
        let slots = chain.slots();
        let plan = ChainPlan::new(alloc, tables, number, code_base, control_base, chain)?;
        code_base += SLOT * slots;
        control_base += plan.data_len();
        number += 1;
        plans.push(plan)?;
    }
    Ok(plans)
}

/// The bytes of the words of some chains.
fn words_len(plans: &[ChainPlan]) -> u64
    requires { length plans.now ≤ 16 }
    ensures len { result ≡ sum_by layout.data_len plans.now }
    ensures few { result ≤ 2 ^ 30 }
    ensures hidden { sum_by (λ c. c.hidden) plans.now ≤ 65535 * length plans.now }
{
    let mut len = 0;
    for plan in plans {
        len += plan.data_len();
    }
    len
}

/// The image of a program, where each chain has become the graph of the same place: the rings of its
/// blocks with laps, each draft as a request, and all that they read and write.
pub fn emit(alloc: Global, p: &Program, graphs: &[Graph]) -> Result<Image, Memory>
    requires sound { IsSound p.now }
    requires graphs { AreGraphs p.now graphs.now }
    ensures placed { IfOk result (λ i. IsPlaced p.now graphs.now i) }
    ensures words { AllHaveWords graphs.now }
{
    graphs_words(graphs);
    let chains = chains_of(alloc, p.chains.as_slice(), graphs)?;
    let entries_base = SLOT * slots_of(&chains);
    let data_base = entries_base + 2 * SLOT * chains.len() as u64;
    let plans = plans_of(alloc, p.tables.len() as u16, data_base, chains)?;
    let tables_base = data_base + words_len(&plans);
    let tables = tables_of(alloc, tables_base, p.tables.as_slice())?;
    let regions = regions_of(alloc, &plans, &tables)?;
    let queues = queues_of(alloc, entries_base, &plans)?;
    let receives = receives_of(alloc, &plans)?;
    let memory = memory_of(alloc, &plans, &tables, p.tables.as_slice())?;
    Ok(image_of_kept(regions, queues, receives, memory))
}
