//! The image of a program.

ghost use Rattle.std.specs.Prelude.{◌≤◌, length, IfOk};
ghost use Rattle.redn_kernel.specs.Program.{IsSound};
ghost use Rattle.redn_image.specs.Faithful.{Faithful};
ghost use Rattle.redn_image.specs.Spelling.{spelling};
ghost use Rattle.redn_proof_interleave.specs.RingSides.{AllFollow};
ghost use Rattle.redn_emit.specs.Graphs.{AreGraphs};

use crate::numbers::has_numbers;
use redn_emit::emit;
use redn_graph::{Graph, graph};
use redn_image::Image;
use redn_kernel::Program;
use redn_proof_layout::emitted_are_faithful;
use redn_words::Memory;
use std::alloc::Global;

/// The graphs of a program's chains, in their order.
fn graphs_of(alloc: Global, p: &Program) -> Result<Vec<Graph>, Memory>
    requires { IsSound p.now }
    ensures graphs { IfOk result (λ v. AreGraphs p.now v.items) }
    ensures follow { IfOk result (λ v. AllFollow p.now.chains v.items) }
{
    let mut graphs = Vec::new(alloc);
    for chain in 0..p.chains.len() as u16 {
        graphs.push(graph(alloc, p, chain)?)?;
    }
    Ok(graphs)
}

/// The image of a program, which is faithful to it: whatever the messages and in whatever order
/// an adapter fetches, starts, lands and completes its requests, what is shown is a run of the
/// program. No file of an image is too long for `run`.
pub fn compile(alloc: Global, p: &Program) -> Result<Image, Memory>
    requires { IsSound p.now }
    ensures faithful { IfOk result (λ i. Faithful p.now i) }
    ensures small { IfOk result (λ i. length (spelling i) ≤ 33554432) }
{
    emitted_are_faithful();
    has_numbers(p);
    let graphs = graphs_of(alloc, p)?;
    emit(alloc, p, &graphs)
}
