//! What the types of numbers say of graphs. Calls of these do nothing; they are for contracts.

ghost use Rattle.std.specs.List.{All};
ghost use Rattle.redn_block.specs.Blocks.{BlockWords};
ghost use Rattle.redn_emit.specs.Graphs.{HasWords, AllHaveWords};

use redn_block::block_words;
use redn_graph::{Block, Graph};

fn blocks_words(blocks: &[Block])
    ensures { All BlockWords blocks.now }
{
    for block in blocks {
        block_words(block);
    }
}

fn graph_words(graph: &Graph)
    ensures { HasWords graph.now }
{
    let _hidden = graph.hidden;
    blocks_words(graph.blocks.as_slice());
}

/// The numbers of some graphs fit words, and their counts of hidden cells 16 bits.
pub fn graphs_words(graphs: &[Graph])
    ensures { AllHaveWords graphs.now }
{
    for graph in graphs {
        graph_words(graph);
    }
}
